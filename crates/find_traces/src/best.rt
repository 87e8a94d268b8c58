//! Searches with a limit. They keep no more keys than the limit: first those of the traces that start last, then, if
//! not all of these match, those of the best other matches.

ghost use Rattle.std.specs.Prelude.{◌≡◌, ◌++◌, ◌<◌, ◌≤◌, true, IfOk, OnOk, map, filter, length, take};
ghost use Rattle.std.specs.Bool.{OnTrue, OnFalse};
ghost use Rattle.std.specs.BTreeSet.{insert_key};
ghost use Rattle.find_traces.specs.FoundIndices.{indices_found};
ghost use Rattle.find_traces.specs.Keys.{reversed, reverse_key_index, reverse_key_cmp};
ghost use Rattle.find_traces.specs.BestKeys.{ranking, is_match, is_match_after};

use crate::best_keys::BestKeys;
use crate::key::{Key, key_at};
use crate::searched::Searched;
use std::alloc::{AllocError, Global};

/// Returns the keys of the traces that start last, at most `limit` of them. Judges none.
fn latest_keys<T: Searched>(alloc: Global, traces: &T, limit: usize) -> Result<BestKeys, AllocError>
    ensures keys { IfOk result (λ latest. latest.keys.keys ≡
        take limit (ranking (T.traces traces.now))) }
    ensures limit { IfOk result (λ latest. latest.limit ≡ limit) }
{
    let mut latest = BestKeys::new(alloc, limit);
    let mut worst = None;
    for index in (0..traces.count()).rev() {
        let key = key_at(traces, index);
        if latest.would_keep_after(worst, key) {
            latest.offer(key)?;
            worst = latest.worst_if_full();
        }
    }
    Ok(latest)
}

/// Returns the indices of those traces with these keys that match, in the order of the keys.
fn judge_in_order<T: Searched>(
    alloc: Global,
    traces: &mut T,
    mut keys: BestKeys,
) -> Result<Vec<usize>, AllocError>
    ensures indices { IfOk result (λ v. v.items ≡ map reverse_key_index
        (filter (is_match (T.query traces.old) (T.traces traces.old)) keys.keys.keys)) }
    ensures same_traces { T.traces traces.new ≡ T.traces traces.old }
    ensures same_query { T.query traces.new ≡ T.query traces.old }
{
    let mut indices = Vec::with_capacity(alloc, keys.len())?;
    while let Some(key) = keys.pop() {
        if traces.is_found_at(alloc, key.index)? {
            indices.push(key.index)?;
        }
    }
    Ok(indices)
}

/// Returns whether the trace with a key ranks after another one, would be kept among the best, and matches. Only then
/// is it judged.
fn is_chosen<T: Searched>(
    alloc: Global,
    traces: &mut T,
    last: Key,
    best: &BestKeys,
    key: Key,
) -> Result<bool, AllocError>
    requires { length best.now.keys.keys ≤ best.now.limit }
    ensures chosen { IfOk result (λ chosen. OnTrue chosen
        (is_match_after (T.query traces.old) (T.traces traces.old) last (reversed key) ≡ true)) }
    ensures left { IfOk result (λ chosen. OnFalse chosen
        (is_match_after (T.query traces.old) (T.traces traces.old) last (reversed key) ≡ true →
        take best.now.limit (insert_key reverse_key_cmp best.now.keys.keys (reversed key)) ≡
        best.now.keys.keys)) }
    ensures same_traces { T.traces traces.new ≡ T.traces traces.old }
    ensures same_query { T.query traces.new ≡ T.query traces.old }
{
    if key >= last || !best.would_keep(key) {
        return Ok(false);
    }
    traces.is_found_at(alloc, key.index)
}

/// Returns the keys of the best matches that rank after a key, at most `limit` of them. The trace opened last is
/// judged first, and none that ranks after enough matches.
fn best_after<T: Searched>(
    alloc: Global,
    traces: &mut T,
    last: Key,
    limit: usize,
) -> Result<BestKeys, AllocError>
    ensures keys { IfOk result (λ best. best.keys.keys ≡ take limit
        (filter (is_match_after (T.query traces.old) (T.traces traces.old) last)
        (ranking (T.traces traces.old)))) }
    ensures same_traces { T.traces traces.new ≡ T.traces traces.old }
    ensures same_query { T.query traces.new ≡ T.query traces.old }
{
    let mut best = BestKeys::new(alloc, limit);
    for index in (0..traces.count()).rev() {
        let key = key_at(traces, index);
        if is_chosen(alloc, traces, last, &best, key)? {
            best.offer(key)?;
        }
    }
    Ok(best)
}

/// Appends the indices of the keys, in their order.
fn push_indices(indices: &mut Vec<usize>, mut keys: BestKeys) -> Result<(), AllocError>
    ensures { OnOk result (indices.new.items ≡
        indices.old.items ++ map reverse_key_index keys.keys.keys) }
{
    while let Some(key) = keys.pop() {
        indices.push(key.index)?;
    }
    Ok(())
}

/// Returns the indices of the best traces that match, in the order of the answer.
pub(crate) fn find_best<T: Searched>(
    alloc: Global,
    traces: &mut T,
) -> Result<Vec<usize>, AllocError>
    requires { 0 < (T.query traces.old).limit }
    ensures indices { IfOk result (λ v. v.items ≡
        indices_found (T.query traces.old) (T.traces traces.old)) }
    ensures same_traces { T.traces traces.new ≡ T.traces traces.old }
    ensures same_query { T.query traces.new ≡ T.query traces.old }
{
    let limit = traces.limit() as usize;
    let latest = latest_keys(alloc, traces, limit)?;
    let last = latest.last_if_full();
    let mut indices = judge_in_order(alloc, traces, latest)?;
    if let Some(last) = last {
        let room = limit - indices.len();
        if room != 0 {
            let others = best_after(alloc, traces, last, room)?;
            push_indices(&mut indices, others)?;
        }
    }
    Ok(indices)
}
