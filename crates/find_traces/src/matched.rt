//! Searches without a limit: every trace is judged, and those that match are sorted.

ghost use Rattle.std.specs.Prelude.{◌≡◌, IfOk, map};
ghost use Rattle.find_traces.specs.FoundIndices.{hits, indices_found};
ghost use Rattle.find_traces.specs.Keys.{reverse_key_of, reverse_key_index};

use crate::key::{Key, key_at};
use crate::searched::Searched;
use std::alloc::{AllocError, Global};
use std::cmp::Reverse;
use trace_model::push_tightly;

/// Makes a key for each trace that matches, the one opened first at the front. The key of the best trace is the
/// least.
fn all_hits<T: Searched>(alloc: Global, traces: &mut T) -> Result<Vec<Reverse<Key>>, AllocError>
    ensures found { IfOk result (λ v. v.items ≡
        map reverse_key_of (hits (T.query traces.old) (T.traces traces.old))) }
    ensures same_traces { T.traces traces.new ≡ T.traces traces.old }
    ensures same_query { T.query traces.new ≡ T.query traces.old }
{
    let mut found = Vec::new(alloc);
    for index in 0..traces.count() {
        if traces.is_found_at(alloc, index)? {
            push_tightly(&mut found, Reverse(key_at(traces, index)))?;
        }
    }
    Ok(found)
}

fn indices_of(alloc: Global, hits: &[Reverse<Key>]) -> Result<Vec<usize>, AllocError>
    ensures { IfOk result (λ v. v.items ≡ map reverse_key_index hits.now) }
{
    let mut indices = Vec::with_capacity(alloc, hits.len())?;
    for hit in hits {
        indices.push(hit.0.index)?;
    }
    Ok(indices)
}

/// Returns the indices of all traces that match, in the order of the answer. Sorts only those that match.
pub(crate) fn find_all<T: Searched>(alloc: Global, traces: &mut T) -> Result<Vec<usize>, AllocError>
    requires { (T.query traces.old).limit ≡ 0 }
    ensures indices { IfOk result (λ v. v.items ≡
        indices_found (T.query traces.old) (T.traces traces.old)) }
    ensures same_traces { T.traces traces.new ≡ T.traces traces.old }
    ensures same_query { T.query traces.new ≡ T.query traces.old }
{
    let mut found = all_hits(alloc, traces)?;
    found.sort_unstable();
    indices_of(alloc, &found)
}
