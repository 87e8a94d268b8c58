//! A store made of a list of entries; it may refuse some.

ghost use Rattle.std.specs.Prelude.{◌≡◌, map, OnOk, IfOk, IfErr};
ghost use Rattle.std.specs.Arc.{arc_value};
ghost use Rattle.trace_model.specs.Answers.{answer};
ghost use Rattle.trace_model.specs.declared.refusal.Refusal.TheVariants.{NoMemory};
ghost use Rattle.trace_model.specs.Refusals.{history_after, history_of};

use crate::store::SpanStore;
use std::alloc::Global;
use std::hash::RandomState;
use std::sync::Arc;
use trace_model::{Answer, Entry, Limits, Query, Refusal};

/// Applies an entry. One that is refused after the entries before it is left out.
fn take(store: &mut SpanStore, entry: &Arc<Entry>) -> Result<(), Refusal>
    ensures taken { OnOk result (store.new ≡
        record {
          limits = store.old.limits;
          entries = history_after store.old.limits store.old.entries
              (arc_value entry.now);
        }) }
    ensures reason { IfErr result (λ why. why ≡ NoMemory) }
{
    // For the prover: each outcome has clauses of its own.
    match store.apply(Arc::try_clone(entry)?) {
        Ok(_) => Ok(()),
        Err(_) => Ok(()),
    }
}

/// Returns the store after all of these entries in order, accepted or refused: it has those that are accepted, each
/// judged after the accepted ones before it. Only tests call it.
///
/// # Errors
///
/// Out of memory, and nothing else.
pub fn replay(
    alloc: Global,
    keys: RandomState,
    limits: Limits,
    entries: &[Arc<Entry>],
) -> Result<SpanStore, Refusal>
    ensures held { IfOk result (λ s. s ≡
        record { limits = limits; entries = history_of limits (map arc_value entries.now) }) }
    ensures reason { IfErr result (λ why. why ≡ NoMemory) }
{
    let mut store = SpanStore::open(alloc, keys, limits)?;
    for entry in entries {
        if let Err(why) = take(&mut store, entry) {
            // For the prover: a store is dropped by a call.
            drop(store);
            return Err(why);
        }
    }
    Ok(store)
}

/// Returns the store's answer after all of these entries in order, accepted or refused: the plain store's answer
/// for the accepted ones. Only tests call it.
///
/// # Errors
///
/// Out of memory, and nothing else.
pub fn replayed_answer(
    alloc: Global,
    keys: RandomState,
    limits: Limits,
    entries: &[Arc<Entry>],
    query: &Query,
) -> Result<Answer, Refusal>
    ensures answer { IfOk result (λ a. a ≡
        answer limits (history_of limits (map arc_value entries.now)) query.now) }
    ensures reason { IfErr result (λ why. why ≡ NoMemory) }
{
    let store = replay(alloc, keys, limits, entries)?;
    let answer = store.answer(query);
    // For the prover: a store is dropped by a call.
    drop(store);
    answer
}
