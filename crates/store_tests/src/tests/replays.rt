//! The answers of stores of a list of entries.

use span_store::replayed_answer;
use std::alloc::Global;
use std::hash::RandomState;
use std::mem::drop;
use std::sync::Arc;
use std::test::Fail;
use trace_model::{Answer, Entry, Limits, Query};

/// Returns the answer of a store of these limits that has applied the entries to a query that is dropped afterwards.
pub(crate) fn store_answer(
    alloc: Global,
    keys: RandomState,
    limits: Limits,
    entries: &[Arc<Entry>],
    query: Query,
) -> Result<Answer, Fail> {
    let answer = replayed_answer(alloc, keys, limits, entries, &query);
    drop(query);
    Ok(answer.ok().ok_or("refused")?)
}
