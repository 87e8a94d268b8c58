//! Whether a store answers a query as the plain store of its entries.

use crate::tests::shown::shown;
use plain_store::plain_answer;
use span_store::SpanStore;
use std::alloc::{AllocError, Global};
use std::mem::drop;
use trace_model::{Query, Refusal};
use trace_samples::retry;

/// Returns the plain store's answer for the store's entries, as text.
fn plainly(alloc: Global, store: &SpanStore, query: &Query) -> Result<Vec<u8>, AllocError> {
    shown(
        alloc,
        plain_answer(alloc, store.entries(), store.limits(), query)?,
    )
}

/// Returns the store's answer, as text, or `None` if there is none. If memory ran out, the store is asked once more.
fn quickly(alloc: Global, store: &SpanStore, query: &Query) -> Result<Option<Vec<u8>>, AllocError> {
    match retry(Refusal::NoMemory, || store.answer(query)) {
        Ok(answer) => Ok(Some(shown(alloc, answer)?)),
        Err(_) => Ok(None),
    }
}

/// Returns whether the store answers the query as the plain store of its entries.
fn is_same(alloc: Global, store: &SpanStore, query: &Query) -> Result<bool, AllocError> {
    let Some(quick) = quickly(alloc, store, query)? else {
        return Ok(false);
    };
    let plain = plainly(alloc, store, query)?;
    Ok(quick == plain)
}

/// Like [`is_same`], for a query that is dropped afterwards.
pub(crate) fn same_answer(
    alloc: Global,
    store: &SpanStore,
    query: Query,
) -> Result<bool, AllocError> {
    let said = is_same(alloc, store, &query);
    drop(query);
    said
}
