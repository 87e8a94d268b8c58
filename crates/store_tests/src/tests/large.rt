use crate::tests::entries::{entry, id};
use crate::tests::queries::{operation_names, operations};
use crate::tests::replays::store_answer;
use std::alloc::{AllocError, Global};
use std::hash::RandomState;
use std::mem::drop;
use std::sync::Arc;
use std::test::*;
use trace_model::{Answer, AnsweredTrace, Entry, Find, Limits, Query, TraceForm};
use trace_samples::{kept, list_of, service_find, span};

const MANY: u32 = 10_000;

/// An entry of service `a` with one span, the first of the trace of its number.
fn numbered(alloc: Global, number: u64) -> Result<Arc<Entry>, AllocError> {
    let spans = list_of(alloc, span(alloc, number, 1)?)?.into_vec();
    entry(alloc, 0, number, "a", spans)
}

/// Adds `many` of these entries.
fn add_entries(alloc: Global, entries: &mut Vec<Arc<Entry>>, many: u32) -> Result<(), AllocError> {
    for number in 1..u64::from(many) + 1 {
        entries.push(numbered(alloc, number)?)?;
    }
    Ok(())
}

/// Makes `many` of these entries.
fn entries_of(alloc: Global, many: u32) -> Result<Vec<Arc<Entry>>, AllocError> {
    let mut entries = Vec::new(alloc);
    let added = add_entries(alloc, &mut entries, many);
    kept(entries, added)
}

/// Returns the number of spans of a trace of an answer.
fn span_count(trace: &AnsweredTrace) -> usize {
    match trace.form() {
        TraceForm::Copied(copied) => copied.len(),
        TraceForm::Lone(_) => 1,
        TraceForm::Kept(kept) => kept.spans.len(),
    }
}

/// Returns the number of spans, names, operations, traces, ids or links of an answer.
fn count_in(answer: &Answer) -> usize {
    match answer {
        Answer::Trace(Some(trace)) => span_count(trace),
        Answer::Trace(None) => 0,
        Answer::Names(names) => names.len(),
        Answer::Operations(operations) => operations.len(),
        Answer::Traces(traces) => traces.len(),
        Answer::Ids(ids) => ids.len(),
        Answer::Links(links) => links.len(),
    }
}

/// Returns the size of the answer of a store of the entries.
fn answered(
    alloc: Global,
    keys: RandomState,
    entries: &[Arc<Entry>],
    query: Query,
) -> Result<usize, Fail> {
    let limits = Limits::new(MANY, MANY, 0, 0).ok_or("limits")?;
    let answer = store_answer(alloc, keys, limits, entries, query)?;
    let count = count_in(&answer);
    drop(answer);
    Ok(count)
}

/// The trace of the last entry.
fn last_trace() -> Query {
    Query::Trace {
        id: id(u64::from(MANY)),
        raw: false,
    }
}

/// Returns the number of names in the answer for the entries, and the number of spans of the last trace.
fn name_counts(
    alloc: Global,
    keys: RandomState,
    entries: &[Arc<Entry>],
) -> Result<[usize; 4], Fail> {
    let services = answered(alloc, keys, entries, Query::Services)?;
    let names = answered(alloc, keys, entries, operation_names(alloc, "a")?)?;
    let operations = answered(alloc, keys, entries, operations(alloc, "a", "")?)?;
    let last = answered(alloc, keys, entries, last_trace())?;
    Ok([services, names, operations, last])
}

/// A search by service `a` for no more traces than the limit.
fn limited(alloc: Global, limit: u64) -> Result<Find, AllocError> {
    let mut find = service_find(alloc, "a")?;
    find.limit = limit;
    Ok(find)
}

/// Returns the number of traces and of ids that are found among the entries, and of ids under a limit of five.
fn found_counts(
    alloc: Global,
    keys: RandomState,
    entries: &[Arc<Entry>],
) -> Result<[usize; 3], Fail> {
    let traces = answered(alloc, keys, entries, Query::Find(limited(alloc, 0)?))?;
    let ids = answered(alloc, keys, entries, Query::FindIds(limited(alloc, 0)?))?;
    let five = answered(alloc, keys, entries, Query::FindIds(limited(alloc, 5)?))?;
    Ok([traces, ids, five])
}

/// The number of each.
type Counts = ([usize; 4], [usize; 3]);

/// Counts both among the entries.
fn counts_among(alloc: Global, keys: RandomState, entries: &[Arc<Entry>]) -> Result<Counts, Fail> {
    let names = name_counts(alloc, keys, entries)?;
    Ok((names, found_counts(alloc, keys, entries)?))
}

/// Counts both among many entries.
fn counts(alloc: Global, keys: RandomState) -> Result<Counts, Fail> {
    let entries = entries_of(alloc, MANY)?;
    let counts = counts_among(alloc, keys, &entries);
    drop(entries);
    counts
}

/// No answer is cut off at some size. A search with a limit over this many traces tries the latest traces first.
#[test]
fn store_of_many_entries(rt: HostRuntime) -> Result<(), Fail> {
    let counts = counts(rt.alloc(), RandomState::new(&rt)?)?;
    assert!(rt; counts == ([1, 1, 1, 1], [10_000, 10_000, 5]));
    Ok(())
}
