use jaeger_model::Batch;
use std::alloc::Global;
use std::sync::Arc;
use std::test::*;
use trace_model::{Entry, TraceLimit, Work};
use trace_samples::{batch, kept, list_of, span, submitted};

/// A batch of service `a` with one span of this trace.
pub fn batch_of(alloc: Global, trace: u64) -> Result<Batch, Fail> {
    let spans = list_of(alloc, span(alloc, trace, 2)?)?;
    Ok(batch(alloc, "a", spans.into_vec())?)
}

/// A batch of service `a` with one span of this trace, and this `seqNo`.
pub fn numbered_batch(alloc: Global, sent: u64, trace: u64) -> Result<Batch, Fail> {
    let mut batch = batch_of(alloc, trace)?;
    batch.seq_no = i64::try_from(sent).ok();
    Ok(batch)
}

/// The entry that seat 0 submitted with the number.
fn entry(alloc: Global, number: u64, work: Work) -> Result<Arc<Entry>, Fail> {
    Ok(submitted(alloc, 0, number, work)?)
}

/// The entry of seat 0 with this number, which holds a span of the trace of that number.
pub fn entry_of(alloc: Global, number: u64) -> Result<Arc<Entry>, Fail> {
    entry(alloc, number, Work::Batch(batch_of(alloc, number)?))
}

/// The entry of seat 0 with this number, whose batch has this `seqNo` and a span of this trace.
pub fn sent_entry(alloc: Global, number: u64, sent: u64, trace: u64) -> Result<Arc<Entry>, Fail> {
    entry(
        alloc,
        number,
        Work::Batch(numbered_batch(alloc, sent, trace)?),
    )
}

/// The limit that is submitted with the number, if there is one: 2 for each fourth number, but none for each
/// twelfth.
pub fn limit_under(number: u64) -> Option<TraceLimit> {
    if number % 12 == 0 {
        TraceLimit::new(0)
    } else if number % 4 == 0 {
        TraceLimit::new(2)
    } else {
        None
    }
}

/// The batch that is submitted with the number, if there is no limit. With 5 and 19 it is the batch of two numbers
/// before, resent; with 6 and 13 it has the `seqNo` of three before, and another span. Some have no `seqNo`.
pub fn batch_under(alloc: Global, number: u64) -> Result<Batch, Fail> {
    match number % 7 {
        5 => {
            let old = number.saturating_sub(2);
            numbered_batch(alloc, old, old)
        }
        6 => numbered_batch(alloc, number.saturating_sub(3), number),
        0 | 1 => batch_of(alloc, number),
        _ => numbered_batch(alloc, number, number),
    }
}

fn add_entries(alloc: Global, entries: &mut Vec<Arc<Entry>>, last: u64) -> Result<(), Fail> {
    for before in 0..last {
        entries.push(entry_of(alloc, before + 1)?)?;
    }
    Ok(())
}

/// The entries of seat 0 with the numbers from 1 to this one.
pub fn entries_to(alloc: Global, last: u64) -> Result<Vec<Arc<Entry>>, Fail> {
    let mut entries = Vec::new(alloc);
    let added = add_entries(alloc, &mut entries, last);
    kept(entries, added)
}
