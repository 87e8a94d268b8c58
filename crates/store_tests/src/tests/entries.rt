//! Entries.

use jaeger_model::{Span, TraceId};
use std::alloc::{AllocError, Global};
use std::sync::Arc;
use trace_model::{Entry, Work};
use trace_samples::{batch, submitted};

/// The trace with this low half of an id, and 0 above it.
pub(crate) fn id(low: u64) -> TraceId {
    TraceId { high: 0, low }
}

/// Makes the entry of the seat with the number: these spans of the service, with this `seqNo`.
pub(crate) fn sent_entry(
    alloc: Global,
    (seat, number): (u16, u64),
    seq_no: Option<i64>,
    service: &str,
    spans: Vec<Span>,
) -> Result<Arc<Entry>, AllocError> {
    let mut batch = batch(alloc, service, spans)?;
    batch.seq_no = seq_no;
    submitted(alloc, seat, number, Work::Batch(batch))
}

/// Makes the entry of the seat with the number: these spans of the service, without a `seqNo`.
pub(crate) fn entry(
    alloc: Global,
    seat: u16,
    number: u64,
    service: &str,
    spans: Vec<Span>,
) -> Result<Arc<Entry>, AllocError> {
    sent_entry(alloc, (seat, number), None, service, spans)
}
