//! A span of a trace that was collected from a store.
ghost use Rattle.std.specs.Prelude.{◌≡◌, Some, slice_get, IfOk, IfSome, option_map};
ghost use Rattle.std.specs.Option.{option_and_then};
ghost use Rattle.std.specs.Arc.{arc_value};
ghost use Rattle.jaeger_model.specs.Parents.{domain};
ghost use Rattle.trace_model.specs.EntryWork.{placed_brought};
ghost use Rattle.trace_model.specs.BorrowedSpans.{placed_by_its_entry};

use crate::entry::Entry;
use jaeger_model::{Batch, Placed, Seen, place_span};
use std::alloc::{AllocError, Global};
use std::marker::Model;
use std::sync::Arc;

/// A span, read from its shared entry, with a key of its process: spans of a collection with one key have one process.
/// Nothing of the entry is copied, so the span can be read after its store is left. Contracts see the span with its
/// process and with its parent among its references, and the key as its number.
#[derive(Debug, Drop)]
pub struct TakenSpan {
    entry: Arc<Entry>,
    index: u32,
    process_key: u32,
}

impl Model for TakenSpan {
    ghost use Rattle.std.specs.Prelude.{slice_get, IsSome};
    ghost use Rattle.std.specs.Arc.{arc_value};
    ghost use Rattle.trace_model.specs.EntryWork.{placed_brought};
    ghost use Rattle.trace_model.specs.TakenSpans.{Taken};

    ghost Value = { Taken };

    ghost view = { λ s. record { span = slice_get (placed_brought (arc_value s.entry).work) s.index; number = s.process_key } };

    ghost invariant = { λ s. IsSome (slice_get (placed_brought (arc_value s.entry).work) s.index) };
}

/// Copies the span of a batch at an index; its process is shared.
fn placed_in(alloc: Global, batch: &Batch, index: u32) -> Result<Option<Placed>, AllocError>
    ensures { IfOk result (λ p. p ≡ slice_get (domain batch.now) index) }
{
    match batch.spans.as_slice().get(index as usize) {
        Some(span) => Ok(Some(place_span(alloc, &batch.process, span)?)),
        None => Ok(None),
    }
}

/// Borrows the span of a batch at an index, as it was reported.
pub fn reported_in(batch: &Batch, index: u32) -> Option<Seen>
    ensures { option_map placed_by_its_entry result ≡ slice_get (domain batch.now) index }
{
    let span = batch.spans.as_slice().get(index as usize)?;
    Some(Seen {
        process: batch.process.get(),
        span,
    })
}

impl TakenSpan {
    /// Refers to the span of the entry at an index, which counts from 0, with this key of its process. Returns `None`
    /// if the entry has no such span.
    ///
    /// # Errors
    ///
    /// Out of memory, and nothing else.
    pub fn new(
        entry: &Arc<Entry>,
        index: u32,
        process_key: u32,
    ) -> Result<Option<TakenSpan>, AllocError>
        ensures span { IfOk result (λ t. option_and_then (λ s. s.span) t ≡
            slice_get (placed_brought (arc_value entry.now).work) index) }
        ensures number { IfOk result (λ t. IfSome t (λ s. s.number ≡ process_key)) }
    {
        if (index as usize) < entry.work.spans().len() {
            let entry = Arc::try_clone(entry)?;
            return Ok(Some(TakenSpan {
                entry,
                index,
                process_key,
            }));
        }
        Ok(None)
    }

    /// Returns the key of its process.
    pub fn process_key(&self) -> u32
        ensures { result ≡ self.now.number }
    {
        self.process_key
    }

    /// Returns the span as it was reported: its parent need not be among its references. Allocates nothing.
    pub fn reported(&self) -> Seen<'_>
        ensures { Some (placed_by_its_entry result) ≡ self.now.span }
    {
        let Some(batch) = self.entry.work.batch() else {
            unreachable!();
        };
        let Some(seen) = reported_in(batch, self.index) else {
            unreachable!();
        };
        seen
    }

    /// Returns the same span with another key of its process.
    ///
    /// # Errors
    ///
    /// Out of memory, and nothing else.
    pub fn with_key(&self, process_key: u32) -> Result<TakenSpan, AllocError>
        ensures span { IfOk result (λ s. s.span ≡ self.now.span) }
        ensures number { IfOk result (λ s. s.number ≡ process_key) }
    {
        let entry = Arc::try_clone(&self.entry)?;
        Ok(TakenSpan {
            entry,
            index: self.index,
            process_key,
        })
    }

    /// Copies the span; its process is shared.
    ///
    /// # Errors
    ///
    /// Out of memory, and nothing else.
    pub fn copy(&self, alloc: Global) -> Result<Placed, AllocError>
        ensures { IfOk result (λ p. Some p ≡ self.now.span) }
    {
        let Some(batch) = self.entry.work.batch() else {
            unreachable!();
        };
        let Some(placed) = placed_in(alloc, batch, self.index)? else {
            unreachable!();
        };
        Ok(placed)
    }
}
