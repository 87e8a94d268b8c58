//! The traces of a window of time, by the spots of their spans, with each of their entries collected once.

ghost use Rattle.std.specs.Prelude.{◌≡◌, [], ◌∷◌, ◌++◌, length, slice_index_or, IfOk, OnOk};
ghost use Rattle.std.specs.Arc.{arc_value};
ghost use Rattle.collected_traces.specs.TraceParts.{cut_at, AreStarts};
ghost use Rattle.journal_traces.specs.WindowTraces.{entries_seen, taken_reported, trace_reported, traces_reported};

use call_links::NumberedSpan;
use collected_traces::{TakenSpot, trace_part};
use std::alloc::{AllocError, Global};
use std::marker::Model;
use std::sync::Arc;
use trace_model::{Entry, push_tightly};

/// An entry that is shared with the store, and the number of its service.
#[derive(Drop)]
pub(crate) struct NumberedEntry {
    pub(crate) entry: Arc<Entry>,
    pub(crate) service_number: u32,
}

/// The spots of the spans of some traces, and their entries.
#[derive(Drop)]
pub(crate) struct WindowSpots {
    /// Each entry once, by its number.
    pub(crate) entries: Vec<NumberedEntry>,
    /// The spots of all traces, one trace after the other.
    pub(crate) spots: Vec<TakenSpot>,
    /// For each trace the number of spots before its first one.
    pub(crate) starts: Vec<usize>,
}

/// The traces of a window of time, collected from a store, so that their spans can be read after the store is left.
/// They hold 8 bytes for each span, and each entry is shared once. Contracts see the traces, each with its spans and
/// the numbers of their services.
#[derive(Drop)]
pub struct WindowTraces {
    taken: WindowSpots,
}

impl Model for WindowTraces {
    ghost use Rattle.std.specs.Prelude.{List, length};
    ghost use Rattle.trace_model.specs.TakenSpans.{Taken};
    ghost use Rattle.collected_traces.specs.TraceParts.{AreStarts};
    ghost use Rattle.journal_traces.specs.WindowTraces.{traces_reported};

    ghost Value = { List (List Taken) };

    ghost view = { λ w. traces_reported w.taken };

    ghost invariant = { λ w. AreStarts (length w.taken.spots.items) w.taken.starts.items };
}

impl WindowSpots {
    /// Makes spots of no traces, with no entries.
    pub(crate) fn new(alloc: Global) -> WindowSpots
        ensures entries { result.entries.items ≡ [] }
        ensures spots { result.spots.items ≡ [] }
        ensures starts { result.starts.items ≡ [] }
    {
        WindowSpots {
            entries: Vec::new(alloc),
            spots: Vec::new(alloc),
            starts: Vec::new(alloc),
        }
    }

    /// Adds an entry, and the number of its service.
    ///
    /// # Errors
    ///
    /// Out of memory, and nothing else.
    pub(crate) fn add_entry(
        &mut self,
        entry: &Arc<Entry>,
        service_number: u32,
    ) -> Result<(), AllocError>
        ensures entries { OnOk result (entries_seen self.new.entries.items ≡
            entries_seen self.old.entries.items ++ (arc_value entry.now, service_number) ∷ []) }
        ensures spots { self.new.spots ≡ self.old.spots }
        ensures starts { self.new.starts ≡ self.old.starts }
    {
        let entry = Arc::try_clone(entry)?;
        push_tightly(
            &mut self.entries,
            NumberedEntry {
                entry,
                service_number,
            },
        )?;
        Ok(())
    }
}

/// Returns the spots of the trace at an index, which counts from 0; none if there is no such trace.
fn spots_of(taken: &WindowSpots, index: usize) -> &[TakenSpot]
    requires { AreStarts (length taken.now.spots.items) taken.now.starts.items }
    ensures { result.now ≡
        slice_index_or (cut_at taken.now.spots.items taken.now.starts.items) index [] }
{
    trace_part(&taken.spots, &taken.starts, index)
}

/// Returns the span at a spot, with the number of its service.
fn span_at<'a>(entries: &'a [NumberedEntry], spot: TakenSpot) -> Option<NumberedSpan<'a>>
    ensures { result ≡ taken_reported (entries_seen entries.now) spot }
{
    let numbered = entries.get(spot.number as usize)?;
    NumberedSpan::new(&numbered.entry, spot.index, numbered.service_number)
}

/// Returns the spans at these spots, in their order.
fn spans_at<'a>(
    alloc: Global,
    entries: &'a [NumberedEntry],
    spots: &[TakenSpot],
) -> Result<Vec<NumberedSpan<'a>>, AllocError>
    ensures { IfOk result (λ v. v.items ≡ trace_reported (entries_seen entries.now) spots.now) }
{
    let mut spans = Vec::with_capacity(alloc, spots.len())?;
    for spot in spots {
        // Impossible in a store: a spot of no span. No clause says so.
        if let Some(span) = span_at(entries, *spot) {
            spans.push(span)?;
        }
    }
    Ok(spans)
}

impl WindowTraces {
    /// Makes the traces of these spots.
    pub(crate) fn new(taken: WindowSpots) -> WindowTraces
        requires { AreStarts (length taken.spots.items) taken.starts.items }
        ensures { result ≡ traces_reported taken }
    {
        WindowTraces { taken }
    }

    /// Returns the number of traces.
    pub fn count(&self) -> usize
        ensures { result ≡ length self.now }
    {
        self.taken.starts.len()
    }

    /// Returns the spans of the trace at an index, which counts from 0; none if there is no such trace.
    ///
    /// # Errors
    ///
    /// Out of memory, and nothing else.
    pub fn spans(&self, alloc: Global, index: usize) -> Result<Vec<NumberedSpan<'_>>, AllocError>
        ensures { IfOk result (λ v. v.items ≡ slice_index_or self.now index []) }
    {
        spans_at(alloc, &self.taken.entries, spots_of(&self.taken, index))
    }
}
