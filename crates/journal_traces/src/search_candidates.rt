//! The traces that a search by a service has to consider.

ghost use Rattle.std.specs.Prelude.{◌≡◌, ℕ, ◌<◌, ◌^◌, Bool, true, ◌||◌, ◌&&◌, not, [], Some, IfOk, map, filter, length, slice_get, option_map};
ghost use Rattle.std.specs.Bool.{OnTrue, OnFalse};
ghost use Rattle.jaeger_model.specs.Parents.{same_trace};
ghost use Rattle.jaeger_model.specs.Texts.{same_text};
ghost use Rattle.jaeger_model.specs.declared.ids.TraceId.{TraceId as TraceIdValue};
ghost use Rattle.trace_model.specs.BorrowedSpans.{placed_by_its_entry};
ghost use Rattle.trace_assembly.specs.AssembledRows.{spots_of};
ghost use Rattle.trace_assembly.specs.LocatedSpans.{span_at};
ghost use Rattle.trace_ring.specs.RingValues.{NoneTwice};
ghost use Rattle.collected_traces.specs.ProcessConditions.{meets};
ghost use Rattle.journal_traces.specs.MatchingSpans.{any_of, met, met_or_none, without_tags, near_at, near_along, same_before};
ghost use Rattle.collected_traces.specs.EntriesAtPlaces.{batch_at};
ghost use Rattle.journal_traces.specs.SpansAtSpots.{placed_in};
ghost use Rattle.journal_traces.specs.Told.{AreTold, AreOperationsTold};

use crate::number_conditions::{NumberConditions, first_of};
use crate::pruning::EntryFilter;
use crate::requested_numbers::RequestedNumbers;
use crate::spotted_spans::batch_at;
use crate::store_view::StoreView;
use arrival_journal::Journal;
use jaeger_model::{Process, Seen, Span, TraceId};
use service_index::Places;
use std::alloc::{AllocError, Global};
use trace_assembly::{Assembly, Spots};
use trace_model::Find;
use trace_ring::Ring;

/// Guesses of the rows of the traces of an entry's spans, by the spots that were added for these spans.
#[derive(Clone, Copy)]
struct RowGuesses<'a> {
    assembly: &'a Assembly,
    /// The number of spans of the entries before. It only leads to guesses.
    before: u32,
}

impl RowGuesses<'_> {
    /// Returns the guess for the span at an index of the entry.
    fn at(self, index: usize) -> u32 {
        let index = index.min(u32::MAX as usize) as u32;
        self.assembly.row_guess_at(self.before.wrapping_add(index))
    }
}

/// Marks a trace, if it is in the ring. There is a mark for each trace of the ring. The row is a guess of the
/// trace's row.
fn mark_trace(marks: &mut [bool], ring: &Ring, row: u32, trace: TraceId)
    requires once { NoneTwice ring.now.ids }
    requires size { length marks.old ≡ length ring.now.ids }
    ensures { (p : TraceIdValue → Bool) → marks.old ≡ map p ring.now.ids →
        marks.new ≡ map (λ t. p t || same_trace t trace) ring.now.ids }
{
    if let Some(index) = ring.position_with_guess(row, trace) {
        marks[index] = true;
    }
}

/// Returns whether the trace is the one of the span before.
fn is_trace_before(before: Option<TraceId>, trace: TraceId) -> bool
    ensures { result ≡ same_before before trace }
{
    match before {
        Some(before) => before == trace,
        None => false,
    }
}

// For the prover: it only calls `is_met`. Its clause is about a search without tags.
/// Returns whether the span at an index of an entry of the requested service meets every condition of the search but
/// those on tags.
fn is_met_without_tags(
    conditions: &NumberConditions<'_>,
    place: u64,
    index: usize,
    at: Seen<'_>,
) -> bool
    requires small { index < 2 ^ 63 }
    requires there { Some (placed_by_its_entry at) ≡
        span_at conditions.now.1 (record { place = place; index = index }) }
    requires service { same_text conditions.now.0.service at.process.now.service ≡ true }
    ensures { result ≡
        meets (without_tags conditions.now.0) at.entry.process.now at.entry.span.now }
{
    conditions.is_met(place, index, at)
}

/// Returns whether the span meets these conditions, and its trace is not the one of the span before.
fn is_new_match(
    before: Option<TraceId>,
    conditions: &NumberConditions<'_>,
    place: u64,
    index: usize,
    at: Seen<'_>,
) -> bool
    requires small { index < 2 ^ 63 }
    requires there { Some (placed_by_its_entry at) ≡
        span_at conditions.now.1 (record { place = place; index = index }) }
    requires service { same_text conditions.now.0.service at.process.now.service ≡ true }
    ensures { result ≡ (not (same_before before at.entry.span.now.trace)
        && meets (without_tags conditions.now.0) at.entry.process.now at.entry.span.now) }
{
    !is_trace_before(before, at.span.trace) && is_met_without_tags(conditions, place, index, at)
}

/// Marks the traces of the ring that have one of these spans, if it meets these conditions. The spans are those of the
/// entry at the place, which is of the requested service.
fn mark_spans(
    marks: &mut [bool],
    ring: &Ring,
    rows: RowGuesses<'_>,
    conditions: &NumberConditions<'_>,
    place: u64,
    process: &Process,
    spans: &[Span],
)
    requires once { NoneTwice ring.now.ids }
    requires size { length marks.old ≡ length ring.now.ids }
    requires there { (index : ℕ) → option_map (placed_in process.now) (slice_get spans.now index) ≡
        span_at conditions.now.1 (record { place = place; index = index }) }
    requires service { same_text conditions.now.0.service process.now.service ≡ true }
    ensures { (p : TraceIdValue → Bool) → marks.old ≡ map p ring.now.ids →
        marks.new ≡ map (λ t. p t ||
        any_of (met (without_tags conditions.now.0) process.now spans.now) t) ring.now.ids }
{
    let mut before = None;
    let mut index: usize = 0;
    for span in spans {
        let at = Seen { process, span };
        let is_new_match = is_new_match(before, conditions, place, index, at);
        if is_new_match {
            mark_trace(marks, ring, rows.at(index), span.trace);
            before = Some(span.trace);
        }
        index += 1;
    }
}

/// Returns whether the entry at a place is skipped by its outline. None of its spans meets the search then.
fn is_skipped(journal: &Journal, place: u64, filter: &EntryFilter<'_>) -> bool
    ensures passed { OnTrue result (near_at filter.now journal.now.held.entries place ≡ []) }
    ensures looked_at { OnFalse result (near_at filter.now journal.now.held.entries place ≡
        met_or_none (without_tags filter.now) (batch_at journal.now.held.entries place)) }
{
    match journal.outline(place) {
        Some(outline) => !filter.may_meet(outline),
        // Impossible in a store: the place is of an entry. No clause says so.
        None => true,
    }
}

/// Marks the traces of the spans of the entry at a place, unless it is skipped.
fn mark_entry(
    marks: &mut [bool],
    ring: &Ring,
    rows: RowGuesses<'_>,
    journal: &Journal,
    place: u64,
    filter: &EntryFilter<'_>,
    conditions: &NumberConditions<'_>,
)
    requires once { NoneTwice ring.now.ids }
    requires size { length marks.old ≡ length ring.now.ids }
    requires conditions { conditions.now ≡ (filter.now, journal.now.held.entries) }
    ensures { (p : TraceIdValue → Bool) → marks.old ≡ map p ring.now.ids →
        marks.new ≡ map (λ t. p t || any_of (near_at filter.now journal.now.held.entries place) t)
        ring.now.ids }
{
    if is_skipped(journal, place, filter) {
        return;
    }
    if let Some(batch) = batch_at(journal, place) {
        // Impossible: `false`, since the place is one of the requested service. No clause says so.
        if conditions.is_requested(place) {
            let process = batch.process.get();
            let spans = batch.spans.as_slice();
            mark_spans(marks, ring, rows, conditions, place, process, spans);
        }
    }
}

/// Returns for each trace of the ring whether an entry at these places, unless it is skipped, has a span of it that
/// meets every condition of the search except for those on tags.
fn marks_along(
    alloc: Global,
    store: StoreView<'_>,
    requested: RequestedNumbers,
    places: Places<'_>,
    query: &Find,
) -> Result<Vec<bool>, AllocError>
    requires service { AreTold query.now store.journal.now.held.entries
        store.by_service.now.service_numbers requested.service }
    requires operation { AreOperationsTold query.now store.journal.now.held.entries
        store.names.now.numbers.firsts store.names.now.operation_rows requested.operation }
    ensures { IfOk result (λ v. v.items ≡
        map (any_of (near_along query.now store.entry.journal.now.held.entries places.entry))
        store.entry.assembly.now.newest.ids) }
{
    let ring = store.assembly.ring();
    let filter = EntryFilter::new(query);
    let conditions = NumberConditions::new(store, query, requested);
    let mut marks = vec![in alloc; false; ring.len()]?;
    for place in places {
        let rows = RowGuesses {
            assembly: store.assembly,
            before: first_of(store, place).unwrap_or(0),
        };
        mark_entry(
            &mut marks,
            ring,
            rows,
            store.journal,
            place,
            &filter,
            &conditions,
        );
    }
    Ok(marks)
}

/// Counts the marked traces, to allocate exactly.
fn mark_count(marks: &[bool]) -> usize {
    let mut count = 0usize;
    for is_marked in marks {
        if *is_marked {
            count = count.saturating_add(1);
        }
    }
    count
}

/// Returns the spots of the traces of the ring that are marked, in their order.
fn marked_spots<'a>(
    alloc: Global,
    assembly: &'a Assembly,
    marks: &[bool],
) -> Result<Vec<Spots<'a>>, AllocError>
    requires { length assembly.now.newest.ids ≡ length marks.now }
    ensures { (p : TraceIdValue → Bool) → marks.now ≡ map p assembly.now.newest.ids →
        IfOk result (λ v. v.items ≡
        map (spots_of assembly.now) (filter p assembly.now.newest.ids)) }
{
    let mut spots = Vec::with_capacity(alloc, mark_count(marks))?;
    for index in 0..assembly.ring().len() {
        if marks[index] {
            spots.push(assembly.spots_at(index))?;
        }
    }
    Ok(spots)
}

/// Returns the spots of each trace of the ring of which the entries at these places have a span that meets every
/// condition of the search except for those on tags, those of the one opened first at the front. Entries whose
/// outlines don't meet the search, with its tags, are skipped, and no text is read. By the number of spans before each
/// entry most traces are found in the ring without a lookup.
///
/// # Errors
///
/// Out of memory, and nothing else.
pub fn spots_along<'a>(
    alloc: Global,
    store: StoreView<'a>,
    requested: RequestedNumbers,
    places: Places<'_>,
    query: &Find,
) -> Result<Vec<Spots<'a>>, AllocError>
    requires service { AreTold query.now store.journal.now.held.entries
        store.by_service.now.service_numbers requested.service }
    requires operation { AreOperationsTold query.now store.journal.now.held.entries
        store.names.now.numbers.firsts store.names.now.operation_rows requested.operation }
    ensures { IfOk result (λ v. v.items ≡ map (spots_of store.entry.assembly.now)
        (filter (any_of (near_along query.now store.entry.journal.now.held.entries places.entry))
        store.entry.assembly.now.newest.ids)) }
{
    let marks = marks_along(alloc, store, requested, places, query)?;
    marked_spots(alloc, store.assembly, &marks)
}
