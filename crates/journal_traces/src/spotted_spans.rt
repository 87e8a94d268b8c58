//! Spans in the journal, by their spots.

ghost use Rattle.std.specs.Prelude.{◌≡◌, false, [], ◌∷◌, option_map, slice_get, IfOk};
ghost use Rattle.std.specs.Bool.{OnTrue};
ghost use Rattle.std.specs.List.{list_any};
ghost use Rattle.trace_model.specs.Searching.{matches, first_start, first_id};
ghost use Rattle.trace_model.specs.ServiceLinks.{in_window};
ghost use Rattle.trace_assembly.specs.LocatedSpans.{span_at};
ghost use Rattle.trace_model.specs.BorrowedSpans.{placed_by_its_entry};
ghost use Rattle.collected_traces.specs.EntriesAtPlaces.{batch_at, spans_named};

use crate::judging::Judging;
use crate::pruning::may_reach;
use arrival_journal::Journal;
use jaeger_model::{Batch, Seen, TraceId};
use span_steps::is_in_window;
use std::alloc::{AllocError, Global};
use trace_assembly::{Spot, Spots};
use trace_model::reported_in;

/// Returns the batch of the entry at a place, unless that is a limit.
pub(crate) fn batch_at(journal: &Journal, place: u64) -> Option<&Batch>
    ensures { option_map (λ b. b.now) result ≡ batch_at journal.now.held.entries place }
{
    match journal.entry(place) {
        Some(entry) => entry.work.batch(),
        None => None,
    }
}

/// Returns the span at a spot. In a store each spot is of a span. No clause says so: the definitions pass over a spot
/// of none, and so does the code that is called with one.
#[tactic(auto, using(crate::proofs::SpansAtSpots::span_there, crate::proofs::SpansAtSpots::no_span_there))]
pub(crate) fn seen_at(journal: &Journal, spot: Spot) -> Option<Seen<'_>>
    ensures { option_map placed_by_its_entry result ≡ span_at journal.now.held.entries spot }
{
    match batch_at(journal, spot.place) {
        Some(batch) => reported_in(batch, spot.index),
        None => None,
    }
}

/// Returns the first span at the spots.
fn first_seen<'a>(journal: &'a Journal, spots: Spots<'_>) -> Option<Seen<'a>>
    ensures { option_map placed_by_its_entry result ≡ slice_get
        (spans_named journal.now.held.entries spots.entry) 0 }
{
    for spot in spots {
        // Impossible in a store: a spot of no span. No clause says so.
        if let Some(seen) = seen_at(journal, spot) {
            return Some(seen);
        }
    }
    None
}

fn start(seen: Seen<'_>) -> i64
    ensures { result ≡ seen.entry.span.now.start }
{
    seen.span.start
}

/// Returns the start of the first of the spans, or 0 if there is none.
pub(crate) fn first_start(journal: &Journal, spots: Spots<'_>) -> i64
    ensures { result ≡ first_start (spans_named journal.now.held.entries spots.entry) }
{
    match first_seen(journal, spots) {
        Some(seen) => start(seen),
        None => 0,
    }
}

/// Returns the trace of the first of the spans.
pub(crate) fn first_id(journal: &Journal, spots: Spots<'_>) -> Option<TraceId>
    ensures { result ≡ first_id (spans_named journal.now.held.entries spots.entry) }
{
    match first_seen(journal, spots) {
        Some(seen) => Some(seen.span.trace),
        None => None,
    }
}

/// Returns whether one of the spans meets every condition of the search. No span is copied, and none is read after that
/// one.
pub(crate) fn is_found(
    alloc: Global,
    judging: &Judging<'_>,
    spots: Spots<'_>,
) -> Result<bool, AllocError>
    ensures { IfOk result (λ b. b ≡
        list_any (matches judging.now.0) (spans_named judging.now.1 spots.entry)) }
{
    for spot in spots {
        let is_match = judging.is_match_at(alloc, spot)?;
        if is_match {
            return Ok(true);
        }
    }
    Ok(false)
}

/// Returns whether no span of the spot's entry can start strictly between the bounds, by the bounds of their starts, so
/// that no span is read.
fn is_outside(journal: &Journal, spot: Spot, end_ms: i64, lookback_ms: i64) -> bool
    ensures { OnTrue result (list_any (in_window end_ms lookback_ms)
        (spans_named journal.now.held.entries (spot ∷ [])) ≡ false) }
{
    match journal.outline(spot.place) {
        Some(outline) => !may_reach(outline.times, end_ms, lookback_ms),
        // Impossible in a store: a spot of no entry. No clause says so.
        None => false,
    }
}

/// Returns whether the span at a spot starts strictly between the bounds.
fn starts_within(journal: &Journal, spot: Spot, end_ms: i64, lookback_ms: i64) -> bool
    ensures { result ≡ list_any (in_window end_ms lookback_ms)
        (spans_named journal.now.held.entries (spot ∷ [])) }
{
    if is_outside(journal, spot, end_ms, lookback_ms) {
        return false;
    }
    match seen_at(journal, spot) {
        Some(seen) => is_in_window(start(seen), end_ms, lookback_ms),
        // Impossible in a store: a spot of no span. No clause says so.
        None => false,
    }
}

/// Returns whether one of the spans starts strictly between the bounds.
pub(crate) fn reaches_window(
    journal: &Journal,
    spots: Spots<'_>,
    end_ms: i64,
    lookback_ms: i64,
) -> bool
    ensures { result ≡ list_any (in_window end_ms lookback_ms)
        (spans_named journal.now.held.entries spots.entry) }
{
    for spot in spots {
        if starts_within(journal, spot, end_ms, lookback_ms) {
            return true;
        }
    }
    false
}
