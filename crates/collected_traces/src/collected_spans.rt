//! Collected spans, by their spots among the collected entries.

ghost use Rattle.std.specs.Prelude.{◌≡◌, ◌++◌, ◌∷◌, [], map, option_map, slice_get, IfOk, IfSome, OnOk};
ghost use Rattle.std.specs.Arc.{arc_value};
ghost use Rattle.std.specs.Option.{option_copied, option_and_then};
ghost use Rattle.trace_model.specs.BorrowedSpans.{placed_by_its_entry};
ghost use Rattle.trace_model.specs.Places.{entry_at};
ghost use Rattle.trace_model.specs.Searching.{first_start, first_id};
ghost use Rattle.trace_model.specs.TakenSpans.{placed_taken};
ghost use Rattle.trace_assembly.specs.LocatedSpans.{span_at};
ghost use Rattle.collected_traces.specs.EntriesAtPlaces.{batch_at};
ghost use Rattle.collected_traces.specs.TakenTraces.{HasProcess};
ghost use Rattle.collected_traces.specs.CollectedCandidates.{spot_of, trace_spotted, entries_shared};
ghost use Rattle.collected_traces.specs.CollectedCandidates.{process_numbered, AreNumberedByEntry};

use crate::collected_candidates::TakenEntry;
use crate::taken::TakenTraces;
use crate::taken_spot::TakenSpot;
use jaeger_model::{Batch, Seen, TraceId};
use std::alloc::AllocError;
use std::sync::Arc;
use trace_model::{Entry, TakenSpan, reported_in};

/// Returns the entry of a spot.
fn entry_of(entries: &[TakenEntry], spot: TakenSpot) -> Option<&Arc<Entry>>
    ensures { option_map arc_value (option_copied result) ≡
        entry_at (entries_shared entries.now) (spot_of spot).place }
{
    match entries.get(spot.number as usize) {
        Some(taken) => Some(&taken.entry),
        None => None,
    }
}

/// Returns the batch of the entry of a spot, unless the entry is a limit.
fn batch_of(entries: &[TakenEntry], spot: TakenSpot) -> Option<&Batch>
    ensures { option_map (λ b. b.now) result ≡
        batch_at (entries_shared entries.now) (spot_of spot).place }
{
    match entry_of(entries, spot) {
        Some(entry) => entry.work.batch(),
        None => None,
    }
}

/// Returns the span at a spot, if there is one.
#[tactic(auto, using(crate::proofs::EntriesAtPlaces::span_there, crate::proofs::EntriesAtPlaces::no_span_there))]
pub(crate) fn seen_at(entries: &[TakenEntry], spot: TakenSpot) -> Option<Seen<'_>>
    ensures { option_map placed_by_its_entry result ≡
        span_at (entries_shared entries.now) (spot_of spot) }
{
    match batch_of(entries, spot) {
        Some(batch) => reported_in(batch, spot.index),
        None => None,
    }
}

/// Returns the first span at the spots.
fn first_seen<'a>(entries: &'a [TakenEntry], spots: &[TakenSpot]) -> Option<Seen<'a>>
    ensures { option_map placed_by_its_entry result ≡ slice_get
        (placed_taken (trace_spotted (entries_shared entries.now) spots.now)) 0 }
{
    for spot in spots {
        // Impossible in a store: a spot of no span. No clause says so.
        if let Some(seen) = seen_at(entries, *spot) {
            return Some(seen);
        }
    }
    None
}

fn start(seen: Seen<'_>) -> i64
    ensures { result ≡ seen.entry.span.now.start }
{
    seen.span.start
}

/// Returns the start of the first span at the spots, or 0 if there is none.
pub(crate) fn first_start(entries: &[TakenEntry], spots: &[TakenSpot]) -> i64
    ensures { result ≡ first_start
        (placed_taken (trace_spotted (entries_shared entries.now) spots.now)) }
{
    match first_seen(entries, spots) {
        Some(seen) => start(seen),
        None => 0,
    }
}

/// Returns the trace of the first span at the spots.
pub(crate) fn first_id(entries: &[TakenEntry], spots: &[TakenSpot]) -> Option<TraceId>
    ensures { result ≡ first_id
        (placed_taken (trace_spotted (entries_shared entries.now) spots.now)) }
{
    match first_seen(entries, spots) {
        Some(seen) => Some(seen.span.trace),
        None => None,
    }
}

/// Takes the span at a spot, if there is one. The key of its process is the number of its entry.
fn taken_at(entries: &[TakenEntry], spot: TakenSpot) -> Result<Option<TakenSpan>, AllocError>
    ensures span { IfOk result (λ t. option_and_then (λ s. s.span) t ≡
        span_at (entries_shared entries.now) (spot_of spot)) }
    ensures number { IfOk result (λ t. IfSome t
        (HasProcess (process_numbered (entries_shared entries.now)))) }
{
    // Impossible in a store: a spot of no entry. No clause says so.
    let Some(entry) = entry_of(entries, spot) else {
        return Ok(None);
    };
    // For the prover: the binding lets the clauses of `new` be used for the result.
    let taken = TakenSpan::new(entry, spot.index, spot.number)?;
    Ok(taken)
}

/// Appends the trace of the spans at these spots, in their order. The key of each span's process is the number of its
/// entry.
pub(crate) fn take_spots(
    traces: &mut TakenTraces,
    entries: &[TakenEntry],
    spots: &[TakenSpot],
) -> Result<(), AllocError>
    ensures spans { OnOk result (map placed_taken traces.new ≡ map placed_taken traces.old
        ++ placed_taken (trace_spotted (entries_shared entries.now) spots.now) ∷ []) }
    ensures numbers { OnOk result (AreNumberedByEntry (entries_shared entries.now) traces.old →
        AreNumberedByEntry (entries_shared entries.now) traces.new) }
{
    traces.begin()?;
    for spot in spots {
        match taken_at(entries, *spot)? {
            Some(span) => traces.push(span)?,
            // Impossible in a store: a spot of no span. No clause says so.
            None => {}
        }
    }
    Ok(())
}
