//! Collects the spans of traces from the journal: their entries are shared, and no span is copied.

ghost use Rattle.std.specs.Prelude.{◌≡◌, ◌<◌, ◌^◌, ◌++◌, ◌∷◌, [], length, map, IfOk, IfSome, OnOk};
ghost use Rattle.std.specs.Option.{option_and_then};
ghost use Rattle.trace_assembly.specs.LocatedSpans.{span_at};
ghost use Rattle.collected_traces.specs.EntriesAtPlaces.{process_at, spans_named};
ghost use Rattle.collected_traces.specs.TakenTraces.{HasProcess};
ghost use Rattle.journal_traces.specs.SpansAtSpots.{AreNumberedByPlace};
ghost use Rattle.trace_model.specs.TakenSpans.{placed_taken};

use arrival_journal::Journal;
use collected_traces::TakenTraces;
use std::alloc::AllocError;
use trace_assembly::{Spot, Spots};
use trace_model::TakenSpan;

/// Returns the span at a spot, if there is one. The key of its process is the place of its entry.
pub(crate) fn taken_at(journal: &Journal, spot: Spot) -> Result<Option<TakenSpan>, AllocError>
    requires few { length journal.now.held.entries < 2 ^ 32 }
    ensures span { IfOk result (λ t. option_and_then (λ s. s.span) t ≡
        span_at journal.now.held.entries spot) }
    ensures number { IfOk result (λ t. IfSome t
        (HasProcess (process_at journal.now.held.entries))) }
{
    // Impossible in a store: a spot of no entry. No clause says so.
    let Some(entry) = journal.entry(spot.place) else {
        return Ok(None);
    };
    // For the prover: the binding lets the clauses of `new` be used for the result.
    let taken = TakenSpan::new(entry, spot.index, spot.place as u32)?;
    Ok(taken)
}

/// Adds the trace of the spans at these spots, in their order. The key of each span's process is the place of its entry.
///
/// # Errors
///
/// Out of memory, and nothing else. The last trace may then lack spans.
pub fn take_trace(
    traces: &mut TakenTraces,
    journal: &Journal,
    spots: Spots<'_>,
) -> Result<(), AllocError>
    requires few { length journal.now.held.entries < 2 ^ 32 }
    ensures spans { OnOk result (map placed_taken traces.new ≡ map placed_taken traces.old
        ++ spans_named journal.now.held.entries spots.entry ∷ []) }
    ensures numbers { OnOk result (AreNumberedByPlace journal.now.held.entries traces.old →
        AreNumberedByPlace journal.now.held.entries traces.new) }
{
    traces.begin()?;
    for spot in spots {
        // Impossible in a store: a spot of no span. No clause says so.
        if let Some(span) = taken_at(journal, spot)? {
            traces.push(span)?;
        }
    }
    Ok(())
}
