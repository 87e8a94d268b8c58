//! The collected candidates that a search picked, by their indices.

ghost use Rattle.std.specs.Prelude.{◌≡◌, ◌++◌, ◌∷◌, [], map, IfOk, OnOk};
ghost use Rattle.trace_model.specs.TakenSpans.{placed_taken};
ghost use Rattle.find_traces.specs.FoundIndices.{trace_at};
ghost use Rattle.collected_traces.specs.CollectedCandidates.{trace_spotted, traces_picked, AreNumberedByEntry};

use crate::collected_candidates::CollectedCandidates;
use crate::collected_spans::take_spots;
use crate::taken::TakenTraces;
use crate::taken_spot::TakenSpot;
use std::alloc::{AllocError, Global};

/// Returns the spots of the trace at an index among the picked ones; none if there is no such trace.
pub(crate) fn spots_picked<'t>(
    candidates: &'t CollectedCandidates<'_>,
    picked: &[usize],
    index: usize,
) -> &'t [TakenSpot]
    ensures { placed_taken (trace_spotted candidates.now.entries result.now) ≡
        trace_at (traces_picked candidates.now picked.now) index }
{
    match picked.get(index) {
        Some(trace) => candidates.spots(*trace),
        None => &[],
    }
}

/// Appends the trace at an index among the picked ones, without spans if there is none.
fn take_at(
    traces: &mut TakenTraces,
    candidates: &CollectedCandidates<'_>,
    picked: &[usize],
    index: usize,
) -> Result<(), AllocError>
    ensures spans { OnOk result (map placed_taken traces.new ≡ map placed_taken traces.old
        ++ trace_at (traces_picked candidates.now picked.now) index ∷ []) }
    ensures numbers { OnOk result (AreNumberedByEntry candidates.now.entries traces.old →
        AreNumberedByEntry candidates.now.entries traces.new) }
{
    let spots = spots_picked(candidates, picked, index);
    take_spots(traces, candidates.entries(), spots)
}

/// Counts the spots of the traces at the indices among the picked ones, to allocate exactly.
fn spot_count(candidates: &CollectedCandidates<'_>, picked: &[usize], indices: &[usize]) -> usize {
    let mut count = 0usize;
    for index in indices {
        let spots = spots_picked(candidates, picked, *index);
        count = count.saturating_add(spots.len());
    }
    count
}

/// Takes the traces at the indices among the picked ones.
pub(crate) fn take_picked(
    alloc: Global,
    candidates: &CollectedCandidates<'_>,
    picked: &[usize],
    indices: &[usize],
) -> Result<TakenTraces, AllocError>
    ensures spans { IfOk result (λ ts. map placed_taken ts ≡
        map (trace_at (traces_picked candidates.now picked.now)) indices.now) }
    ensures numbers { IfOk result (AreNumberedByEntry candidates.now.entries) }
{
    let count = spot_count(candidates, picked, indices);
    let mut traces = TakenTraces::with_capacity(alloc, indices.len(), count)?;
    for index in indices {
        take_at(&mut traces, candidates, picked, *index)?;
    }
    Ok(traces)
}
