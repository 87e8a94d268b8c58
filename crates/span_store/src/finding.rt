//! Searches over traces in the journal.

ghost use Rattle.std.specs.Prelude.{◌≡◌, ◌<◌, ◌^◌, ◌++◌, ◌∷◌, [], IfOk, OnOk, length, map, slice_index_or};
ghost use Rattle.trace_model.specs.Searching.{found_in, ids_of};
ghost use Rattle.journal_traces.specs.CandidateTraces.{traces_of, query_of};
ghost use Rattle.journal_traces.specs.SpansAtSpots.{AreNumberedByPlace};
ghost use Rattle.trace_model.specs.TakenSpans.{placed_taken};

use collected_traces::TakenTraces;
use jaeger_model::TraceId;
use journal_traces::{CandidateSearch, take_trace};
use std::alloc::{AllocError, Global};

/// Collects the trace at an index, without spans if there is none.
fn take_at(
    taken: &mut TakenTraces,
    traces: &CandidateSearch<'_>,
    index: usize,
) -> Result<(), AllocError>
    requires few { length traces.now.store.journal.now.held.entries < 2 ^ 32 }
    ensures spans { OnOk result (map placed_taken taken.new ≡ map placed_taken taken.old
        ++ slice_index_or (traces_of traces.now) index [] ∷ []) }
    ensures numbers { OnOk result
        (AreNumberedByPlace traces.now.store.journal.now.held.entries taken.old →
        AreNumberedByPlace traces.now.store.journal.now.held.entries taken.new) }
{
    match traces.spots.get(index) {
        Some(spots) => take_trace(taken, traces.store.journal, spots.duplicate()),
        None => taken.begin(),
    }
}

/// Collects the traces at the indices, with room for one span of each.
fn take_places(
    alloc: Global,
    traces: &CandidateSearch<'_>,
    indices: &[usize],
) -> Result<TakenTraces, AllocError>
    requires few { length traces.now.store.journal.now.held.entries < 2 ^ 32 }
    ensures spans { IfOk result (λ t. map placed_taken t ≡
        map (λ i. slice_index_or (traces_of traces.now) i []) indices.now) }
    ensures numbers { IfOk result (AreNumberedByPlace traces.now.store.journal.now.held.entries) }
{
    let mut taken = TakenTraces::with_capacity(alloc, indices.len(), indices.len())?;
    for index in indices {
        take_at(&mut taken, traces, *index)?;
    }
    Ok(taken)
}

/// Collects the traces that a search finds, in the order of its answer.
pub(crate) fn take_found(
    alloc: Global,
    traces: CandidateSearch<'_>,
) -> Result<TakenTraces, AllocError>
    requires few { length traces.store.journal.now.held.entries < 2 ^ 32 }
    ensures found { IfOk result (λ t. map placed_taken t ≡
        found_in (query_of traces.entry) (traces_of traces.entry)) }
    ensures numbers { IfOk result (AreNumberedByPlace traces.entry.store.journal.now.held.entries) }
{
    // For the prover: a copy is searched, so that what is known of `traces` is known afterwards too.
    let mut search = traces;
    let indices = find_traces::find(alloc, &mut search)?;
    // For the prover: the binding lets the clauses of `take_places` be used for the result.
    let taken = take_places(alloc, &traces, &indices)?;
    Ok(taken)
}

/// Returns the ids of the traces that a search finds.
pub(crate) fn find_ids(
    alloc: Global,
    traces: &mut CandidateSearch<'_>,
) -> Result<Vec<TraceId>, AllocError>
    ensures { IfOk result (λ v. v.items ≡
        ids_of (found_in (query_of traces.old) (traces_of traces.old))) }
{
    // For the prover: the binding lets the clauses of `find_ids` be used for the result.
    let ids = find_traces::find_ids(alloc, traces)?;
    Ok(ids)
}

/// Returns the number of traces that a search finds.
pub(crate) fn count_found(
    alloc: Global,
    traces: &mut CandidateSearch<'_>,
) -> Result<usize, AllocError>
    ensures { IfOk result (λ n. n ≡
        length (found_in (query_of traces.old) (traces_of traces.old))) }
{
    let indices = find_traces::find(alloc, traces)?;
    Ok(indices.len())
}
