//! What a search finds among the candidates that were collected for it.

ghost use Rattle.std.specs.Prelude.{◌≡◌, map, IfOk};
ghost use Rattle.trace_model.specs.Searching.{found_in, ids_of};
ghost use Rattle.trace_model.specs.TakenSpans.{placed_taken};
ghost use Rattle.collected_traces.specs.TakenSearch.{traces_taken, query_taken};
ghost use Rattle.collected_traces.specs.TakenTraces.{ShareByNumber};

use crate::taken::TakenTraces;
use crate::taken_search::TakenSearch;
use jaeger_model::TraceId;
use std::alloc::{AllocError, Global};

/// Takes the traces that a search finds, in the order of its answer.
///
/// # Errors
///
/// Out of memory, and nothing else.
pub fn find_taken(
    alloc: Global,
    search: &mut TakenSearch<'_, '_>,
) -> Result<TakenTraces, AllocError>
    ensures found { IfOk result (λ ts. map placed_taken ts ≡
        found_in (query_taken search.old) (traces_taken search.old)) }
    ensures shared { IfOk result ShareByNumber }
{
    let indices = find_traces::find(alloc, search)?;
    // For the prover: the binding lets the clauses of `take` be used for the result.
    let traces = search.take(alloc, &indices)?;
    Ok(traces)
}

/// Returns the ids of the traces that a search finds, in the order of its answer.
///
/// # Errors
///
/// Out of memory, and nothing else.
pub fn find_taken_ids(
    alloc: Global,
    search: &mut TakenSearch<'_, '_>,
) -> Result<Vec<TraceId>, AllocError>
    ensures { IfOk result (λ v. v.items ≡
        ids_of (found_in (query_taken search.old) (traces_taken search.old))) }
{
    // For the prover: the binding lets the clauses of `find_ids` be used for the result.
    let ids = find_traces::find_ids(alloc, search)?;
    Ok(ids)
}
