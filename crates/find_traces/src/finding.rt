ghost use Rattle.std.specs.Prelude.{◌≡◌, IfOk, map};
ghost use Rattle.find_traces.specs.FoundIndices.{indices_found, trace_at};
ghost use Rattle.trace_model.specs.Searching.{found_in, ids_of};

use crate::best::find_best;
use crate::matched::find_all;
use crate::searched::Searched;
use jaeger_model::TraceId;
use std::alloc::{AllocError, Global};

/// Returns the indices of the traces that a search finds, in the order of its answer: latest first start first, of
/// equal starts the trace opened later, and no more than the limit. With a limit, no more keys than that are kept at
/// once, and first as many traces as the limit are judged, those that start last. Only if some of these don't match are
/// others judged. Without a limit, only those that match are sorted. No contract speaks of these costs.
///
/// # Errors
///
/// Out of memory, and nothing else.
pub fn find<T: Searched>(alloc: Global, traces: &mut T) -> Result<Vec<usize>, AllocError>
    ensures indices { IfOk result (λ v. v.items ≡
        indices_found (T.query traces.old) (T.traces traces.old)) }
    ensures traces { IfOk result (λ v. map (trace_at (T.traces traces.old)) v.items ≡
        found_in (T.query traces.old) (T.traces traces.old)) }
    ensures same_traces { T.traces traces.new ≡ T.traces traces.old }
    ensures same_query { T.query traces.new ≡ T.query traces.old }
{
    if traces.limit() == 0 {
        return find_all(alloc, traces);
    }
    find_best(alloc, traces)
}

/// Returns the ids of the traces that a search finds, in the order of [`find`].
///
/// # Errors
///
/// Out of memory, and nothing else.
pub fn find_ids<T: Searched>(alloc: Global, traces: &mut T) -> Result<Vec<TraceId>, AllocError>
    ensures { IfOk result (λ v. v.items ≡
        ids_of (found_in (T.query traces.old) (T.traces traces.old))) }
{
    let indices = find(alloc, traces)?;
    let mut ids = Vec::with_capacity(alloc, indices.len())?;
    for index in &indices {
        // Impossible: `None`, since a trace that is found has a span. No clause says so.
        if let Some(id) = traces.id_at(*index) {
            ids.push(id)?;
        }
    }
    Ok(ids)
}
