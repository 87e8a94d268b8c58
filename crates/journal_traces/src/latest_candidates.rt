//! The traces that start latest, by their first starts: no other trace is read.

ghost use Rattle.std.specs.Prelude.{◌≡◌, ℤ, int_lt, IfOk, map, filter, length};
ghost use Rattle.jaeger_model.specs.declared.ids.TraceId.{TraceId as TraceIdValue};
ghost use Rattle.trace_assembly.specs.AssembledRows.{spots_of};

use std::alloc::{AllocError, Global};
use trace_assembly::{Assembly, Spots};
use trace_ring::FirstStarts;

/// Returns the spots of each trace of the ring whose first start is after this time, those of the one opened first
/// at the front.
///
/// # Errors
///
/// Out of memory, and nothing else.
pub fn spots_after<'a>(
    alloc: Global,
    assembly: &'a Assembly,
    starts: &FirstStarts,
    time: i64,
) -> Result<Vec<Spots<'a>>, AllocError>
    requires { length starts.now.starts ≡ length assembly.now.newest.ids }
    ensures { (start : TraceIdValue → ℤ) →
        starts.now.starts ≡ map start assembly.now.newest.ids →
        IfOk result (λ v. v.items ≡ map (spots_of assembly.now)
        (filter (λ t. int_lt time (start t)) assembly.now.newest.ids)) }
{
    let indices = starts.positions_after(alloc, time)?;
    let mut spots = Vec::with_capacity(alloc, indices.len())?;
    for index in &indices {
        spots.push(assembly.spots_at(*index))?;
    }
    Ok(spots)
}
