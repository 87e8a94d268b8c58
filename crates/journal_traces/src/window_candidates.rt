//! The traces that may have a span in a window of time, by the ranges of their blocks: no other trace is read.

ghost use Rattle.std.specs.Prelude.{◌≡◌, Bool, List, IfOk, map, filter, length};
ghost use Rattle.trace_assembly.specs.declared.spot.Spot.{Spot as SpotValue};
ghost use Rattle.trace_assembly.specs.AssembledRows.{spots_of};
ghost use Rattle.journal_traces.specs.TraceRanges.{FailsOutside};

use std::alloc::{AllocError, Global};
use trace_assembly::{Assembly, Spots};
use trace_model::push_tightly;
use trace_ring::{FirstStarts, Window};

/// Returns the spots of each trace of the ring whose range overlaps the window, those of the one opened first
/// at the front. A test that all other traces fail finds the same among these as among all.
///
/// # Errors
///
/// Out of memory, and nothing else.
pub fn spots_within<'a>(
    alloc: Global,
    assembly: &'a Assembly,
    starts: &FirstStarts,
    window: Window,
) -> Result<Vec<Spots<'a>>, AllocError>
    requires { length starts.now.starts ≡ length assembly.now.newest.ids }
    ensures { (p : List SpotValue → Bool) → FailsOutside window starts.now assembly.now p →
        IfOk result (λ v. filter p v.items ≡
        filter p (map (spots_of assembly.now) assembly.now.newest.ids)) }
{
    let mut spots = Vec::new(alloc);
    let mut index = starts.next_within(0, window);
    while index < starts.len() {
        push_tightly(&mut spots, assembly.spots_at(index))?;
        index = starts.next_within(index + 1, window);
    }
    Ok(spots)
}
