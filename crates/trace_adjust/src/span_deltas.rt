//! The delta by which each span of a trace moves.

ghost use Rattle.std.specs.Prelude.{◌≡◌, IfOk, length};
ghost use Rattle.trace_adjust.specs.Hosts.{hosts_of, AreHostNumbers};
ghost use Rattle.trace_adjust.specs.SpanDeltas.{AreDeltas, IsZeroWhere};

use crate::clocks::ClockedTrace;
use crate::lent_placed::LentPlaced;
use crate::parents::ParentPlaces;
use std::alloc::{AllocError, Global};

/// Returns the deltas with 0 for each span whose id is repeated.
fn without_repeated(mut deltas: Vec<i128>, repeated: &[bool]) -> Vec<i128>
    requires { length deltas.items ≡ length repeated.now }
    ensures { IsZeroWhere repeated.now deltas.items result.items }
{
    for (place, is_repeated) in repeated.iter().enumerate() {
        if *is_repeated {
            deltas[place] = 0;
        }
    }
    deltas
}

/// Returns the delta of each span, by the numbers of their hosts: that of its clock, or 0 if it has none or if a span
/// before it has its id.
pub(crate) fn all_deltas(
    alloc: Global,
    trace: &[LentPlaced],
    host_numbers: &[u32],
    max_skew: u64,
) -> Result<Vec<i128>, AllocError>
    requires { AreHostNumbers (hosts_of trace.now) trace.now host_numbers.now }
    ensures { IfOk result (λ v. AreDeltas max_skew trace.now v.items) }
{
    let places = ParentPlaces::of(alloc, trace)?;
    let clocked = ClockedTrace {
        spans: trace,
        parents: &places.parents,
        host_numbers,
        max_skew,
    };
    let deltas = clocked.clock_deltas(alloc)?;
    Ok(without_repeated(deltas.into_deltas(), &places.repeated))
}
