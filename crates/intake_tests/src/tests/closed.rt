//! What is submitted to a closed desk.

use crate::tests::fixture::{Fixture, batch};
use crate::tests::rows::came_back;
use intake::Seat;
use read_side::StoreName;
use std::alloc::{AllocError, Global};
use std::mem::drop;
use std::sync::Wait;
use trace_model::{Refusal, TraceLimit};
use trace_samples::retry;

/// The row of `closed_before_no_memory`: a batch and a limit that are submitted after the desk was closed are refused
/// for that. The check of allocations refuses each in turn, and neither call asks for memory first.
pub(crate) fn closed_for_both<N: StoreName, R: Wait>(
    rt: &R,
    alloc: Global,
    mut fixture: Fixture<N>,
) -> bool {
    fixture.desk.close();
    let said = match fixture.seats.last_mut() {
        Some(seat) => is_batch_refused(rt, alloc, seat) && is_limit_refused(rt, alloc, seat),
        None => false,
    };
    fixture.close(rt);
    said
}

/// Returns whether a batch comes back since the desk is closed. It is made again if memory ran out.
pub(crate) fn is_batch_refused<N: StoreName, R: Wait>(
    rt: &R,
    alloc: Global,
    seat: &mut Seat<N>,
) -> bool {
    match retry(AllocError, || batch(alloc, 1)) {
        Ok(sent) => {
            let answer = seat.submit(rt, alloc, sent);
            came_back(alloc, Some(answer), Refusal::Closed, 1)
        }
        Err(_) => false,
    }
}

/// Returns whether a limit is refused since the desk is closed.
fn is_limit_refused<N: StoreName, R: Wait>(rt: &R, alloc: Global, seat: &mut Seat<N>) -> bool {
    let Some(limit) = TraceLimit::new(0) else {
        return false;
    };
    let answer = seat.submit_limit(rt, alloc, limit);
    let said = matches!(&answer, Err(Refusal::Closed));
    drop(answer);
    said
}
