//! Worked rows: a limit that waits after two batches; a queue that is full; a clerk that was dropped; four seats at once.

ghost use Rattle.std.specs.Prelude.{◌≡◌, ◌≤◌};

use crate::tests::closed::closed_for_both;
use crate::tests::fixture::{Fixture, batch, played};
use intake::{Clerk, DeskHandle, Seat, Ticket, Turn};
use jaeger_model::{Batch, TraceId};
use read_side::{EmptyHistory, Keeper, Pass, StoreName};
use std::alloc::{AllocError, Global};
use std::marker::Brand;
use std::mem::{drop, replace};
use std::random::RandomSource;
use std::sync::Wait;
use std::test::*;
use std::thread::{Threads, map_vec};
use trace_model::{Answer, Limits, Query, Refusal, TraceLimit};
use trace_samples::retry;

/// What is played.
#[derive(Clone, Copy)]
pub enum Row {
    LimitBySeat,
    FullThenClosed,
    ClosedForBoth,
    ClerkGone,
    ClosedAndClerkGone,
    FourSeats,
}

impl Row {
    /// Plays the row, and ends the store. Returns whether all was as wanted.
    pub fn play<N: StoreName + Send + Sync, R: Threads + Wait + Sync>(
        self,
        rt: &R,
        alloc: Global,
        fixture: Fixture<N>,
    ) -> bool {
        match self {
            Row::LimitBySeat => limit_after_two(rt, alloc, fixture),
            Row::FullThenClosed => full_then_closed(rt, alloc, fixture),
            Row::ClosedForBoth => closed_for_both(rt, alloc, fixture),
            Row::ClerkGone => clerk_gone(rt, alloc, fixture, false),
            Row::ClosedAndClerkGone => clerk_gone(rt, alloc, fixture, true),
            Row::FourSeats => four_seats(rt, alloc, fixture),
        }
    }
}

/// Plays a row over a store with room for 1,000 batches and 100,000 spans, and a queue with room for this number of
/// jobs.
fn plays<R: Threads + Wait + RandomSource + Sync>(
    rt: &R,
    alloc: Global,
    capacity: usize,
    row: Row,
) -> Result<bool, Fail>
    requires { (1 ≤ capacity) × (capacity ≤ 4096) }
{
    let limits = Limits::new(1000, 100_000, 0, 0).ok_or("limits")?;
    played::<Brand, _>(rt, alloc, EmptyHistory::new(), limits, capacity, row)
}

#[test]
fn limit_by_seat(rt: HostRuntime) -> Result<(), Fail> {
    assert!(rt; plays(&rt, rt.alloc(), 4, Row::LimitBySeat)?);
    Ok(())
}

#[test]
fn a_full_queue_and_a_closed_desk(rt: HostRuntime) -> Result<(), Fail> {
    assert!(rt; plays(&rt, rt.alloc(), 1, Row::FullThenClosed)?);
    Ok(())
}

#[test]
fn closed_before_no_memory(rt: HostRuntime) -> Result<(), Fail> {
    assert!(rt; plays(&rt, rt.alloc(), 1, Row::ClosedForBoth)?);
    Ok(())
}

#[test]
fn no_reply_from_a_clerk_that_went(rt: HostRuntime) -> Result<(), Fail> {
    assert!(rt; plays(&rt, rt.alloc(), 1, Row::ClerkGone)?);
    assert!(rt; plays(&rt, rt.alloc(), 1, Row::ClosedAndClerkGone)?);
    Ok(())
}

#[test]
fn one_of_four_seats(rt: HostRuntime) -> Result<(), Fail> {
    assert!(rt; plays(&rt, rt.alloc(), 1, Row::FourSeats)?);
    Ok(())
}

/// The answer to a batch that is submitted, if there is memory for it.
pub(crate) type SeatAnswer<N> = Option<Result<Ticket<N>, (Refusal, Batch)>>;

/// Submits a batch with this id. Returns None if memory ran out before.
pub(crate) fn submit_span<N: StoreName, R: Wait>(
    rt: &R,
    alloc: Global,
    seat: &mut Seat<N>,
    id: u64,
) -> SeatAnswer<N> {
    match batch(alloc, id) {
        Ok(batch) => Some(seat.submit(rt, alloc, batch)),
        Err(_) => None,
    }
}

/// Returns whether this is the batch with the id, which is made again if memory ran out.
fn is_batch(alloc: Global, back: &Batch, id: u64) -> bool {
    match retry(AllocError, || batch(alloc, id)) {
        Ok(sent) => {
            let same = back.is_same(&sent);
            drop(sent);
            same
        }
        Err(_) => false,
    }
}

/// Returns whether the batch with the id came back, with this refusal.
pub(crate) fn came_back<N: StoreName>(
    alloc: Global,
    answer: SeatAnswer<N>,
    why: Refusal,
    id: u64,
) -> bool {
    let said = match &answer {
        Some(Err((refusal, back))) => *refusal == why && is_batch(alloc, back, id),
        _ => false,
    };
    drop(answer);
    said
}

/// Returns the ticket, if the batch was taken.
fn ticket_of<N: StoreName>(answer: SeatAnswer<N>) -> Option<Ticket<N>> {
    match answer {
        Some(Ok(ticket)) => Some(ticket),
        Some(Err((_, batch))) => {
            drop(batch);
            None
        }
        None => None,
    }
}

/// Returns the place that a ticket returns, if its receipt has it, or the refusal.
fn place_of<N: StoreName, R: Wait>(rt: &R, ticket: Option<Ticket<N>>) -> Result<u64, Refusal> {
    let Some(ticket) = ticket else {
        return Err(Refusal::NoMemory);
    };
    let ack = ticket.wait(rt)?;
    let (place, front) = (ack.place, ack.receipt.front());
    drop(ack);
    if front >= place {
        Ok(place)
    } else {
        Err(Refusal::Stranger)
    }
}

/// Returns the place that is answered to a batch, or the refusal.
fn returned<N: StoreName, R: Wait>(rt: &R, answer: SeatAnswer<N>) -> Result<u64, Refusal> {
    place_of(rt, ticket_of(answer))
}

/// Submits a trace limit.
fn limit_to<N: StoreName, R: Wait>(
    rt: &R,
    alloc: Global,
    seat: &mut Seat<N>,
    traces: u32,
) -> Option<Ticket<N>> {
    match TraceLimit::new(traces) {
        Some(limit) => seat.submit_limit(rt, alloc, limit).ok(),
        None => None,
    }
}

/// The tickets of three jobs, if they were taken.
type Three<N> = (Option<Ticket<N>>, Option<Ticket<N>>, Option<Ticket<N>>);

/// Submits a span each of traces 1 and 2, and a limit of one trace.
fn three_jobs<N: StoreName, R: Wait>(rt: &R, alloc: Global, seat: &mut Seat<N>) -> Three<N> {
    let first = ticket_of(submit_span(rt, alloc, seat, 1));
    let second = ticket_of(submit_span(rt, alloc, seat, 2));
    let limit = limit_to(rt, alloc, seat, 1);
    (first, second, limit)
}

/// Returns whether the pass finds the trace.
fn is_found<N: StoreName>(pass: &mut Pass<N>, low: u64) -> bool {
    let id = TraceId { high: 0, low };
    let reading = pass.read(&Query::Trace { id, raw: true });
    let found = match &reading {
        Ok(reading) => matches!(&reading.answer, Answer::Trace(Some(_))),
        Err(_) => false,
    };
    drop(reading);
    found
}

/// Returns the place of the job whose receipt the pass learns, or why it was refused.
fn learnt<N: StoreName, R: Wait>(
    rt: &R,
    pass: &mut Pass<N>,
    ticket: Option<Ticket<N>>,
) -> Result<u64, Refusal> {
    let ack = ticket.ok_or(Refusal::NoMemory)?.wait(rt)?;
    pass.learn(&ack.receipt);
    let place = ack.place;
    drop(ack);
    Ok(place)
}

/// Returns whether the limit is at place 3, and a pass that learns of it finds trace 2 and not trace 1.
fn is_in_force<N: StoreName, R: Wait>(
    rt: &R,
    pass: &mut Pass<N>,
    limit: Option<Ticket<N>>,
) -> bool {
    learnt(rt, pass, limit) == Ok(3) && is_found(pass, 2) && !is_found(pass, 1)
}

/// Returns whether the pass settles on what the desk vouches for, the three entries of the keeper.
fn is_settled<N: StoreName, R: Wait>(rt: &R, desk: &DeskHandle<N>, pass: &mut Pass<N>) -> bool {
    let settled = match desk.vouch(rt) {
        Ok(receipt) => {
            let settled = pass.settle(&receipt);
            drop(receipt);
            settled
        }
        Err(why) => Err(why),
    };
    settled == Ok(()) && pass.front() == 3
}

/// A span each of traces 1 and 2 and a limit of one trace wait when the desk is closed, and the clerk judges them before it
/// ends.
fn limit_after_two<N: StoreName, R: Wait>(rt: &R, alloc: Global, fixture: Fixture<N>) -> bool {
    let Fixture {
        keeper,
        mut passes,
        desk,
        mut seats,
        clerk,
    } = fixture;
    let (first, second, limit) = match seats.last_mut() {
        Some(seat) => three_jobs(rt, alloc, seat),
        None => (None, None, None),
    };
    drop(seats);
    desk.close();
    let books = clerk.run(rt, keeper);
    let places = (place_of(rt, first), place_of(rt, second));
    let in_force = match passes.last_mut() {
        Some(pass) => is_in_force(rt, pass, limit) && is_settled(rt, &desk, pass),
        None => {
            drop(limit);
            false
        }
    };
    let counts = (books.accounts.count(), books.acknowledged, books.refused);
    let left = books.close(rt);
    drop(desk);
    drop(passes);
    places == (Ok(1), Ok(2)) && in_force && counts == (3, 3, 0) && left == 0
}

/// The queue has a job: a second one comes back, from the same seat and from another, and uses no number. The first
/// is served, and then the clerk is idle.
fn is_full<N: StoreName, R: Wait>(
    rt: &R,
    alloc: Global,
    (seat, other): (&mut Seat<N>, &mut Seat<N>),
    (clerk, keeper): (&mut Clerk<N>, &mut Keeper<N>),
) -> bool {
    let same = came_back(alloc, submit_span(rt, alloc, seat, 2), Refusal::Busy, 2);
    let others = came_back(alloc, submit_span(rt, alloc, other, 3), Refusal::Busy, 3);
    let turned = clerk.turn(rt, keeper) == Ok(Turn::Served { seat: 3, number: 1 });
    let idle = clerk.turn(rt, keeper) == Ok(Turn::Idle);
    same && others && turned && idle
}

/// After the desk is closed a batch comes back, and the job is still served.
fn is_closed<N: StoreName, R: Wait>(
    rt: &R,
    alloc: Global,
    other: &mut Seat<N>,
    (clerk, keeper): (&mut Clerk<N>, &mut Keeper<N>),
) -> bool {
    let late = submit_span(rt, alloc, other, 5);
    let closed = came_back(alloc, late, Refusal::Closed, 5);
    let served = clerk.turn(rt, keeper) == Ok(Turn::Served { seat: 3, number: 2 });
    let ended = clerk.turn(rt, keeper) == Ok(Turn::Ended);
    closed && served && ended
}

/// Both, and the seat's two jobs are answered.
fn full_then_closed_at<N: StoreName, R: Wait>(
    rt: &R,
    alloc: Global,
    desk: &DeskHandle<N>,
    (seat, other): (&mut Seat<N>, &mut Seat<N>),
    (clerk, keeper): (&mut Clerk<N>, &mut Keeper<N>),
) -> bool {
    let first = submit_span(rt, alloc, seat, 1);
    let full = is_full(rt, alloc, (seat, other), (clerk, keeper));
    let second = submit_span(rt, alloc, seat, 4);
    desk.close();
    let closed = is_closed(rt, alloc, other, (clerk, keeper));
    let places = (returned(rt, first), returned(rt, second));
    full && closed && places == (Ok(1), Ok(2)) && seat.submitted() == 2
}

/// The queue is full, and then the desk is closed.
fn full_then_closed<N: StoreName, R: Wait>(rt: &R, alloc: Global, mut fixture: Fixture<N>) -> bool {
    let said = match fixture.seats.as_mut_slice() {
        [_, _, other, seat] => full_then_closed_at(
            rt,
            alloc,
            &fixture.desk,
            (seat, other),
            (&mut fixture.clerk, &mut fixture.keeper),
        ),
        _ => false,
    };
    fixture.close(rt);
    said
}

/// The clerk is dropped while a job waits.
fn clerk_gone<N: StoreName, R: Wait>(
    rt: &R,
    alloc: Global,
    fixture: Fixture<N>,
    closed: bool,
) -> bool {
    let Fixture {
        keeper,
        passes,
        desk,
        mut seats,
        clerk,
    } = fixture;
    keeper.close(rt);
    let waiting = match seats.last_mut() {
        Some(seat) => submit_span(rt, alloc, seat, 1),
        None => None,
    };
    if closed {
        desk.close();
    }
    drop(clerk);
    let said = returned(rt, waiting);
    drop(passes);
    drop(desk);
    drop(seats);
    let wanted = if closed {
        Refusal::Closed
    } else {
        Refusal::NoReply
    };
    said == Err(wanted)
}

/// Returns 1 if the queue took a batch, 100 if the seat was refused because the queue was full.
fn taken_or_full<N: StoreName, R: Wait>(rt: &R, alloc: Global, mut seat: Seat<N>) -> u64 {
    let answer = submit_span(rt, alloc, &mut seat, 1);
    let said = match &answer {
        Some(Ok(_)) => 1,
        Some(Err((Refusal::Busy, _))) => 100,
        _ => 10_000,
    };
    drop(answer);
    said
}

/// Returns the sum of what becomes of a batch of each seat, each in its thread.
fn sum_of_seats<N: StoreName + Send + Sync, R: Threads + Wait + Sync>(
    rt: &R,
    alloc: Global,
    seats: Vec<Seat<N>>,
) -> Result<u64, AllocError> {
    let taken = map_vec(rt, seats, &|seat| taken_or_full(rt, alloc, seat))?;
    let mut sum = 0u64;
    for one in taken {
        sum = sum.saturating_add(one);
    }
    Ok(sum)
}

/// Four seats, each in its thread, while the clerk does nothing: the queue takes one job.
fn four_seats<N: StoreName + Send + Sync, R: Threads + Wait + Sync>(
    rt: &R,
    alloc: Global,
    mut fixture: Fixture<N>,
) -> bool {
    let seats = replace(&mut fixture.seats, Vec::new(alloc));
    let sum = sum_of_seats(rt, alloc, seats);
    fixture.close(rt);
    sum == Ok(301)
}
