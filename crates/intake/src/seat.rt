//! Where batches and limits are submitted.

ghost use Rattle.std.specs.Prelude.{◌≡◌, ◌<◌, ◌+◌, true, false, length, [], MatchOption, OnOk, OnErr, IfOk, IfErr};
ghost use Rattle.std.specs.Arc.{arc_value};
ghost use Rattle.crossbeam_queue.specs.Passes.{view, IsPassOf, ruled_capacity};
ghost use Rattle.trace_model.specs.declared.entry.Work.TheVariants as brings;
ghost use Rattle.intake.specs.Seats.{next_job, with_job, HasNextNumber, IsNotQueued, IsEndOf, IsNewSeat};
ghost use Rattle.intake.specs.declared.opening.TheConstants.{MAX_SEATS};

use crate::answer_slot::AnswerSlot;
use crate::job::Job;
use crate::queue::{PushJob, QueueEnd, Retire};
use crate::shared::Shared;
use crate::ticket::Ticket;
use jaeger_model::Batch;
use read_side::StoreName;
use std::alloc::Global;
use std::marker::Model;
use std::sync::{Arc, Wait};
use trace_model::{Entry, Refusal, TraceLimit, Work};

/// A seat: one thread's producer handle of the queue. Contracts see its desk and number, the jobs that it submitted,
/// and whether it may submit more.
#[derive(Drop)]
pub struct Seat<N: StoreName> {
    shared: Arc<Shared<N>>,
    queue_end: QueueEnd<N>,
    number: u16,
    /// The number of jobs that it submitted.
    submitted: u64,
    /// Whether it may submit more.
    may_submit: bool,
}

impl<N: StoreName> Model for Seat<N> {
    ghost use Rattle.std.specs.Prelude.{◌≡◌, ◌<◌, true, false, length};
    ghost use Rattle.std.specs.Arc.{arc_value};
    ghost use Rattle.crossbeam_queue.specs.Passes.{view as view_at, IsPassOf, ruled_capacity};
    ghost use Rattle.intake.specs.Seats.{SeatValue, seat_value};
    ghost use Rattle.intake.specs.declared.opening.TheConstants.{MAX_SEATS};

    ghost Value = { SeatValue };

    ghost view = { λ s.
        seat_value s.queue_end.table_id (ruled_capacity (arc_value s.shared).queue) s.number
        (view_at s.queue_end) };

    ghost invariant = { λ s. IsPassOf (arc_value s.shared).queue s.queue_end
        × ((view_at s.queue_end).takes ≡ false) × ((view_at s.queue_end).submits ≡ s.may_submit)
        × ((view_at s.queue_end).seat ≡ s.number)
        × (length (view_at s.queue_end).submitted ≡ s.submitted)
        × (s.number < MAX_SEATS) };
}

/// Returns the entry when it has no other owner.
fn unshared<R: Wait>(rt: &R, entry: Arc<Entry>) -> Entry
    ensures { result ≡ arc_value entry }
{
    let mut shared = entry;
    // Impossible: a second try. A refused job comes back with the only owner of its entry.
    for _ in rt.forever() {
        match Arc::try_unwrap(shared) {
            Ok(entry) => return entry,
            Err(again) => shared = again,
        }
    }
    unreachable!()
}

impl<N: StoreName> Seat<N> {
    /// Makes a seat that has submitted nothing.
    pub(crate) fn new(shared: Arc<Shared<N>>, queue_end: QueueEnd<N>, number: u16) -> Seat<N>
        requires queue { IsPassOf (arc_value shared).queue queue_end }
        requires rights { ((view queue_end).takes ≡ false) × ((view queue_end).submits ≡ true) }
        requires seat { (view queue_end).seat ≡ number }
        requires submitted { (view queue_end).submitted ≡ [] }
        requires number { number < MAX_SEATS }
        ensures seat { result.seat ≡ number }
        ensures unused { IsNewSeat queue_end.table_id
            (ruled_capacity (arc_value shared).queue) result }
    {
        Seat {
            shared,
            queue_end,
            number,
            submitted: 0,
            may_submit: true,
        }
    }

    /// Returns the seat's number; the first seat of a desk has 0.
    pub fn number(&self) -> u16
        ensures { result ≡ self.now.seat }
    {
        self.number
    }

    /// Returns the number of jobs that it submitted, which is the number of the last one.
    pub fn submitted(&self) -> u64
        ensures { result ≡ length self.now.jobs }
    {
        self.submitted
    }

    /// Gives up the right to submit, if it has it.
    pub(crate) fn retire(&mut self) -> Option<QueueEnd<N>>
        ensures { MatchOption result
            ((self.old.may_submit ≡ false) × (self.new ≡ self.old))
            (λ e. IsEndOf self.old e × (self.new ≡ record self.old { may_submit = false })) }
    {
        if !self.may_submit {
            return None;
        }
        self.may_submit = false;
        Some(self.shared.queue.another::<Retire>(&mut self.queue_end))
    }

    /// Submits a batch, as the entry with the seat's next number.
    ///
    /// A refused batch comes back with the refusal, and uses no number. The call may wait for other seats and for
    /// the clerk, never for a reader.
    ///
    /// # Errors
    ///
    /// [`Refusal::Closed`]: the desk was closed, the seat has ended, or its numbers are used up; then
    /// [`Refusal::NoMemory`]; then [`Refusal::Busy`]: the queue was full at some moment of the call (tested, not
    /// proved).
    pub fn submit<R: Wait>(
        &mut self,
        rt: &R,
        alloc: Global,
        batch: Batch,
    ) -> Result<Ticket<N>, (Refusal, Batch)>
        ensures may { OnOk result (HasNextNumber self.old) }
        ensures job { IfOk result (λ ticket. ticket ≡ next_job self.old (brings.Batch batch)) }
        ensures submitted { OnOk result
            (self.new ≡ with_job self.old (next_job self.old (brings.Batch batch))) }

        ensures batch_back { IfErr result (λ r. r.1 ≡ batch) }
        ensures unchanged { OnErr result (self.new ≡ self.old) }
        ensures reason { IfErr result (λ r. IsNotQueued self.old r.0) }
    {
        // For the prover: the match takes the clauses `work_back` and `reason` of `enqueue` apart.
        match self.enqueue(rt, alloc, Work::Batch(batch)) {
            Ok(ticket) => Ok(ticket),
            Err((refusal, Work::Batch(batch))) => Err((refusal, batch)),
            Err((_, Work::TraceLimit(_))) => unreachable!(),
        }
    }

    /// Submits a trace limit, as the entry with the seat's next number: from that entry on this number of newest
    /// traces is shown, or all if it is 0.
    ///
    /// A refused limit uses no number. The call may wait as [`submit`](Self::submit) may. `serve` never calls it: its
    /// limit is an option.
    ///
    /// # Errors
    ///
    /// Those of [`submit`](Self::submit), judged in the same order.
    pub fn submit_limit<R: Wait>(
        &mut self,
        rt: &R,
        alloc: Global,
        limit: TraceLimit,
    ) -> Result<Ticket<N>, Refusal>
        ensures may { OnOk result (HasNextNumber self.old) }
        ensures job { IfOk result (λ ticket. ticket ≡ next_job self.old (brings.TraceLimit limit)) }
        ensures submitted { OnOk result
            (self.new ≡ with_job self.old (next_job self.old (brings.TraceLimit limit))) }

        ensures unchanged { OnErr result (self.new ≡ self.old) }
        ensures reason { IfErr result (λ why. IsNotQueued self.old why) }
    {
        // For the prover: the match takes the clauses `job` and `reason` of `enqueue` apart.
        match self.enqueue(rt, alloc, Work::TraceLimit(limit)) {
            Ok(ticket) => Ok(ticket),
            Err((refusal, _)) => Err(refusal),
        }
    }

    /// Submits work, as the entry with the seat's next number. What was refused comes back.
    fn enqueue<R: Wait>(
        &mut self,
        rt: &R,
        alloc: Global,
        work: Work,
    ) -> Result<Ticket<N>, (Refusal, Work)>
        ensures may { OnOk result (HasNextNumber self.old) }
        ensures job { IfOk result (λ ticket. ticket ≡ next_job self.old work) }
        ensures submitted { OnOk result (self.new ≡ with_job self.old (next_job self.old work)) }

        ensures work_back { IfErr result (λ r. r.1 ≡ work) }
        ensures unchanged { OnErr result (self.new ≡ self.old) }
        ensures reason { IfErr result (λ r. IsNotQueued self.old r.0) }
    {
        // Impossible: that a seat has submitted all but one of 2^64 jobs.
        if self.shared.is_closed() || !self.may_submit || self.submitted == u64::MAX {
            return Err((Refusal::Closed, work));
        }
        let number = self.submitted + 1;
        let entry = Entry {
            seat: self.number,
            number,
            work,
        };
        let entry = match Arc::new(alloc, entry) {
            Ok(entry) => entry,
            Err(failed) => return Err((Refusal::NoMemory, failed.value.work)),
        };
        let Ok((ticket, job)) = self.pair(alloc, &entry) else {
            return Err((Refusal::NoMemory, unshared(rt, entry).work));
        };
        match self
            .shared
            .queue
            .push_as::<PushJob, R>(rt, &mut self.queue_end, job)
        {
            Ok(()) => {
                self.submitted = number;
                if self.shared.jobs.ring() {
                    return Ok(ticket.without_spins());
                }
                Ok(ticket)
            }
            Err(job) => {
                drop(job);
                drop(ticket);
                Err((Refusal::Busy, unshared(rt, entry).work))
            }
        }
    }

    /// Makes a ticket and its job.
    fn pair(&self, alloc: Global, entry: &Arc<Entry>) -> Result<(Ticket<N>, Job<N>), Refusal>
        requires { (arc_value entry.now).seat < MAX_SEATS }
        ensures ticket { IfOk result (λ r. r.0 ≡ arc_value entry.now) }
        ensures job { IfOk result (λ r. r.1 ≡ arc_value entry.now) }
    {
        let slot = Arc::new(alloc, AnswerSlot::new(entry))?;
        let job = Job::new(self.shared.keys, entry, &slot)?;
        let shared = Arc::try_clone(&self.shared)?;
        Ok((Ticket::new(Arc::try_clone(entry)?, slot, shared), job))
    }
}
