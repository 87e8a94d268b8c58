//! The clerk's end of the queue.

ghost use Rattle.std.specs.Prelude.{◌≡◌, ◌⊎◌, ◌==◌, ◌||◌, true, false, [], ◌∷◌, ◌++◌, List, length, MatchOption};
ghost use Rattle.std.specs.Arc.{arc_value};
ghost use Rattle.crossbeam_queue.specs.Passes.{view, IsPassOf};
ghost use Rattle.trace_model.specs.declared.entry.Entry.{Entry};
ghost use Rattle.intake.specs.Queues.{AreLast, AreWhole, ended_seat, jobs_of};
ghost use Rattle.intake.specs.Turns.{inbox_value, WasEmpty};
ghost use Rattle.intake.specs.Books.{HasEnded, StillEnded, has_job};

use crate::job::Job;
use crate::queue::{PopJob, QueueEnd, TakeIn};
use crate::seat::Seat;
use crate::shared::Shared;
use read_side::StoreName;
use std::marker::Model;
use std::sync::{Arc, Wait};

/// The clerk's end of the queue. Contracts see all jobs that were taken, and what ended seats submitted.
#[derive(Drop)]
pub struct Inbox<N: StoreName> {
    shared: Arc<Shared<N>>,
    queue_end: QueueEnd<N>,
    /// For each seat the number of its last job that was taken; 0 if none was.
    last: Vec<u64>,
}

impl<N: StoreName> Model for Inbox<N> {
    ghost use Rattle.std.specs.Prelude.{◌≡◌, true, false};
    ghost use Rattle.std.specs.Arc.{arc_value};
    ghost use Rattle.crossbeam_queue.specs.Passes.{view as view_at, IsPassOf};
    ghost use Rattle.intake.specs.Queues.{AreLast};
    ghost use Rattle.intake.specs.Turns.{InboxValue, inbox_value};

    ghost Value = { InboxValue };

    ghost view = { λ i. inbox_value i.queue_end.table_id (view_at i.queue_end) };

    ghost invariant = { λ i. IsPassOf (arc_value i.shared).queue i.queue_end
        × ((view_at i.queue_end).takes ≡ true) × ((view_at i.queue_end).submits ≡ false)
        × AreLast (view_at i.queue_end).made (view_at i.queue_end).taken i.last.items };
}

impl<N: StoreName> Inbox<N> {
    /// Makes the clerk's end, with the number of each seat's last job that was taken.
    pub(crate) fn new(shared: Arc<Shared<N>>, queue_end: QueueEnd<N>, last: Vec<u64>) -> Inbox<N>
        requires queue { IsPassOf (arc_value shared).queue queue_end }
        requires clerk { ((view queue_end).takes ≡ true) × ((view queue_end).submits ≡ false) }
        requires last { AreLast (view queue_end).made (view queue_end).taken last.items }
        ensures { result ≡ inbox_value queue_end.table_id (view queue_end) }
    {
        Inbox {
            shared,
            queue_end,
            last,
        }
    }

    /// Takes the next job, if there is one.
    pub(crate) fn pop<R: Wait>(&mut self, rt: &R) -> Option<Job<N>>
        ensures { MatchOption result
            ((self.new ≡ self.old) × WasEmpty self.old.ended self.old.taken)
            (λ j. self.new ≡ record self.old { taken = self.old.taken ++ j ∷ [] }) }
    {
        let job = self
            .shared
            .queue
            .pop_as::<PopJob, R>(rt, &mut self.queue_end)?;
        let (seat, number) = job.id();
        self.last[seat as usize] = number;
        Some(job)
    }

    /// Returns the number of the seat's last job that was taken; 0 if none was.
    fn last_taken(&self, seat: u16) -> u64
        ensures { result ≡ length (jobs_of seat self.now.taken) }
    {
        match self.last.get(seat as usize) {
            Some(number) => *number,
            // There is no such seat, so it submitted no job.
            None => 0,
        }
    }

    /// Returns whether the seat's job with this number was taken. There is no job with the number 0.
    pub(crate) fn has_taken(&self, seat: u16, number: u64) -> bool
        ensures { result ≡ ((number == 0) || has_job seat number self.now.taken) }
    {
        // For the prover: the invariant of `self`, which this read opens, is used below.
        let _counted = &self.last;
        number <= self.last_taken(seat)
    }

    /// Takes over a seat's right to submit.
    fn take_in(&mut self, end: QueueEnd<N>)
        requires queue { (end.table_id ≡ self.old.desk) × (end.me.1 ≡ []) }
        requires seat { ((view end).submits ≡ true) × ((view end).takes ≡ false) }
        ensures { self.new ≡ record self.old {
          ended = ended_seat (view end).seat (view end).submitted ∷ self.old.ended;
        } }
    {
        self.shared.queue.absorb::<TakeIn>(&mut self.queue_end, end);
    }

    /// Ends a seat, unless it has ended.
    pub(crate) fn end_seat(&mut self, seat: &mut Seat<N>)
        requires desk { self.old.desk ≡ seat.old.desk }
        requires seat { (seat.old.may_submit ≡ true)
            ⊎ HasEnded self.old.ended seat.old.seat seat.old.jobs }
        ensures seat { seat.new ≡ record seat.old { may_submit = false } }
        ensures same { (self.new.desk ≡ self.old.desk) × (self.new.taken ≡ self.old.taken) }
        ensures ended { HasEnded self.new.ended seat.old.seat seat.old.jobs }
        ensures others { StillEnded self.old.ended self.new.ended }
    {
        if let Some(end) = seat.retire() {
            self.take_in(end);
        }
    }

    /// For the prover: looks at the queue, which shows that the jobs taken and queued include all those of ended
    /// seats.
    pub(crate) fn learn_queue(&mut self)
        ensures same { self.new ≡ self.old }
        ensures waits { (items : List Entry) × AreWhole self.old.ended (self.old.taken ++ items) }
    {
        self.shared.queue.learn_as::<PopJob>(&mut self.queue_end);
    }
}
