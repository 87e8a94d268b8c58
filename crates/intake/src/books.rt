//! What the clerk returns when it ends.

ghost use Rattle.std.specs.Prelude.{◌≡◌, ◌⊎◌, true, false, length, map, IfErr, OnOk};
ghost use Rattle.std.specs.Arc.{arc_value};
ghost use Rattle.trace_model.specs.declared.refusal.Refusal.TheVariants.{NoMemory};
ghost use Rattle.intake.specs.Books.{Balances, HasEnded, AllTaken, desk_jobs, MovesFor, StillEnded, StaysTaken, is_job};

use crate::accounts::Accounts;
use crate::inbox::Inbox;
use crate::seat::Seat;
use read_side::{Keeper, StoreName};
use std::sync::{Arc, Wait};
use trace_model::{Entry, Refusal};

/// The books: the final ledger of the jobs, which the clerk returns when it ends. They have the keeper, the counts of
/// acknowledged and refused jobs, and the jobs that were not judged. Contracts also see the result of each judged job.
///
/// It is not `Drop`, since the keeper isn't: [`Books::close`] it, or take it apart and close the keeper.
pub struct Books<N: StoreName> {
    pub keeper: Keeper<N>,
    /// The counts of the judged jobs. Contracts see an account of each, in the order taken.
    pub accounts: Accounts,
    /// The number of acknowledged jobs.
    pub acknowledged: u64,
    /// The number of refused jobs.
    pub refused: u64,
    /// The jobs that were taken and not judged, in the order taken.
    pub unjudged: Vec<Arc<Entry>>,
    pub inbox: Inbox<N>,
}

/// Returns whether the entry is the seat's job with this number.
fn is_job(entry: &Entry, seat: u16, number: u64) -> bool
    ensures { result ≡ is_job seat number entry.now }
{
    entry.seat == seat && entry.number == number
}

impl<N: StoreName> Books<N> {
    /// Ends a seat of this desk, and moves jobs from the queue to `unjudged` until the seat's last one was taken. If
    /// that was taken before, judged or not, none is moved. After an error a further call continues; after `Ok` a
    /// further call changes nothing.
    ///
    /// The seat's jobs among those judged, followed by those in `unjudged`, are then all that it submitted, in order,
    /// each once, with the numbers 1, 2 and so on.
    ///
    /// # Errors
    ///
    /// [`Refusal::NoMemory`]: the seat has ended, and what was moved is in `unjudged`.
    pub fn take_in_seat<R: Wait>(&mut self, rt: &R, seat: &mut Seat<N>) -> Result<(), Refusal>
        requires desk { self.old.inbox.desk ≡ seat.old.desk }
        requires books { Balances self.old.inbox.taken self.old.accounts
            (map arc_value self.old.unjudged.items) }
        requires seat { (seat.old.may_submit ≡ true)
            ⊎ HasEnded self.old.inbox.ended seat.old.seat seat.old.jobs }

        ensures seat { seat.new ≡ record seat.old { may_submit = false } }
        ensures desk { self.new.inbox.desk ≡ self.old.inbox.desk }
        ensures accounts { self.new.accounts ≡ self.old.accounts }
        ensures counts { (self.new.acknowledged ≡ self.old.acknowledged)
            × (self.new.refused ≡ self.old.refused) }
        ensures keeper { self.new.keeper ≡ self.old.keeper }

        ensures moved { MovesFor seat.old.seat seat.old.jobs
            (desk_jobs self.old.inbox.taken (map arc_value self.old.unjudged.items))
            (desk_jobs self.new.inbox.taken (map arc_value self.new.unjudged.items)) }
        ensures books { Balances self.new.inbox.taken self.new.accounts
            (map arc_value self.new.unjudged.items) }

        ensures ended { HasEnded self.new.inbox.ended seat.old.seat seat.old.jobs }
        ensures others_ended { StillEnded self.old.inbox.ended self.new.inbox.ended }

        ensures whole { OnOk result (AllTaken seat.old.seat seat.old.jobs self.new.inbox.taken) }
        ensures others_whole { OnOk result
            (StaysTaken self.old.inbox.ended self.old.inbox.taken self.new.inbox.taken) }
        ensures reason { IfErr result (λ why. why ≡ NoMemory) }
    {
        self.inbox.end_seat(seat);
        let (number, last) = (seat.number(), seat.submitted());
        if self.inbox.has_taken(number, last) {
            // For the prover: no job of an ended seat is lost.
            self.inbox.learn_queue();
            return Ok(());
        }
        for _ in rt.forever() {
            if self.unjudged.reserve(1).is_err() {
                return Err(Refusal::NoMemory);
            }
            // Impossible: an empty queue. The seat's last job is still in it.
            let Some(job) = self.inbox.pop(rt) else {
                return Ok(());
            };
            let (entry, _slot) = job.split();
            let entry = entry.into_entry();
            let is_last = is_job(&entry, number, last);
            self.unjudged.push_reserved(entry);
            if is_last {
                // For the prover: no job of an ended seat is lost.
                self.inbox.learn_queue();
                return Ok(());
            }
        }
        unreachable!()
    }

    /// Closes the store, and returns the number of jobs that were not judged.
    pub fn close<R: Wait>(self, rt: &R) -> u64
        ensures { result ≡ length (map arc_value self.unjudged.items) }
    {
        let Books {
            keeper,
            accounts: _,
            acknowledged: _,
            refused: _,
            unjudged,
            inbox: _,
        } = self;
        keeper.close(rt);
        unjudged.len() as u64
    }
}
