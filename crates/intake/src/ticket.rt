//! What a seat waits for.

ghost use Rattle.std.specs.Prelude.{◌≡◌, ◌<◌, IfOk, IfErr};
ghost use Rattle.std.specs.Arc.{arc_value};
ghost use Rattle.read_side.specs.Receipts.{AnsweredAt};
ghost use Rattle.intake.specs.Seats.{IsUnacknowledged};
ghost use Rattle.intake.specs.Denials.{IsDenied, IsDeniedSomehow};
ghost use Rattle.intake.specs.declared.opening.TheConstants.{MAX_SEATS};

use crate::answer_slot::AnswerSlot;
use crate::denial::Denial;
use crate::shared::Shared;
use read_side::{Receipt, StoreName};
use std::marker::Model;
use std::sync::{Arc, Wait};
use trace_model::{Entry, Refusal};

/// The number of spins of a ticket for its answer before it sleeps.
const ANSWER_SPINS: u32 = 40;

/// An acknowledgement: a receipt, and the place in its list, counted from 1, of the entry that answers for the
/// job's: that one itself, or the one that had its batch before.
#[derive(Drop)]
pub struct Ack<N: StoreName> {
    pub receipt: Arc<Receipt<N>>,
    pub place: u64,
}

/// A ticket: the receiver of a one-shot channel, which waits for the answer to one job. Contracts see the job's entry.
#[derive(Drop)]
pub struct Ticket<N: StoreName> {
    /// The job's entry. The clerk gives up its own share before it answers, so the waiting thread frees an entry
    /// that the store does not keep.
    entry: Arc<Entry>,
    slot: Arc<AnswerSlot<N>>,
    shared: Arc<Shared<N>>,
    /// The number of spins before it sleeps.
    spins: u32,
}

impl<N: StoreName> Model for Ticket<N> {
    ghost use Rattle.std.specs.Prelude.{◌≡◌, ◌<◌};
    ghost use Rattle.std.specs.Arc.{arc_value};
    ghost use Rattle.trace_model.specs.declared.entry.Entry.{Entry};
    ghost use Rattle.intake.specs.declared.opening.TheConstants.{MAX_SEATS};

    ghost Value = { Entry };

    ghost view = { λ t. arc_value t.entry };

    ghost invariant = { λ t. (arc_value t.slot ≡ arc_value t.entry)
        × ((arc_value t.entry).seat < MAX_SEATS) };
}

impl<N: StoreName> Ticket<N> {
    /// Makes a ticket for the entry, whose answer comes into the slot.
    pub(crate) fn new(
        entry: Arc<Entry>,
        slot: Arc<AnswerSlot<N>>,
        shared: Arc<Shared<N>>,
    ) -> Ticket<N>
        requires slot { arc_value slot ≡ arc_value entry }
        requires seat { (arc_value entry).seat < MAX_SEATS }
        ensures { result ≡ arc_value entry }
    {
        Ticket {
            entry,
            slot,
            shared,
            spins: ANSWER_SPINS,
        }
    }

    /// Returns the ticket for a job whose submission woke the clerk. It sleeps at once, since a thread that wakes
    /// takes longer than the spins.
    pub(crate) fn without_spins(self) -> Ticket<N>
        ensures { result ≡ self }
    {
        Ticket { spins: 0, ..self }
    }

    /// Waits for the answer. An acknowledgement's list has at the place an entry that answers for the job's: its
    /// own, or the one that had its batch before. A refusal by the keeper is returned without its list, which
    /// [`answer`](Self::answer) returns too. Only tests call it.
    ///
    /// # Errors
    ///
    /// The keeper's refusals [`Refusal::Conflict`], [`Refusal::Stale`], [`Refusal::JournalFull`],
    /// [`Refusal::NoMemory`] and [`Refusal::Deferred`]. If the clerk has ended without an answer:
    /// [`Refusal::Closed`] if the desk was closed, else [`Refusal::NoReply`].
    pub fn wait<R: Wait>(self, rt: &R) -> Result<Ack<N>, Refusal>
        ensures answered { IfOk result (λ a.
            AnsweredAt (arc_value a.receipt).entries a.place self) }
        ensures reason { IfErr result IsUnacknowledged }
        ensures denied { IfErr result (IsDeniedSomehow N.limits self) }
    {
        // For the prover: the match takes the clauses `answered` and `denied` of `answer` apart.
        match self.answer(rt) {
            Ok(ack) => Ok(ack),
            Err(denial) => Err(denial.refusal),
        }
    }

    /// Waits for the answer as [`wait`](Self::wait) does. A refusal by the keeper comes with the list by which the
    /// job's entry is refused for that reason, so it can be checked.
    ///
    /// # Errors
    ///
    /// Those of [`wait`](Self::wait).
    pub fn answer<R: Wait>(self, rt: &R) -> Result<Ack<N>, Denial<N>>
        ensures answered { IfOk result (λ a.
            AnsweredAt (arc_value a.receipt).entries a.place self) }
        ensures denied { IfErr result (λ d. IsDenied N.limits self d.refusal d.list) }
    {
        for _ in rt.forever() {
            let rings = self.rings();
            let ended = self.shared.has_ended();
            if let Some(answer) = self.slot.take() {
                return answer;
            }
            if ended {
                let refusal = self.shared.refusal_without_answer();
                return Err(Denial {
                    refusal,
                    list: None,
                });
            }
            self.await_ring(rt, rings);
        }
        unreachable!()
    }

    /// Returns the number of rings of the seat's bell.
    fn rings(&self) -> u64 {
        self.shared.bell(self.entry.seat).rings()
    }

    /// Waits until the seat's bell rings again.
    fn await_ring<R: Wait>(&self, rt: &R, rings: u64) {
        self.shared
            .bell(self.entry.seat)
            .wait(rt, rings, self.spins);
    }
}
