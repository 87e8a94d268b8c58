//! Where the answer to a job is stored for its ticket.

ghost use Rattle.std.specs.Prelude.{◌≡◌, IfOk, IfErr, IfSome};
ghost use Rattle.std.specs.Arc.{arc_value};
ghost use Rattle.read_side.specs.Receipts.{AnsweredAt};
ghost use Rattle.intake.specs.Denials.{IsDenied};

use crate::denial::Denial;
use crate::ticket::Ack;
use counted_slot::{Counted, FREE, Fits, PRESENT, TAKEN};
use read_side::{Receipt, StoreName};
use std::marker::Model;
use std::sync::Arc;
use trace_model::Entry;

/// The answer to a job, as its slot keeps it: a type of this crate, so that [`Fits`] can be implemented for it.
#[derive(Drop)]
pub(crate) struct JobAnswer<N: StoreName> {
    pub(crate) answer: Result<Ack<N>, Denial<N>>,
}

/// It is the answer to this entry: an acknowledgement's list has at its place an entry that answers for it, and a
/// denial's list leaves it out for the given reason.
impl<N: StoreName> Fits for JobAnswer<N> {
    ghost use Rattle.std.specs.Prelude.{IfOk, IfErr};
    ghost use Rattle.std.specs.Arc.{arc_value};
    ghost use Rattle.read_side.specs.Receipts.{AnsweredAt};
    ghost use Rattle.intake.specs.Denials.{IsDenied};

    type Tag = Entry;

    ghost fits = { λ entry job_answer.
        IfOk job_answer.answer (λ a. AnsweredAt (arc_value a.receipt).entries a.place entry)
        × IfErr job_answer.answer (λ d. IsDenied N.limits entry d.refusal d.list) };
}

impl<N: StoreName> JobAnswer<N> {
    /// Returns the receipt of an acknowledgement.
    pub(crate) fn receipt(&self) -> Option<Arc<Receipt<N>>> {
        match &self.answer {
            // Impossible: an error. Only the count of shares changes, and it doesn't come near its limit. A new
            // connection would learn an older receipt.
            Ok(ack) => Arc::try_clone(&ack.receipt).ok(),
            Err(_) => None,
        }
    }
}

/// A slot for the answer to one entry, and to no other. Contracts see the entry, which it doesn't hold.
#[derive(Drop)]
pub(crate) struct AnswerSlot<N: StoreName> {
    slot: Counted<Option<JobAnswer<N>>>,
}

impl<N: StoreName> Model for AnswerSlot<N> {
    ghost use Rattle.trace_model.specs.declared.entry.Entry.{Entry};

    ghost Value = { Entry };

    ghost view = { λ c. c.slot };
}

impl<N: StoreName> AnswerSlot<N> {
    /// Makes an empty slot for the entry.
    pub(crate) fn new(entry: &Entry) -> AnswerSlot<N>
        ensures { result ≡ entry.now }
    {
        AnswerSlot {
            slot: Counted::new(None, entry),
        }
    }

    /// Stores the answer to the entry.
    pub(crate) fn store_answer(&self, job_answer: JobAnswer<N>)
        requires answered { IfOk job_answer.answer (λ a.
            AnsweredAt (arc_value a.receipt).entries a.place self.now) }
        requires denied { IfErr job_answer.answer (λ d.
            IsDenied N.limits self.now d.refusal d.list) }
    {
        let (found, claim) = self.slot.turn(FREE, TAKEN);
        if found != FREE {
            // Impossible: the clerk answers a job once, and nobody else stores an answer. No clause says so. The second
            // answer would be dropped, and the ticket would take the first one, which is an answer to its entry too.
            claim.done();
            return;
        }
        drop(claim.put(Some(job_answer), PRESENT));
    }

    /// Takes the answer, if there is one.
    pub(crate) fn take(&self) -> Option<Result<Ack<N>, Denial<N>>>
        ensures answered { IfSome result (λ r. IfOk r (λ a.
            AnsweredAt (arc_value a.receipt).entries a.place self.now)) }
        ensures denied { IfSome result (λ r. IfErr r (λ d.
            IsDenied N.limits self.now d.refusal d.list)) }
    {
        if self.slot.load() != PRESENT {
            return None;
        }
        let (found, claim) = self.slot.turn(PRESENT, TAKEN);
        if found != PRESENT {
            // Impossible: only its one ticket takes it.
            claim.done();
            return None;
        }
        // Impossible: `None`. A slot that is present holds an answer.
        let JobAnswer { answer } = claim.put(None, FREE)?;
        Some(answer)
    }
}
