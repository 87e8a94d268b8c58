//! The state that the seats, their tickets, the clerk and the desk share.

ghost use Rattle.std.specs.Prelude.{◌≡◌, ◌<◌, ◌⊎◌, IfOk, IfErr, length};
ghost use Rattle.std.specs.Arc.{arc_value};
ghost use Rattle.trace_model.specs.declared.refusal.Refusal.TheVariants.{Closed, NoReply};
ghost use Rattle.read_side.specs.Receipts.{AnsweredAt};
ghost use Rattle.intake.specs.Denials.{IsDenied};
ghost use Rattle.intake.specs.declared.opening.TheConstants.{MAX_SEATS};

use crate::answer_slot::{AnswerSlot, JobAnswer};
use crate::bell::Bell;
use crate::queue::Queue;
use crossbeam_utils::CachePadded;
use read_side::{Receipt, StoreName};
use sent_batches::BatchKeys;
use std::sync::atomic::{AtomicBool, Ordering};
use std::sync::{Arc, Mutex, Wait};
use trace_model::Refusal;

#[derive(Drop)]
pub(crate) struct Shared<N: StoreName> {
    /// The keys of the store, by which batches are hashed.
    pub(crate) keys: BatchKeys,
    pub(crate) queue: Queue<N>,
    /// Whether the desk was closed.
    pub(crate) closed: AtomicBool,
    /// Whether the clerk has ended.
    pub(crate) ended: AtomicBool,
    /// Rings when a job was submitted, and when the desk is closed.
    pub(crate) jobs: CachePadded<Bell>,
    /// One for each number that a seat may have: rings when an answer to one of its jobs is stored, and when the clerk
    /// ends. A single bell would wake every waiting thread.
    pub(crate) answer_bells: Vec<CachePadded<Bell>>,
    /// The last receipt that was stored, or the one of the opening.
    pub(crate) last: Mutex<Arc<Receipt<N>>>,
    ghost bell_for_each: { length answer_bells.items ≡ MAX_SEATS },
}

impl<N: StoreName> Shared<N> {
    pub(crate) fn is_closed(&self) -> bool {
        self.closed.load(Ordering::SeqCst)
    }

    pub(crate) fn has_ended(&self) -> bool {
        self.ended.load(Ordering::SeqCst)
    }

    /// Returns the bell of a seat.
    pub(crate) fn bell(&self, seat: u16) -> &Bell
        requires { seat < MAX_SEATS }
    {
        let bell = &self.answer_bells[seat as usize];
        &**bell
    }

    /// Returns why a job has no answer, after the clerk has ended.
    pub(crate) fn refusal_without_answer(&self) -> Refusal
        ensures { (result ≡ Closed) ⊎ (result ≡ NoReply) }
    {
        if self.is_closed() {
            Refusal::Closed
        } else {
            Refusal::NoReply
        }
    }

    /// Closes the desk: no seat submits anything from then on.
    pub(crate) fn close(&self) {
        self.closed.store(true, Ordering::SeqCst);
        self.jobs.ring();
    }

    /// Stores the answer to a seat's job, and its receipt, if it has one.
    pub(crate) fn store_answer<R: Wait>(
        &self,
        rt: &R,
        seat: u16,
        slot: &AnswerSlot<N>,
        job_answer: JobAnswer<N>,
    )
        requires seat { seat < MAX_SEATS }
        requires answered { IfOk job_answer.answer (λ a.
            AnsweredAt (arc_value a.receipt).entries a.place slot.now) }
        requires denied { IfErr job_answer.answer (λ d.
            IsDenied N.limits slot.now d.refusal d.list) }
    {
        if let Some(receipt) = job_answer.receipt() {
            *self.last.lock(rt) = receipt;
        }
        slot.store_answer(job_answer);
        self.bell(seat).ring();
    }

    /// Records that the clerk has ended. Every waiting ticket looks once more.
    pub(crate) fn end(&self) {
        self.ended.store(true, Ordering::SeqCst);
        for bell in &self.answer_bells {
            bell.ring();
        }
    }
}
