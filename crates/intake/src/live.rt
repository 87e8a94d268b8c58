//! A shared store as the backend of a session: a seat submits its batches, and a pass reads.
//!
//! Contracts see a [`Live`] as its seat, the longest list that its pass knows, and the longest list by which one of
//! its batches was refused. The pass learns an accepted batch before the call returns, so a session reads its own
//! writes. The relations of its calls speak of all three, so the seat's list of jobs is known at the end of a session,
//! and each refusal is by a prefix of the list that [`Live::refused_by`] returns.
//!
//! * `processes`: shares the process of consecutive batches.

ghost use Rattle.std.specs.Prelude.{◌≡◌, ◌⊎◌, OnOk, OnErr, IfOk, IfErr};
ghost use Rattle.std.specs.Arc.{arc_value};
ghost use mathlib.Core.List.{IsPrefix};
ghost use Rattle.trace_model.specs.declared.entry.Work.TheVariants as brings;
ghost use Rattle.trace_model.specs.declared.entry.Entry.{Entry};
ghost use Rattle.trace_model.specs.Histories.{IsLegal};
ghost use Rattle.intake.specs.Seats.{IsNotQueued, next_job};
ghost use Rattle.intake.specs.Denials.{IsDenied};
ghost use Rattle.intake.specs.LiveStores.{SubmitsAs, IsRefusedJob, LiveSubmits};

mod processes;

use crate::denial::Denial;
use crate::seat::Seat;
use crate::ticket::{Ack, Ticket};
use jaeger_model::{Batch, SharedProcess};
use processes::share_process;
use read_side::{HistoryPrefix, Pass, Receipt, StoreName};
use std::alloc::Global;
use std::marker::Model;
use std::sync::Wait;
use trace_model::{Answer, Backend, Query, Refusal};

/// A seat and a pass of one store.
#[derive(Drop)]
pub struct Live<N: StoreName> {
    seat: Seat<N>,
    pass: Pass<N>,
    /// The process of the last batch submitted.
    process: Option<SharedProcess>,
    /// The longest list by which a batch was refused, or what the pass knew at first.
    refused_by: HistoryPrefix<N>,
}

impl<N: StoreName> Model for Live<N> {
    ghost use Rattle.intake.specs.LiveStores.{LiveValue};

    ghost Value = { LiveValue };

    ghost view = { λ l. record { seat = l.seat; known = l.pass.known; refused_by = l.refused_by } };
}

impl<N: StoreName> Live<N> {
    /// Submits by the seat, and reads by the pass.
    pub fn new(seat: Seat<N>, pass: Pass<N>) -> Live<N>
        ensures seat { result.seat ≡ seat }
        ensures known { result.known ≡ pass.known }
        ensures refused_by { result.refused_by ≡ pass.known }
    {
        let refused_by = pass.history();
        Live {
            seat,
            pass,
            process: None,
            refused_by,
        }
    }

    // For the prover: no code calls it. Contracts of refusals name what it returns.
    /// Returns the longest list by which one of its batches was refused, as a prefix of the store's history; what the
    /// pass knew at first, if none was refused by a longer one.
    pub fn refused_by(&self) -> HistoryPrefix<N>
        ensures { result ≡ self.now.refused_by }
    {
        self.refused_by.duplicate()
    }

    /// Learns the list of a receipt, which it knows from then on.
    pub fn learn(&mut self, receipt: &Receipt<N>)
        ensures seat { self.new.seat ≡ self.old.seat }
        ensures old { IsPrefix self.old.known self.new.known }
        ensures learnt { IsPrefix receipt.now.entries self.new.known }
        ensures no_more { (self.new.known ≡ self.old.known) ⊎
            (self.new.known ≡ receipt.now.entries) }
        ensures refused_by { self.new.refused_by ≡ self.old.refused_by }
    {
        self.pass.learn(receipt);
    }

    /// Submits a batch by the seat, and returns its ticket. The batch shares the process of the batch before, if it is
    /// equal.
    fn submit_batch<R: Wait>(
        &mut self,
        rt: &R,
        alloc: Global,
        batch: Batch,
    ) -> Result<Ticket<N>, Refusal>
        ensures known { self.new.known ≡ self.old.known }
        ensures refused_by { self.new.refused_by ≡ self.old.refused_by }
        ensures job { IfOk result (λ ticket.
            ticket ≡ next_job self.old.seat (brings.Batch batch)) }
        ensures submitted { OnOk result (SubmitsAs self.old.seat batch self.new.seat) }
        ensures unchanged { OnErr result (self.new.seat ≡ self.old.seat) }
        ensures reason { IfErr result (IsNotQueued self.old.seat) }
    {
        let batch = share_process(&mut self.process, batch);
        // For the prover: the match takes the clauses `job` and `reason` of `submit` apart.
        match self.seat.submit(rt, alloc, batch) {
            Ok(ticket) => Ok(ticket),
            Err((refusal, _)) => Err(refusal),
        }
    }

    /// Learns the list of an acknowledgement's receipt, which is legal, and returns the place in it.
    fn learn_ack(&mut self, ack: Ack<N>) -> u64
        ensures place { result ≡ ack.place }
        ensures seat { self.new.seat ≡ self.old.seat }
        ensures old { IsPrefix self.old.known self.new.known }
        ensures learnt { IsPrefix (arc_value ack.receipt).entries self.new.known }
        ensures legal { IsLegal N.limits (arc_value ack.receipt).entries }
        ensures refused_by { self.new.refused_by ≡ self.old.refused_by }
    {
        // For the prover: the clause `legal` here is that of `front`.
        let _front = ack.receipt.front();
        self.pass.learn(&ack.receipt);
        ack.place
    }

    /// Returns why the entry was refused. The list by which it was refused is a prefix of the store's history, and of
    /// `refused_by` from then on.
    fn take_denial(&mut self, denial: Denial<N>) -> Refusal
        ensures refusal { result ≡ denial.refusal }
        ensures seat { self.new.seat ≡ self.old.seat }
        ensures known { self.new.known ≡ self.old.known }
        ensures longer { IsPrefix self.old.refused_by self.new.refused_by }
        ensures history { (e : Entry) → IsDenied N.limits e denial.refusal denial.list →
            IsRefusedJob N.limits e result self.new }
    {
        let Denial { refusal, list } = denial;
        if let Some(list) = list {
            // For the prover: the clause `legal` of `len`, and that of `is_prefix_of`, give the clause `history`.
            let _legal = list.len();
            let _one_begins = list.is_prefix_of(&self.pass.history());
            self.refused_by = self.refused_by.longer(&list);
        }
        refusal
    }

    /// Returns the seat, and the pass with all that it knew.
    pub fn into_parts(self) -> (Seat<N>, Pass<N>)
        ensures seat { result.0 ≡ self.seat }
        ensures known { result.1.known ≡ self.known }
    {
        let Live { seat, pass, .. } = self;
        (seat, pass)
    }
}

impl<N: StoreName, R: Wait> Backend<R> for Live<N> {
    ghost use Rattle.intake.specs.LiveStores.{LiveKnows, LiveSubmits, LiveReads};
    ghost use Rattle.intake.specs.LiveLaws.{submit_knows, read_knows};

    ghost limits = { λ s. N.limits };

    ghost knows = { LiveKnows N.limits };

    ghost submits = { LiveSubmits N.limits };

    ghost reads = { LiveReads N.limits };

    ghost submit_knows = { submit_knows N.limits };

    ghost read_knows = { read_knows N.limits };

    fn submit(&mut self, rt: &R, alloc: Global, batch: Batch) -> Result<u64, Refusal> {
        let ticket = self.submit_batch(rt, alloc, batch)?;
        match ticket.answer(rt) {
            Ok(ack) => Ok(self.learn_ack(ack)),
            Err(denial) => Err(self.take_denial(denial)),
        }
    }

    fn read(&mut self, _alloc: Global, query: &Query) -> Result<Answer, Refusal> {
        Ok(self.pass.read(query)?.answer)
    }
}
