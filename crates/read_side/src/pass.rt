//! Reads of the published list.
ghost use Rattle.std.specs.Borrow.{RestsIfErr, sem};
ghost use Rattle.std.specs.Prelude.{◌≡◌, ◌≤◌, ◌<◌, ◌⊎◌, length, true, false, OnOk, IfOk, IfErr, IsTrue, MatchBool, Err};
ghost use mathlib.Core.List.{IsPrefix};
ghost use Rattle.trace_model.specs.declared.refusal.Refusal.TheVariants.{NoMemory, Behind, Gone};
ghost use Rattle.trace_model.specs.Histories.{IsLegal};
ghost use Rattle.trace_model.specs.Answers.{answer};
ghost use Rattle.read_side.specs.Passes.{with_inside, come_out};
ghost use Rattle.read_side.specs.contracts.pass.Pass.{the_row};

use crate::held::Held;
use crate::history::StoreName;
use crate::prefix::HistoryPrefix;
use crate::reader_state::{CopyReading, ReaderState};
use crate::receipt::Receipt;
use span_store::Collected;
use std::marker::Model;
use std::mem;
use trace_model::{Answer, Query, Refusal};

/// An answer, and the number of entries of the list from which it was computed.
#[derive(Drop)]
pub struct Reading {
    pub front: u64,
    pub answer: Answer,
}

/// What was collected for an answer, and the number of entries of the list from which it was collected.
#[derive(Drop)]
pub(crate) struct Collection<'q> {
    front: u64,
    collected: Collected<'q>,
}

impl<'q> Collection<'q> {
    /// Computes the answer, without the store.
    ///
    /// # Errors
    ///
    /// [`Refusal::NoMemory`] alone.
    pub(crate) fn reading(self) -> Result<Reading, Refusal>
        ensures front { IfOk result (λ r. r.front ≡ self.entry.front) }
        ensures answer { IfOk result (λ r. r.answer ≡ self.entry.collected) }
        ensures reason { IfErr result (λ why. why ≡ NoMemory) }
    {
        let Collection { front, collected } = self;
        let answer = collected.answer()?;
        Ok(Reading { front, answer })
    }
}

/// A pass: one read handle of the store. None of its calls takes a lock or waits.
///
/// Contracts see the list that it entered last, the longest that it knows (that one, or one of a receipt that it
/// has learnt), and whether it is inside. No call shortens the longest. After each call it is outside, except for
/// one that returns a [`Held`].
pub struct Pass<N: StoreName> {
    reader: ReaderState<N>,
    /// The copy that a [`Held`] is inside.
    inside: Option<CopyReading<N>>,
}

impl<N: StoreName> Model for Pass<N> {
    ghost use Rattle.std.specs.Prelude.{◌≡◌, IfSome, is_some};
    ghost use Rattle.left_right.specs.Sides.{view as view_at};
    ghost use Rattle.read_side.specs.Passes.{PassValue, with_inside};

    ghost Value = { PassValue };

    ghost view = { λ p. with_inside p.reader (is_some p.inside) };

    ghost invariant = { λ p. IfSome p.inside (λ i. (i.part.value.entries ≡ p.reader.known)
        × (i.part.value.limits ≡ N.limits) × (view_at i.place ≡ p.reader.known)) };
}

impl<N: StoreName> Drop for Pass<N> {
    fn drop(self) {
        let Pass { mut reader, inside } = self;
        if let Some(inside) = inside {
            reader.leave(inside);
        }
    }
}

impl<N: StoreName> Pass<N> {
    ghost use Rattle.read_side.specs.HeldPasses.{pass_of, held_list, IsInside};

    /// Makes a pass that knows only the empty list.
    pub(crate) fn new(reader: ReaderState<N>) -> Pass<N>
        ensures { result ≡ with_inside reader false }
    {
        Pass {
            reader,
            inside: None,
        }
    }

    /// Returns the number of entries of the longest list that it knows.
    pub fn front(&self) -> u64
        ensures { result ≡ length self.now.known }
    {
        self.reader.front()
    }

    /// Returns the longest list that it knows, as a prefix of the store's history. After a read that is the list of
    /// the answer.
    pub fn history(&self) -> HistoryPrefix<N>
        ensures { result ≡ self.now.known }
    {
        self.reader.history()
    }

    /// Learns a receipt: the pass knows its list from then on.
    pub fn learn(&mut self, receipt: &Receipt<N>)
        ensures old { IsPrefix self.old.known self.new.known }
        ensures learnt { IsPrefix receipt.now.entries self.new.known }
        ensures no_more { (self.new.known ≡ self.old.known) ⊎
            (self.new.known ≡ receipt.now.entries) }
        ensures entered { self.new.entered ≡ self.old.entered }
        ensures outside { self.new.is_inside ≡ false }
    {
        self.leave();
        self.reader.learn(receipt);
    }

    /// Enters the published list, of which all that the pass knows is a prefix, and stays inside: until the
    /// [`Held`] is left or dropped, each of its reads is of this one list. The pass knows the list from then on.
    /// Allocates nothing.
    ///
    /// # Errors
    ///
    /// [`Refusal::Gone`] alone: the keeper was closed, and nothing has changed.
    pub fn hold(&mut self) -> Result<Held<'_, N>, Refusal>
        ensures same { IfOk result (λ h. (pass_of h).ghost_name ≡ self.entry.ghost_name) }
        ensures inside { IfOk result (λ h. IsInside h) }
        ensures later { IfOk result (λ h. IsPrefix self.old.known (held_list h)) }
        ensures entered { IfOk result (λ h. (pass_of h).now.entered ≡ held_list h) }
        ensures legal { IfOk result (λ h. IsLegal N.limits (held_list h)) }
        ensures reason { IfErr result (λ why. why ≡ Gone) }
        ensures* gone { sem 𝓛 (RestsIfErr (the_row N.row N.StoreName) self.entry
            (λ h. (pass_of h).ghost_name) result (λ after. after ≡ come_out self.old)) }
    {
        if self.enter() {
            Ok(Held::new(self))
        } else {
            Err(Refusal::Gone)
        }
    }

    /// Answers a query from the published list, of which all that the pass knows is a prefix. The pass knows the
    /// list from then on. Inside, it only collects what the answer needs; no publish waits for the rest.
    ///
    /// # Errors
    ///
    /// [`Refusal::NoMemory`]: the pass knows the list that it entered, which is legal, and nothing else has
    /// changed. [`Refusal::Gone`]: the keeper was closed, and nothing has changed.
    pub fn read(&mut self, query: &Query) -> Result<Reading, Refusal>
        ensures later { IsPrefix self.old.known self.new.known }
        ensures entered { OnOk result (self.new.entered ≡ self.new.known) }
        ensures legal { OnOk result (IsLegal N.limits self.new.known) }
        ensures front { IfOk result (λ r. r.front ≡ length self.new.known) }
        ensures answer { IfOk result (λ r. r.answer ≡ answer N.limits self.new.known query.now) }

        ensures reason { IfErr result (λ why. (why ≡ NoMemory) ⊎ (why ≡ Gone)) }
        ensures no_memory { result ≡ Err NoMemory →
            (self.new.entered ≡ self.new.known) × IsLegal N.limits self.new.known }
        ensures gone { result ≡ Err Gone → self.new ≡ come_out self.old }
        ensures outside { self.new.is_inside ≡ false }
    {
        let Ok(held) = self.hold() else {
            return Err(Refusal::Gone);
        };
        let collection = held.collect(query);
        held.leave();
        collection?.reading()
    }

    /// Learns a receipt, enters the published list, and succeeds if the front that the pass had seen before the
    /// call is at most the receipt's. Then all that it had read is a prefix of the receipt's list.
    ///
    /// The server doesn't call it: tests check by it what a pass has seen.
    ///
    /// # Errors
    ///
    /// [`Refusal::Behind`], with the longer front that it had seen. [`Refusal::Gone`]: the keeper was closed. In
    /// each case the pass has learnt the receipt, and in each but the last it knows the list that it entered, which
    /// is legal.
    pub fn settle(&mut self, receipt: &Receipt<N>) -> Result<(), Refusal>
        ensures settled { OnOk result (length self.old.known ≤ length receipt.now.entries) }
        ensures begins { OnOk result (IsPrefix self.old.known receipt.now.entries) }

        ensures reason { IfErr result (λ why.
            (why ≡ Behind (length self.old.known)) ⊎ (why ≡ Gone)) }
        ensures behind { result ≡ Err (Behind (length self.old.known)) →
            length receipt.now.entries < length self.old.known }

        ensures old { IsPrefix self.old.known self.new.known }
        ensures learnt { IsPrefix receipt.now.entries self.new.known }
        ensures entered { OnOk result
            ((self.new.entered ≡ self.new.known) × IsLegal N.limits self.new.known) }
        ensures entered_behind { result ≡ Err (Behind (length self.old.known)) →
            (self.new.entered ≡ self.new.known) × IsLegal N.limits self.new.known }
        ensures gone { result ≡ Err Gone →
            (self.new.known ≡ self.old.known) ⊎ (self.new.known ≡ receipt.now.entries) }
        ensures outside { self.new.is_inside ≡ false }
    {
        let front = self.reader.front();
        self.learn(receipt);
        if !self.enter() {
            return Err(Refusal::Gone);
        }
        self.leave();
        if front > receipt.front() {
            return Err(Refusal::Behind { front });
        }
        Ok(())
    }

    /// Enters the published copy, of whose list all that it knows is a prefix. Returns false, with nothing changed,
    /// if the keeper is gone.
    fn enter(&mut self) -> bool
        ensures inside { self.new.is_inside ≡ result }
        ensures later { MatchBool result (IsPrefix self.old.known self.new.known)
            (self.new ≡ come_out self.old) }
        ensures entered { IsTrue result → self.new.entered ≡ self.new.known }
        ensures legal { IsTrue result → IsLegal N.limits self.new.known }
    {
        self.leave();
        let Some(inside) = self.reader.enter() else {
            return false;
        };
        // It can't be dropped, so what it replaces is matched: nothing.
        match mem::replace(&mut self.inside, Some(inside)) {
            None => {}
            Some(_) => unreachable!(),
        }
        true
    }

    /// Leaves the list, if it is inside.
    pub(crate) fn leave(&mut self)
        ensures { self.new ≡ come_out self.old }
    {
        if let Some(inside) = self.inside.take() {
            self.reader.leave(inside);
        }
    }

    /// Collects what an answer needs from the list that the pass is inside.
    pub(crate) fn collect<'q>(&self, query: &'q Query) -> Result<Collection<'q>, Refusal>
        requires inside { self.now.is_inside ≡ true }
        ensures front { IfOk result (λ c. c.front ≡ length self.now.known) }
        ensures answer { IfOk result (λ c.
            c.collected ≡ answer N.limits self.now.known query.now) }
        ensures reason { IfErr result (λ why. why ≡ NoMemory) }
    {
        let Some(inside) = &self.inside else {
            unreachable!();
        };
        let copy = inside.get();
        let front = copy.len();
        let collected = copy.collect(query)?;
        Ok(Collection { front, collected })
    }
}
