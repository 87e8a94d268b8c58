//! The accepted entries, and two copies of a store that hold prefixes of them. One copy is shown; the other one
//! is brought up to date, and they swap roles.

ghost use Rattle.std.specs.Prelude.{◌≡◌, [], length, map, Ok, OnOk, OnErr, IfOk, IfErr, IsErr, if◌then◌else◌};
ghost use Rattle.std.specs.Arc.{arc_value};
ghost use mathlib.Core.List.{IsPrefix};
ghost use Rattle.trace_model.specs.Answers.{answer};
ghost use Rattle.trace_model.specs.Histories.{IsLegal};
ghost use Rattle.trace_model.specs.Refusals.{followed_by};
ghost use Rattle.trace_model.specs.declared.admission.Admission.TheVariants.{Added};
ghost use Rattle.trace_model.specs.declared.refusal.Refusal.TheVariants.{NoMemory};
ghost use Rattle.arrival_journal.specs.Journals.{admission_by};
ghost use Rattle.schedule_core.specs.CopiedLists.{after_admission, all_of, swapped};

use arrival_journal::Journal;
use span_store::SpanStore;
use std::alloc::{AllocError, Global};
use std::hash::RandomState;
use std::marker::Model;
use std::sync::Arc;
use trace_model::{Admission, Answer, Entry, Limits, Query, Refusal};

/// Two copies of a store, and the accepted entries that are not in them yet.
#[derive(Drop)]
pub(crate) struct Copies {
    /// The history, followed by what is pending.
    accepted: Journal,
    /// The store of the history.
    shown: SpanStore,
    /// The store of the history before the last publish.
    spare: SpanStore,
}

impl Model for Copies {
    ghost use Rattle.std.specs.Prelude.{length, drop};
    ghost use Rattle.schedule_core.specs.CopiedLists.{Copied, IsCopied};

    ghost Value = { Copied };

    ghost view = { λ s. record {
      limits = s.accepted.held.limits;
      before = s.spare.entries;
      history = s.shown.entries;
      pending = drop (length s.shown.entries) s.accepted.held.entries;
    } };

    ghost invariant = { λ s. IsCopied s.accepted.held s.shown s.spare };
}

/// Drops what was made before memory ran out.
pub(crate) fn without_memory<T: Drop, R>(made: T) -> Result<R, AllocError>
    ensures { IsErr result }
{
    // For the prover: an explicit drop is cheaper than one at the end of the block.
    drop(made);
    Err(AllocError)
}

impl Copies {
    /// Makes two empty copies.
    ///
    /// # Errors
    ///
    /// Out of memory, and nothing else.
    pub fn new(alloc: Global, keys: RandomState, limits: Limits) -> Result<Self, AllocError>
        ensures { IfOk result (λ copies.
            copies ≡ record { limits = limits; before = []; history = []; pending = [] }) }
    {
        let accepted = Journal::new(alloc, keys, limits)?;
        // For the prover: `len`'s clause `legal` is used below.
        let _legal = accepted.len();
        let Ok(shown) = SpanStore::open(alloc, keys, limits) else {
            return without_memory(accepted);
        };
        let Ok(spare) = SpanStore::open(alloc, keys, limits) else {
            return without_memory((accepted, shown));
        };
        Ok(Copies {
            accepted,
            shown,
            spare,
        })
    }

    /// Returns the number of entries of the history.
    pub fn front(&self) -> u64
        ensures { result ≡ length self.now.history }
    {
        self.shown.len()
    }

    /// Accepts an entry, which is then pending. If its batch was sent before with the same spans, nothing has
    /// changed, and the answer has that place.
    ///
    /// # Errors
    ///
    /// The refusal by the accepted entries, including pending ones ([`Refusal::Conflict`], [`Refusal::Stale`],
    /// [`Refusal::JournalFull`]). Nothing has changed then.
    pub fn admit(&mut self, entry: Arc<Entry>) -> Result<Admission, Refusal>
        ensures answer { result ≡ admission_by (all_of self.old) (arc_value entry) }
        ensures admitted { self.new ≡ after_admission self.old (arc_value entry)
            (admission_by (all_of self.old) (arc_value entry)) }
    {
        let recorded = self.accepted.recorded(entry);
        let admission = self.accepted.judge(&recorded)?;
        if admission == Admission::Added {
            self.accepted.append(recorded);
        }
        Ok(admission)
    }

    /// Makes all accepted entries the history.
    ///
    /// # Errors
    ///
    /// Out of memory, and nothing else. The history and the pending entries are then unchanged.
    pub fn publish(&mut self) -> Result<(), AllocError>
        ensures swapped { OnOk result (self.new ≡ swapped self.old) }
        ensures stays { OnErr result (self.new ≡ record self.old { before = self.new.before }) }
    {
        catch_up(&mut self.spare, self.accepted.entries())?;
        std::mem::swap(&mut self.shown, &mut self.spare);
        Ok(())
    }

    /// Returns the answer at the history, or at the one before the last publish.
    ///
    /// # Errors
    ///
    /// [`Refusal::NoMemory`], and nothing else.
    pub fn answer(&self, query: &Query, is_last: bool) -> Result<Answer, Refusal>
        ensures answer { IfOk result (λ a. a ≡ answer self.now.limits
            (if is_last then self.now.history else self.now.before) query.now) }
        ensures reason { IfErr result (λ why. why ≡ NoMemory) }
    {
        let store = if is_last { &self.shown } else { &self.spare };
        store.answer(query)
    }
}

/// Appends an entry, which was judged to be added, to the store. The store is unchanged if the entry can't be
/// copied.
fn add(store: &mut SpanStore, entry: &Arc<Entry>) -> Result<(), AllocError>
    requires { admission_by store.old (arc_value entry.now) ≡ Ok Added }
    ensures added { OnOk result (store.new ≡ followed_by store.old (arc_value entry.now)) }
    ensures unchanged { OnErr result (store.new ≡ store.old) }
{
    match store.apply(Arc::try_clone(entry)?) {
        Ok(_) => Ok(()),
        Err(_) => unreachable!(),
    }
}

/// Brings the store, which has the first of the entries, up to all of them, as far as memory allows. The entries
/// are legal.
#[tactic(auto, using(crate::proofs::Prefixes::joined))]
fn catch_up(store: &mut SpanStore, entries: &[Arc<Entry>]) -> Result<(), AllocError>
    requires begins { IsPrefix store.old.entries (map arc_value entries.now) }
    requires legal { IsLegal store.old.limits (map arc_value entries.now) }
    ensures limits { store.new.limits ≡ store.old.limits }
    ensures all { OnOk result (store.new.entries ≡ map arc_value entries.now) }
    ensures begins { IsPrefix store.new.entries (map arc_value entries.now) }
{
    let held = store.len() as usize;
    for entry in &entries[held..] {
        add(store, entry)?;
    }
    Ok(())
}
