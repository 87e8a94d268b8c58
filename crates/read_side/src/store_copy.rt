//! One copy of the store, and what a publish changes in it.
ghost use Rattle.std.specs.Prelude.{◌≡◌, length, Some, None, IfOk, IfErr};
ghost use Rattle.trace_model.specs.declared.refusal.Refusal.TheVariants.{NoMemory};
ghost use Rattle.trace_model.specs.Histories.{IsLegal};
ghost use Rattle.trace_model.specs.Answers.{answer};
ghost use Rattle.read_side.specs.Copies.{changed};

use crate::counted_log::SeenLog;
use arrival_journal::Record;
use left_right::Absorb;
use span_store::{Collected, SpanStore};
use std::alloc::AllocError;
use std::marker::Model;
use trace_model::{Admission, Entry, Query, Refusal};

/// One copy: a store, and what it has seen of the history.
#[derive(Drop)]
pub struct StoreCopy {
    store: SpanStore,
    seen: SeenLog<Entry>,
}

impl Model for StoreCopy {
    ghost use Rattle.read_side.specs.Copies.{CopyValue};

    ghost Value = { CopyValue };

    ghost view = { λ s. record { limits = s.store.limits; entries = s.store.entries; log = s.seen.log; book = s.seen.book } };
}

/// What a publish does to a copy: it adds an entry that the keeper admitted, or nothing.
#[derive(Drop)]
pub struct Change {
    recorded: Option<Record>,
    /// The history that ends with the entry.
    seen: SeenLog<Entry>,
}

impl Model for Change {
    ghost use Rattle.std.specs.Prelude.{Option, option_map};
    ghost use Rattle.read_side.specs.Copies.{AddedEntry};

    ghost Value = { Option AddedEntry };

    ghost view = { λ c. option_map (λ e. record { entry = e; log = c.seen.log; book = c.seen.book }) c.recorded };
}

impl StoreCopy {
    /// Makes a copy of a store, which has seen this much of the history.
    pub fn new(store: SpanStore, seen: SeenLog<Entry>) -> StoreCopy
        ensures { result ≡ record {
          limits = store.limits;
          entries = store.entries;
          log = seen.log;
          book = seen.book;
        } }
    {
        StoreCopy { store, seen }
    }

    /// Returns the number of entries. They are legal.
    pub fn len(&self) -> u64
        ensures length { result ≡ length self.now.entries }
        ensures legal { IsLegal self.now.limits self.now.entries }
    {
        self.store.len()
    }

    /// Returns what it has seen of the history.
    pub fn seen(&self) -> &SeenLog<Entry>
        ensures log { result.now.log ≡ self.now.log }
        ensures book { result.now.book ≡ self.now.book }
    {
        &self.seen
    }

    /// Collects what the plain store's answer for its entries needs.
    ///
    /// # Errors
    ///
    /// Out of memory alone.
    pub fn collect<'q>(&self, query: &'q Query) -> Result<Collected<'q>, Refusal>
        ensures answer { IfOk result (λ c. c ≡ answer self.now.limits self.now.entries query.now) }
        ensures reason { IfErr result (λ why. why ≡ NoMemory) }
    {
        self.store.collect(query)
    }
}

impl Change {
    /// Makes a change that changes nothing.
    pub fn nothing(seen: SeenLog<Entry>) -> Change
        ensures { result ≡ None }
    {
        Change {
            recorded: None,
            seen,
        }
    }

    /// Makes a change that adds an entry, with the history that ends with it.
    pub fn add(recorded: Record, seen: SeenLog<Entry>) -> Change
        ensures { result ≡ Some (record { entry = recorded; log = seen.log; book = seen.book }) }
    {
        Change {
            recorded: Some(recorded),
            seen,
        }
    }

    /// Returns the same change; the entry is shared.
    fn try_clone(&self) -> Result<Change, AllocError>
        ensures { IfOk result (λ c. c ≡ self.now) }
    {
        let recorded = match &self.recorded {
            Some(recorded) => Some(recorded.try_clone()?),
            None => None,
        };
        Ok(Change {
            recorded,
            seen: self.seen.duplicate(),
        })
    }
}

impl Absorb<Change> for StoreCopy {
    type State = StoreCopy;

    ghost state = { λ s. s };

    ghost applied = { changed };

    fn absorb_first(&mut self, operation: &Change, other: &StoreCopy) -> Result<(), AllocError> {
        match self.absorb_second(operation.try_clone()?, other) {
            Ok(()) => Ok(()),
            // Impossible: see `absorb_second`.
            Err(_) => Err(AllocError),
        }
    }

    /// Appends the entry. The keeper has judged it over exactly the entries that this copy has by now, so it is
    /// always added. `Absorb` has no premise that could say so; therefore the copy judges once more before it
    /// appends.
    fn absorb_second(&mut self, operation: Change, _other: &StoreCopy) -> Result<(), Change> {
        let Change { recorded, seen } = operation;
        let Some(recorded) = recorded else {
            return Ok(());
        };
        if self.store.judge(&recorded) != Ok(Admission::Added) {
            // Impossible: the keeper admitted it.
            return Err(Change::add(recorded, seen));
        }
        self.store.append(recorded);
        self.seen = seen;
        Ok(())
    }
}
