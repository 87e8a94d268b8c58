//! The items of the queue.

ghost use Rattle.std.specs.Prelude.{◌≡◌, ◌<◌, IfOk};
ghost use Rattle.std.specs.Arc.{arc_value};
ghost use Rattle.intake.specs.declared.opening.TheConstants.{MAX_SEATS};

use crate::answer_slot::AnswerSlot;
use arrival_journal::Record;
use read_side::StoreName;
use sent_batches::BatchKeys;
use std::marker::Model;
use std::sync::Arc;
use trace_model::{Entry, Refusal};

/// An entry on its way to the clerk, and where its answer goes. Contracts see the entry.
#[derive(Drop)]
pub(crate) struct Job<N: StoreName> {
    recorded: Record,
    slot: Arc<AnswerSlot<N>>,
}

impl<N: StoreName> Model for Job<N> {
    ghost use Rattle.std.specs.Prelude.{◌≡◌, ◌<◌};
    ghost use Rattle.std.specs.Arc.{arc_value};
    ghost use Rattle.trace_model.specs.declared.entry.Entry.{Entry};
    ghost use Rattle.intake.specs.declared.opening.TheConstants.{MAX_SEATS};

    ghost Value = { Entry };

    ghost view = { λ j. j.recorded };

    ghost invariant = { λ j. (arc_value j.slot ≡ j.recorded) × (j.recorded.seat < MAX_SEATS) };
}

impl<N: StoreName> Job<N> {
    /// Makes the job of an entry, whose answer goes into the entry's slot. Makes the entry's record, with a hash
    /// under these keys.
    pub(crate) fn new(
        keys: BatchKeys,
        entry: &Arc<Entry>,
        slot: &Arc<AnswerSlot<N>>,
    ) -> Result<Job<N>, Refusal>
        requires slot { arc_value slot.now ≡ arc_value entry.now }
        requires seat { (arc_value entry.now).seat < MAX_SEATS }
        ensures { IfOk result (λ j. j ≡ arc_value entry.now) }
    {
        let slot = Arc::try_clone(slot)?;
        let recorded = Record::new(keys, Arc::try_clone(entry)?);
        Ok(Job { recorded, slot })
    }

    /// Returns the seat that submitted it, and its number there.
    pub(crate) fn id(&self) -> (u16, u64)
        ensures { (result.0 ≡ self.now.seat) × (result.1 ≡ self.now.number)
            × (result.0 < MAX_SEATS) }
    {
        let entry = self.recorded.entry();
        (entry.seat, entry.number)
    }

    /// Returns the entry with its record, and where its answer goes.
    pub(crate) fn split(self) -> (Record, Arc<AnswerSlot<N>>)
        ensures entry { result.0 ≡ self }
        ensures slot { arc_value result.1 ≡ self }
    {
        let Job { recorded, slot } = self;
        (recorded, slot)
    }
}
