//! An entry with everything that a store needs of it besides its spans.

ghost use Rattle.std.specs.Prelude.{◌≡◌, true, IfOk};
ghost use Rattle.std.specs.Arc.{arc_value};
ghost use Rattle.sent_batches.specs.SentIndex.{has_seq_no, work_hash};
ghost use Rattle.arrival_journal.specs.KindTexts.{kinds_in};
ghost use Rattle.arrival_journal.specs.Outlines.{outline_in};

use crate::outline::Outline;
use crate::span_kinds::SpanKinds;
use sent_batches::BatchKeys;
use std::alloc::AllocError;
use std::marker::Model;
use std::sync::Arc;
use trace_model::Entry;

/// An entry with the hash of its batch, its outline and the kinds of its first spans.
///
/// It is computed once, before the entry is queued, and passed to the journal and to both copies of the store, so
/// that none of them reads the spans for it. Contracts see the entry. A value of it is called `recorded`, because
/// `record` is a word of clauses.
#[derive(Drop)]
pub struct Record {
    entry: Arc<Entry>,
    /// The keys of the hash.
    keys: BatchKeys,
    hash: u64,
    outline: Outline,
    kinds: SpanKinds,
}

impl Model for Record {
    ghost use Rattle.std.specs.Prelude.{◌≡◌, true};
    ghost use Rattle.std.specs.Arc.{arc_value};
    ghost use Rattle.trace_model.specs.declared.entry.Entry.{Entry};
    ghost use Rattle.sent_batches.specs.SentIndex.{has_seq_no, work_hash};
    ghost use Rattle.arrival_journal.specs.KindTexts.{kinds_in};
    ghost use Rattle.arrival_journal.specs.Outlines.{outline_in};

    ghost Value = { Entry };

    ghost view = { λ r. arc_value r.entry };

    ghost invariant = { λ r. (has_seq_no (arc_value r.entry).work ≡ true →
        r.hash ≡ work_hash r.keys (arc_value r.entry).work)
        × (r.outline ≡ outline_in (arc_value r.entry))
        × (r.kinds ≡ kinds_in (arc_value r.entry)) };
}

impl Record {
    /// Computes the hash of the entry's batch under these keys, its outline and the kinds of its first spans.
    pub fn new(keys: BatchKeys, entry: Arc<Entry>) -> Record
        ensures { result ≡ arc_value entry }
    {
        let hash = keys.hash(&entry.work);
        let outline = Outline::of(&entry.work);
        let kinds = SpanKinds::of(entry.work.spans());
        Record {
            entry,
            keys,
            hash,
            outline,
            kinds,
        }
    }

    /// Returns the entry.
    pub fn entry(&self) -> &Arc<Entry>
        ensures { arc_value result.now ≡ self.now }
    {
        &self.entry
    }

    /// Returns the entry alone.
    pub fn into_entry(self) -> Arc<Entry>
        ensures { arc_value result ≡ self }
    {
        self.entry
    }

    /// Returns the hash of the entry's batch under these keys. It is computed anew only if the record was made under
    /// others.
    pub fn hash(&self, keys: BatchKeys) -> u64
        ensures { has_seq_no self.now.work ≡ true → result ≡ work_hash keys self.now.work }
    {
        if self.keys == keys {
            self.hash
        } else {
            keys.hash(&self.entry.work)
        }
    }

    /// Returns the entry's outline.
    pub fn outline(&self) -> Outline
        ensures { result ≡ outline_in self.now }
    {
        self.outline
    }

    /// Returns the kinds of the entry's first spans.
    pub fn kinds(&self) -> &SpanKinds
        ensures { result.now ≡ kinds_in self.now }
    {
        &self.kinds
    }

    /// Returns a record of the same entry, which both share.
    ///
    /// # Errors
    ///
    /// Out of memory, and nothing else.
    pub fn try_clone(&self) -> Result<Record, AllocError>
        ensures { IfOk result (λ r. r ≡ self.now) }
    {
        Ok(Record {
            entry: Arc::try_clone(&self.entry)?,
            keys: self.keys,
            hash: self.hash,
            outline: self.outline,
            kinds: self.kinds.duplicate(),
        })
    }
}
