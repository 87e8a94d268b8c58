//! The batches with a `seqNo` in a list of entries.

ghost use Rattle.std.specs.Prelude.{◌≡◌, ◌<◌, ◌≤◌, [], ◌∷◌, ◌++◌, true, map, length, IfOk};
ghost use Rattle.std.specs.Arc.{arc_value};
ghost use Rattle.trace_model.specs.ResentBatches.{SentOnceAfter, sent_before};
ghost use Rattle.trace_model.specs.Histories.{before_last};
ghost use Rattle.trace_model.specs.declared.entry.Entry.{Entry as EntryValue};
ghost use Rattle.sent_batches.specs.SentIndex.{IsSentKept, has_seq_no, work_hash};

use crate::keys::BatchKeys;
use crate::sought::SoughtBatch;
use hash_tables::RowPlaces;
use std::alloc::{AllocError, Global};
use std::marker::Model;
use std::sync::Arc;
use trace_model::Entry;

/// The batches with a `seqNo` in a list of entries that grows at its end.
#[derive(Drop)]
pub struct SentBatches {
    keys: BatchKeys,
    /// Leads to the rows by the hashes.
    places: RowPlaces,
    /// For each row the hash of its batch.
    hashes: Vec<u64>,
    /// For each row the number of entries before its own.
    befores: Vec<u32>,
}

impl Model for SentBatches {
    ghost use Rattle.std.specs.Prelude.{vec_capacity, ◌≤◌};
    ghost use Rattle.sent_batches.specs.SentIndex.{Sent};

    ghost Value = { Sent };

    ghost view = { λ s. record { keys = s.keys; befores = s.befores.items; hashes = s.hashes.items; slots = s.places.slots; room = s.places.room } };

    ghost invariant = { λ s. (s.places.room ≤ vec_capacity s.hashes)
        × (s.places.room ≤ vec_capacity s.befores) };
}

impl SentBatches {
    /// Makes an index of no entry, with room for `batches` entries.
    ///
    /// # Errors
    ///
    /// Out of memory, and nothing else.
    pub fn with_room(alloc: Global, keys: BatchKeys, batches: u32) -> Result<Self, AllocError>
        ensures kept { IfOk result (λ sent. IsSentKept [] sent) }
        ensures room { IfOk result (λ sent. sent.room ≡ batches) }
    {
        let places = RowPlaces::with_room(alloc, batches)?;
        let hashes = Vec::with_capacity(alloc, batches as usize)?;
        let befores = Vec::with_capacity(alloc, batches as usize)?;
        Ok(SentBatches {
            keys,
            places,
            hashes,
            befores,
        })
    }

    /// Returns the keys of the hash by which batches are found.
    pub fn keys(&self) -> BatchKeys
        ensures { result ≡ self.now.keys }
    {
        self.keys
    }

    /// Returns the number of entries before the one that brought a batch with this entry's `seqNo` and process, or
    /// None if there is no such entry or this one has no batch with a `seqNo`. The hash is the one that
    /// [`BatchKeys::hash`] computes of the entry's work.
    pub fn find(&self, entries: &[Arc<Entry>], entry: &Entry, hash: u64) -> Option<u32>
        requires kept { IsSentKept (map arc_value entries.now) self.now }
        requires hash { has_seq_no entry.now.work ≡ true →
            hash ≡ work_hash self.now.keys entry.now.work }
        requires once { SentOnceAfter [] (map arc_value entries.now) }
        ensures { result ≡ sent_before (map arc_value entries.now) entry.now }
    {
        let batch = entry.work.batch()?;
        if batch.seq_no.is_none() {
            return None;
        }
        let sought = SoughtBatch {
            entries,
            befores: &self.befores,
            hashes: &self.hashes,
            batch,
        };
        let row = self.places.find(hash, &sought)?;
        Some(self.befores[row as usize])
    }

    /// Adds the last entry of the list, which is one entry longer. The hash is that of the entry's batch, if that
    /// has a `seqNo`. Allocates nothing.
    pub fn add(&mut self, entries: &[Arc<Entry>], hash: u64)
        requires some { 0 < length entries.now }
        requires kept { IsSentKept (before_last (map arc_value entries.now)) self.old }
        requires room { length entries.now ≤ self.old.room }
        requires hash { (e : EntryValue) →
            map arc_value entries.now ≡ before_last (map arc_value entries.now) ++ e ∷ [] →
            has_seq_no e.work ≡ true → hash ≡ work_hash self.old.keys e.work }
        ensures kept { IsSentKept (map arc_value entries.now) self.new }
        ensures room { self.new.room ≡ self.old.room }
        ensures keys { self.new.keys ≡ self.old.keys }
    {
        let before = entries.len() - 1;
        let Some(batch) = entries[before].work.batch() else {
            return;
        };
        if batch.seq_no.is_none() {
            return;
        }
        let rows = SoughtBatch {
            entries,
            befores: &self.befores,
            hashes: &self.hashes,
            batch,
        };
        self.places.mark(hash, &rows);
        self.hashes.push_reserved(hash);
        self.befores.push_reserved(before as u32);
    }
}
