//! The batch to find, and the entries that are searched.

ghost use Rattle.std.specs.Prelude.{◌≡◌};
ghost use Rattle.trace_model.specs.ResentBatches.{is_sent_as};

use hash_tables::Sought;
use jaeger_model::Batch;
use std::sync::Arc;
use trace_model::Entry;

/// The number and process to find, and the batches that are searched.
#[derive(Drop)]
pub(crate) struct SoughtBatch<'a> {
    pub(crate) entries: &'a [Arc<Entry>],
    /// For each row the number of entries before its own.
    pub(crate) befores: &'a [u32],
    /// For each row the hash of its batch.
    pub(crate) hashes: &'a [u64],
    pub(crate) batch: &'a Batch,
}

impl<'a> Sought for SoughtBatch<'a> {
    ghost use Rattle.std.specs.Prelude.{map, get_or, ◌≡◌, length};
    ghost use Rattle.std.specs.Arc.{arc_value};
    ghost use Rattle.sent_batches.specs.SentIndex.{AreAfterEntries, is_sent_after};

    ghost can_read = { λ s. AreAfterEntries (map arc_value s.entries.now) s.befores.now
        × (length s.befores.now ≡ length s.hashes.now) };

    ghost hashes = { λ s. s.hashes.now };

    ghost is_sought = { λ s row. is_sent_after s.batch.now (map arc_value s.entries.now)
        (get_or s.befores.now row 0) };

    fn rows(&self) -> usize {
        self.hashes.len()
    }

    fn hash_at(&self, row: usize) -> u64 {
        self.hashes[row]
    }

    fn is_sought(&self, row: usize) -> bool {
        let before = self.befores[row] as usize;
        match self.entries[before].work.batch() {
            Some(batch) => is_sent_as(self.batch, batch),
            None => false,
        }
    }
}

/// Returns whether both batches have the same number and the same process.
fn is_sent_as(batch: &Batch, other: &Batch) -> bool
    ensures { result ≡ is_sent_as batch.now other.now }
{
    batch.seq_no.is_some() && batch.seq_no == other.seq_no && batch.process == other.process
}
