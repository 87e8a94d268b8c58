//! The keys of the hash by which batches are found.

ghost use Rattle.std.specs.Prelude.{◌≡◌, true, fold};
ghost use Rattle.std.specs.Hash.DefaultHasher as sip;
ghost use Rattle.sent_batches.specs.BatchHashes.{keys_fed};
ghost use Rattle.sent_batches.specs.SentIndex.{has_seq_no, work_hash};

use crate::hashing::batch_hash;
use std::hash::{BuildHasher, DefaultHasher, Hasher, RandomState};
use trace_model::Work;

/// Two numbers that no client knows. Lists with the same keys can use each other's hashes.
#[derive(Clone, Copy, PartialEq, Eq)]
pub struct BatchKeys {
    first: u64,
    second: u64,
}

/// Derives a number from the keys, a different one for each `asked`.
fn drawn(keys: RandomState, asked: u8) -> u64 {
    let mut state = keys.build_hasher();
    state.write_u8(asked);
    state.finish()
}

impl BatchKeys {
    /// Derives the keys from those that were drawn at the program's start.
    pub fn new(keys: RandomState) -> BatchKeys {
        BatchKeys {
            first: drawn(keys, 0),
            second: drawn(keys, 1),
        }
    }

    /// Computes the hash by which a batch with a `seqNo` is found; returns 0 for any other work.
    pub fn hash(self, work: &Work) -> u64
        ensures { has_seq_no work.now ≡ true → result ≡ work_hash self work.now }
    {
        match work.batch() {
            Some(batch) if batch.seq_no.is_some() => batch_hash(self, batch),
            _ => 0,
        }
    }

    /// Returns a hasher that has hashed the keys.
    pub(crate) fn start(self) -> DefaultHasher
        ensures { result ≡ fold sip.write sip.initial (keys_fed self) }
    {
        let mut state = DefaultHasher::new();
        state.write_u64(self.first);
        state.write_u64(self.second);
        state
    }
}
