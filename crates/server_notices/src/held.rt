//! Counts the batches and spans that a store holds, as far as they were acknowledged to workers.

use std::alloc::{AllocError, Global};
use std::sync::atomic::{AtomicU64, Ordering};
use trace_model::Limits;

/// The number of batches and spans that the store holds. A batch is counted when it is first acknowledged, so once,
/// however often it was sent. One that was stored and not acknowledged isn't counted. The counts are only used for the
/// operator's notices.
#[derive(Drop)]
pub(crate) struct HeldCounts {
    /// A bit for each place: set if its batch was counted.
    places: Vec<AtomicU64>,
    batches: AtomicU64,
    spans: AtomicU64,
}

impl HeldCounts {
    /// Creates counts of 0.
    ///
    /// # Errors
    ///
    /// Out of memory.
    pub(crate) fn new(alloc: Global, limits: &Limits) -> Result<HeldCounts, AllocError> {
        let words = limits.batches / 64 + 1;
        let mut places = Vec::with_capacity(alloc, words as usize)?;
        for _ in 0..words {
            places.push(AtomicU64::new(0))?;
        }
        Ok(HeldCounts {
            places,
            batches: AtomicU64::new(0),
            spans: AtomicU64::new(0),
        })
    }

    /// Counts the batch at a place with its number of spans, unless it was counted before. Returns whether it was
    /// counted now.
    pub(crate) fn add(&self, place: u64, spans: u64) -> bool {
        let bit = 1_u64 << (place % 64);
        let Some(word) = self.places.get((place / 64) as usize) else {
            // Impossible: a place is at most the limit of batches, which has a bit here.
            return false;
        };
        if word.fetch_or(bit, Ordering::SeqCst) & bit != 0 {
            return false;
        }
        self.batches.fetch_add(1, Ordering::SeqCst);
        self.spans.fetch_add(spans, Ordering::SeqCst);
        true
    }

    /// Returns the number of batches.
    pub(crate) fn batches(&self) -> u64 {
        self.batches.load(Ordering::SeqCst)
    }

    /// Returns the number of spans.
    pub(crate) fn spans(&self) -> u64 {
        self.spans.load(Ordering::SeqCst)
    }
}
