//! The keys of processes that are in several traces of an answer.

use std::alloc::{AllocError, Global};
use std::collections::BTreeMap;
use trace_model::TakenSpan;

/// In which traces a key is.
#[derive(Clone, Copy)]
enum SeenIn {
    /// Only in the one at this place.
    One(usize),
    Several,
}

/// The process keys of taken spans that are in several traces, counting only traces with several keys.
#[derive(Drop)]
pub(crate) struct Recurring {
    seen: BTreeMap<u32, SeenIn>,
}

/// Returns whether all of the spans have the same process key: mostly those of one entry do.
pub(crate) fn have_one_key(spans: &[TakenSpan]) -> bool {
    match spans.first() {
        Some(first) => spans
            .iter()
            .all(|span| span.process_key() == first.process_key()),
        None => true,
    }
}

impl Recurring {
    pub(crate) fn new(alloc: Global) -> Self {
        Recurring {
            seen: BTreeMap::new(alloc),
        }
    }

    fn add_key(&mut self, key: u32, index: usize) -> Result<(), AllocError> {
        let seen = match self.seen.get(&key).copied() {
            None => SeenIn::One(index),
            Some(SeenIn::One(one)) if one != index => SeenIn::Several,
            Some(_) => return Ok(()),
        };
        self.seen.insert(key, seen)?;
        Ok(())
    }

    /// Adds the spans of the trace at an index. A trace of one entry is ignored, since no process is compared in it.
    /// Of consecutive spans with one key, only the first is looked up.
    pub(crate) fn add(&mut self, spans: &[TakenSpan], index: usize) -> Result<(), AllocError> {
        if have_one_key(spans) {
            return Ok(());
        }
        let mut before = None;
        for span in spans {
            let key = span.process_key();
            if before != Some(key) {
                self.add_key(key, index)?;
                before = Some(key);
            }
        }
        Ok(())
    }

    /// Returns whether the key is in several of the traces.
    pub(crate) fn has(&self, key: u32) -> bool {
        matches!(self.seen.get(&key), Some(SeenIn::Several))
    }
}
