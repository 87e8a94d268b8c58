//! The best keys of those that are offered, up to a number of them.

ghost use Rattle.std.specs.Prelude.{◌≡◌, ◌<◌, ◌≤◌, [], ◌∷◌, IfSome, IfNone, OnOk, length, take};
ghost use Rattle.std.specs.Bool.{OnFalse};
ghost use Rattle.std.specs.BTreeSet.{insert_key};
ghost use Rattle.find_traces.specs.Keys.{reversed, reverse_key_cmp};
ghost use Rattle.find_traces.specs.BestKeys.{IsLast, IsWorst};

use crate::key::Key;
use std::alloc::{AllocError, Global};
use std::cmp::Reverse;
use std::collections::BTreeSet;

/// The best keys of those that were offered, at most `limit` of them; the best is the first of the set.
#[derive(Drop)]
pub(crate) struct BestKeys {
    keys: BTreeSet<Reverse<Key>>,
    limit: usize,
}

impl BestKeys {
    pub(crate) fn new(alloc: Global, limit: usize) -> BestKeys
        ensures keys { result.keys.keys ≡ [] }
        ensures limit { result.limit ≡ limit }
    {
        BestKeys {
            keys: BTreeSet::new(alloc),
            limit,
        }
    }

    /// Returns the number of keys that are kept.
    pub(crate) fn len(&self) -> usize
        ensures { result ≡ length self.now.keys.keys }
    {
        self.keys.len()
    }

    /// Returns whether a key would be kept if it were offered.
    pub(crate) fn would_keep(&self, key: Key) -> bool
        requires { length self.now.keys.keys ≤ self.now.limit }
        ensures { OnFalse result (take self.now.limit
            (insert_key reverse_key_cmp self.now.keys.keys (reversed key)) ≡ self.now.keys.keys) }
    {
        if self.keys.len() < self.limit {
            return true;
        }
        match self.keys.last() {
            Some(worst) => worst.0 < key,
            None => false,
        }
    }

    /// Returns the worst key that is kept, if as many are kept as the limit.
    pub(crate) fn worst_if_full(&self) -> Option<Key>
        ensures { IfSome result (IsWorst self.now.keys.keys self.now.limit) }
    {
        if self.keys.len() < self.limit {
            return None;
        }
        match self.keys.last() {
            Some(worst) => Some(worst.0),
            None => None,
        }
    }

    /// Returns whether a key would be kept if it were offered, by what [`worst_if_full`](Self::worst_if_full) returned since
    /// the last one that was kept. Reads none that is kept, so that many keys are passed over quickly.
    #[inline]
    pub(crate) fn would_keep_after(&self, worst: Option<Key>, key: Key) -> bool
        requires within { length self.now.keys.keys ≤ self.now.limit }
        requires worst { IfSome worst (IsWorst self.now.keys.keys self.now.limit) }
        ensures { OnFalse result (take self.now.limit
            (insert_key reverse_key_cmp self.now.keys.keys (reversed key)) ≡ self.now.keys.keys) }
    {
        match worst {
            Some(worst) => worst < key,
            None => true,
        }
    }

    /// Adds a key. The worst one is dropped if they are too many.
    pub(crate) fn offer(&mut self, key: Key) -> Result<(), AllocError>
        requires { length self.old.keys.keys ≤ self.old.limit }
        ensures keys { OnOk result (self.new.keys.keys ≡ take self.old.limit
            (insert_key reverse_key_cmp self.old.keys.keys (reversed key))) }
        ensures limit { self.new.limit ≡ self.old.limit }
    {
        if !self.would_keep(key) {
            return Ok(());
        }
        self.keys.insert(Reverse(key))?;
        if self.keys.len() > self.limit {
            self.keys.pop_last();
        }
        Ok(())
    }

    /// Returns the worst key that is kept, if the limit is reached: then others may have been dropped. Returns `None` if
    /// fewer are kept, so that none was dropped.
    pub(crate) fn last_if_full(&self) -> Option<Key>
        requires { 0 < self.now.limit }
        ensures last { IfSome result (IsLast self.now.keys.keys) }
        ensures all { IfNone result (length self.now.keys.keys < self.now.limit) }
    {
        if self.keys.len() < self.limit {
            return None;
        }
        self.keys.last().map(|worst| worst.0)
    }

    /// Removes the best key.
    pub(crate) fn pop(&mut self) -> Option<Key>
        ensures best { IfSome result (λ k. self.old.keys.keys ≡ reversed k ∷ self.new.keys.keys) }
        ensures none { IfNone result (self.old.keys.keys ≡ []) }
    {
        self.keys.pop_first().map(|best| best.0)
    }
}
