//! A prefix of the one history, as a value.
ghost use Rattle.std.specs.Prelude.{◌≡◌, ◌≤◌, ◌<◌, ◌⊎◌, length, take, MatchBool, All};
ghost use mathlib.Core.List.{IsPrefix};
ghost use Rattle.trace_model.specs.Histories.{IsLegal};

use crate::counted_log::SeenLog;
use crate::history::StoreName;
use std::marker::{Model, PhantomData};
use trace_model::Entry;

/// A prefix of the one history of a store: what a receipt vouches for, what a pass knows, or all that a keeper has
/// accepted. It can be kept for as long as needed, and has the size of a number.
///
/// Contracts see its entries, which are legal. Of any two of one store, one is a prefix of the other.
#[derive(Drop)]
pub struct HistoryPrefix<N: StoreName> {
    seen: SeenLog<Entry>,
    len: u64,
    of: PhantomData<N>,
}

impl<N: StoreName> Model for HistoryPrefix<N> {
    ghost use Rattle.std.specs.Prelude.{◌≡◌, ◌≤◌, List, take, length};
    ghost use Rattle.trace_model.specs.declared.entry.Entry.{Entry};
    ghost use Rattle.trace_model.specs.Histories.{IsLegal};

    ghost Value = { List Entry };

    ghost view = { λ p. take p.len p.seen.log };

    ghost invariant = { λ p. (p.seen.book ≡ N.book) × (p.len ≤ length p.seen.log)
        × IsLegal N.limits (take p.len p.seen.log) };
}

impl<N: StoreName> HistoryPrefix<N> {
    /// The first `len` entries of what was seen of the history.
    pub(crate) fn new(seen: SeenLog<Entry>, len: u64) -> HistoryPrefix<N>
        requires book { seen.book ≡ N.book }
        requires within { len ≤ length seen.log }
        requires legal { IsLegal N.limits (take len seen.log) }
        ensures { result ≡ take len seen.log }
    {
        HistoryPrefix {
            seen,
            len,
            of: PhantomData,
        }
    }

    /// Returns the number of entries. They are legal.
    pub fn len(&self) -> u64
        ensures length { result ≡ length self.now }
        ensures legal { IsLegal N.limits self.now }
    {
        self.len
    }

    /// Returns a copy.
    pub fn duplicate(&self) -> HistoryPrefix<N>
        ensures { result ≡ self.now }
    {
        HistoryPrefix {
            seen: self.seen.duplicate(),
            len: self.len,
            of: PhantomData,
        }
    }

    /// Returns what was seen of the history. It is a prefix of it.
    pub(crate) fn seen(&self) -> &SeenLog<Entry>
        ensures book { result.now.book ≡ N.book }
        ensures list { self.now ≡ take (length self.now) result.now.log }
    {
        &self.seen
    }

    /// Returns whether it is a prefix of the other one. If it is not, the other one is a proper prefix of it.
    pub fn is_prefix_of(&self, other: &HistoryPrefix<N>) -> bool
        ensures { MatchBool result (IsPrefix self.now other.now)
            (IsPrefix other.now self.now × (length other.now < length self.now)) }
    {
        // For the prover: this copy learns both lists, so that one of them is a prefix of the other. It has no size.
        let mut both = self.seen.duplicate();
        both.learn(&other.seen);
        self.len <= other.len
    }

    /// Returns the longer one of the two. Both are prefixes of it.
    pub fn longer(&self, other: &HistoryPrefix<N>) -> HistoryPrefix<N>
        ensures own { IsPrefix self.now result }
        ensures other { IsPrefix other.now result }
        ensures one_of { (result ≡ self.now) ⊎ (result ≡ other.now) }
    {
        if self.is_prefix_of(other) {
            other.duplicate()
        } else {
            self.duplicate()
        }
    }
}

/// Returns the longest one. Every list that a call under one store name named, on any thread, is a prefix of this
/// one list, which is legal. Only tests call it.
pub fn longest<N: StoreName>(
    first: &HistoryPrefix<N>,
    others: &[HistoryPrefix<N>],
) -> HistoryPrefix<N>
    ensures first { IsPrefix first.now result }
    ensures others { All (λ p. IsPrefix p result) others.now }
    ensures legal { IsLegal N.limits result }
{
    let mut longest = first.duplicate();
    for other in others {
        longest = longest.longer(other);
    }
    // For the prover: `len`'s clause `legal` is used for the result.
    let _legal = longest.len();
    longest
}
