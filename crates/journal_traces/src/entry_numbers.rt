//! The numbers of the entries that were collected from a journal.

ghost use Rattle.std.specs.Prelude.{◌≡◌, ◌<◌, ◌≤◌, ◌-◌, ◌^◌, None, Some, replicate, length, get_or, slice_set, IfOk};
ghost use Rattle.journal_traces.specs.Numbered.{numbered};

use std::alloc::{AllocError, Global};
use std::marker::Model;

/// For each entry of a journal its number among the collected entries, or none if it wasn't collected. The numbers
/// count from 0, in the order of collecting. Contracts see the numbers, in the order of the journal.
#[derive(Drop)]
pub(crate) struct EntryNumbers {
    /// For each entry its number plus one; 0 if it wasn't collected.
    following: Vec<u32>,
    /// The number of collected entries.
    count: u32,
}

impl Model for EntryNumbers {
    ghost use Rattle.std.specs.Prelude.{◌≡◌, ◌<◌, ◌^◌, ℕ, List, Option, length, map};
    ghost use Rattle.journal_traces.specs.Numbered.{preceding, numbered};

    ghost Value = { List (Option ℕ) };

    ghost view = { λ n. map preceding n.following.items };

    ghost invariant = { λ n. (length n.following.items < 2 ^ 32)
        × (n.count ≡ numbered (map preceding n.following.items)) };
}

impl EntryNumbers {
    /// Makes the numbers of `count` entries, none of which was collected.
    ///
    /// # Errors
    ///
    /// Out of memory, and nothing else.
    pub(crate) fn new(alloc: Global, count: usize) -> Result<Self, AllocError>
        requires { count < 2 ^ 32 }
        ensures { IfOk result (λ n. n ≡ replicate count None) }
    {
        let following = vec![in alloc; 0u32; count]?;
        Ok(EntryNumbers {
            following,
            count: 0,
        })
    }

    /// Returns the number of the entry at a place, if it was collected.
    pub(crate) fn at(&self, place: u64) -> Option<u32>
        requires above { 0 < place }
        requires within { place ≤ length self.now }
        ensures { result ≡ get_or self.now (place - 1) None }
    {
        self.following[(place - 1) as usize].checked_sub(1)
    }

    /// Gives the next number to the entry at a place, which has none yet, and returns it.
    pub(crate) fn add(&mut self, place: u64) -> u32
        requires above { 0 < place }
        requires within { place ≤ length self.old }
        requires new { get_or self.old (place - 1) None ≡ None }
        ensures number { result ≡ numbered self.old }
        ensures numbers { self.new ≡ slice_set self.old (place - 1) (Some (numbered self.old)) }
    {
        let number = self.count;
        let next = number + 1;
        self.following[(place - 1) as usize] = next;
        self.count = next;
        number
    }
}
