ghost use Rattle.std.specs.Prelude.{◌≡◌, ◌+◌, ◌<◌, ◌∷◌, ◌++◌, ℕ, [], length, drop, IfOk};
ghost use Rattle.trace_ring.specs.FirstStarts.{positions_after};
ghost use Rattle.trace_ring.specs.StartRanges.{IsIn, IsWider, range_at};

use crate::first_starts::bounds::{BLOCK, is_later, raise};
use crate::first_starts::ranges::{Range, widen};
use std::alloc::{AllocError, Global};
use std::marker::Model;

/// The first starts of the newest traces, that of the trace opened first at the front, and for each block of them a
/// range that contains the starts of all spans of its traces.
#[derive(Drop)]
pub struct FirstStarts {
    pub(crate) room: u32,
    /// The start of each trace that was opened, including the evicted ones.
    pub(crate) opened: Vec<i64>,
    /// The number of evicted traces: those opened first.
    pub(crate) evicted: usize,
    /// For each block of them an upper bound.
    pub(crate) bounds: Vec<i64>,
    /// For each block of them the range of the starts of all spans of its traces.
    pub(crate) ranges: Vec<Range>,
}

impl Model for FirstStarts {
    ghost use Rattle.std.specs.Prelude.{◌≡◌, ◌≤◌, ◌+◌, ◌/◌, length, drop, vec_capacity};
    ghost use Rattle.trace_ring.specs.declared.first_starts.bounds.TheConstants.{BLOCK};
    ghost use Rattle.trace_ring.specs.FirstStarts.{Starts, IsBounded, block_count};

    ghost Value = { Starts };

    ghost view = { λ s. record {
      starts = drop s.evicted s.opened.items;
      used = length s.opened.items;
      room = s.room;
      evicted = s.evicted;
      ranges = s.ranges.items;
    } };

    ghost invariant = { λ s. (s.room ≤ vec_capacity s.opened)
        × (s.room / BLOCK + 2 ≤ vec_capacity s.bounds)
        × IsBounded s.room s.evicted s.opened.items s.bounds.items
        × (s.room / BLOCK + 2 ≤ vec_capacity s.ranges)
        × (length s.ranges.items ≡ block_count (length s.opened.items)) };
}

impl FirstStarts {
    /// Makes an empty list with room for `room` starts in all, including those of evicted traces.
    ///
    /// # Errors
    ///
    /// Out of memory, and nothing else.
    pub fn with_room(alloc: Global, room: u32) -> Result<Self, AllocError>
        ensures starts { IfOk result (λ s. s.starts ≡ []) }
        ensures used { IfOk result (λ s. s.used ≡ 0) }
        ensures room { IfOk result (λ s. s.room ≡ room) }
    {
        let opened = Vec::with_capacity(alloc, room as usize)?;
        let bounds = Vec::with_capacity(alloc, room as usize / BLOCK + 2)?;
        let ranges = Vec::with_capacity(alloc, room as usize / BLOCK + 2)?;
        Ok(FirstStarts {
            room,
            opened,
            evicted: 0,
            bounds,
            ranges,
        })
    }

    /// Returns the number of starts.
    pub fn len(&self) -> usize
        ensures { result ≡ length self.now.starts }
    {
        self.opened.len() - self.evicted
    }

    /// Appends the start of a trace that was opened, and widens the range of its block to it. Allocates nothing.
    pub fn push(&mut self, start: i64)
        requires { self.old.used < self.old.room }
        ensures starts { self.new.starts ≡ self.old.starts ++ start ∷ [] }
        ensures used { self.new.used ≡ self.old.used + 1 }
        ensures room { self.new.room ≡ self.old.room }
        ensures own { IsIn (range_at self.new (length self.old.starts)) start }
        ensures none_narrows { (k : ℕ) → k < length self.old.starts →
            IsWider (range_at self.old k) (range_at self.new k) }
    {
        let block = self.opened.len() / BLOCK;
        raise(&mut self.bounds, block, start);
        widen(&mut self.ranges, block, start);
        self.opened.push_reserved(start);
    }

    /// Widens the range of the trace at a position to the start of one more of its spans. The oldest trace is at 0.
    pub fn widen(&mut self, position: usize, start: i64)
        requires { position < length self.old.starts }
        ensures starts { self.new.starts ≡ self.old.starts }
        ensures used { self.new.used ≡ self.old.used }
        ensures room { self.new.room ≡ self.old.room }
        ensures own { IsIn (range_at self.new position) start }
        ensures none_narrows { (k : ℕ) → k < length self.old.starts →
            IsWider (range_at self.old k) (range_at self.new k) }
    {
        widen(&mut self.ranges, (self.evicted + position) / BLOCK, start);
    }

    /// Removes the trace that was opened first. The others keep their ranges.
    pub fn evict_oldest(&mut self)
        ensures starts { self.new.starts ≡ drop 1 self.old.starts }
        ensures used { self.new.used ≡ self.old.used }
        ensures room { self.new.room ≡ self.old.room }
        ensures ranges { 0 < length self.old.starts →
            (k : ℕ) → range_at self.new k ≡ range_at self.old (k + 1) }
    {
        if self.evicted < self.opened.len() {
            self.evicted += 1;
        }
    }

    /// Returns the positions of the traces that start after this time; the oldest trace is at 0. Skips a block whose
    /// bound isn't later.
    ///
    /// # Errors
    ///
    /// Out of memory, and nothing else.
    pub fn positions_after(&self, alloc: Global, time: i64) -> Result<Vec<usize>, AllocError>
        ensures { IfOk result (λ v. v.items ≡ positions_after time self.now.starts) }
    {
        let mut positions = Vec::new(alloc);
        let mut at = self.evicted;
        while at < self.opened.len() {
            if !is_later(&self.bounds, at / BLOCK, time) {
                at = (at / BLOCK + 1) * BLOCK;
                continue;
            }
            if is_later(&self.opened, at, time) {
                positions.push(at - self.evicted)?;
            }
            at += 1;
        }
        Ok(positions)
    }
}
