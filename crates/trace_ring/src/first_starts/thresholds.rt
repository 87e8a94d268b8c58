//! A time after which about a given number of traces start. It is a guess, which decides how many traces a
//! search tries first, and no answer.

ghost use Rattle.std.specs.Prelude.{◌≡◌, ◌+◌, ◌<◌, ◌≤◌, ◌↔◌, length, IfOk, OnOk, IfNone, IsSome};
ghost use Rattle.std.specs.BinaryHeap.{heap_items, heap_len};
ghost use Rattle.trace_ring.specs.BlockSizes.{block_size, starts_in};

use crate::first_starts::bounds::BLOCK;
use crate::first_starts::starts::FirstStarts;
use std::alloc::{AllocError, Global};
use std::cmp::Reverse;
use std::collections::BinaryHeap;

/// A block, ordered by its bound; the latest is the greatest.
#[derive(Clone, Copy, Debug, PartialEq, Eq, PartialOrd, Ord)]
struct BoundedBlock {
    bound: i64,
    block: usize,
}

/// Returns the blocks, except for those whose traces were all evicted.
#[tactic(auto, using(crate::proofs::BlockCounts::no_block))]
fn blocks_of(alloc: Global, starts: &FirstStarts) -> Result<BinaryHeap<BoundedBlock>, AllocError>
    ensures { IfOk result (λ blocks.
        length starts.now.starts ≤ starts_in starts.now.used (heap_items blocks)) }
{
    let mut blocks = Vec::with_capacity(alloc, starts.bounds.len())?;
    for block in starts.evicted / BLOCK..starts.bounds.len() {
        let bound = starts.bounds[block];
        blocks.push(BoundedBlock { bound, block })?;
    }
    Ok(BinaryHeap::from(blocks))
}

/// The latest of the starts that were added; the heap's greatest is the earliest of them.
#[derive(Drop)]
struct Latest {
    starts: BinaryHeap<Reverse<i64>>,
    /// At most `count + 1` starts are kept.
    count: usize,
}

impl Latest {
    /// Returns the earliest start that is kept, if `count + 1` are.
    fn earliest(&self) -> Option<i64>
        ensures { IsSome result ↔ (self.now.count < heap_len self.now.starts) }
    {
        if self.starts.len() <= self.count {
            return None;
        }
        self.starts.peek().map(|earliest| earliest.0)
    }

    fn add(&mut self, start: i64) -> Result<(), AllocError>
        ensures count { self.new.count ≡ self.old.count }
        ensures added { OnOk result (heap_len self.new.starts ≤ self.old.count →
            heap_len self.old.starts + 1 ≤ heap_len self.new.starts) }
    {
        if let Some(earliest) = self.earliest() {
            if start <= earliest {
                return Ok(());
            }
            self.starts.pop();
        }
        self.starts.push(Reverse(start))?;
        Ok(())
    }

    /// Adds the starts of a block, including those of evicted traces.
    fn add_block(&mut self, starts: &FirstStarts, block: usize) -> Result<(), AllocError>
        ensures count { self.new.count ≡ self.old.count }
        ensures added { OnOk result (heap_len self.new.starts ≤ self.old.count →
            heap_len self.old.starts + block_size starts.now.used block ≤
            heap_len self.new.starts) }
    {
        let first = block.saturating_mul(BLOCK);
        for at in first..first.saturating_add(BLOCK) {
            if let Some(start) = starts.opened.get(at) {
                self.add(*start)?;
            }
        }
        Ok(())
    }
}

impl FirstStarts {
    /// Returns a time after which `count` traces start. They are fewer if some start at that very time, or if traces
    /// of the oldest block were evicted, since these count too. Returns `None` only if there are at most `count`
    /// traces. Reads the bounds, and the starts of at most `count + 1` blocks.
    ///
    /// # Errors
    ///
    /// Out of memory, and nothing else.
    #[tactic(auto, using(crate::proofs::BlockCounts::block_popped, crate::proofs::BlockCounts::all_popped))]
    pub fn threshold(&self, alloc: Global, count: usize) -> Result<Option<i64>, AllocError>
        ensures { IfOk result (λ time. IfNone time (length self.now.starts ≤ count)) }
    {
        let mut blocks = blocks_of(alloc, self)?;
        let mut latest = Latest {
            starts: BinaryHeap::new(alloc),
            count,
        };
        while let Some(next) = blocks.pop() {
            if let Some(earliest) = latest.earliest() {
                if earliest >= next.bound {
                    return Ok(Some(earliest));
                }
            }
            latest.add_block(self, next.block)?;
        }
        Ok(latest.earliest())
    }
}
