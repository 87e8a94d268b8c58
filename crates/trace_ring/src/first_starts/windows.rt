//! The traces that may have a span in a window of time.

ghost use Rattle.std.specs.Prelude.{◌≡◌, ◌<◌, ◌≤◌, ℕ, true, false, length};
ghost use Rattle.trace_ring.specs.StartRanges.{range_at, overlaps};

use crate::first_starts::bounds::BLOCK;
use crate::first_starts::ranges::{Window, overlaps};
use crate::first_starts::starts::FirstStarts;

impl FirstStarts {
    /// Returns the first position, from this one on, of a trace whose range overlaps the window, or the number of
    /// traces if there is none. The oldest trace is at 0. Skips a block whose range doesn't overlap the window.
    pub fn next_within(&self, from: usize, window: Window) -> usize
        requires { from ≤ length self.now.starts }
        ensures from { from ≤ result }
        ensures within { result ≤ length self.now.starts }
        ensures skipped { (k : ℕ) → from ≤ k → k < result →
            overlaps window (range_at self.now k) ≡ false }
        ensures found { result < length self.now.starts →
            overlaps window (range_at self.now result) ≡ true }
    {
        let mut at = self.evicted + from;
        while at < self.opened.len() {
            if overlaps(self.ranges[at / BLOCK], window) {
                return at - self.evicted;
            }
            at = (at / BLOCK + 1) * BLOCK;
        }
        self.len()
    }

    /// Counts [`BLOCK`] traces for each block whose range overlaps the window, even if it is partly filled or partly
    /// evicted: no fewer than the traces that may have a span there. It is a guess, and no answer.
    pub fn estimate_within(&self, window: Window) -> usize {
        let mut count: usize = 0;
        for block in self.evicted / BLOCK..self.ranges.len() {
            let range = self.ranges[block];
            if overlaps(range, window) {
                count = count.saturating_add(BLOCK);
            }
        }
        count
    }
}
