//! A bell, which wakes threads that sleep.

use std::sync::Wait;
use std::sync::atomic::{AtomicBool, AtomicU64, Ordering};
use std::thread::yield_now;

/// A bell: a wake-up event (an event count). It counts its rings, some of them twice. A thread that has read the count
/// before it looks for work sleeps only until the next ring, so that no ring is missed (`checks/bell.py` searches a
/// model of it for a schedule that misses one).
#[derive(Drop)]
pub(crate) struct Bell {
    rings: AtomicU64,
    /// A flag: whether a thread may sleep that the next ring has to wake.
    awaited: AtomicBool,
}

impl Bell {
    pub(crate) fn new() -> Bell {
        Bell {
            rings: AtomicU64::new(0),
            awaited: AtomicBool::new(false),
        }
    }

    /// Returns the count of its rings so far.
    pub(crate) fn rings(&self) -> u64 {
        self.rings.load(Ordering::SeqCst)
    }

    /// Rings, and wakes all sleeping threads. If none sleeps, it makes no system call; of several rings after one
    /// sleep only the first makes one. Returns whether it took down a flag.
    pub(crate) fn ring(&self) -> bool {
        self.rings.fetch_add(1, Ordering::SeqCst);
        // A thread that hasn't announced its sleep yet finds the new count when it is about to.
        let wakes = self.awaited.load(Ordering::SeqCst)
            && self.awaited.swap(false, Ordering::SeqCst);
        if wakes {
            // The flag may be that of a thread which has read the count since the first addition and isn't asleep
            // yet. The second one keeps it awake: without its flag nobody would wake it.
            self.rings.fetch_add(1, Ordering::SeqCst);
            self.rings.wake_all();
        }
        wakes
    }

    /// Returns whether it rings within this number of spins.
    fn rings_soon(&self, rings: u64, spins: u32) -> bool {
        for _ in 0..spins {
            if self.rings() != rings {
                return true;
            }
            yield_now();
        }
        false
    }

    /// Waits until its count isn't `rings` any more: spins for a while, letting other threads run between the
    /// spins, and then sleeps. It may wake for no reason. Returns whether it slept.
    pub(crate) fn wait<R: Wait>(&self, rt: &R, rings: u64, spins: u32) -> bool {
        if self.rings_soon(rings, spins) {
            return false;
        }
        self.awaited.store(true, Ordering::SeqCst);
        // The system compares the low 32 bits of the count.
        self.rings.park(rt, (rings % 4_294_967_296) as u32);
        true
    }
}
