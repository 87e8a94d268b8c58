//! An observer that makes the first call wait for another one.

use std::sync::Wait;
use std::sync::atomic::{AtomicBool, AtomicU64, Ordering};
use std::thread::yield_now;
use trace_server::CallObserver;

/// How often the first call yields to others.
const TURNS: u32 = 1_000_000;

/// Blocks the first call until another one was answered.
#[derive(Drop)]
pub struct FirstWaits {
    calls: AtomicU64,
    answered: AtomicBool,
    in_vain: AtomicBool,
}

impl FirstWaits {
    /// Creates an observer before the first call.
    pub fn new() -> FirstWaits {
        FirstWaits {
            calls: AtomicU64::new(0),
            answered: AtomicBool::new(false),
            in_vain: AtomicBool::new(false),
        }
    }

    /// Returns whether the first call saw another one answered.
    pub fn saw_another(&self) -> bool {
        self.answered.load(Ordering::SeqCst) && !self.in_vain.load(Ordering::SeqCst)
    }

    fn wait_for_another(&self) {
        for _ in 0..TURNS {
            if self.answered.load(Ordering::SeqCst) {
                return;
            }
            yield_now();
        }
        self.in_vain.store(true, Ordering::SeqCst);
    }
}

impl CallObserver for FirstWaits {
    fn before<R: Wait>(&self, _rt: &R, _worker: u32, _call: u64) {
        if self.calls.fetch_add(1, Ordering::SeqCst) == 0 {
            self.wait_for_another();
        }
    }

    fn after<R: Wait>(&self, _rt: &R, _worker: u32, _call: u64) {
        self.answered.store(true, Ordering::SeqCst);
    }
}
