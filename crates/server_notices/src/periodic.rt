//! The periodic line for the operator.

use crate::notices::Notices;
use std::sync::Wait;
use std::sync::atomic::{AtomicBool, Ordering};
use std::thread::sleep;
use std::time::{Clock, Duration};

/// The number of milliseconds between two checks whether the workers have ended.
const MAX_PAUSE_MS: u64 = 100;

/// Prints the counts periodically until the workers have ended. It runs in a thread of its own, so a line that a standard
/// error doesn't take blocks no worker. Workers print the other lines, which may block them.
#[derive(Drop)]
pub struct PeriodicCounts {
    /// The number of seconds between two lines; 0 for no lines.
    seconds: u32,
    over: AtomicBool,
}

impl PeriodicCounts {
    /// Creates it with workers that have not ended.
    pub fn new(seconds: u32) -> PeriodicCounts {
        PeriodicCounts {
            seconds,
            over: AtomicBool::new(false),
        }
    }

    /// Returns whether it prints nothing.
    pub fn is_off(&self) -> bool {
        self.seconds == 0
    }

    /// Records that the workers have ended.
    pub fn end(&self) {
        self.over.store(true, Ordering::SeqCst);
    }

    /// Returns how long to wait, at most until `due`.
    fn pause(now: Duration, due: Duration) -> Duration {
        due.saturating_sub(now)
            .min(Duration::from_millis(MAX_PAUSE_MS))
    }

    /// Prints the counts whenever a line is due, until the workers have ended.
    pub fn run<R: Wait + Clock + Eprint>(&self, rt: &R, notices: &Notices) {
        let period = Duration::from_secs(u64::from(self.seconds));
        let mut now = rt.monotonic().unwrap_or(Duration::ZERO);
        let mut due = now.saturating_add(period);
        for _ in rt.forever() {
            if self.over.load(Ordering::SeqCst) {
                break;
            }
            sleep(rt, PeriodicCounts::pause(now, due));
            now = rt.monotonic().unwrap_or(now);
            if now >= due {
                notices.print_counts(rt);
                due = now.saturating_add(period);
            }
        }
    }
}
