//! A clock that hardly counts the time in which a worker serves. While a worker makes one answer it sees nothing of its
//! other connections, so that time is no silence of theirs.

use std::time::Duration;

/// The number of milliseconds of a round of serving that count at most.
const MAX_COUNTED_MS: u64 = 100;

/// A worker's clock, which has a time for each round. Of the time in which the worker serves it counts at most
/// [`MAX_COUNTED_MS`] in each round, and it counts all of the time in which it waits.
#[derive(Clone, Copy, Debug)]
pub struct PatientClock {
    /// When the round began, by the system's clock.
    began: Duration,
    /// The time that was not counted before the round.
    uncounted: Duration,
}

impl PatientClock {
    /// Starts the clock at a time of the system's clock.
    pub fn new(now: Duration) -> PatientClock {
        PatientClock {
            began: now,
            uncounted: Duration::ZERO,
        }
    }

    /// Ends the round when the worker has served and is about to wait, at a time of the system's clock.
    pub fn end_round(&mut self, now: Duration) {
        let served = now.saturating_sub(self.began);
        let excess = served.saturating_sub(Duration::from_millis(MAX_COUNTED_MS));
        self.uncounted = self.uncounted.saturating_add(excess);
    }

    /// Begins a round when the worker has waited, at a time of the system's clock. Returns the time of the round.
    pub fn begin_round(&mut self, now: Duration) -> Duration {
        self.began = now;
        now.saturating_sub(self.uncounted)
    }
}
