//! The number of connections that are accepted in all.

use std::sync::atomic::{AtomicU64, Ordering};

/// The number of connections to accept, and the number accepted. They only decide when the workers end.
#[derive(Drop)]
pub struct ConnectionQuota {
    /// The number to accept; 0 for no limit.
    limit: u32,
    /// The number that were accepted, or are about to be.
    claimed: AtomicU64,
    accepted: AtomicU64,
}

impl ConnectionQuota {
    /// Creates the counts before the first connection.
    pub fn new(limit: u32) -> ConnectionQuota {
        ConnectionQuota {
            limit,
            claimed: AtomicU64::new(0),
            accepted: AtomicU64::new(0),
        }
    }

    /// Makes a claim before a connection is accepted, so that no more are accepted than the limit.
    pub fn claim(&self) -> bool {
        if self.limit == 0 {
            return true;
        }
        if self.claimed.fetch_add(1, Ordering::SeqCst) < self.limit as u64 {
            return true;
        }
        self.give_back();
        false
    }

    /// Gives back a claim for which no connection came.
    pub fn give_back(&self) {
        if self.limit > 0 {
            self.claimed.fetch_sub(1, Ordering::SeqCst);
        }
    }

    /// Counts a connection that was accepted with a claim.
    pub fn count_accepted(&self) {
        if self.limit > 0 {
            self.accepted.fetch_add(1, Ordering::SeqCst);
        }
    }

    /// Returns whether it has a limit.
    pub fn is_limited(&self) -> bool {
        self.limit > 0
    }

    /// Returns whether all were accepted.
    pub fn is_used_up(&self) -> bool {
        self.limit > 0 && self.accepted.load(Ordering::SeqCst) >= self.limit as u64
    }
}
