//! The number of open connections, in all and of each worker.

use std::alloc::{AllocError, Global};
use std::sync::atomic::{AtomicU32, Ordering};

/// The load of a worker that can't accept connections.
const ACCEPTS_NONE: u32 = u32::MAX;

/// Returns the load of a worker with this number of connections, below [`ACCEPTS_NONE`]; [`ACCEPTS_NONE`] for `None`, a
/// worker that can't accept more.
fn load_of(connections: Option<usize>) -> u32 {
    match connections {
        Some(connections) => u32::try_from(connections)
            .unwrap_or(ACCEPTS_NONE)
            .min(ACCEPTS_NONE - 1),
        None => ACCEPTS_NONE,
    }
}

/// The number of open connections, in all and of each worker. The counts only decide which worker accepts a connection,
/// and when.
#[derive(Drop)]
pub struct Loads {
    workers: Vec<AtomicU32>,
    open: AtomicU32,
    max_open: u32,
}

impl Loads {
    /// Creates counts of 0. No worker accepts connections before it sets its number, so none is left to one that can't
    /// start.
    ///
    /// # Errors
    ///
    /// Out of memory.
    pub fn new(alloc: Global, workers: u16, max_open: u32) -> Result<Loads, AllocError> {
        let mut loads = Vec::with_capacity(alloc, workers as usize)?;
        for _ in 0..workers {
            loads.push(AtomicU32::new(ACCEPTS_NONE))?;
        }
        Ok(Loads {
            workers: loads,
            open: AtomicU32::new(0),
            max_open,
        })
    }

    /// Takes a permit for one more connection, if one is free.
    pub fn take_permit(&self) -> bool {
        if self.open.fetch_add(1, Ordering::SeqCst) < self.max_open {
            return true;
        }
        self.return_permit();
        false
    }

    /// Returns a permit.
    pub fn return_permit(&self) {
        self.open.fetch_sub(1, Ordering::SeqCst);
    }

    /// Sets the number of connections of a worker; `None` if it can't accept more.
    pub fn set(&self, worker: u32, connections: Option<usize>) {
        // Impossible: `None`. Each worker has a load.
        if let Some(load) = self.workers.get(worker as usize) {
            load.store(load_of(connections), Ordering::SeqCst);
        }
    }

    /// Returns whether no worker that can accept has fewer connections.
    pub fn is_least(&self, connections: usize) -> bool {
        let own = load_of(Some(connections));
        self.workers
            .iter()
            .all(|load| load.load(Ordering::SeqCst) >= own)
    }
}
