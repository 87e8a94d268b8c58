//! Counts of batches and queries by worker. They are only used for the operator's notices.

use crate::lines::noun;
use std::alloc::{AllocError, Global};
use std::fmt;
use std::sync::atomic::{AtomicU64, Ordering};
use trace_model::Refusal;

/// The number of batches that were refused, by the refusal.
#[derive(Drop)]
struct RefusalCounts {
    journal_full: AtomicU64,
    stale: AtomicU64,
    no_memory: AtomicU64,
    deferred: AtomicU64,
    busy: AtomicU64,
    closed: AtomicU64,
    stranger: AtomicU64,
    no_reply: AtomicU64,
    behind: AtomicU64,
    conflict: AtomicU64,
    gone: AtomicU64,
}

impl RefusalCounts {
    /// Creates counts of 0.
    fn new() -> RefusalCounts {
        RefusalCounts {
            journal_full: AtomicU64::new(0),
            stale: AtomicU64::new(0),
            no_memory: AtomicU64::new(0),
            deferred: AtomicU64::new(0),
            busy: AtomicU64::new(0),
            closed: AtomicU64::new(0),
            stranger: AtomicU64::new(0),
            no_reply: AtomicU64::new(0),
            behind: AtomicU64::new(0),
            conflict: AtomicU64::new(0),
            gone: AtomicU64::new(0),
        }
    }

    /// Returns the count of a refusal.
    fn of(&self, refusal: Refusal) -> &AtomicU64 {
        match refusal {
            Refusal::JournalFull { .. } => &self.journal_full,
            Refusal::Stale { .. } => &self.stale,
            Refusal::NoMemory => &self.no_memory,
            Refusal::Deferred => &self.deferred,
            Refusal::Busy => &self.busy,
            Refusal::Closed => &self.closed,
            Refusal::Stranger => &self.stranger,
            Refusal::NoReply => &self.no_reply,
            Refusal::Behind { .. } => &self.behind,
            Refusal::Conflict { .. } => &self.conflict,
            Refusal::Gone => &self.gone,
        }
    }

    /// Returns each refusal with its count, in the order of their numbers. What they carry isn't read. The pattern
    /// names each field, so that the compiler finds a field that isn't listed.
    fn counted(&self) -> [(Refusal, u64); 11] {
        let RefusalCounts {
            journal_full,
            stale,
            no_memory,
            deferred,
            busy,
            closed,
            stranger,
            no_reply,
            behind,
            conflict,
            gone,
        } = self;
        [
            (
                Refusal::JournalFull {
                    batches: 0,
                    spans: 0,
                },
                journal_full.load(Ordering::SeqCst),
            ),
            (Refusal::Stale { last: 0 }, stale.load(Ordering::SeqCst)),
            (Refusal::NoMemory, no_memory.load(Ordering::SeqCst)),
            (Refusal::Deferred, deferred.load(Ordering::SeqCst)),
            (Refusal::Busy, busy.load(Ordering::SeqCst)),
            (Refusal::Closed, closed.load(Ordering::SeqCst)),
            (Refusal::Stranger, stranger.load(Ordering::SeqCst)),
            (Refusal::NoReply, no_reply.load(Ordering::SeqCst)),
            (Refusal::Behind { front: 0 }, behind.load(Ordering::SeqCst)),
            (
                Refusal::Conflict { place: 0 },
                conflict.load(Ordering::SeqCst),
            ),
            (Refusal::Gone, gone.load(Ordering::SeqCst)),
        ]
    }

    /// Adds other counts to these.
    fn add(&self, others: &RefusalCounts) {
        for (refusal, count) in others.counted() {
            self.of(refusal).fetch_add(count, Ordering::SeqCst);
        }
    }
}

/// The counts of one worker.
#[derive(Drop)]
struct WorkerCounts {
    /// The number of acknowledged batches, also of those whose clients left before the 202. A repeated one counts again.
    acknowledged: AtomicU64,
    queries: AtomicU64,
    refused: RefusalCounts,
}

impl WorkerCounts {
    /// Creates counts of 0.
    fn new() -> WorkerCounts {
        WorkerCounts {
            acknowledged: AtomicU64::new(0),
            queries: AtomicU64::new(0),
            refused: RefusalCounts::new(),
        }
    }
}

/// The counts of all workers. A worker only adds to its own.
#[derive(Drop)]
pub(crate) struct Counts {
    workers: Vec<WorkerCounts>,
}

impl Counts {
    /// Creates counts of 0 for each worker.
    ///
    /// # Errors
    ///
    /// Out of memory.
    pub(crate) fn new(alloc: Global, workers: u16) -> Result<Counts, AllocError> {
        let mut counts = Vec::with_capacity(alloc, workers as usize)?;
        for _ in 0..workers {
            counts.push(WorkerCounts::new())?;
        }
        Ok(Counts { workers: counts })
    }

    /// Returns the counts of a worker.
    fn of(&self, worker: u32) -> Option<&WorkerCounts> {
        // Impossible: `None`. There are counts for each worker.
        self.workers.get(worker as usize)
    }

    /// Counts a batch that was acknowledged, a repeat too.
    pub(crate) fn acknowledge(&self, worker: u32) {
        if let Some(counts) = self.of(worker) {
            counts.acknowledged.fetch_add(1, Ordering::SeqCst);
        }
    }

    /// Counts a batch that was refused.
    pub(crate) fn refuse(&self, worker: u32, refusal: Refusal) {
        if let Some(counts) = self.of(worker) {
            counts.refused.of(refusal).fetch_add(1, Ordering::SeqCst);
        }
    }

    /// Counts a query.
    pub(crate) fn query(&self, worker: u32) {
        if let Some(counts) = self.of(worker) {
            counts.queries.fetch_add(1, Ordering::SeqCst);
        }
    }

    /// Returns the number of batches that were acknowledged, repeats included.
    fn acknowledged(&self) -> u64 {
        let mut all: u64 = 0;
        for counts in &self.workers {
            all = all.saturating_add(counts.acknowledged.load(Ordering::SeqCst));
        }
        all
    }

    /// Returns the number of queries.
    fn queries(&self) -> u64 {
        let mut all: u64 = 0;
        for counts in &self.workers {
            all = all.saturating_add(counts.queries.load(Ordering::SeqCst));
        }
        all
    }

    /// Returns the number of refused batches, by the refusal.
    fn refused(&self) -> RefusalCounts {
        let all = RefusalCounts::new();
        for counts in &self.workers {
            all.add(&counts.refused);
        }
        all
    }
}

/// `400 acknowledged, 97 queries, 3 refused 20, 1 refused 29`. Refusals that didn't occur are left out.
impl fmt::Display for Counts {
    fn fmt<W: fmt::Write>(&self, f: &mut fmt::Formatter<W>) -> fmt::Result {
        let acknowledged = self.acknowledged();
        let queries = self.queries();
        let query_noun = noun(queries, "query", "queries");
        write!(f, "{acknowledged} acknowledged, {queries} {query_noun}")?;
        let refused = self.refused();
        for (refusal, count) in refused.counted() {
            if count > 0 {
                let number = refusal.number();
                write!(f, ", {count} refused {number}")?;
            }
        }
        Ok(())
    }
}
