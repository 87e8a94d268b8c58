//! The counts of a server, and the lines that are printed once or at some counts.

use crate::counts::Counts;
use crate::held::HeldCounts;
use crate::lines::{FailureLine, FullnessLine, HeldText, LimitUnit, TooLargeLine, level_of};
use query_http::Status;
use std::alloc::{AllocError, Global};
use std::io;
use std::sync::atomic::{AtomicBool, AtomicU32, AtomicU64, Ordering};
use trace_model::{Answer, Limits, Refusal};

/// The numbers of requests answered 500 at which a line is printed.
const PRINTED_FAILURES: [u64; 7] = [1, 10, 100, 1_000, 10_000, 100_000, 1_000_000];

/// Returns how much of each limit is used.
fn held_texts(batches: u64, spans: u64, limits: &Limits) -> (HeldText, HeldText) {
    let batches = HeldText {
        held: batches,
        most: limits.batches,
        unit: LimitUnit::Batches,
    };
    let spans = HeldText {
        held: spans,
        most: limits.spans,
        unit: LimitUnit::Spans,
    };
    (batches, spans)
}

/// The lines already printed about one of the store's limits.
#[derive(Drop)]
struct LimitNotices {
    /// The highest percentage that was reported.
    level: AtomicU32,
    printed_full: AtomicBool,
}

impl LimitNotices {
    /// Creates the state before the first line.
    fn new() -> LimitNotices {
        LimitNotices {
            level: AtomicU32::new(0),
            printed_full: AtomicBool::new(false),
        }
    }

    /// Prints how much of the limit is used, once at each level.
    fn print_level<R: Eprint>(&self, rt: &R, unit: LimitUnit, held: u64, most: u32) {
        let level = level_of(held, most);
        let reached = u32::from(level);
        if reached > self.level.load(Ordering::SeqCst)
            && reached > self.level.fetch_max(reached, Ordering::SeqCst)
        {
            let line = FullnessLine {
                unit,
                level,
                held,
                most,
            };
            let _lost = eprintln!(rt; "{line}");
        }
    }
}

/// The workers' counts, and the lines that the first worker to notice something prints once.
#[derive(Drop)]
pub struct Notices {
    limits: Limits,
    held: HeldCounts,
    counts: Counts,
    batches: LimitNotices,
    spans: LimitNotices,
    printed_too_large: AtomicBool,
    /// The number of requests answered 500 because the store refused.
    failures: AtomicU64,
    /// A shortage of the system was reported, and no connection was accepted since.
    printed_shortage: AtomicBool,
    printed_all_taken: AtomicBool,
    printed_given_up: AtomicBool,
}

impl Notices {
    /// Creates counts of 0, before the first line.
    ///
    /// # Errors
    ///
    /// Out of memory.
    pub fn new(alloc: Global, limits: Limits, workers: u16) -> Result<Notices, AllocError> {
        Ok(Notices {
            limits,
            held: HeldCounts::new(alloc, &limits)?,
            counts: Counts::new(alloc, workers)?,
            batches: LimitNotices::new(),
            spans: LimitNotices::new(),
            printed_too_large: AtomicBool::new(false),
            failures: AtomicU64::new(0),
            printed_shortage: AtomicBool::new(false),
            printed_all_taken: AtomicBool::new(false),
            printed_given_up: AtomicBool::new(false),
        })
    }

    /// Counts the outcome of a batch with this number of spans, and prints what the operator must know.
    pub fn count_batch<R: Eprint>(
        &self,
        rt: &R,
        worker: u32,
        spans: u64,
        place: &Result<u64, Refusal>,
    ) {
        match *place {
            Ok(place) => {
                self.counts.acknowledge(worker);
                if self.held.add(place, spans) {
                    self.print_levels(rt);
                }
            }
            Err(refusal) => {
                self.counts.refuse(worker, refusal);
                self.print_refusal(rt, spans, refusal);
            }
        }
    }

    /// Counts a query, and prints a line if it was answered 500.
    pub fn count_query<R: Eprint>(&self, rt: &R, worker: u32, answer: &Result<Answer, Refusal>) {
        self.counts.query(worker);
        if let Err(refusal) = answer {
            self.count_failure(rt, *refusal);
        }
    }

    /// Prints how full the store is, once at each level of each limit.
    fn print_levels<R: Eprint>(&self, rt: &R) {
        let (batches, spans) = (self.held.batches(), self.held.spans());
        self.batches
            .print_level(rt, LimitUnit::Batches, batches, self.limits.batches);
        self.spans
            .print_level(rt, LimitUnit::Spans, spans, self.limits.spans);
    }

    /// Prints why a batch with this number of spans was refused, if the operator can do something about it.
    fn print_refusal<R: Eprint>(&self, rt: &R, spans: u64, refusal: Refusal) {
        match refusal {
            Refusal::JournalFull {
                batches,
                spans: held,
            } => {
                if spans > u64::from(self.limits.spans) {
                    self.print_too_large(rt, spans);
                } else {
                    self.print_full(rt, batches, held);
                }
            }
            _ => self.count_failure(rt, refusal),
        }
    }

    /// Prints that the store is full, unless it did for the limit that is reached.
    fn print_full<R: Eprint>(&self, rt: &R, batches: u64, spans: u64) {
        let limits = self.limits;
        let (notices, unit) = if batches >= u64::from(limits.batches) {
            (&self.batches, LimitUnit::Batches)
        } else {
            (&self.spans, LimitUnit::Spans)
        };
        if !notices.printed_full.swap(true, Ordering::SeqCst) {
            let (batches, spans) = held_texts(batches, spans, &limits);
            let advice = unit.advice();
            let _lost = eprintln!(rt; "full: {batches} and {spans}{advice}");
        }
    }

    /// Prints that a batch has more spans than the store may hold, unless it did for another batch.
    fn print_too_large<R: Eprint>(&self, rt: &R, spans: u64) {
        if !self.printed_too_large.swap(true, Ordering::SeqCst) {
            let line = TooLargeLine {
                spans,
                most: self.limits.spans,
            };
            let _lost = eprintln!(rt; "{line}");
        }
    }

    /// Counts a refused request if it was answered 500, and prints a line for the first, the tenth, and so on up to the
    /// millionth.
    fn count_failure<R: Eprint>(&self, rt: &R, refusal: Refusal) {
        if Status::of_refusal(refusal) != Status::InternalServerError {
            return;
        }
        let failures = self
            .failures
            .fetch_add(1, Ordering::SeqCst)
            .saturating_add(1);
        if PRINTED_FAILURES.contains(&failures) {
            let line = FailureLine { refusal, failures };
            let _lost = eprintln!(rt; "{line}");
        }
    }

    /// Prints what the store holds, and the counts.
    pub fn print_counts<R: Eprint>(&self, rt: &R) {
        let (batches, spans) = held_texts(self.held.batches(), self.held.spans(), &self.limits);
        let counts = &self.counts;
        let _lost = eprintln!(rt; "{batches} and {spans} held, {counts}");
    }

    /// Prints that all connections are in use, once.
    pub fn print_all_taken<R: Eprint>(&self, rt: &R) {
        if !self.printed_all_taken.swap(true, Ordering::SeqCst) {
            let _lost = eprintln!(rt;
                "as many connections are open as --connections allows: the next ones wait until one closes; a larger --connections or a shorter --idle helps"
            );
        }
    }

    /// Prints that a connection was dropped whose client didn't read its response, once.
    pub fn print_given_up<R: Eprint>(&self, rt: &R) {
        if !self.printed_given_up.swap(true, Ordering::SeqCst) {
            let _lost = eprintln!(rt;
                "too much waits for clients that don't read: further connections of such clients are closed; queries with a limit help"
            );
        }
    }

    /// Prints why no connection is accepted for now, once until one is accepted.
    pub fn print_shortage<R: Eprint>(&self, rt: &R, error: &io::Error) {
        if !self.printed_shortage.swap(true, Ordering::SeqCst) {
            let _lost = eprintln!(rt;
                "no connection can be accepted for now: {error}; more memory or open files (ulimit -n) help"
            );
        }
    }

    /// Records that a connection was accepted: the next shortage is reported again.
    pub fn end_shortage(&self) {
        if self.printed_shortage.load(Ordering::SeqCst) {
            self.printed_shortage.store(false, Ordering::SeqCst);
        }
    }
}
