//! A worker's store: it counts what became of each call for the operator, and lets tests observe the calls.

ghost use Rattle.std.specs.Prelude.{◌≡◌};
ghost use mathlib.Core.List.{IsPrefix};

use crate::call_observer::CallObserver;
use intake::Live;
use jaeger_model::Batch;
use read_side::{Receipt, StoreName};
use server_notices::Notices;
use std::alloc::Global;
use std::marker::Model;
use std::sync::Wait;
use trace_model::{Answer, Backend, Query, Refusal};

/// The number of batches that a worker submits between two growths of its heap.
const GROWN_FOR: u64 = 16;

/// The size of a growth in bytes: what that number of usual batches takes, and less than a block that `malloc` requests
/// directly from the system.
const GROWTH: usize = 120_000;

/// Lets the calling thread's heap grow, if it has no such room, by allocating and freeing a block. Otherwise the heap
/// grows by a page or two at a time, with a system call for each batch. Without memory, nothing happens.
fn grow_heap(alloc: Global) {
    drop(Vec::<u8>::with_capacity(alloc, GROWTH));
}

/// A worker's store: it counts what became of each call for the operator, and lets tests observe the calls. Contracts
/// see only the store.
#[derive(Drop)]
pub(crate) struct WorkerStore<'a, N: StoreName, G, R> {
    rt: &'a R,
    observer: &'a G,
    notices: &'a Notices,
    worker: u32,
    /// The number of batches submitted and queries asked.
    calls: u64,
    /// The number of batches submitted.
    batches: u64,
    live: Live<N>,
}

impl<'a, N: StoreName, G, R> Model for WorkerStore<'a, N, G, R> {
    ghost use Rattle.intake.specs.LiveStores.{LiveValue};

    ghost Value = { LiveValue };

    ghost view = { λ g. g.live };
}

impl<'a, N: StoreName, G, R> WorkerStore<'a, N, G, R> {
    /// Wraps the store of the worker with this number.
    pub(crate) fn new(
        rt: &'a R,
        observer: &'a G,
        notices: &'a Notices,
        worker: u32,
        live: Live<N>,
    ) -> WorkerStore<'a, N, G, R>
        ensures { result ≡ live }
    {
        WorkerStore {
            rt,
            observer,
            notices,
            worker,
            calls: 0,
            batches: 0,
            live,
        }
    }

    /// Returns the worker's seat and pass.
    pub(crate) fn into_live(self) -> Live<N>
        ensures { result ≡ self.entry }
    {
        let WorkerStore {
            rt: _,
            observer: _,
            notices: _,
            worker: _,
            calls: _,
            batches: _,
            live,
        } = self;
        live
    }

    /// Learns the list of a receipt, which it knows from then on.
    pub(crate) fn learn(&mut self, receipt: &Receipt<N>)
        ensures seat { self.new.seat ≡ self.old.seat }
        ensures old { IsPrefix self.old.known self.new.known }
        ensures learnt { IsPrefix receipt.now.entries self.new.known }
        ensures refused_by { self.new.refused_by ≡ self.old.refused_by }
    {
        self.live.learn(receipt);
    }
}

impl<'a, N: StoreName, G: CallObserver, R: Wait + Eprint> Backend<R> for WorkerStore<'a, N, G, R> {
    ghost use Rattle.intake.specs.LiveStores.{LiveKnows, LiveSubmits, LiveReads};
    ghost use Rattle.intake.specs.LiveLaws.{submit_knows, read_knows};

    ghost limits = { λ s. N.limits };

    ghost knows = { LiveKnows N.limits };

    ghost submits = { LiveSubmits N.limits };

    ghost reads = { LiveReads N.limits };

    ghost submit_knows = { submit_knows N.limits };

    ghost read_knows = { read_knows N.limits };

    fn submit(&mut self, rt: &R, alloc: Global, batch: Batch) -> Result<u64, Refusal> {
        self.calls = self.calls.saturating_add(1);
        self.batches = self.batches.saturating_add(1);
        if self.batches % GROWN_FOR == 0 {
            grow_heap(alloc);
        }
        self.observer.before(self.rt, self.worker, self.calls);
        let spans = batch.spans.len() as u64;
        let place = self.live.submit(rt, alloc, batch);
        self.observer.after(self.rt, self.worker, self.calls);
        self.notices
            .count_batch(self.rt, self.worker, spans, &place);
        place
    }

    fn read(&mut self, alloc: Global, query: &Query) -> Result<Answer, Refusal> {
        self.calls = self.calls.saturating_add(1);
        self.observer.before(self.rt, self.worker, self.calls);
        let answer = Backend::<R>::read(&mut self.live, alloc, query);
        self.observer.after(self.rt, self.worker, self.calls);
        self.notices.count_query(self.rt, self.worker, &answer);
        answer
    }
}
