//! A worker, which serves many connections.

ghost use Rattle.intake.specs.LiveStores.{SeatGoesOn};

use crate::acceptor::Acceptor;
use crate::call_observer::CallObserver;
use crate::event_loop::EventLoop;
use crate::threads::Task;
use crate::worker_store::WorkerStore;
use intake::{DeskHandle, Live};
use read_side::StoreName;
use server_connections::{ConnectionQuota, Loads};
use server_notices::{Notices, PeriodicCounts, print_accepts_no_more};
use std::alloc::Global;
use std::net::{Net, TcpListener, TcpStream};
use std::sync::Wait;
use std::time::Clock;

/// The state that all workers share.
#[derive(Drop)]
pub(crate) struct ServerContext<'a, N: StoreName, G> {
    pub(crate) alloc: Global,
    pub(crate) listener: &'a TcpListener,
    pub(crate) desk: &'a DeskHandle<N>,
    pub(crate) observer: &'a G,
    pub(crate) notices: &'a Notices,
    pub(crate) periodic: &'a PeriodicCounts,
    pub(crate) loads: &'a Loads,
    pub(crate) quota: &'a ConnectionQuota,
    pub(crate) idle: u32,
}

/// What a worker starts with: its number, and its seat and pass.
#[derive(Drop)]
pub(crate) struct WorkerStart<N: StoreName> {
    pub(crate) number: u32,
    pub(crate) live: Live<N>,
}

/// The outcome of a worker.
#[derive(Clone, Copy, Debug)]
pub(crate) struct WorkerOutcome {
    /// The number of connections that it accepted.
    pub(crate) served: u64,
    /// It couldn't accept any more.
    pub(crate) failed: bool,
}

/// The outcome of a worker, and its seat and pass.
#[derive(Drop)]
pub(crate) struct EndedWorker<N: StoreName> {
    pub(crate) outcome: WorkerOutcome,
    pub(crate) live: Live<N>,
}

impl<'a, N: StoreName, G: CallObserver> ServerContext<'a, N, G> {
    /// Runs a worker: serves connections until all were accepted or no more can be, and the open ones have
    /// ended. Returns its seat and pass.
    fn work<R: Wait + Clock + Eprint + Net<Stream = TcpStream, Listener = TcpListener>>(
        &self,
        rt: &R,
        start: WorkerStart<N>,
    ) -> EndedWorker<N>
        ensures { SeatGoesOn start.live.seat result.live.seat }
    {
        let WorkerStart {
            number: worker,
            live,
        } = start;
        let mut event_loop = match EventLoop::new(rt, self.alloc, self.listener, self.idle) {
            Ok(event_loop) => event_loop,
            Err(error) => {
                print_accepts_no_more(rt, worker, &error);
                let outcome = WorkerOutcome {
                    served: 0,
                    failed: true,
                };
                return EndedWorker { outcome, live };
            }
        };
        self.loads.set(worker, Some(0));
        let mut store = WorkerStore::new(rt, self.observer, self.notices, worker, live);
        let mut acceptor = Acceptor::new();
        event_loop.run(rt, self, worker, &mut acceptor, &mut store);
        EndedWorker {
            outcome: acceptor.outcome(),
            live: store.into_live(),
        }
    }
}

impl<
    'a,
    N: StoreName,
    G: CallObserver,
    R: Wait + Clock + Eprint + Net<Stream = TcpStream, Listener = TcpListener>,
> Task<R, WorkerStart<N>, EndedWorker<N>> for ServerContext<'a, N, G> {
    ghost use Rattle.intake.specs.LiveStores.{SeatGoesOn};

    ghost gives = { λ argument end. SeatGoesOn argument.live.seat end.live.seat };

    fn run(&self, rt: &R, argument: WorkerStart<N>) -> EndedWorker<N> {
        self.work(rt, argument)
    }
}
