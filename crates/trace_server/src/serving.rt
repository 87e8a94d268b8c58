//! Serving on a socket.

ghost use Rattle.intake.specs.LiveStores.{SeatGoesOn};
ghost use Rattle.std.specs.List.{AllZip};
ghost use Rattle.std.specs.Prelude.{◌≡◌, [], Some, false, map, IfOk};
ghost use Rattle.read_side.specs.Keepers.{no_entries};
ghost use Rattle.intake.specs.Turns.{IsNewClerk};
ghost use Rattle.session_devices.specs.Traffic.{traffic_of};
ghost use Rattle.trace_server.specs.ServerRuns.{EndsAfterListening, OneForEach, RunsServer, serving_of};
ghost use Rattle.trace_server.specs.WorkerSeats.{AreNew, HasJudged};

use crate::acceptor::lengthen_queue;
use crate::call_observer::CallObserver;
use crate::config::ServerConfig;
use crate::ending::close_books;
use crate::output_lines::{end_unclosed, end_with_totals, total_outcome, write_listening};
use crate::shared::SharedStore;
use crate::threads::{OwnWork, beside, run_each};
use crate::worker::{EndedWorker, ServerContext, WorkerStart};
use intake::{Books, Clerk, DeskHandle};
use read_side::{EmptyHistory, Keeper, StoreName};
use server_connections::{ConnectionQuota, Loads};
use server_notices::{
    Notices, PeriodicCounts, end_unwritten, end_with, print_few_files, print_limits,
    print_reachable,
};
use session_devices::Output;
use std::alloc::{AllocError, Global};
use std::marker::Brand;
use std::net::{Net, TcpListener, TcpStream};
use std::snapshot::Snapshot;
use std::sync::Wait;
use std::thread::{Promise, Threads, join, spawn};
use std::time::Clock;
use text_lines::{ExitStatus, RunError};
use trace_model::Limits;

/// A server's listener, its configuration, and the observer of its workers' calls.
#[derive(Drop)]
struct ServerSetup<'a, G> {
    listener: &'a TcpListener,
    config: &'a ServerConfig,
    observer: &'a G,
    loads: &'a Loads,
    notices: &'a Notices,
}

/// The workers' outcomes, each with its seat and pass.
type Outcomes<N> = Result<Vec<EndedWorker<N>>, AllocError>;

/// What the sessions left: the clerk's books, and the workers' outcomes. It isn't `Drop`, because the books aren't.
struct ServedSessions<N: StoreName> {
    books: Books<N>,
    workers: Outcomes<N>,
}

/// Runs the workers until all sessions have ended, then ends the periodic lines.
fn run_workers<
    N: StoreName + Send + Sync,
    G: CallObserver + Sync,
    R: Threads + Wait + Clock + Eprint + Net<Stream = TcpStream, Listener = TcpListener> + Sync,
>(rt: &R, server: &ServerContext<'_, N, G>, starts: Vec<WorkerStart<N>>) -> Outcomes<N>
    ensures { IfOk result (λ v. AllZip SeatGoesOn (map (λ p. p.live.seat) starts.items)
        (map (λ w. w.live.seat) v.items)) }
{
    let outcomes = run_each(rt, server, starts);
    server.periodic.end();
    outcomes
}

/// Runs the workers until all sessions have ended, with the periodic lines in a thread of their own. If that thread can't be
/// created, there are none.
fn run_workers_and_periodic_counts<
    N: StoreName + Send + Sync,
    G: CallObserver + Sync,
    R: Threads + Wait + Clock + Eprint + Net<Stream = TcpStream, Listener = TcpListener> + Sync,
>(rt: &R, server: &ServerContext<'_, N, G>, starts: Vec<WorkerStart<N>>) -> Outcomes<N>
    ensures { IfOk result (λ v. AllZip SeatGoesOn (map (λ p. p.live.seat) starts.items)
        (map (λ w. w.live.seat) v.items)) }
{
    if server.periodic.is_off() {
        return run_workers(rt, server, starts);
    }
    let (periodic, notices) = (server.periodic, server.notices);
    let (_, outcomes) = join(
        rt,
        || -> () { periodic.run(rt, notices) },
        || -> Outcomes<N>
            ensures { IfOk result (λ v. AllZip SeatGoesOn (map (λ p. p.live.seat) starts.items)
                (map (λ w. w.live.seat) v.items)) }
        { run_workers(rt, server, starts) },
    );
    outcomes
}

/// Runs the workers until all sessions have ended, then closes the desk.
fn run_workers_then_close_desk<
    N: StoreName + Send + Sync,
    G: CallObserver + Sync,
    R: Threads + Wait + Clock + Eprint + Net<Stream = TcpStream, Listener = TcpListener> + Sync,
>(rt: &R, server: &ServerContext<'_, N, G>, starts: Vec<WorkerStart<N>>) -> Outcomes<N>
    ensures { IfOk result (λ v. AllZip SeatGoesOn (map (λ p. p.live.seat) starts.items)
        (map (λ w. w.live.seat) v.items)) }
{
    let outcomes = run_workers_and_periodic_counts(rt, server, starts);
    server.desk.close();
    outcomes
}

/// The promise that workers that began with these seats and passes return with these seats.
#[derive(Drop)]
struct KeepSeats<N: StoreName>(Snapshot<Vec<WorkerStart<N>>>);

impl<N: StoreName> Promise<Outcomes<N>> for KeepSeats<N> {
    ghost use Rattle.intake.specs.LiveStores.{SeatGoesOn};
    ghost use Rattle.std.specs.List.{AllZip};
    ghost use Rattle.std.specs.Prelude.{map, IfOk};

    ghost kept_by = { λ began ended. IfOk ended (λ v.
        AllZip SeatGoesOn (map (λ p. p.live.seat) began.0.value.items)
        (map (λ w. w.live.seat) v.items)) };
}

/// The clerk of an empty store, and the slot that holds its keeper. [`beside`] takes only work that is `Drop`, which a keeper
/// isn't: so the keeper stays outside, in the slot, until `run` takes it.
#[derive(Drop)]
struct ClerkWork<'d, 's, N: StoreName> {
    desk: &'d DeskHandle<N>,
    clerk: Clerk<N>,
    slot: &'s mut Option<Keeper<N>>,
}

impl<'d, 's, N: StoreName, R: Wait> OwnWork<R, Books<N>> for ClerkWork<'d, 's, N> {
    ghost use Rattle.std.specs.Prelude.{◌≡◌, [], Some};
    ghost use Rattle.read_side.specs.Keepers.{no_entries};
    ghost use Rattle.intake.specs.Turns.{IsNewClerk};
    ghost use Rattle.trace_server.specs.WorkerSeats.{KeepsBooks};

    ghost ready = { λ w. (w.slot.now ≡ Some no_entries) × IsNewClerk w.clerk };

    ghost gives = { λ w books. KeepsBooks N.limits w.clerk.desk books };

    /// Runs the clerk until the desk is closed. It takes the keeper out of the slot. Without workers, the desk is
    /// closed first.
    fn run(self, rt: &R, has_other: bool) -> Books<N> {
        let ClerkWork { desk, clerk, slot } = self;
        if !has_other {
            desk.close();
        }
        let Some(keeper) = slot.take() else {
            unreachable!()
        };
        clerk.run(rt, keeper)
    }
}

/// Returns the state that the workers share.
fn server_context<'a, 's: 'a, N: StoreName, G>(
    alloc: Global,
    desk: &'a DeskHandle<N>,
    setup: &ServerSetup<'s, G>,
    quota: &'a ConnectionQuota,
    periodic: &'a PeriodicCounts,
) -> ServerContext<'a, N, G> {
    ServerContext {
        alloc,
        listener: setup.listener,
        desk,
        observer: setup.observer,
        notices: setup.notices,
        periodic,
        loads: setup.loads,
        quota,
        idle: setup.config.options.idle,
    }
}

/// Runs the clerk in this thread, and the workers in their own threads, until all sessions have ended. If no thread can
/// be created for them, the desk is closed and no connection is served.
fn serve_sessions<
    N: StoreName + Send + Sync,
    G: CallObserver + Sync,
    R: Threads + Wait + Clock + Eprint + Net<Stream = TcpStream, Listener = TcpListener> + Sync,
>(rt: &R, alloc: Global, shared: SharedStore<N>, setup: &ServerSetup<'_, G>) -> ServedSessions<N>
    requires keeper { shared.keeper ≡ no_entries }
    requires clerk { IsNewClerk shared.clerk }
    ensures judged { HasJudged N.limits result.books }
    ensures left { result.books.unjudged.items ≡ [] }
    ensures desk { result.books.inbox.desk ≡ shared.clerk.desk }
    ensures seats { IfOk result.workers (λ v. AllZip SeatGoesOn
        (map (λ p. p.live.seat) shared.starts.items) (map (λ w. w.live.seat) v.items)) }
{
    let SharedStore {
        keeper,
        desk,
        clerk,
        starts,
    } = shared;
    let quota = ConnectionQuota::new(setup.config.options.sessions);
    let periodic = PeriodicCounts::new(setup.config.options.report);
    let server = server_context(alloc, &desk, setup, &quota, &periodic);
    let mut slot = Some(keeper);
    // For the prover: the promise that `beside` asks for.
    let seats = KeepSeats(Snapshot::of(&starts));
    let work = ClerkWork {
        desk: &desk,
        clerk,
        slot: &mut slot,
    };
    let (books, outcomes) = beside(
        rt,
        seats,
        || -> Outcomes<N>
            ensures { IfOk result (λ v. AllZip SeatGoesOn (map (λ p. p.live.seat) starts.items)
                (map (λ w. w.live.seat) v.items)) }
        { run_workers_then_close_desk(rt, &server, starts) },
        work,
    );
    // Impossible: the clerk has taken the keeper. But no clause of `beside` says so, and a keeper can't be dropped.
    if let Some(untaken) = slot {
        untaken.close(rt);
    }
    ServedSessions {
        books,
        workers: outcomes.unwrap_or(Err(AllocError)),
    }
}

/// Serves the store, closes its books and the store, writes the last lines, and returns the exit status.
fn serve_store<
    N: StoreName + Send + Sync,
    G: CallObserver + Sync,
    W: Output,
    R: Threads + Wait + Clock + Eprint + Net<Stream = TcpStream, Listener = TcpListener> + Sync,
>(
    rt: &R,
    alloc: Global,
    shared: SharedStore<N>,
    setup: &ServerSetup<'_, G>,
    output: &mut W,
) -> ExitStatus
    requires keeper { shared.keeper ≡ no_entries }
    requires clerk { IsNewClerk shared.clerk }
    requires new { AreNew shared.clerk.desk (map (λ p. p.live.seat) shared.starts.items) }
    requires numbers { OneForEach setup.now.config.now.options.workers
        (map (λ p. p.live.seat) shared.starts.items) }
    requires output_works { W.has_failed output.old ≡ false }
    ensures { EndsAfterListening (serving_of setup.now.config.now.options.host N.limits
        setup.now.config.now.options.workers)
        (map (λ p. p.live.seat) shared.starts.items)
        (traffic_of W.contents W.has_failed output.old output.new) result }
{
    let ServedSessions { books, workers } = serve_sessions(rt, alloc, shared, setup);
    let Ok(workers) = workers else {
        books.close(rt);
        return end_with(
            rt,
            RunError::Memory,
            "no thread or no memory for the workers",
        );
    };
    let all = total_outcome(workers.as_slice());
    match close_books(rt, books, workers) {
        Ok(totals) => end_with_totals(rt, alloc, output, all, totals),
        Err(_) => end_unclosed(rt, alloc, output, all),
    }
}

/// Returns whether a thread can be created.
fn can_start<R: Threads>(rt: &R) -> bool {
    match spawn(rt, || -> () {}) {
        Ok(thread) => {
            thread.join(rt);
            true
        }
        Err(_) => false,
    }
}

/// Opens a store over this history, which `N` names, and serves it. For the prover: `limits` equals
/// `setup.config.options.limits`.
fn serve_named<
    N: StoreName + Send + Sync,
    G: CallObserver + Sync,
    W: Output,
    R: Threads + Wait + Clock + Eprint + Net<Stream = TcpStream, Listener = TcpListener> + Sync,
>(
    rt: &R,
    alloc: Global,
    history: EmptyHistory,
    limits: Limits,
    setup: &ServerSetup<'_, G>,
    output: &mut W,
) -> ExitStatus
    requires book { history.log.book ≡ N.book }
    requires limits { limits ≡ N.limits }
    requires output_works { W.has_failed output.old ≡ false }
    ensures { RunsServer (serving_of setup.now.config.now.options.host limits
        setup.now.config.now.options.workers)
        (traffic_of W.contents W.has_failed output.old output.new) result }
{
    let Ok(address) = setup.listener.local_addr() else {
        return end_with(
            rt,
            RunError::Memory,
            "the system gave no address of the socket",
        );
    };
    lengthen_queue(setup.listener);
    let Ok(shared) = SharedStore::<N>::open(rt, alloc, history, limits, setup.config) else {
        return end_with(
            rt,
            RunError::Memory,
            "no memory for a store with these limits: give smaller ones",
        );
    };
    let options = &setup.config.options;
    if let Err(error) = write_listening(alloc, output, options.host, address.port()) {
        shared.close(rt);
        return end_unwritten(rt, error);
    }
    print_reachable(rt, options.host);
    print_limits(rt, &options.limits);
    print_few_files(rt, options.connections, options.workers);
    serve_store(rt, alloc, shared, setup, output)
}

/// Serves the connections of a socket that listens on the options' host, over an empty store, and returns the exit
/// status: `Success` after the requested number of connections, `DeviceFailed` if a worker couldn't accept any more or
/// the output failed, and `OutOfMemory` if memory or threads ran out, or the system didn't return the socket's address.
///
/// It writes a line with the host and port once connections are accepted. At the end it writes a line with the number
/// of connections, and one with the number of batches that were acknowledged, refused by the store, and left
/// unanswered. A worker serves many connections, one request of each in turn. An error of a connection ends only that
/// connection. Every call to the store is between two calls of the observer. The listener is non-blocking from then on.
///
/// Standard error gets lines for the operator: that other machines can reach the host, the limits of the store, that
/// the process may open few files, how full the store is, that requests were answered 500, why no connection is
/// accepted or one was given up, and why the server fails. None of these are in the output.
pub fn serve_with<
    G: CallObserver + Sync,
    W: Output,
    R: Threads + Wait + Clock + Eprint + Net<Stream = TcpStream, Listener = TcpListener> + Sync,
>(
    rt: &R,
    alloc: Global,
    listener: &TcpListener,
    config: &ServerConfig,
    observer: &G,
    output: &mut W,
) -> ExitStatus
    requires output_works { W.has_failed output.old ≡ false }
    ensures { RunsServer (serving_of config.now.options.host config.now.options.limits
        config.now.options.workers)
        (traffic_of W.contents W.has_failed output.old output.new) result }
{
    // Before the port is announced: without a thread nobody would be served.
    if !can_start(rt) {
        return end_with(rt, RunError::Memory, "no thread can be made");
    }
    let (history, limits) = (EmptyHistory::new(), config.options.limits);
    let (workers, connections) = (config.options.workers, config.options.connections);
    let Ok(loads) = Loads::new(alloc, workers, connections) else {
        return end_with(rt, RunError::Memory, "out of memory");
    };
    let Ok(notices) = Notices::new(alloc, limits, workers) else {
        return end_with(rt, RunError::Memory, "out of memory");
    };
    let setup = ServerSetup {
        listener,
        config,
        observer,
        loads: &loads,
        notices: &notices,
    };
    serve_named::<Brand, G, W, R>(rt, alloc, history, limits, &setup, output)
}
