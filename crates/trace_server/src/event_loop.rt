//! A worker's event loop: waits for its connections, and gives each one that is ready a turn.

ghost use Rattle.std.specs.Prelude.{◌≡◌, IfOk};
ghost use Rattle.slab.specs.Slab.{ContainsKey};
ghost use Rattle.intake.specs.LiveStores.{SeatGoesOn};
ghost use Rattle.open_connections.specs.OpenConnections.{IsEmpty, IsRest};
ghost use Rattle.trace_server.specs.WorkerConnections.{AllUnderway};

use crate::acceptor::Acceptor;
use crate::call_observer::CallObserver;
use crate::source::Source;
use crate::worker::ServerContext;
use crate::worker_store::WorkerStore;
use open_connections::{
    BufferedConnection, ConnectionEnd, ConnectionSet, ConnectionTurn, Event, MAX_EVENTS,
    OpenProgress, Readiness, Socket, TurnTime, WaitingBytes,
};
use read_side::StoreName;
use server_connections::{Awaits, Lingering, PatientClock, idle_limit, prepare};
use std::alloc::Global;
use std::collections::VecDeque;
use std::io;
use std::io::ErrorKind;
use std::mem::drop;
use std::net::{Net, TcpListener, TcpStream};
use std::os::fd::AsRawFd;
use std::sync::Wait;
use std::thread::sleep;
use std::time::{Clock, Duration};

/// The number of seconds between two checks for connections that were silent for too long.
const CHECK_SECONDS: u64 = 1;

/// The limit of the response bytes that wait at a worker for several clients. Most of them aren't made yet, and take
/// about a tenth of their number in memory.
const MAX_WAITING_BYTES: usize = 2 << 30;

/// The limit of those of them that are in memory as text. It has a limit of its own, because one part of an answer may be
/// a large span.
const MAX_MADE_BYTES: usize = 256 << 20;

/// The number of milliseconds after which a worker checks whether others have accepted all connections.
const SESSIONS_PAUSE_MS: u64 = 20;

/// Returns whether too many bytes wait if these, of one client, are kept beside those of others. The bytes of a single
/// client may always wait.
fn is_too_much(own: WaitingBytes, others: WaitingBytes) -> bool {
    let all = own.and(others);
    (all.all > MAX_WAITING_BYTES && others.all > 0)
        || (all.made > MAX_MADE_BYTES && others.made > 0)
}

/// Returns the earlier of two optional times.
fn earlier(one: Option<Duration>, other: Option<Duration>) -> Option<Duration> {
    match (one, other) {
        (Some(one), Some(other)) => Some(one.min(other)),
        (Some(time), None) | (None, Some(time)) => Some(time),
        (None, None) => None,
    }
}

/// A worker's connections, and their readiness.
#[derive(Drop)]
pub(crate) struct EventLoop {
    readiness: Readiness,
    connections: ConnectionSet<Socket>,
    lingering: Lingering,
    /// The keys of connections that hold unanswered bytes, and whether their clients have closed their side. A key may be
    /// of a connection that was removed since, and never of a newcomer: only `accept` hands out keys, at the end of a
    /// round, when all keys that were here at its start have been taken out.
    holding: VecDeque<(usize, bool)>,
    clock: PatientClock,
    /// The round, and its time by the clock.
    at: TurnTime,
    /// When to check for connections that were silent for too long.
    next_check: Duration,
    /// The number of permits that its connections have.
    permits: usize,
    /// How long a connection may be silent; `None` for no limit.
    idle_limit: Option<Duration>,
    /// A connection was dropped because too many bytes waited.
    has_given_up: bool,
}

impl EventLoop {
    /// Creates an event loop without connections, and registers the listener.
    ///
    /// # Errors
    ///
    /// The system has no file descriptor or no memory left.
    pub(crate) fn new<R: Clock + Net<Stream = TcpStream, Listener = TcpListener>>(
        rt: &R,
        alloc: Global,
        listener: &TcpListener,
        idle: u32,
    ) -> io::Result<EventLoop>
        ensures { IfOk result (λ a. IsEmpty a.connections) }
    {
        listener.set_nonblocking(true)?;
        let readiness = Readiness::new(rt, alloc)?;
        readiness.register(listener.as_raw_fd(), Source::Listener.token())?;
        let Ok(connections) = ConnectionSet::new(alloc) else {
            return Err(io::Error::from(ErrorKind::OutOfMemory));
        };
        let now = rt.monotonic()?;
        Ok(EventLoop {
            readiness,
            connections,
            lingering: Lingering::new(alloc),
            holding: VecDeque::new(alloc),
            clock: PatientClock::new(now),
            at: TurnTime { now, round: 0 },
            next_check: Duration::ZERO,
            permits: 0,
            idle_limit: idle_limit(idle),
            has_given_up: false,
        })
    }

    /// Returns whether it has no connection.
    pub(crate) fn is_empty(&self) -> bool {
        self.connections.is_empty() && self.lingering.is_empty()
    }

    /// Counts the bytes that wait for the clients of this worker.
    fn waiting_bytes(&self) -> WaitingBytes {
        self.connections
            .waiting_bytes()
            .and(self.lingering.waiting_bytes())
    }

    /// Returns whether to drop a connection whose response waits, because too many bytes wait in all.
    fn must_drop(&mut self, key: usize) -> bool
        requires there { ContainsKey self.old.connections key }
        ensures open { self.new.connections ≡ self.old.connections }
    {
        let Some(connection) = self.connections.get(key) else {
            unreachable!();
        };
        let own = connection.connection.waiting_bytes();
        let must_drop = is_too_much(own, self.waiting_bytes().without(own));
        self.has_given_up |= must_drop;
        must_drop
    }

    /// Registers a connection for when its client takes more of the response. Returns whether that succeeded.
    fn await_writes(&self, key: usize) -> bool
        requires there { ContainsKey self.now.connections key }
    {
        let Some(connection) = self.connections.get(key) else {
            unreachable!();
        };
        let descriptor = connection.connection.get_ref().raw_fd();
        self.readiness
            .reregister_for_writes(descriptor, Source::Open(key).token())
            .is_ok()
    }

    /// Registers a connection again if bytes may have come that aren't reported. Returns whether that succeeded.
    fn await_reads(&self, key: usize, peer_closed: bool) -> bool
        requires there { ContainsKey self.now.connections key }
    {
        let Some(connection) = self.connections.get(key) else {
            unreachable!();
        };
        let socket = connection.connection.get_ref();
        if peer_closed || connection.must_reregister || socket.last_read_was_full() {
            return self
                .readiness
                .reregister(socket.raw_fd(), Source::Open(key).token())
                .is_ok();
        }
        true
    }

    /// Schedules the next turn of a connection that stays open: at once if it holds unanswered bytes; when its client
    /// takes more if a response waits; otherwise when bytes come. Returns whether that succeeded: not if a response
    /// waits and too many bytes wait in all.
    fn schedule(&mut self, key: usize, progress: OpenProgress, peer_closed: bool) -> bool
        requires there { ContainsKey self.old.connections key }
        ensures open { self.new.connections ≡ self.old.connections }
    {
        match progress {
            OpenProgress::HoldsBytes => self.holding.push_back((key, peer_closed)).is_ok(),
            OpenProgress::Writing => {
                if self.must_drop(key) {
                    return false;
                }
                self.await_writes(key)
            }
            OpenProgress::Answered | OpenProgress::Paused => self.await_reads(key, peer_closed),
        }
    }

    /// Keeps a connection open, if it can be scheduled.
    fn keep(&mut self, key: usize, progress: OpenProgress, peer_closed: bool)
        requires there { ContainsKey self.old.connections key }
        ensures rest { IsRest self.old.connections self.new.connections }
    {
        if !self.schedule(key, progress, peer_closed) {
            drop(self.connections.remove(key));
        }
    }

    /// Lets a connection linger whose session has ended: the waiting part of its last response is written before it is
    /// closed.
    fn linger(&mut self, buffered: BufferedConnection<Socket>)
        ensures open { self.new.connections ≡ self.old.connections }
    {
        let own = buffered.waiting_bytes();
        if own.all > 0 && is_too_much(own, self.waiting_bytes()) {
            self.has_given_up = true;
            return;
        }
        if let Some(key) = self.lingering.add(buffered) {
            self.advance_lingering(key);
        }
        self.next_check = self.next_check.min(self.earliest_check());
    }

    /// Returns the earliest time of the next check for connections that were silent for too long.
    fn earliest_check(&self) -> Duration {
        self.at
            .now
            .saturating_add(Duration::from_secs(CHECK_SECONDS))
    }

    /// Closes a connection that was removed from the set. Its client can read the last response before, unless the
    /// connection has failed.
    fn close_connection(&mut self, end: ConnectionEnd, buffered: BufferedConnection<Socket>)
        ensures open { self.new.connections ≡ self.old.connections }
    {
        match end {
            ConnectionEnd::ClosedByResponse => self.linger(buffered),
            // No response waits that could still be written: the connection has failed, or its session went on after
            // the last one was sent.
            ConnectionEnd::ClosedByClient | ConnectionEnd::Failed | ConnectionEnd::Undelivered =>
                drop(buffered),
        }
    }

    /// Continues a connection whose session has ended, and registers it again if there is more to do. A connection that
    /// can't be registered is closed: no event would come for it.
    fn advance_lingering(&mut self, key: usize)
        ensures open { self.new.connections ≡ self.old.connections }
    {
        let awaits = self.lingering.advance(key, self.at.now, self.idle_limit);
        let Some(socket) = self.lingering.get(key) else {
            return;
        };
        let token = Source::Lingering(key).token();
        let registered = match awaits {
            Awaits::Writable => self.readiness.reregister_for_writes(socket.raw_fd(), token),
            Awaits::Readable => self.readiness.reregister(socket.raw_fd(), token),
            Awaits::Nothing => Ok(()),
        };
        if registered.is_err() {
            self.lingering.remove(key);
        }
    }

    /// Gives a connection a turn.
    fn serve<N: StoreName, G: CallObserver, R: Wait + Eprint>(
        &mut self,
        rt: &R,
        alloc: Global,
        key: usize,
        peer_closed: bool,
        store: &mut WorkerStore<'_, N, G, R>,
    )
        requires underway { AllUnderway N.limits store.old self.old.connections }
        ensures underway { AllUnderway N.limits store.new self.new.connections }
        ensures goes_on { SeatGoesOn store.old.seat store.new.seat }
    {
        match self.connections.take_turn(rt, alloc, key, self.at, store) {
            ConnectionTurn::Open(progress) => self.keep(key, progress, peer_closed),
            ConnectionTurn::Removed(end, buffered) => self.close_connection(end, buffered),
            // Impossible: an event is of an open socket, and `serve_first_again` looks its key up first. No clause
            // says so.
            ConnectionTurn::Absent => {}
        }
    }

    /// Serves a connection that is ready.
    fn serve_one<N: StoreName, G: CallObserver, R: Wait + Eprint>(
        &mut self,
        rt: &R,
        alloc: Global,
        event: Event,
        store: &mut WorkerStore<'_, N, G, R>,
    )
        requires underway { AllUnderway N.limits store.old self.old.connections }
        ensures underway { AllUnderway N.limits store.new self.new.connections }
        ensures goes_on { SeatGoesOn store.old.seat store.new.seat }
    {
        match Source::of(event.token) {
            Source::Listener => {}
            Source::Open(key) => self.serve(rt, alloc, key, event.peer_closed, store),
            Source::Lingering(key) => self.advance_lingering(key),
        }
    }

    /// Serves the connections that the last wait found ready, one request each. Returns whether the listener was ready.
    fn serve_events<N: StoreName, G: CallObserver, R: Wait + Eprint>(
        &mut self,
        rt: &R,
        alloc: Global,
        store: &mut WorkerStore<'_, N, G, R>,
    ) -> bool
        requires underway { AllUnderway N.limits store.old self.old.connections }
        ensures underway { AllUnderway N.limits store.new self.new.connections }
        ensures goes_on { SeatGoesOn store.old.seat store.new.seat }
    {
        let mut listener_ready = false;
        for index in 0..MAX_EVENTS {
            let Some(event) = self.readiness.event(index) else {
                break;
            };
            listener_ready |= Source::of(event.token) == Source::Listener;
            self.serve_one(rt, alloc, event, store);
        }
        listener_ready
    }

    /// Serves the first of the connections that hold unanswered bytes, unless it was served in this round.
    fn serve_first_again<N: StoreName, G: CallObserver, R: Wait + Eprint>(
        &mut self,
        rt: &R,
        alloc: Global,
        store: &mut WorkerStore<'_, N, G, R>,
    )
        requires underway { AllUnderway N.limits store.old self.old.connections }
        ensures underway { AllUnderway N.limits store.new self.new.connections }
        ensures goes_on { SeatGoesOn store.old.seat store.new.seat }
    {
        let Some((key, peer_closed)) = self.holding.pop_front() else {
            return;
        };
        let due = match self.connections.get(key) {
            Some(connection) => connection.round != self.at.round,
            None => false,
        };
        if due {
            self.serve(rt, alloc, key, peer_closed, store);
        }
    }

    /// Serves all connections that are ready, one request each. Returns whether the listener was ready.
    fn serve_ready<N: StoreName, G: CallObserver, R: Wait + Eprint>(
        &mut self,
        rt: &R,
        alloc: Global,
        store: &mut WorkerStore<'_, N, G, R>,
    ) -> bool
        requires underway { AllUnderway N.limits store.old self.old.connections }
        ensures underway { AllUnderway N.limits store.new self.new.connections }
        ensures goes_on { SeatGoesOn store.old.seat store.new.seat }
    {
        let queued = self.holding.len();
        let listener_ready = self.serve_events(rt, alloc, store);
        for _ in 0..queued {
            self.serve_first_again(rt, alloc, store);
        }
        listener_ready
    }

    /// Opens an accepted connection, after learning the receipt that is vouched for now.
    fn open_accepted<N: StoreName, G: CallObserver, R: Wait + Eprint>(
        &mut self,
        rt: &R,
        server: &ServerContext<'_, N, G>,
        stream: TcpStream,
        store: &mut WorkerStore<'_, N, G, R>,
    )
        requires underway { AllUnderway N.limits store.old self.old.connections }
        ensures underway { AllUnderway N.limits store.new self.new.connections }
        ensures goes_on { SeatGoesOn store.old.seat store.new.seat }
    {
        self.permits = self.permits.saturating_add(1);
        // Out of memory: the connection is closed, and its client may connect again.
        let Ok(receipt) = server.desk.vouch(rt) else {
            return;
        };
        store.learn(&receipt);
        if prepare(&stream).is_err() {
            return;
        }
        let socket = Socket::new(stream);
        let descriptor = socket.raw_fd();
        let Ok(key) = self
            .connections
            .add::<R, WorkerStore<'_, N, G, R>>(server.alloc, socket, self.at.now, store)
        else {
            return;
        };
        let token = Source::Open(key).token();
        if self.readiness.register(descriptor, token).is_err() {
            drop(self.connections.remove(key));
        }
    }

    /// Drops the connections that were silent for too long.
    fn drop_silent(&mut self)
        ensures rest { IsRest self.old.connections self.new.connections }
    {
        let now = self.at.now;
        if now < self.next_check {
            return;
        }
        self.lingering.drop_overdue(now);
        self.next_check = self.earliest_check();
        if let Some(idle_limit) = self.idle_limit {
            self.connections.drop_silent(now.saturating_sub(idle_limit));
            self.put_off_check(idle_limit);
        }
    }

    /// Postpones the next check until a connection may have been silent for too long.
    fn put_off_check(&mut self, idle_limit: Duration)
        ensures open { self.new.connections ≡ self.old.connections }
    {
        if let (true, Some(oldest)) = (self.lingering.is_empty(), self.connections.oldest()) {
            self.next_check = self.next_check.max(oldest.saturating_add(idle_limit));
        }
    }

    /// Returns the time of the next action that no event triggers.
    fn due<N: StoreName, G: CallObserver>(
        &self,
        server: &ServerContext<'_, N, G>,
        acceptor: &Acceptor,
    ) -> Option<Duration> {
        let checks = !self.lingering.is_empty()
            || (self.idle_limit.is_some() && !self.connections.is_empty());
        let check = checks.then_some(self.next_check);
        let last = if server.quota.is_limited() {
            Some(
                self.at
                    .now
                    .saturating_add(Duration::from_millis(SESSIONS_PAUSE_MS)),
            )
        } else {
            None
        };
        let accept = if acceptor.may_accept(server.quota) {
            acceptor.due()
        } else {
            None
        };
        earlier(earlier(check, last), accept)
    }

    /// Waits until a connection is ready or something else is due.
    fn wait<R: Wait + Clock>(&mut self, rt: &R, due: Option<Duration>)
        ensures open { self.new.connections ≡ self.old.connections }
    {
        let timeout = if self.holding.is_empty() {
            due.map(|time| time.saturating_sub(self.at.now))
        } else {
            Some(Duration::ZERO)
        };
        if let Ok(now) = rt.monotonic() {
            self.clock.end_round(now);
        }
        if self.readiness.wait(timeout).is_err() {
            sleep(rt, Duration::from_millis(1));
        }
        let now = match rt.monotonic() {
            Ok(now) => self.clock.begin_round(now),
            Err(_) => self.at.now,
        };
        self.at = TurnTime {
            now,
            round: self.at.round.wrapping_add(1),
        };
    }

    /// Publishes the number of connections, and returns the permits of those that were closed.
    fn publish_load_and_return_permits<N: StoreName, G: CallObserver>(
        &mut self,
        server: &ServerContext<'_, N, G>,
        worker: u32,
        accepts: bool,
    )
        ensures open { self.new.connections ≡ self.old.connections }
    {
        let taken = self.connections.len().saturating_add(self.lingering.len());
        for _ in taken..self.permits {
            server.loads.return_permit();
        }
        self.permits = taken;
        server
            .loads
            .set(worker, accepts.then_some(self.connections.len()));
    }

    /// Accepts the next connection, if one is waiting and may be accepted.
    fn accept<N: StoreName, G: CallObserver, R: Wait + Clock + Eprint>(
        &mut self,
        rt: &R,
        server: &ServerContext<'_, N, G>,
        worker: u32,
        acceptor: &mut Acceptor,
        store: &mut WorkerStore<'_, N, G, R>,
    )
        requires underway { AllUnderway N.limits store.old self.old.connections }
        ensures underway { AllUnderway N.limits store.new self.new.connections }
        ensures goes_on { SeatGoesOn store.old.seat store.new.seat }
    {
        if let Some(stream) = acceptor.next(
            rt,
            server,
            worker,
            self.connections.len(),
            self.at.now,
        ) {
            self.open_accepted(rt, server, stream, store);
        }
    }

    /// Serves all connections that are ready, accepts one, and drops those that were silent for too long.
    fn serve_round<N: StoreName, G: CallObserver, R: Wait + Clock + Eprint>(
        &mut self,
        rt: &R,
        server: &ServerContext<'_, N, G>,
        worker: u32,
        acceptor: &mut Acceptor,
        store: &mut WorkerStore<'_, N, G, R>,
    )
        requires underway { AllUnderway N.limits store.old self.old.connections }
        ensures underway { AllUnderway N.limits store.new self.new.connections }
        ensures goes_on { SeatGoesOn store.old.seat store.new.seat }
    {
        if self.serve_ready(rt, server.alloc, store) {
            acceptor.listener_is_ready();
        }
        if self.has_given_up {
            server.notices.print_given_up(rt);
        }
        self.accept(rt, server, worker, acceptor, store);
        self.drop_silent();
    }

    /// Serves connections until none is open and no more may be accepted.
    pub(crate) fn run<N: StoreName, G: CallObserver, R: Wait + Clock + Eprint>(
        &mut self,
        rt: &R,
        server: &ServerContext<'_, N, G>,
        worker: u32,
        acceptor: &mut Acceptor,
        store: &mut WorkerStore<'_, N, G, R>,
    )
        requires underway { AllUnderway N.limits store.old self.old.connections }
        ensures goes_on { SeatGoesOn store.old.seat store.new.seat }
    {
        for _ in rt.forever() {
            let accepts = acceptor.may_accept(server.quota);
            self.publish_load_and_return_permits(server, worker, accepts);
            if !accepts && self.is_empty() {
                break;
            }
            self.wait(rt, self.due(server, acceptor));
            self.serve_round(rt, server, worker, acceptor, store);
        }
    }
}
