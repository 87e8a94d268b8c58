//! The connections that a worker accepts.

use crate::call_observer::CallObserver;
use crate::worker::{ServerContext, WorkerOutcome};
use libc::net::listen;
use libc::{EMFILE, ENOMEM, EPERM};
use read_side::StoreName;
use server_connections::ConnectionQuota;
use server_notices::print_accepts_no_more;
use std::io;
use std::io::ErrorKind;
use std::net::{TcpListener, TcpStream};
use std::os::fd::AsRawFd;
use std::sync::Wait;
use std::time::{Clock, Duration};

/// The number of milliseconds without accepting after the system had no room for one more connection.
const SHORTAGE_PAUSE_MS: u64 = 100;

/// The number of milliseconds without accepting while as many connections are open as `--connections` allows.
const ALL_TAKEN_PAUSE_MS: u64 = 100;

/// The number of milliseconds without accepting while all connections of `--sessions` are claimed. A claim may be given
/// back.
const QUOTA_PAUSE_MS: u64 = 1;

/// The number of milliseconds for which a worker first leaves a connection to workers that have fewer. Each further
/// time is twice as long.
const DEFERRAL_MS: u64 = 1;

/// The number of times that it does so before it accepts the connection itself, after 127 ms in all.
const MAX_DEFERRALS: u32 = 7;

/// The number of milliseconds without accepting after a connection was lost while it waited to be accepted.
const LOSS_PAUSE_MS: u64 = 1;

/// The length of the system's queue of connections that wait to be accepted, if the system allows it.
const LISTEN_BACKLOG: i32 = 4_096;

// Error numbers of Linux that `libc` here has no names for.
const ENFILE: i32 = 23;

const ENOSR: i32 = 63;

const ENONET: i32 = 64;

const EPROTO: i32 = 71;

const ENOPROTOOPT: i32 = 92;

const EPROTONOSUPPORT: i32 = 93;

const ESOCKTNOSUPPORT: i32 = 94;

const EOPNOTSUPP: i32 = 95;

const ENETDOWN: i32 = 100;

const ENETUNREACH: i32 = 101;

const ENOBUFS: i32 = 105;

const ETIMEDOUT: i32 = 110;

const EHOSTDOWN: i32 = 112;

const EHOSTUNREACH: i32 = 113;

/// The result of accepting.
#[derive(Drop)]
enum Accepted {
    Stream(TcpStream),
    /// No connection is waiting.
    NoneWaiting,
    /// The network lost the connection that was waiting, or a firewall forbids it. Others may be waiting.
    Lost,
    /// The system has no room for one more.
    Shortage(io::Error),
    /// No more connections can be accepted.
    Failed(io::Error),
}

/// The state of a worker's accepting.
#[derive(Drop)]
pub(crate) struct Acceptor {
    /// No more connections can be accepted.
    has_failed: bool,
    /// A connection may be waiting.
    pending: bool,
    /// The number of times that the next connection was left to another worker.
    deferrals: u32,
    /// No connection is accepted before this time.
    not_before: Duration,
    outcome: WorkerOutcome,
}

/// Returns whether the error is temporary: the call was interrupted, or the client has disconnected.
fn is_passing(error: &io::Error) -> bool {
    matches!(
        error.kind(),
        ErrorKind::Interrupted | ErrorKind::ConnectionAborted
    )
}

/// Returns whether the network lost the waiting connection, or a firewall forbids it: `accept` reports these errors of
/// the connection as its own, and says nothing of the next one.
fn is_loss(error: &io::Error) -> bool {
    matches!(
        error.raw_os_error(),
        Some(
            ENETDOWN
                | EPROTO
                | ENOPROTOOPT
                | EHOSTDOWN
                | ENONET
                | EHOSTUNREACH
                | EOPNOTSUPP
                | ENETUNREACH
                | EPROTONOSUPPORT
                | ESOCKTNOSUPPORT
                | ETIMEDOUT
                | EPERM
        )
    )
}

/// Returns whether the system has no memory, buffer or file descriptor left for one more connection.
fn is_shortage(error: &io::Error) -> bool {
    matches!(
        error.raw_os_error(),
        Some(ENOMEM | ENFILE | EMFILE | ENOBUFS | ENOSR)
    )
}

/// Lengthens the system's queue, which `bind` leaves at 128, for clients that connect at the same time. If the system
/// refuses, the queue keeps its length.
pub(crate) fn lengthen_queue(listener: &TcpListener) {
    let _status = listen(listener.as_raw_fd(), LISTEN_BACKLOG);
}

/// Accepts a waiting connection. Retries after a temporary error.
fn accept<N: StoreName, G: CallObserver, R: Wait>(
    rt: &R,
    server: &ServerContext<'_, N, G>,
) -> Accepted {
    for _ in rt.forever() {
        match server.listener.accept() {
            Ok((stream, _)) => return Accepted::Stream(stream),
            Err(error) if error.kind() == ErrorKind::WouldBlock => return Accepted::NoneWaiting,
            Err(error) if is_passing(&error) => {}
            Err(error) if is_loss(&error) => return Accepted::Lost,
            Err(error) if is_shortage(&error) => return Accepted::Shortage(error),
            Err(error) => return Accepted::Failed(error),
        }
    }
    unreachable!()
}

impl Acceptor {
    /// Creates the state before the first connection.
    pub(crate) fn new() -> Acceptor {
        Acceptor {
            has_failed: false,
            pending: false,
            deferrals: 0,
            not_before: Duration::ZERO,
            outcome: WorkerOutcome {
                served: 0,
                failed: false,
            },
        }
    }

    /// Returns whether one more connection may be accepted.
    pub(crate) fn may_accept(&self, quota: &ConnectionQuota) -> bool {
        !self.has_failed && !quota.is_used_up()
    }

    /// Returns what was accepted.
    pub(crate) fn outcome(&self) -> WorkerOutcome {
        self.outcome
    }

    /// Records that the listener is ready.
    pub(crate) fn listener_is_ready(&mut self) {
        self.pending = true;
    }

    /// Returns when to look for a waiting connection.
    pub(crate) fn due(&self) -> Option<Duration> {
        if self.pending && !self.has_failed {
            Some(self.not_before)
        } else {
            None
        }
    }

    /// Accepts nothing for this number of milliseconds.
    fn pause(&mut self, now: Duration, milliseconds: u64) {
        self.not_before = now.saturating_add(Duration::from_millis(milliseconds));
    }

    /// Returns whether a worker with this number of connections leaves the next one to a worker that has fewer.
    fn defers<N: StoreName, G: CallObserver>(
        &mut self,
        server: &ServerContext<'_, N, G>,
        connections: usize,
        now: Duration,
    ) -> bool {
        if self.deferrals >= MAX_DEFERRALS || server.loads.is_least(connections) {
            return false;
        }
        let deferral = DEFERRAL_MS << self.deferrals;
        self.deferrals += 1;
        self.pause(now, deferral);
        true
    }

    /// Accepts a waiting connection, for which a permit was taken and a claim made. Otherwise both are given back.
    fn accept_one<N: StoreName, G: CallObserver, R: Wait + Eprint>(
        &mut self,
        rt: &R,
        server: &ServerContext<'_, N, G>,
        worker: u32,
        now: Duration,
    ) -> Option<TcpStream> {
        match accept(rt, server) {
            Accepted::Stream(stream) => {
                server.notices.end_shortage();
                // After MAX_DEFERRALS the count stays, so that the connections still waiting are accepted without
                // deferral.
                if self.deferrals < MAX_DEFERRALS {
                    self.deferrals = 0;
                }
                self.outcome.served = self.outcome.served.saturating_add(1);
                server.quota.count_accepted();
                return Some(stream);
            }
            Accepted::NoneWaiting => {
                self.deferrals = 0;
                self.pending = false;
            }
            Accepted::Lost => self.pause(now, LOSS_PAUSE_MS),
            Accepted::Shortage(error) => {
                server.notices.print_shortage(rt, &error);
                self.pause(now, SHORTAGE_PAUSE_MS);
            }
            Accepted::Failed(error) => {
                print_accepts_no_more(rt, worker, &error);
                self.has_failed = true;
                self.outcome.failed = true;
            }
        }
        server.quota.give_back();
        server.loads.return_permit();
        None
    }

    /// Accepts the next connection for a worker, if one is waiting, may be accepted, and isn't left to another worker.
    /// The caller must return its permit.
    pub(crate) fn next<N: StoreName, G: CallObserver, R: Wait + Clock + Eprint>(
        &mut self,
        rt: &R,
        server: &ServerContext<'_, N, G>,
        worker: u32,
        connections: usize,
        now: Duration,
    ) -> Option<TcpStream> {
        let due = self.due()?;
        if now < due || self.defers(server, connections, now) {
            return None;
        }
        if !server.loads.take_permit() {
            server.notices.print_all_taken(rt);
            self.pause(now, ALL_TAKEN_PAUSE_MS);
            return None;
        }
        if !server.quota.claim() {
            server.loads.return_permit();
            self.pause(now, QUOTA_PAUSE_MS);
            return None;
        }
        self.accept_one(rt, server, worker, now)
    }
}
