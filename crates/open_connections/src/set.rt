//! The connections of a thread, with their sessions.

ghost use Rattle.std.specs.Prelude.{◌≡◌, ◌==◌, false, IfOk, option_copied};
ghost use Rattle.slab.specs.Slab.{get, slab_len};
ghost use Rattle.http_session.specs.Sessions.{store_of};
ghost use Rattle.http_session.specs.ResumableSessions.{AsksOnce};
ghost use Rattle.open_connections.specs.BufferedConnections.{buffered_model};
ghost use Rattle.open_connections.specs.OpenConnections.{AllOpen, IsEmpty, IsRest, TurnsTo};

use crate::buffered::BufferedConnection;
use crate::nonblocking::TryConnection;
use crate::open::{ConnectionEnd, ConnectionProgress, OpenConnection, OpenProgress, TurnTime};
use crate::waiting_bytes::WaitingBytes;
use http_session::SpareRoom;
use http_session::laws::a_new_session_is_underway;
use matchit::Router;
use query_http::{Endpoint, endpoints};
use slab::Slab;
use std::alloc::{AllocError, Global};
use std::marker::Model;
use std::mem::drop;
use std::time::Duration;
use trace_model::Backend;

/// The open connections of a thread, each with its session, by key. Contracts see the connections by key.
#[derive(Drop)]
pub struct ConnectionSet<C> {
    connections: Slab<OpenConnection<C>>,
    router: Router<Endpoint>,
    /// The buffer that its sessions read into, one after the other.
    spare: SpareRoom,
    /// The response bytes that wait to be written.
    waiting: WaitingBytes,
}

impl<C> Model for ConnectionSet<C> {
    ghost use Rattle.std.specs.Prelude.{◌≡◌};
    ghost use Rattle.slab.specs.Slab.{Slab};
    ghost use Rattle.query_http.specs.Paths.{endpoint_rows};
    ghost use Rattle.open_connections.specs.declared.open.OpenConnection.{OpenConnection};

    ghost Value = { Slab (OpenConnection C) };

    ghost view = { λ s. s.connections };

    ghost invariant = { λ s. s.router ≡ endpoint_rows };
}

/// The result of a turn of the connection under a key.
#[derive(Drop)]
pub enum ConnectionTurn<C> {
    /// There is no connection under this key.
    Absent,
    /// The connection stays open.
    Open(OpenProgress),
    /// The connection was removed from the set.
    Removed(ConnectionEnd, BufferedConnection<C>),
}

impl<C: TryConnection + Drop> ConnectionSet<C> {
    /// Creates an empty set.
    ///
    /// # Errors
    ///
    /// Out of memory.
    pub fn new(alloc: Global) -> Result<ConnectionSet<C>, AllocError>
        ensures { IfOk result IsEmpty }
    {
        match endpoints(alloc) {
            Ok(router) => Ok(ConnectionSet {
                connections: Slab::new(alloc),
                router,
                spare: SpareRoom::new(alloc),
                waiting: WaitingBytes::NONE,
            }),
            Err(_) => Err(AllocError),
        }
    }

    /// Returns whether no connection is open.
    pub fn is_empty(&self) -> bool
        ensures { result ≡ (slab_len self.now == 0) }
    {
        self.connections.is_empty()
    }

    /// Returns the number of open connections.
    pub fn len(&self) -> usize
        ensures { result ≡ slab_len self.now }
    {
        self.connections.len()
    }

    /// Counts the response bytes that wait for clients to take them.
    pub fn waiting_bytes(&self) -> WaitingBytes {
        self.waiting
    }

    /// Returns the connection under a key, if there is one.
    pub fn get(&self, key: usize) -> Option<&OpenConnection<C>>
        ensures { option_copied result ≡ get self.now key }
    {
        self.connections.get(key)
    }

    /// Adds a connection from which nothing was read, and returns its key. For the prover: only the clause `underway` needs
    /// `backend`, the store over which the new session begins.
    ///
    /// # Errors
    ///
    /// Out of memory. The connection is dropped.
    pub fn add<T, B: Backend<T>>(
        &mut self,
        alloc: Global,
        connection: C,
        now: Duration,
        backend: &B,
    ) -> Result<usize, AllocError>
        requires works { C.has_failed connection ≡ false }

        requires underway { AllOpen (store_of B.submits B.reads B.knows B.limits)
            (buffered_model C.remaining C.gives C.has_failed C.contents)
            backend.now self.old }

        ensures underway { AllOpen (store_of B.submits B.reads B.knows B.limits)
            (buffered_model C.remaining C.gives C.has_failed C.contents)
            backend.now self.new }
    {
        let buffered = BufferedConnection::new(alloc, connection);
        // For the prover: the law is used for the clause `underway`.
        a_new_session_is_underway::<T, BufferedConnection<C>, B>(&buffered, backend);
        let open = OpenConnection::new(alloc, buffered, now);
        let Ok(key) = self.connections.insert(open) else {
            return Err(AllocError);
        };
        Ok(key)
    }

    /// Gives the connection under a key a turn, over the store that all connections use: writes the waiting part of a
    /// response, or reads at most once and answers one request if it is complete. A connection that has ended or failed
    /// is removed from the set, perhaps with a waiting response.
    pub fn take_turn<T, B: Backend<T>>(
        &mut self,
        rt: &T,
        alloc: Global,
        key: usize,
        at: TurnTime,
        backend: &mut B,
    ) -> ConnectionTurn<C>
        requires underway { AllOpen (store_of B.submits B.reads B.knows B.limits)
            (buffered_model C.remaining C.gives C.has_failed C.contents)
            backend.old self.old }

        ensures underway { AllOpen (store_of B.submits B.reads B.knows B.limits)
            (buffered_model C.remaining C.gives C.has_failed C.contents)
            backend.new self.new }

        ensures asks { AsksOnce (store_of B.submits B.reads B.knows B.limits)
            backend.old backend.new }

        ensures turn { TurnsTo (store_of B.submits B.reads B.knows B.limits)
            (buffered_model C.remaining C.gives C.has_failed C.contents)
            backend.new (get self.old key) (get self.new key) result }
    {
        let Some(mut open) = self.connections.try_remove(key) else {
            return ConnectionTurn::Absent;
        };
        self.waiting = self.waiting.without(open.connection.waiting_bytes());
        match open.take_turn(rt, alloc, &self.router, backend, &mut self.spare) {
            ConnectionProgress::StaysOpen(progress) => {
                open.active = at.now;
                open.round = at.round;
                self.waiting = self.waiting.and(open.connection.waiting_bytes());
                // It keeps its key, which `try_remove` has reserved.
                let _key = self.connections.insert_reserved(open);
                ConnectionTurn::Open(progress)
            }
            ConnectionProgress::Ended(end) => {
                let OpenConnection {
                    connection,
                    session,
                    ..
                } = open;
                // For the prover: an explicit drop is cheaper than one at the end of the block.
                drop(session);
                ConnectionTurn::Removed(end, connection)
            }
        }
    }

    /// Returns when the connection that has been silent longest was last active.
    pub fn oldest(&self) -> Option<Duration> {
        self.connections.iter().map(|(_, open)| open.active).min()
    }

    /// Removes a connection.
    pub fn remove(&mut self, key: usize) -> Option<OpenConnection<C>>
        ensures rest { IsRest self.old self.new }
    {
        let open = self.connections.try_remove(key)?;
        self.waiting = self.waiting.without(open.connection.waiting_bytes());
        Some(open)
    }

    /// Returns whether the key is of a connection that was not active after this time.
    fn is_silent(&self, key: usize, since: Duration) -> bool {
        match self.connections.get(key) {
            Some(open) => open.active <= since,
            None => false,
        }
    }

    /// Drops the connections that were not active after this time.
    pub fn drop_silent(&mut self, since: Duration)
        ensures rest { IsRest self.old self.new }
    {
        for key in 0..self.connections.capacity() {
            if self.is_silent(key, since) {
                drop(self.remove(key));
            }
        }
    }
}
