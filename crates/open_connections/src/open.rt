//! A connection and its session.

ghost use Rattle.std.specs.Prelude.{◌≡◌, false, OnOk};
ghost use Rattle.query_http.specs.Paths.{endpoint_rows};
ghost use Rattle.http_session.specs.Sessions.{store_of};
ghost use Rattle.http_session.specs.ResumableSessions.{AsksOnce, CanContinue, session_moment, RunsPiece, IfOpen, no_requests_yet, piece_of};
ghost use Rattle.open_connections.specs.BufferedConnections.{buffered_model};
ghost use Rattle.open_connections.specs.OpenConnections.{IsOpen, HasCome, Delivers};

use crate::buffered::BufferedConnection;
use crate::nonblocking::TryConnection;
use http_session::{EndReason, Progress, Session, SessionError, SpareRoom};
use matchit::Router;
use query_http::Endpoint;
use std::alloc::Global;
use std::snapshot::Snapshot;
use std::time::Duration;
use trace_model::Backend;

/// A connection and its session, between two requests or inside one.
#[derive(Drop)]
pub struct OpenConnection<C> {
    pub connection: BufferedConnection<C>,
    pub session: Session,
    /// For the prover: the connection before anything was read from it. Only contracts read it.
    pub began: Snapshot<BufferedConnection<C>>,
    /// When it had its last turn, or was opened.
    pub active: Duration,
    /// The round of its thread in which it was last served.
    pub round: u64,
    /// Nothing was read in its last turn: bytes that came before are not reported again.
    pub must_reregister: bool,
    /// Its session holds bytes after the last request that it has not examined.
    holds_request_bytes: bool,
}

/// What a connection that stays open awaits after a turn.
#[derive(Clone, Copy, Debug, PartialEq, Eq)]
pub enum OpenProgress {
    /// A request was answered, and the connection waits for the next one.
    Answered,
    /// A request was answered, and bytes after it were received already.
    HoldsBytes,
    /// More of a request is awaited.
    Paused,
    /// A request was answered, and the client has not yet taken all of the response. Nothing is read meanwhile.
    Writing,
}

/// How a connection ended in a turn.
#[derive(Clone, Copy, Debug, PartialEq, Eq)]
pub enum ConnectionEnd {
    /// The session has ended: the client closed the connection after its last request.
    ClosedByClient,
    /// The session has ended by a response that closes the connection. The client may still be sending.
    ClosedByResponse,
    /// The connection failed, or memory ran out.
    Failed,
    /// The connection failed before the client took the last response.
    Undelivered,
}

/// The result of a connection's turn.
#[derive(Clone, Copy, Debug, PartialEq, Eq)]
pub enum ConnectionProgress {
    StaysOpen(OpenProgress),
    Ended(ConnectionEnd),
}

/// When a thread serves a connection: the time, and the thread's round.
#[derive(Clone, Copy, Debug)]
pub struct TurnTime {
    pub now: Duration,
    pub round: u64,
}

impl<C: TryConnection> OpenConnection<C> {
    /// Starts a session over a connection from which nothing was read.
    pub(crate) fn new(
        alloc: Global,
        connection: BufferedConnection<C>,
        now: Duration,
    ) -> OpenConnection<C>
        ensures connection { result.connection ≡ connection }
        ensures session { result.session ≡ no_requests_yet }
        ensures began { result.began.value ≡ connection }
    {
        let began = Snapshot::of(&connection);
        OpenConnection {
            connection,
            session: Session::new(alloc),
            began,
            active: now,
            round: 0,
            must_reregister: false,
            holds_request_bytes: false,
        }
    }

    /// Continues the session. Nothing is read while the session holds bytes that it has not examined, since no report
    /// says that the connection is readable.
    fn run_piece<T, B: Backend<T>>(
        &mut self,
        rt: &T,
        alloc: Global,
        router: &Router<Endpoint>,
        backend: &mut B,
    ) -> Result<Progress, SessionError>
        requires routes { router.now ≡ endpoint_rows }
        requires input_works { C.has_failed self.old.connection.connection ≡ false }
        requires output_works { self.old.connection.failed ≡ false }
        requires ready { CanContinue (C.remaining self.old.connection.connection) self.old.session }

        ensures goes_on { RunsPiece (store_of B.submits B.reads B.knows B.limits)
            (buffered_model C.remaining C.gives C.has_failed C.contents)
            (session_moment self.old.connection backend.old self.old.session)
            (session_moment self.new.connection backend.new self.new.session) (piece_of result) }

        ensures asks { AsksOnce (store_of B.submits B.reads B.knows B.limits)
            backend.old backend.new }

        ensures works { OnOk result ((C.has_failed self.new.connection.connection ≡ false)
            × (self.new.connection.failed ≡ false)) }

        ensures open { IfOpen (piece_of result)
            (CanContinue (C.remaining self.new.connection.connection) self.new.session) }

        ensures began { self.new.began.value ≡ self.old.began.value }
    {
        let connection = &mut self.connection;
        if self.holds_request_bytes {
            // For the prover: the match takes the cases of the clause `goes_on` apart, and returns them as they are.
            match self
                .session
                .answer_held(rt, alloc, router, connection, backend)
            {
                Ok(piece) => Ok(piece),
                Err(error) => Err(error),
            }
        } else {
            // For the prover: as above.
            match self.session.advance(rt, alloc, router, connection, backend) {
                Ok(piece) => Ok(piece),
                Err(error) => Err(error),
            }
        }
    }

    /// Writes the waiting part of the last response, as far as the connection takes it now.
    fn deliver(&mut self) -> ConnectionProgress
        ensures { Delivers C.remaining C.has_failed C.contents self.old self.new result }
    {
        if self.connection.flush().is_err() {
            return ConnectionProgress::Ended(ConnectionEnd::Undelivered);
        }
        if self.connection.has_waiting() {
            return ConnectionProgress::StaysOpen(OpenProgress::Writing);
        }
        if self.holds_request_bytes {
            return ConnectionProgress::StaysOpen(OpenProgress::HoldsBytes);
        }
        self.must_reregister = true;
        ConnectionProgress::StaysOpen(OpenProgress::Answered)
    }

    /// Returns what the connection awaits after a turn in which a response was handed over.
    fn after_response(&mut self) -> OpenProgress
        ensures connection { self.new.connection ≡ self.old.connection }
        ensures session { self.new.session ≡ self.old.session }
        ensures began { self.new.began.value ≡ self.old.began.value }
    {
        self.holds_request_bytes = self.session.holds_bytes();
        if self.connection.has_waiting() {
            return OpenProgress::Writing;
        }
        if self.holds_request_bytes {
            return OpenProgress::HoldsBytes;
        }
        OpenProgress::Answered
    }

    /// Continues the session by at most one read, and answers one request if it is complete. Between two turns the
    /// session keeps a buffer only if it holds bytes.
    fn continue_session<T, B: Backend<T>>(
        &mut self,
        rt: &T,
        alloc: Global,
        router: &Router<Endpoint>,
        backend: &mut B,
        spare: &mut SpareRoom,
    ) -> ConnectionProgress
        requires routes { router.now ≡ endpoint_rows }

        requires underway { IsOpen (store_of B.submits B.reads B.knows B.limits)
            (buffered_model C.remaining C.gives C.has_failed C.contents)
            backend.old self.old }

        ensures comes { HasCome (store_of B.submits B.reads B.knows B.limits)
            (buffered_model C.remaining C.gives C.has_failed C.contents)
            backend.new self.new result }

        ensures asks { AsksOnce (store_of B.submits B.reads B.knows B.limits)
            backend.old backend.new }

        ensures began { self.new.began.value ≡ self.old.began.value }
    {
        self.session.borrow_room(spare);
        let taken = self.run_piece(rt, alloc, router, backend);
        self.session.return_room(spare);
        self.must_reregister = self.holds_request_bytes;
        self.holds_request_bytes = false;
        let Ok(piece) = taken else {
            return ConnectionProgress::Ended(ConnectionEnd::Failed);
        };
        match piece {
            Progress::Paused => ConnectionProgress::StaysOpen(OpenProgress::Paused),
            Progress::Answered => ConnectionProgress::StaysOpen(self.after_response()),
            Progress::Ended(ended) => match ended.reason {
                EndReason::ClosedByClient => ConnectionProgress::Ended(
                    ConnectionEnd::ClosedByClient,
                ),
                EndReason::ClosedByResponse => ConnectionProgress::Ended(
                    ConnectionEnd::ClosedByResponse,
                ),
            },
        }
    }

    /// Takes a turn over a store that other connections use too: writes the waiting part of the last response, or
    /// continues the session.
    pub(crate) fn take_turn<T, B: Backend<T>>(
        &mut self,
        rt: &T,
        alloc: Global,
        router: &Router<Endpoint>,
        backend: &mut B,
        spare: &mut SpareRoom,
    ) -> ConnectionProgress
        requires routes { router.now ≡ endpoint_rows }

        requires underway { IsOpen (store_of B.submits B.reads B.knows B.limits)
            (buffered_model C.remaining C.gives C.has_failed C.contents)
            backend.old self.old }

        ensures comes { HasCome (store_of B.submits B.reads B.knows B.limits)
            (buffered_model C.remaining C.gives C.has_failed C.contents)
            backend.new self.new result }

        ensures asks { AsksOnce (store_of B.submits B.reads B.knows B.limits)
            backend.old backend.new }

        ensures began { self.new.began.value ≡ self.old.began.value }
    {
        if self.connection.has_waiting() {
            return self.deliver();
        }
        self.continue_session(rt, alloc, router, backend, spare)
    }
}
