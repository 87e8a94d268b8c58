//! A session that runs in pieces, with pauses between two requests or inside one.

ghost use Rattle.std.specs.Prelude.{◌≡◌, ◌≢◌, ◌≤◌, ◌+◌, ◌*◌, ◌↔◌, [], IsTrue, false, OnOk};
ghost use Rattle.session_devices.specs.declared.limits.TheConstants.{MAX_READS};
ghost use Rattle.http_requests.specs.declared.room.TheConstants.{READ_BYTES};
ghost use Rattle.query_http.specs.Paths.{endpoint_rows};
ghost use Rattle.http_session.specs.Sessions.{store_of};
ghost use Rattle.http_session.specs.ResponseOrder.{model_of};
ghost use Rattle.http_session.specs.ResumableSessions.{no_requests_yet, CanContinue, IfOpen, IfAnswered, IfPaused, AwaitsMore, piece_of};
ghost use Rattle.http_session.specs.ResumableSessions.{session_moment, AsksOnce, RunsPiece, TakesRequest};
ghost use Rattle.http_session.specs.declared.resumable.Session.{Session as SessionValue};

use crate::receiving::{Incoming, SessionStage, receive};
use crate::reply::Reply;
use crate::respond::Respond;
use crate::verdict::Verdict;
use crate::whole_session::{
    EndReason, Ended, SessionError, SessionErrorKind, answer, cause_of, closes_after, write_reply,
};
use http_requests::{ReadBuffer, SpareRoom};
use matchit::Router;
use query_http::Endpoint;
use std::alloc::{AllocError, Global};
use trace_model::Backend;

/// A session that can pause: the bytes received and not yet taken, what it awaits, and the number of responses written.
/// Of a request that was received in part it keeps the decoded part. The connection and the store are not part of it,
/// so other sessions may use the same store during a pause.
#[derive(Drop)]
pub struct Session {
    received: ReadBuffer,
    stage: SessionStage,
    answered: u64,
}

/// The result of a piece of a session.
#[derive(Clone, Copy, Debug, PartialEq, Eq)]
pub enum Progress {
    /// More of a request is awaited. Nothing was written, and nothing was asked of the store.
    Paused,
    /// A request was answered, and the session stays open.
    Answered,
    Ended(Ended),
}

impl Session {
    /// Creates a session before the first read.
    pub fn new(alloc: Global) -> Self
        ensures { result ≡ no_requests_yet }
    {
        Session {
            received: ReadBuffer::new(alloc),
            stage: SessionStage::new(),
            answered: 0,
        }
    }

    /// Returns whether bytes were received that were not answered yet, such as those of a pipelined request. The
    /// connection need not become readable again for them: continue such a session before it pauses.
    pub fn holds_bytes(&self) -> bool
        ensures { IsTrue result ↔ (self.now.received.held ≢ []) }
    {
        !self.received.as_slice().is_empty()
    }

    /// Takes the spare room, unless the session has room of its own.
    pub fn borrow_room(&mut self, spare: &mut SpareRoom)
        ensures { self.new ≡ self.old }
    {
        self.received.borrow_room(spare);
    }

    /// Returns its room to `spare` if the session holds no bytes.
    pub fn return_room(&mut self, spare: &mut SpareRoom)
        ensures { self.new ≡ self.old }
    {
        self.received.return_room(spare);
    }

    /// Answers a request that was taken from the bytes received: asks the store if necessary, and writes one response.
    /// Returns how the session ended, or `None` if it stays open.
    fn answer_request<T, C: Respond, B: Backend<T>>(
        &mut self,
        rt: &T,
        alloc: Global,
        connection: &mut C,
        backend: &mut B,
        verdict: Verdict,
        closes: bool,
    ) -> Result<Option<Ended>, SessionError>
        requires input_works { C.Input.has_failed connection.old ≡ false }
        requires output_works { C.Output.has_failed connection.old ≡ false }
        requires counts { self.old.answered ≤ READ_BYTES * MAX_READS }

        ensures goes_on { (before : SessionValue) → TakesRequest before self.old verdict closes →
            RunsPiece (store_of B.submits B.reads B.knows B.limits)
            (model_of C.remaining C.gives C.Input.has_failed C.contents C.takes C.Output.has_failed)
            (session_moment connection.old backend.old before)
            (session_moment connection.new backend.new self.new) result }

        ensures asks { AsksOnce (store_of B.submits B.reads B.knows B.limits)
            backend.old backend.new }

        ensures works { OnOk result ((C.Input.has_failed connection.new ≡ false)
            × (C.Output.has_failed connection.new ≡ false)) }

        ensures open { (before : SessionValue) → TakesRequest before self.old verdict closes →
            CanContinue (C.remaining connection.old) before →
            IfOpen result (CanContinue (C.remaining connection.new) self.new) }

        ensures one_more { IfOpen result (self.new.answered ≡ self.old.answered + 1) }
    {
        let reply = answer(rt, alloc, backend, verdict);
        let close = closes_after(closes, &reply);
        let written = write_reply(alloc, connection, reply, close);
        if let Err(partial_write) = written {
            return Err(partial_write.after(self.answered));
        }
        self.answered += 1;
        if close {
            return Ok(Some(Ended {
                answered: self.answered,
                reason: EndReason::ClosedByResponse,
            }));
        }
        Ok(None)
    }

    /// Answers a request if the bytes received decide it: asks the store if necessary, and writes one response. Nothing
    /// is read. `Paused` means that more of the request is awaited.
    ///
    /// # Errors
    ///
    /// The output failed, or memory ran out, as for [`serve_connection`](crate::serve_connection).
    pub fn answer_held<T, C: Respond, B: Backend<T>>(
        &mut self,
        rt: &T,
        alloc: Global,
        router: &Router<Endpoint>,
        connection: &mut C,
        backend: &mut B,
    ) -> Result<Progress, SessionError>
        requires routes { router.now ≡ endpoint_rows }
        requires input_works { C.Input.has_failed connection.old ≡ false }
        requires output_works { C.Output.has_failed connection.old ≡ false }
        requires ready { CanContinue (C.remaining connection.old) self.old }

        ensures goes_on { RunsPiece (store_of B.submits B.reads B.knows B.limits)
            (model_of C.remaining C.gives C.Input.has_failed C.contents C.takes C.Output.has_failed)
            (session_moment connection.old backend.old self.old)
            (session_moment connection.new backend.new self.new) (piece_of result) }

        ensures asks { AsksOnce (store_of B.submits B.reads B.knows B.limits)
            backend.old backend.new }

        ensures works { OnOk result ((C.Input.has_failed connection.new ≡ false)
            × (C.Output.has_failed connection.new ≡ false)) }

        ensures open { IfOpen (piece_of result)
            (CanContinue (C.remaining connection.new) self.new) }

        ensures one_more { IfAnswered result (self.new.answered ≡ self.old.answered + 1) }

        ensures paused { IfPaused result (AwaitsMore self.new
            × (self.new.answered ≡ self.old.answered)
            × (self.new.received.reads_left ≡ self.old.received.reads_left)
            × (connection.new ≡ connection.old) × (backend.new ≡ backend.old)) }
    {
        let answered = self.answered;
        let incoming = match receive(alloc, router, &mut self.stage, &mut self.received) {
            Err(AllocError) => {
                return Err(SessionError {
                    answered,
                    written: 0,
                    cause: SessionErrorKind::Memory,
                });
            }
            Ok(None) => return Ok(Progress::Paused),
            Ok(Some(incoming)) => incoming,
        };
        let (verdict, closes) = match incoming {
            Incoming::EndOfInput => {
                return Ok(Progress::Ended(Ended {
                    answered,
                    reason: EndReason::ClosedByClient,
                }));
            }
            Incoming::NoRequest(fault) => {
                let reply = Reply::NoRequest(fault);
                if let Err(partial_write) = write_reply(alloc, connection, reply, true) {
                    return Err(partial_write.after(answered));
                }
                return Ok(Progress::Ended(Ended {
                    answered: answered + 1,
                    reason: EndReason::ClosedByResponse,
                }));
            }
            Incoming::Request { verdict, closes } => (verdict, closes),
        };
        // For the prover: the match takes the cases of the clause `goes_on` apart.
        match self.answer_request(rt, alloc, connection, backend, verdict, closes) {
            Ok(None) => Ok(Progress::Answered),
            Ok(Some(ended)) => Ok(Progress::Ended(ended)),
            Err(error) => Err(error),
        }
    }

    /// Runs a piece with at most one read: answers a request if the bytes received decide it, if necessary with those
    /// of one read. `Paused` means that more of the request is awaited: continue when the connection is readable. This
    /// doesn't block if the connection is readable when it is called.
    ///
    /// # Errors
    ///
    /// Like [`serve_connection`](crate::serve_connection).
    pub fn advance<T, C: Respond, B: Backend<T>>(
        &mut self,
        rt: &T,
        alloc: Global,
        router: &Router<Endpoint>,
        connection: &mut C,
        backend: &mut B,
    ) -> Result<Progress, SessionError>
        requires routes { router.now ≡ endpoint_rows }
        requires input_works { C.Input.has_failed connection.old ≡ false }
        requires output_works { C.Output.has_failed connection.old ≡ false }
        requires ready { CanContinue (C.remaining connection.old) self.old }

        ensures goes_on { RunsPiece (store_of B.submits B.reads B.knows B.limits)
            (model_of C.remaining C.gives C.Input.has_failed C.contents C.takes C.Output.has_failed)
            (session_moment connection.old backend.old self.old)
            (session_moment connection.new backend.new self.new) (piece_of result) }

        ensures asks { AsksOnce (store_of B.submits B.reads B.knows B.limits)
            backend.old backend.new }

        ensures works { OnOk result ((C.Input.has_failed connection.new ≡ false)
            × (C.Output.has_failed connection.new ≡ false)) }

        ensures open { IfOpen (piece_of result)
            (CanContinue (C.remaining connection.new) self.new) }

        ensures one_more { IfAnswered result (self.new.answered ≡ self.old.answered + 1) }

        ensures paused { IfPaused result (AwaitsMore self.new
            × (self.new.answered ≡ self.old.answered)
            × (self.new.received.reads_left + 1 ≡ self.old.received.reads_left)
            × (backend.new ≡ backend.old)) }
    {
        // For the prover: the matches take the cases of the clause `goes_on` apart.
        match self.answer_held(rt, alloc, router, connection, backend) {
            Ok(Progress::Paused) => {}
            Ok(progress) => return Ok(progress),
            Err(error) => return Err(error),
        }
        if let Err(why) = self.received.read_more(connection) {
            return Err(SessionError {
                answered: self.answered,
                written: 0,
                cause: cause_of(why),
            });
        }
        // For the prover: the match takes the two cases of the clause apart.
        match self.answer_held(rt, alloc, router, connection, backend) {
            Ok(progress) => Ok(progress),
            Err(error) => Err(error),
        }
    }

    /// Reads one request, asks the store if necessary, and writes one response. Returns how the session ended, or
    /// `None` while it stays open. Blocks until the client has sent the request. A server of many connections calls
    /// [`advance`](Self::advance) and [`answer_held`](Self::answer_held) in its place.
    ///
    /// The pieces of a session add up to what [`serve_connection`](crate::serve_connection) promises: from the state in
    /// which the session began it is underway after `None`, and has ended or failed otherwise. This holds even if other
    /// sessions used the store since the last piece, provided that the store has forgotten nothing that it knew.
    ///
    /// # Errors
    ///
    /// Like [`serve_connection`](crate::serve_connection).
    pub fn answer_next<T, C: Respond, B: Backend<T>>(
        &mut self,
        rt: &T,
        alloc: Global,
        router: &Router<Endpoint>,
        connection: &mut C,
        backend: &mut B,
    ) -> Result<Option<Ended>, SessionError>
        requires routes { router.now ≡ endpoint_rows }
        requires input_works { C.Input.has_failed connection.old ≡ false }
        requires output_works { C.Output.has_failed connection.old ≡ false }
        requires ready { CanContinue (C.remaining connection.old) self.old }

        ensures goes_on { RunsPiece (store_of B.submits B.reads B.knows B.limits)
            (model_of C.remaining C.gives C.Input.has_failed C.contents C.takes C.Output.has_failed)
            (session_moment connection.old backend.old self.old)
            (session_moment connection.new backend.new self.new) result }

        ensures asks { AsksOnce (store_of B.submits B.reads B.knows B.limits)
            backend.old backend.new }

        ensures works { OnOk result ((C.Input.has_failed connection.new ≡ false)
            × (C.Output.has_failed connection.new ≡ false)) }

        ensures open { IfOpen result (CanContinue (C.remaining connection.new) self.new) }

        ensures one_more { IfOpen result (self.new.answered ≡ self.old.answered + 1) }
    {
        // For the prover: its proof names the loop by the label.
        'pauses: loop {
            match self.advance(rt, alloc, router, connection, backend) {
                Ok(Progress::Paused) => {}
                Ok(Progress::Answered) => return Ok(None),
                Ok(Progress::Ended(ended)) => return Ok(Some(ended)),
                Err(error) => return Err(error),
            }
        }
    }
}
