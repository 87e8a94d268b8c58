ghost use Rattle.std.specs.Prelude.{◌≡◌, ◌≢◌, true, false, IfOk, IfErr, OnOk, ◌||◌};
ghost use Rattle.query_http.specs.Paths.{endpoint_rows};
ghost use Rattle.query_json.specs.Parts.{to_come};
ghost use Rattle.http_session.specs.Replies.{response_of, closes, takes_no_memory};
ghost use Rattle.http_session.specs.declared.whole_session.SessionErrorKind.TheVariants.{Writing, Memory};
ghost use Rattle.http_session.specs.Sessions.{store_of, moment, Step, output_state, WritesResponse, part_written, cause_by};
ghost use Rattle.http_session.specs.ResponseOrder.{model_of, connection_moment};
ghost use Rattle.http_session.specs.SessionRuns.{devices_of, EndsOnDevicesInHistory, FailsOnDevicesInHistory};
ghost use Rattle.http_session.specs.SessionRuns.{EndsOnConnectionInHistory, FailsOnConnectionInHistory};

use crate::reply::Reply;
use crate::respond::Respond;
use crate::response::Response;
use crate::resumable::Session;
use crate::verdict::Verdict;
use crate::writing::write_all;
use http_requests::ReadError;
use matchit::Router;
use query_http::{Endpoint, endpoints};
use session_devices::{Input, Join, Output};
use std::alloc::Global;
use std::mem::drop;
use trace_model::Backend;

/// Why a session ended.
#[derive(Clone, Copy, Debug, PartialEq, Eq)]
pub enum EndReason {
    /// The input ended between two requests.
    ClosedByClient,
    /// A response closed the session: the request or the reply asked for it, or the bytes received were malformed.
    ClosedByResponse,
}

/// How a session ended.
#[derive(Clone, Copy, Debug, PartialEq, Eq)]
pub struct Ended {
    /// The number of responses written.
    pub answered: u64,
    pub reason: EndReason,
}

/// Why a session failed.
#[derive(Clone, Copy, Debug, PartialEq, Eq)]
pub enum SessionErrorKind {
    /// The input failed, or the limit of reads was reached.
    Reading,
    /// The output failed.
    Writing,
    Memory,
}

/// The failure of a session.
#[derive(Clone, Copy, Debug, PartialEq, Eq)]
pub struct SessionError {
    /// The number of responses that were written completely.
    pub answered: u64,
    /// The number of bytes of the next response that were written, never all of them.
    pub written: u64,
    pub cause: SessionErrorKind,
}

/// A response that was not written completely: how many of its bytes were, and why not more.
#[derive(Clone, Copy, Debug)]
pub(crate) struct PartialWrite {
    pub(crate) written: usize,
    pub(crate) cause: SessionErrorKind,
}

impl PartialWrite {
    /// Creates the report of a failed write, after this number of bytes.
    fn writing(written: usize) -> Self
        ensures { result ≡ record { written = written; cause = Writing } }
    {
        PartialWrite {
            written,
            cause: SessionErrorKind::Writing,
        }
    }

    pub(crate) fn after(self, answered: u64) -> SessionError
        ensures { result ≡
            record { answered = answered; written = self.written; cause = self.cause } }
    {
        SessionError {
            answered,
            written: self.written as u64,
            cause: self.cause,
        }
    }
}

pub(crate) fn cause_of(why: ReadError) -> SessionErrorKind
    ensures { result ≡ cause_by why }
{
    match why {
        ReadError::Reading => SessionErrorKind::Reading,
        ReadError::Memory => SessionErrorKind::Memory,
    }
}

/// Returns the reply to a request. Asks the store if necessary.
pub(crate) fn answer<T, B: Backend<T>>(
    rt: &T,
    alloc: Global,
    backend: &mut B,
    verdict: Verdict,
) -> Reply
    ensures { Step (store_of B.submits B.reads B.knows B.limits)
        backend.old verdict result backend.new }
{
    match verdict {
        Verdict::Submit(batch) => match backend.submit(rt, alloc, batch) {
            Ok(_) => Reply::Accepted,
            Err(refusal) => Reply::Refused(refusal),
        },
        Verdict::Ask(query) => match backend.read(alloc, &query) {
            Ok(found) => Reply::Answered(found),
            Err(refusal) => Reply::Refused(refusal),
        },
        Verdict::Reject(error) => Reply::Error(error),
    }
}

/// Returns whether the session closes after the reply: the request asked for it, or the reply closes it.
pub(crate) fn closes_after(asks: bool, reply: &Reply) -> bool
    ensures { result ≡ (asks || closes reply.now) }
{
    asks || reply.closes()
}

/// Writes the bytes of a response. Allocates nothing itself. A connection that can't take all of them may keep a copy, and
/// fails if there is no memory for it.
fn write_fixed<W: Output>(output: &mut W, response: &[u8]) -> Result<(), PartialWrite>
    ensures wrote { WritesResponse (output_state (W.contents output.old) (W.has_failed output.old))
        (output_state (W.contents output.new) (W.has_failed output.new)) response.now result }
    ensures took { W.takes output.old (part_written response.now result) output.new }
    ensures writing { IfErr result (λ e. e.cause ≡ Writing) }
{
    write_all(output, response).map_err(PartialWrite::writing)
}

/// Writes a response, or hands it over to be written later.
fn write_response<C: Respond>(connection: &mut C, response: Response) -> Result<(), PartialWrite>
    ensures wrote { WritesResponse
        (output_state (C.contents connection.old) (C.Output.has_failed connection.old))
        (output_state (C.contents connection.new) (C.Output.has_failed connection.new))
        (to_come response) result }
    ensures took { C.takes connection.old (part_written (to_come response) result) connection.new }
    ensures writing { IfErr result (λ e. e.cause ≡ Writing) }
{
    connection
        .send_response(response)
        .map_err(PartialWrite::writing)
}

/// Writes the response of a reply. Allocates nothing itself if that is 202 or 500, as [`write_fixed`].
pub(crate) fn write_reply<C: Respond>(
    alloc: Global,
    connection: &mut C,
    reply: Reply,
    close: bool,
) -> Result<(), PartialWrite>
    ensures wrote { WritesResponse
        (output_state (C.contents connection.old) (C.Output.has_failed connection.old))
        (output_state (C.contents connection.new) (C.Output.has_failed connection.new))
        (response_of reply close) result }
    ensures took { C.takes connection.old (part_written (response_of reply close) result)
        connection.new }
    ensures spared { takes_no_memory reply ≡ true → IfErr result (λ e. e.cause ≢ Memory) }
{
    if let Some(bytes) = reply.fixed(close) {
        return write_fixed(connection, bytes);
    }
    let Ok(response) = reply.into_response(alloc, close) else {
        return Err(PartialWrite {
            written: 0,
            cause: SessionErrorKind::Memory,
        });
    };
    write_response(connection, response)
}

/// Answers the requests of the connection one after the other.
fn run_session<T, C: Respond, B: Backend<T>>(
    rt: &T,
    alloc: Global,
    router: &Router<Endpoint>,
    connection: &mut C,
    backend: &mut B,
) -> Result<Ended, SessionError>
    requires routes { router.now ≡ endpoint_rows }
    requires input_works { C.Input.has_failed connection.old ≡ false }
    requires output_works { C.Output.has_failed connection.old ≡ false }
    ensures ended { IfOk result (EndsOnConnectionInHistory
        (store_of B.submits B.reads B.knows B.limits)
        (model_of C.remaining C.gives C.Input.has_failed C.contents C.takes C.Output.has_failed)
        (connection_moment connection.old backend.old)
        (connection_moment connection.new backend.new)) }
    ensures works { OnOk result ((C.Input.has_failed connection.new ≡ false)
        × (C.Output.has_failed connection.new ≡ false)) }
    ensures error { IfErr result (FailsOnConnectionInHistory
        (store_of B.submits B.reads B.knows B.limits)
        (model_of C.remaining C.gives C.Input.has_failed C.contents C.takes C.Output.has_failed)
        (connection_moment connection.old backend.old)
        (connection_moment connection.new backend.new)) }
{
    let mut session = Session::new(alloc);
    // For the prover: explicit drops are cheaper than one at the end of the block.
    'requests: loop {
        match session.answer_next(rt, alloc, router, connection, backend) {
            Ok(None) => {}
            Ok(Some(ended)) => {
                drop(session);
                return Ok(ended);
            }
            Err(error) => {
                drop(session);
                return Err(error);
            }
        }
    }
}

/// Answers the requests of a connection one after the other, until the input ends between two of them or a response
/// closes the session.
///
/// The bytes read are the texts of requests and a rest. The bytes written are one response to each request, and a last
/// response if the rest is malformed. A batch is accepted if and only if the response says so. Each answer is the plain
/// store's at a point of one growing history. That point is never before the point of an earlier answer, nor before a
/// batch that was accepted.
///
/// Before each read, the bytes received by then were requests after which the session stays open, and a rest that
/// didn't decide the next request: it didn't start with a complete request, and its complete lines didn't rule one out.
/// Nothing is read after a request whose response closes the session. Exactly the responses to those requests were
/// written by then, so no response waits for what the client sends next. All this also holds for a session that failed,
/// and for the read that failed, if one did.
///
/// # Errors
///
/// A device failed, the limit of reads (`http_requests::MAX_READS`) was reached, or memory ran out: for the buffer of a
/// read, for a query, or for a response other than 202 and 500. A batch that was received completely is answered, with
/// 500 if memory ran out for it. Batches that were accepted before stay accepted.
pub fn serve_connection<T, C: Respond, B: Backend<T>>(
    rt: &T,
    alloc: Global,
    connection: &mut C,
    backend: &mut B,
) -> Result<Ended, SessionError>
    requires input_works { C.Input.has_failed connection.old ≡ false }
    requires output_works { C.Output.has_failed connection.old ≡ false }

    ensures ended { IfOk result (EndsOnConnectionInHistory
        (store_of B.submits B.reads B.knows B.limits)
        (model_of C.remaining C.gives C.Input.has_failed C.contents C.takes C.Output.has_failed)
        (connection_moment connection.old backend.old)
        (connection_moment connection.new backend.new)) }

    ensures works { OnOk result ((C.Input.has_failed connection.new ≡ false)
        × (C.Output.has_failed connection.new ≡ false)) }

    ensures error { IfErr result (FailsOnConnectionInHistory
        (store_of B.submits B.reads B.knows B.limits)
        (model_of C.remaining C.gives C.Input.has_failed C.contents C.takes C.Output.has_failed)
        (connection_moment connection.old backend.old)
        (connection_moment connection.new backend.new)) }
{
    let Ok(router) = endpoints(alloc) else {
        return Err(SessionError {
            answered: 0,
            written: 0,
            cause: SessionErrorKind::Memory,
        });
    };
    // For the prover: the match takes the clauses `ended` and `error` apart.
    match run_session(rt, alloc, &router, connection, backend) {
        Ok(ended) => Ok(ended),
        Err(error) => Err(error),
    }
}

/// Like [`serve_connection`], over a joined input and output, which stay joined.
fn serve_joined<T, R: Input, W: Output, B: Backend<T>>(
    rt: &T,
    alloc: Global,
    connection: &mut Join<'_, R, W>,
    backend: &mut B,
) -> Result<Ended, SessionError>
    requires input_works { R.has_failed connection.old.input.now ≡ false }
    requires output_works { W.has_failed connection.old.output.now ≡ false }
    ensures same_input { connection.new.input.ghost_name ≡ connection.old.input.ghost_name }
    ensures same_output { connection.new.output.ghost_name ≡ connection.old.output.ghost_name }
    ensures ended { IfOk result (EndsOnDevicesInHistory
        (store_of B.submits B.reads B.knows B.limits)
        (devices_of R.remaining R.gives R.has_failed W.contents W.has_failed)
        (moment connection.old.input.now connection.old.output.now backend.old)
        (moment connection.new.input.now connection.new.output.now backend.new)) }
    ensures works { OnOk result ((R.has_failed connection.new.input.now ≡ false)
        × (W.has_failed connection.new.output.now ≡ false)) }
    ensures error { IfErr result (FailsOnDevicesInHistory
        (store_of B.submits B.reads B.knows B.limits)
        (devices_of R.remaining R.gives R.has_failed W.contents W.has_failed)
        (moment connection.old.input.now connection.old.output.now backend.old)
        (moment connection.new.input.now connection.new.output.now backend.new)) }
{
    // For the prover: the match takes the clauses `ended` and `error` apart.
    match serve_connection(rt, alloc, connection, backend) {
        Ok(ended) => Ok(ended),
        Err(error) => Err(error),
    }
}

/// Like [`serve_connection`], over an input and an output, which it joins into one connection.
///
/// Only the contract of a connection can say what was written before each read, as that of `serve_connection` does. The
/// contract here says that the input is read only while the next request is awaited.
///
/// # Errors
///
/// Like `serve_connection`.
pub fn session<T, R: Input, W: Output, B: Backend<T>>(
    rt: &T,
    alloc: Global,
    input: &mut R,
    output: &mut W,
    backend: &mut B,
) -> Result<Ended, SessionError>
    requires input_works { R.has_failed input.old ≡ false }
    requires output_works { W.has_failed output.old ≡ false }

    ensures ended { IfOk result (EndsOnDevicesInHistory
        (store_of B.submits B.reads B.knows B.limits)
        (devices_of R.remaining R.gives R.has_failed W.contents W.has_failed)
        (moment input.old output.old backend.old) (moment input.new output.new backend.new)) }

    ensures works { OnOk result ((R.has_failed input.new ≡ false)
        × (W.has_failed output.new ≡ false)) }

    ensures error { IfErr result (FailsOnDevicesInHistory
        (store_of B.submits B.reads B.knows B.limits)
        (devices_of R.remaining R.gives R.has_failed W.contents W.has_failed)
        (moment input.old output.old backend.old) (moment input.new output.new backend.new)) }
{
    let mut connection = Join::new(input, output);
    // For the prover: the match takes the clauses `ended` and `error` apart.
    match serve_joined(rt, alloc, &mut connection, backend) {
        Ok(ended) => Ok(ended),
        Err(error) => Err(error),
    }
}
