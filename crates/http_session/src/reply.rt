ghost use Rattle.std.specs.Prelude.{◌≡◌, ◌++◌, [], IfOk, IfSome, is_some, string_bytes};
ghost use Rattle.serde_json.specs.Written.{compact_text};
ghost use Rattle.query_http.specs.Responses.{response};
ghost use Rattle.query_http.specs.Statuses.{code_of};
ghost use Rattle.query_json.specs.Parts.{to_come};
ghost use Rattle.answer_trees.specs.Trees.{answer_tree};
ghost use Rattle.http_session.specs.Replies.{status_of, allow_of, closes, takes_no_memory, response_of, error_message, error_status, methods_of};
ghost use Rattle.http_session.specs.Replies.{refusal_message, fault_status, fault_message, error_body};
ghost use Rattle.http_session.specs.declared.reply.Reply.TheVariants as reply;

use crate::fixed::{accepted, internal_error, out_of_memory};
use crate::question::takes_post;
use crate::response::Response;
use crate::verdict::ErrorReply;
use http_requests::RequestFault;
use query_http::{Endpoint, Status, respond, response_head};
use query_json::{AnswerParts, error_bytes};
use std::alloc::{AllocError, Global};
use trace_model::{Answer, Refusal};

/// The reply to a request.
#[derive(Debug, Drop)]
pub enum Reply {
    /// The batch was accepted.
    Accepted,
    /// The store's answer to a query.
    Answered(Answer),
    /// The store refused the batch, or could not answer.
    Refused(Refusal),
    /// An error, without asking the store.
    Error(ErrorReply),
    /// The bytes are no request that can be read.
    NoRequest(RequestFault),
}

/// The size up to which an answer is copied after its head, so that one write takes both.
const MAX_JOINED: usize = 16_384;

fn refusal_message(refusal: Refusal) -> &'static str
    ensures { result.now ≡ refusal_message refusal }
{
    match refusal {
        Refusal::JournalFull { .. } => "journal full",
        Refusal::Deferred => "deferred",
        Refusal::Busy => "busy",
        Refusal::Closed => "closed",
        Refusal::Conflict { .. } => "conflict",
        Refusal::NoMemory => "out of memory",
        Refusal::Stale { .. }
        | Refusal::Stranger
        | Refusal::NoReply
        | Refusal::Behind { .. }
        | Refusal::Gone => "internal error",
    }
}

fn error_status(error: ErrorReply) -> Status
    ensures { code_of result ≡ error_status error }
{
    match error {
        ErrorReply::NoSuchPath => Status::NotFound,
        ErrorReply::MethodNotAllowed(_) => Status::MethodNotAllowed,
        ErrorReply::UnsupportedMediaType => Status::UnsupportedMediaType,
        ErrorReply::BadBatch(_) | ErrorReply::BadParameter(_) => Status::BadRequest,
        ErrorReply::NoMemory => Status::InternalServerError,
    }
}

fn error_message(alloc: Global, error: ErrorReply) -> Result<String, AllocError>
    ensures { IfOk result (λ s. string_bytes s ≡ error_message error) }
{
    match error {
        ErrorReply::NoSuchPath => String::from_str(alloc, "no such path"),
        ErrorReply::MethodNotAllowed(_) => String::from_str(alloc, "method not allowed"),
        ErrorReply::UnsupportedMediaType => String::from_str(alloc, "unsupported content type"),
        ErrorReply::BadBatch(fault) => format!(in alloc; "batch refused: {fault}"),
        ErrorReply::BadParameter(parameter) => {
            let name = parameter.name();
            format!(in alloc; "bad parameter: {name}")
        }
        ErrorReply::NoMemory => String::from_str(alloc, "out of memory"),
    }
}

fn fault_status(fault: RequestFault) -> Status
    ensures { code_of result ≡ fault_status fault }
{
    match fault {
        RequestFault::Head | RequestFault::Body => Status::BadRequest,
        RequestFault::TooLarge => Status::ContentTooLarge,
    }
}

fn fault_message(fault: RequestFault) -> &'static str
    ensures { result.now ≡ fault_message fault }
{
    match fault {
        RequestFault::Head => "bad request head",
        RequestFault::Body => "bad request body",
        RequestFault::TooLarge => "body too large",
    }
}

fn error_reply_body(alloc: Global, error: ErrorReply) -> Result<Vec<u8>, AllocError>
    ensures { IfOk result (λ v. v.items ≡
        error_body (error_status error) (error_message error)) }
{
    let message = error_message(alloc, error)?;
    error_bytes(alloc, error_status(error).code(), message.as_str())
}

/// Returns the head, followed by the remaining parts of an answer.
fn joined(head: Vec<u8>, mut parts: AnswerParts) -> Result<Vec<u8>, AllocError>
    ensures { IfOk result (λ v. v.items ≡ head.items ++ to_come parts) }
{
    let mut whole = head;
    whole.reserve(parts.remaining())?;
    while parts.remaining() > 0 {
        whole.extend_from_slice(parts.part())?;
        parts.advance();
    }
    Ok(whole)
}

/// Returns the response of an answer, which is written in parts if it is large.
fn answered(
    alloc: Global,
    status: Status,
    answer: Answer,
    close: bool,
) -> Result<Response, AllocError>
    ensures { IfOk result (λ r. to_come r ≡
        response (code_of status) (compact_text (answer_tree answer)) [] close) }
{
    let parts = AnswerParts::new(alloc, answer)?;
    let head = response_head(alloc, status, parts.remaining(), "", close)?;
    if parts.remaining() > MAX_JOINED {
        return Response::in_parts(head, parts);
    }
    let whole = joined(head, parts)?;
    Ok(Response::whole(whole))
}

/// Returns the response of a refusal, if it needs no memory.
#[tactic(auto, unfolding(crate::specs::Replies::response_of))]
fn fixed_refusal(refusal: Refusal, close: bool) -> Option<&'static [u8]>
    ensures response { IfSome result (λ bytes.
        bytes.now ≡ response_of (reply.Refused refusal) close) }
    ensures which { is_some result ≡ takes_no_memory (reply.Refused refusal) }
{
    match (Status::of_refusal(refusal), refusal) {
        (Status::InternalServerError, Refusal::NoMemory) => Some(out_of_memory(close)),
        (Status::InternalServerError, _) => Some(internal_error(close)),
        _ => None,
    }
}

/// Returns the response of an error reply, if it needs no memory.
#[tactic(auto, unfolding(crate::specs::Replies::response_of))]
fn fixed_error(error: ErrorReply, close: bool) -> Option<&'static [u8]>
    ensures response { IfSome result (λ bytes. bytes.now ≡ response_of (reply.Error error) close) }
    ensures which { is_some result ≡ takes_no_memory (reply.Error error) }
{
    match error {
        ErrorReply::NoMemory => Some(out_of_memory(close)),
        _ => None,
    }
}

/// Returns the methods that an endpoint takes.
fn methods_of(endpoint: Endpoint) -> &'static str
    ensures { result.now ≡ methods_of endpoint }
{
    if takes_post(endpoint) {
        "GET, POST"
    } else {
        "GET"
    }
}

impl Reply {
    /// Returns the status of the response.
    pub fn status(&self) -> Status
        ensures { code_of result ≡ status_of self.now }
    {
        match self {
            Reply::Accepted => Status::Accepted,
            Reply::Answered(Answer::Trace(None)) => Status::NotFound,
            Reply::Answered(_) => Status::Ok,
            Reply::Refused(refusal) => Status::of_refusal(*refusal),
            Reply::Error(error) => error_status(*error),
            Reply::NoRequest(fault) => fault_status(*fault),
        }
    }

    /// Returns the methods that the endpoint takes, if the request's is none of them; otherwise an empty text.
    fn allow(&self) -> &'static str
        ensures { result.now ≡ allow_of self.now }
    {
        match self {
            Reply::Error(ErrorReply::MethodNotAllowed(endpoint)) => methods_of(*endpoint),
            _ => "",
        }
    }

    /// Returns whether the session closes after this reply, whatever the request asks.
    pub fn closes(&self) -> bool
        ensures { result ≡ closes self.now }
    {
        matches!(
            self,
            Reply::Error(ErrorReply::MethodNotAllowed(_)) | Reply::NoRequest(_)
        )
    }

    /// Returns the bytes of the response, if they need no memory: a batch was accepted, memory ran out, or there was an
    /// internal error.
    #[tactic(auto, unfolding(crate::specs::Replies::response_of))]
    pub fn fixed(&self, close: bool) -> Option<&'static [u8]>
        ensures response { IfSome result (λ bytes. bytes.now ≡ response_of self.now close) }
        ensures which { is_some result ≡ takes_no_memory self.now }
    {
        match self {
            Reply::Accepted => Some(accepted(close)),
            Reply::Refused(refusal) => fixed_refusal(*refusal, close),
            Reply::Error(error) => fixed_error(*error, close),
            Reply::Answered(_) | Reply::NoRequest(_) => None,
        }
    }

    /// Returns the response, which keeps the answer if that is written in parts. All memory for it is allocated here.
    ///
    /// # Errors
    ///
    /// Out of memory, and nothing else.
    #[tactic(auto, unfolding(crate::specs::Replies::response_of))]
    pub fn into_response(self, alloc: Global, close: bool) -> Result<Response, AllocError>
        ensures { IfOk result (λ r. to_come r ≡ response_of self close) }
    {
        let (status, allow) = (self.status(), self.allow());
        // `write_reply` writes a reply that `fixed` has without this call. The clause speaks of every reply.
        let body = match self {
            Reply::Accepted => Vec::new(alloc),
            Reply::Answered(answer) => return answered(alloc, status, answer, close),
            Reply::Refused(refusal) => error_bytes(alloc, status.code(), refusal_message(refusal))?,
            Reply::Error(error) => error_reply_body(alloc, error)?,
            Reply::NoRequest(fault) => error_bytes(alloc, status.code(), fault_message(fault))?,
        };
        let whole = respond(alloc, status, body.as_slice(), allow, close)?;
        Ok(Response::whole(whole))
    }
}
