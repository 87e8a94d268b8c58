//! The statuses of responses.
ghost use Rattle.std.specs.Prelude.{◌≡◌};
ghost use Rattle.query_http.specs.Statuses.{code_of, refusal_status};
ghost use Rattle.query_http.specs.Responses as spec;

use trace_model::Refusal;

/// The status of a response (RFC 9110, section 15). For a new one, add a variant, its number in `code_of` of
/// `specs/Statuses.antt`, and its reason in `reason` of `specs/Responses.antt`.
#[derive(Clone, Copy, Debug, PartialEq, Eq)]
pub enum Status {
    /// 200 OK.
    Ok,
    /// 202 Accepted.
    Accepted,
    /// 400 Bad Request.
    BadRequest,
    /// 404 Not Found.
    NotFound,
    /// 405 Method Not Allowed.
    MethodNotAllowed,
    /// 409 Conflict.
    Conflict,
    /// 413 Content Too Large.
    ContentTooLarge,
    /// 415 Unsupported Media Type.
    UnsupportedMediaType,
    /// 500 Internal Server Error.
    InternalServerError,
    /// 503 Service Unavailable.
    ServiceUnavailable,
}

impl Status {
    /// Returns the status of a response to a request that the store refused.
    pub fn of_refusal(refusal: Refusal) -> Status
        ensures { code_of result ≡ refusal_status refusal }
    {
        match refusal {
            Refusal::JournalFull { .. } | Refusal::Deferred | Refusal::Busy | Refusal::Closed =>
                Status::ServiceUnavailable,
            Refusal::Conflict { .. } => Status::Conflict,
            Refusal::NoMemory
            | Refusal::Stale { .. }
            | Refusal::Stranger
            | Refusal::NoReply
            | Refusal::Behind { .. }
            | Refusal::Gone => Status::InternalServerError,
        }
    }

    /// Returns the number of the status.
    pub fn code(self) -> u16
        ensures { result ≡ code_of self }
    {
        match self {
            Status::Ok => 200,
            Status::Accepted => 202,
            Status::BadRequest => 400,
            Status::NotFound => 404,
            Status::MethodNotAllowed => 405,
            Status::Conflict => 409,
            Status::ContentTooLarge => 413,
            Status::UnsupportedMediaType => 415,
            Status::InternalServerError => 500,
            Status::ServiceUnavailable => 503,
        }
    }

    /// Returns the reason phrase of the status.
    pub(crate) fn reason(self) -> &'static [u8]
        ensures { result.now ≡ spec.reason (code_of self) }
    {
        match self {
            Status::Ok => b"OK",
            Status::Accepted => b"Accepted",
            Status::BadRequest => b"Bad Request",
            Status::NotFound => b"Not Found",
            Status::MethodNotAllowed => b"Method Not Allowed",
            Status::Conflict => b"Conflict",
            Status::ContentTooLarge => b"Content Too Large",
            Status::UnsupportedMediaType => b"Unsupported Media Type",
            Status::InternalServerError => b"Internal Server Error",
            Status::ServiceUnavailable => b"Service Unavailable",
        }
    }
}
