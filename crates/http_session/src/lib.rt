//! An HTTP session: answers the requests of an input one after the other on an output, over a store.
//!
//! The bytes read are proved to be requests and a rest, the bytes written one response to each, and every answer of the
//! store that of the plain store at a point of one growing history ([`session`]). The responses to all earlier requests
//! are written before the session reads for the next one ([`serve_connection`]).
//!
//! * `verdict`: what a request asks of the store, or the error reply without asking.
//! * `question`: what the head of a request asks.
//! * `receiving`: takes requests from the bytes received, with the body piece by piece.
//! * `reply`: the reply to a request, and its response. `response`: a response that is written in parts.
//! * `respond`: connections that take complete responses.
//! * `fixed`: the responses 202 and 500, which need no memory.
//! * `writing`: writes all of some bytes, or all parts of a response.
//! * `resumable`: a session that runs in pieces, with pauses between two requests or inside one.
//! * `whole_session`: a session from its first request to its end.
//! * `laws`: laws of sessions that run in pieces.
#![tactic(auto)]

mod fixed;
pub mod laws;
mod question;
mod receiving;
mod reply;
mod respond;
mod response;
mod resumable;
mod verdict;
mod whole_session;
mod writing;

pub use http_requests::SpareRoom;
pub use reply::Reply;
pub use respond::Respond;
pub use response::Response;
pub use resumable::{Progress, Session};
pub use verdict::{ErrorReply, Verdict};
pub use whole_session::{
    EndReason, Ended, SessionError, SessionErrorKind, serve_connection, session,
};
