//! Tests of sessions and of answers over HTTP (`answer_trees`, `query_json`, `query_http`, `session_devices`,
//! `http_session`, `open_connections`) that no case can be: devices that fail, requests in pieces, and the memory for
//! answers. `cases/` tests the bytes of sessions.
//!
//! * `sessions`: a session over a store, which the others run with devices of their own.
//! * `pipes`: complete sessions, also with devices that fail at each call, and one in which memory runs out.
//! * `reads`: a request, or why it is malformed, without an unnecessary read; a body that is put as it comes.
//! * `large`: answers that are sent in several parts.
//! * `turns`: no read before the responses to the requests read are written.
//! * `slow_readers`: clients that take a few bytes of a response at a time.
//! * `refusals`: each refusal of a store as a response.
//! * `answers`: the memory for an answer, as a tree and in parts, and for a response.
#![tactic(auto)]

#[cfg(test)]
mod tests;
