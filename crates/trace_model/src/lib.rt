//! Entries, queries and answers; and, as definitions over the plain list, what a history of entries answers.
//!
//! * `limits`, `trace_limit`, `entry`, `admission`, `refusal`: what is stored, and why an entry is refused.
//! * `query`, `answer`: queries and their answers; `shown_trace`: the spans of a trace that is shown;
//!   `answered_trace`: a trace of an answer, copied or in its entries; `name`: the name of a service or of an
//!   operation in an answer; `taken_span`: a span of a trace that was collected from a store.
//! * `clock`: what a span passes to the spans below it, for the adjustment of clocks.
//! * `backend`: the interface between a session and its store: the [`Backend`].
//! * `growth`: lists that take little more memory than their items. `keyed_places`: places that are stored by the keys
//!   of processes. Crates that search, adjust or write traces share both.
//!
//! `specs/` defines what is shown and answered. The program of crate `plain_store` computes it, and crate
//! `store_laws` states what follows from it, in the terms of tracing.
#![tactic(auto)]

mod admission;
mod answer;
mod answered_trace;
mod backend;
mod clock;
mod entry;
mod growth;
mod keyed_places;
mod limits;
mod name;
mod query;
mod refusal;
mod shown_trace;
mod taken_span;
mod trace_limit;

pub use admission::Admission;
pub use answer::{Answer, Link, Operation, Shown, with_kind};
pub use answered_trace::{AnsweredTrace, KeptTrace, TraceForm};
pub use backend::Backend;
pub use clock::Clock;
pub use entry::{Entry, Work};
pub use growth::push_tightly;
pub use keyed_places::{place_by_key, place_u32, store_by_key};
pub use limits::Limits;
pub use name::Name;
pub use query::{Find, Query};
pub use refusal::Refusal;
pub use shown_trace::ShownTrace;
pub use taken_span::{TakenSpan, reported_in};
pub use trace_limit::TraceLimit;
