//! A trace as it is shown, made from the stored one: in each span the reference to its parent is the first one,
//! and its times are moved into those of its root's host. The answers are those of
//! `plain_store::adjusted_trace`, in time linear in the spans and their logs, up to a logarithm, and without recursion, however
//! deep the trace is. No contract speaks of these costs.
//!
//! * `lent_placed`: a span with its process, borrowed from what keeps both.
//! * `parents`: the places of parents in a trace.
//! * `process_keys`: the keys of the processes of spans.
//! * `hosts`: numbers for the hosts of a trace.
//! * `clock`: the delta of the clock of one span.
//! * `known_deltas`: the deltas of spans, as far as they are known.
//! * `clocks`: the clock of each span, by its delta.
//! * `span_deltas`: the delta by which each span moves.
//! * `skew`: the spans moved by their deltas.
//! * `showing`: traces of an answer, whose spans are copied from their entries.
//! * `lent_span`, `lent_logs`: a span of an answer, borrowed from its entry, with what is shown differently.
//! * `lent_spans`: the spans of a trace of an answer, borrowed one by one.
//! * `lending`: the stored trace and the deltas of its clocks, from which the spans are borrowed.
#![tactic(auto)]

mod clock;
mod clocks;
mod hosts;
mod known_deltas;
mod lending;
mod lent_logs;
mod lent_placed;
mod lent_span;
mod lent_spans;
mod parents;
mod process_keys;
mod showing;
mod skew;
mod span_deltas;

pub use lending::lend;
pub use lent_logs::{LentLog, LentLogs};
pub use lent_span::LentSpan;
pub use lent_spans::LentSpans;
pub use showing::{show, show_answered, show_lone};
pub use skew::{adjust_skew, adjusted};
// No crate here takes it from this one: it is for users who adjust traces without `span_steps`.
pub use span_steps::parent_first;
