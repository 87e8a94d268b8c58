//! The calls between services: the dependencies of traces, in time linear in their spans up to a logarithm.
//!
//! [`LinkCounts`] counts the calls in the traces that are added, without a window. `span_store` adds those that have a
//! span in the window, and so computes what the plain store computes of all traces, `plain_store::service_links`.
//! Numbers represent services: no text is read for a span or for a call. No contract speaks of these costs.
//!
//! * `numbered_span`: a span in its entry, with the number of its service.
//! * `calls`: the calls of a trace, over a table from each id to the first span that has it.
//! * `tally`: the number of calls between two services.
//! * `counts`: calls counted trace by trace.
//! * `order`: pairs of services in the order of their names.
#![tactic(auto)]

mod calls;
mod counts;
mod numbered_span;
mod order;
mod tally;

pub use counts::LinkCounts;
pub use numbered_span::NumberedSpan;
