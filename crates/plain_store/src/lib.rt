//! The plain store: it computes what a history of entries answers from the plain list each time, with no index
//! and no state in between. It is slow, and its contracts are the definitions of `trace_model`.
//!
//! * `plain`: the answer to each query.
//! * `showing`: the ring of traces and the spans that are shown.
//! * `names`: services and operations.
//! * `search`, `ranks`: the traces that a search finds, and their order.
//! * `links`: calls between services.
//! * `adjust`: a trace with adjusted clocks.
//! * `clock`: the clock of one span by that of its parent.
//! * `sets`: sorted lists without duplicates.
#![tactic(auto)]

mod adjust;
mod clock;
mod links;
mod names;
mod plain;
mod ranks;
mod search;
mod sets;
mod showing;

pub use adjust::adjusted_trace;
pub use links::service_links;
pub use names::{operation_names, operations, services};
pub use plain::{get_trace, plain_answer, trace_shown};
pub use search::{find_traces, trace_ids};
