//! What the operator of a server is told on standard error, and what its workers count for that.
//!
//! A line that can't be written is lost. No answer of the server and no line of its output depends on these counts.
//!
//! * `lines`: the texts of the lines about a store and its refusals, the level of a store, and the nouns for counts.
//! * `notices`: the counts of a server, and the lines that are printed once or at some counts. `counts`: the counts of
//!   each worker. `held`: the batches and spans that the store holds.
//! * `periodic`: the periodic line.
//! * `starting`: the lines at the start of a server. `ending`: those at the end of a worker and of a server, with the exit
//!   status.
#![tactic(auto)]

mod counts;
mod ending;
mod held;
mod lines;
mod notices;
mod periodic;
mod starting;

pub use ending::{end_unwritten, end_with, print_accepts_no_more};
pub use lines::{FailureLine, FullnessLine, HeldText, LimitUnit, TooLargeLine, level_of};
pub use notices::Notices;
pub use periodic::PeriodicCounts;
pub use starting::{print_few_files, print_limits, print_reachable};
