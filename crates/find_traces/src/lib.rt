//! Searches: which traces have one span that meets every condition, and in what order they are answered.
//!
//! * `prepared`: a search whose requested tags are sorted once.
//! * `judged_process`: a process as a search judges it, and whether a span of it has the requested tags. The tags of
//!   the process are read once; for each span only the span's own.
//! * `searched`: traces that are judged one by one, wherever their spans are.
//! * `key`: the sort key of a trace.
//! * `matched`: the traces that match, judged one after the other and then sorted.
//! * `best_keys`: the best keys of those that are offered, up to a number of them.
//! * `best`: the best traces that match, up to a limit.
//! * `finding`: the traces that a search finds, in the order of its answer.
#![tactic(auto)]

mod best;
mod best_keys;
mod finding;
mod judged_process;
mod key;
mod matched;
mod prepared;
mod searched;

pub use finding::{find, find_ids};
pub use judged_process::JudgedProcess;
pub use prepared::PreparedSearch;
pub use searched::Searched;
