//! Traces that a query collected from a journal, to be searched and shown after the store is left. A search finds among
//! them what `trace_model` defines for their spans. Their entries are shared with the store, and no span is copied.
//!
//! * `trace_parts`: the items of several traces in one list.
//! * `taken_spot`: where a span is among the collected entries.
//! * `process_conditions`: the conditions of a search that need a span's process.
//! * `judged_entries`: what a search judged of collected entries.
//! * `collected_candidates`: the traces that a search considers, collected with each of their entries once.
//! * `collected_spans`: collected spans, by their spots among the collected entries.
//! * `picked_candidates`: the collected candidates that a search picked.
//! * `taken_search`: a search over collected candidates, which judges each process once.
//! * `found_taken`: what a search finds among collected candidates.
//! * `taken`: traces whose spans were taken, to be read after the journal is left.
//! * `process_classes`: equal processes of collected traces, found once for each entry.
//! * `recurring`: which entries are in several taken traces, so that comparing their processes pays.
//! * `taken_answer`: taken traces as they are to be shown.
#![tactic(auto)]

mod collected_candidates;
mod collected_spans;
mod found_taken;
mod judged_entries;
mod picked_candidates;
mod process_classes;
mod process_conditions;
mod recurring;
mod taken;
mod taken_answer;
mod taken_search;
mod taken_spot;
mod trace_parts;

pub use collected_candidates::CollectedCandidates;
pub use found_taken::{find_taken, find_taken_ids};
pub use taken::TakenTraces;
pub use taken_answer::keep_all;
pub use taken_search::TakenSearch;
pub use taken_spot::TakenSpot;
pub use trace_parts::trace_part;
