//! Traces by the spots of their spans in a journal. No span is copied: a query shares the entries that its answer needs.
//! Traces that a query needs after the store is left are collected into the types of `collected_traces`.
//!
//! * `store_view`: what queries read of a store.
//! * `spotted_spans`: the spans at spots.
//! * `gathering`: these spans in their entries, which are shared.
//! * `pruning`: entries that a search skips by their outlines.
//! * `search_candidates`: which traces a search by a service considers.
//! * `service_candidates`: which traces a search by a service alone considers, if many entries are of that
//!   service.
//! * `latest_candidates`: the traces that start latest, after some time.
//! * `entry_services`: which entries are of a service.
//! * `requested_numbers`: what a search requests, by numbers.
//! * `number_conditions`: the conditions of a search but those on tags, by numbers.
//! * `judging`: spans judged one after the other.
//! * `candidates`: the traces that a search considers, as it reads them.
//! * `window`: a window of time in microseconds.
//! * `window_candidates`: the traces that may have a span in a window.
//! * `window_taking`: collects the traces in a window of time, with the numbers of their services.
//! * `window_traces`: the traces in a window of time, with each of their entries collected once.
//! * `entry_numbers`: the numbers of the collected entries.
//! * `candidate_taking`: collects the candidates of a search from the journal, by numbers alone.
//! * `taking`: collects traces from the journal.
#![tactic(auto)]

mod candidate_taking;
mod candidates;
mod entry_numbers;
mod entry_services;
mod gathering;
mod judging;
mod latest_candidates;
mod number_conditions;
mod pruning;
mod requested_numbers;
mod search_candidates;
mod service_candidates;
mod spotted_spans;
mod store_view;
mod taking;
mod window;
mod window_candidates;
mod window_taking;
mod window_traces;

pub use candidate_taking::take_candidates;
pub use candidates::CandidateSearch;
pub use gathering::gather;
pub use latest_candidates::spots_after;
pub use requested_numbers::RequestedNumbers;
pub use search_candidates::spots_along;
pub use service_candidates::spots_reported;
pub use store_view::StoreView;
pub use taking::take_trace;
pub use window::search_window;
pub use window_candidates::spots_within;
pub use window_taking::take_within;
pub use window_traces::WindowTraces;
