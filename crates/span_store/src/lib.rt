//! One store for one thread: the journal of entries, and the newest traces with the spots of their spans.
//!
//! Contracts see a store as its limits and its list of entries, and nothing else: every answer is the plain
//! store's answer for that list. The indexes beside the list only make answers fast, and one invariant of the
//! type ties them to the list. An entry that is refused changes nothing. All memory is allocated when a store
//! is opened: applying an entry allocates nothing.
//!
//! * `arrange`: what one more entry changes in what is shown.
//! * `collected`: what the answer to a query needs of a store.
//! * `collected_search`, `found_traces`, `window_links`: what a search may find or found, and traces whose links are
//!   requested, collected from the store.
//! * `finding`: searches over traces in the journal.
//! * `store`: the [`SpanStore`].
//! * `store/store_search`: a search of a store, with the numbers of what it requests.
//! * `store/search_plan`: which traces a search considers.
//! * `replaying`: a store made of a list of entries.
#![tactic(auto)]

mod arrange;
mod collected;
mod collected_search;
mod finding;
mod found_traces;
mod replaying;
mod store;
mod window_links;

pub use collected::Collected;
pub use replaying::{replay, replayed_answer};
pub use store::SpanStore;
