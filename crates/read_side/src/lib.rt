//! One store that many threads read and one writes: two copies that are swapped, so that a read takes no lock
//! and never waits.
//!
//! There is one published list of entries, which only grows at its end. The [`Keeper`] admits entries and
//! publishes them; a [`Receipt`] vouches for the published list as it was then; a [`Pass`] reads. Contracts see
//! of a pass the list that it entered last, the longest that it knows, and whether it is inside. No call
//! shortens the longest list, and each answer is the plain store's for a list of which that is a prefix. A
//! [`Held`] stays inside, so that all its answers are of one list.
//!
//! * `counted_log`: a list that only grows at its end, as the history does: [`CountedLog`]. `log_steps`: the steps by
//!   which only its owner adds to it.
//! * `history`: the name of a store, and a history that belongs to no store yet.
//! * `store_copy`: one copy of the store, and what a publish changes in it.
//! * `rule`: the invariant of the copies and of their readers.
//! * `prefix`: the [`HistoryPrefix`]. `keeper`: the [`Keeper`]. `receipt`: the [`Receipt`].
//! * `reader_state`: what one reader knows, and how it enters and leaves a copy. `pass`: the [`Pass`]. `held`: the
//!   [`Held`].
//! * `opening`: [`open`]. `laws`: what follows from the clauses.
#![tactic(auto)]

mod counted_log;
mod held;
mod history;
mod keeper;
pub mod laws;
mod log_steps;
mod opening;
mod pass;
mod prefix;
mod reader_state;
mod receipt;
mod rule;
mod store_copy;

pub use counted_log::{CountedLog, EmptyLog, SeenLog};
pub use held::Held;
pub use history::{EmptyHistory, StoreName};
pub use keeper::Keeper;
pub use opening::{MAX_READERS, open};
pub use pass::{Pass, Reading};
pub use prefix::{HistoryPrefix, longest};
pub use receipt::Receipt;
