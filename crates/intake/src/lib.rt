//! The way of a batch to the writer: a desk with seats, a queue, and a clerk.
//!
//! [`open_desk`] opens it. A [`Seat`] submits a batch and gets a [`Ticket`] for it; the [`Clerk`] takes the jobs in
//! the queue's order and has the store's keeper judge each one; the ticket waits for the answer. An
//! acknowledgement holds a receipt whose list has, at the place that it names, the ticket's own entry or the
//! one that had its batch before. A [`Denial`] by the keeper holds the list by which the entry was refused. For
//! each seat, the jobs that were taken, followed by those in the queue, are the jobs that it submitted, in
//! order, with the numbers 1, 2 and so on: nothing is lost, duplicated or changed on the way.
//!
//! * `queue`: the queue and its rule, an invariant.
//! * `job`: what is queued. `answer_slot`: where its answer is stored. `ticket`: the [`Ticket`]. `denial`: the
//!   [`Denial`].
//! * `seat`: the [`Seat`]. `inbox`: the clerk's end of the queue.
//! * `account`: the result of a job. `accounts`: the results of all jobs. `clerk`: the [`Clerk`]. `books`: what
//!   it returns.
//! * `shared`: the state that all of them share. `bell`: wakes a sleeping thread.
//! * `opening`: [`open_desk`]. `desk_handle`: the [`DeskHandle`], which closes the queue.
//! * `live`: a seat and a pass as the backend of a session: the [`Live`].
#![tactic(auto)]

mod account;
mod accounts;
mod answer_slot;
mod bell;
mod books;
mod clerk;
mod denial;
mod desk_handle;
mod inbox;
mod job;
mod live;
mod opening;
mod queue;
mod seat;
mod shared;
mod ticket;

pub use account::Account;
pub use accounts::Accounts;
pub use books::Books;
pub use clerk::{Clerk, Turn};
pub use denial::Denial;
pub use desk_handle::DeskHandle;
pub use inbox::Inbox;
pub use live::Live;
pub use opening::{MAX_QUEUE, MAX_SEATS, open_desk};
pub use queue::{EndedSeat, QueueView};
pub use seat::Seat;
pub use ticket::{Ack, Ticket};
