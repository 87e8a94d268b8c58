//! The tests, by their subject, and what they share.

mod answers;
mod large;
mod pipes;
mod reads;
mod refusals;
mod sessions;
mod slow_readers;
mod turns;
