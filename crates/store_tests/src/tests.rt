//! The tests, by their subject, and what they share.

mod adjusters;
mod entries;
mod large;
mod limits;
mod queries;
mod replays;
mod sameness;
mod shown;
mod stores;
