//! The tests, by their subject, and what they share.

mod closed;
mod ending;
mod fixture;
mod rows;
