//! The tests, by their subject, and what they share.

mod answers;
mod concurrent_reads;
mod entries;
mod fixture;
mod holding;
mod machine;
mod prefixes;
mod rows;
mod sent_again;
