//! The tests, by their subject, and what they share.

mod apache;
mod batch_bytes;
mod fault_texts;
mod large;
mod piece_cuts;
mod piece_faults;
mod piece_samples;
