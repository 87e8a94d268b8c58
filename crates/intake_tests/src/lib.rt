//! Tests of `intake`, a desk, its seats and its clerk: what no clause says, or only for a caller that reaches its end.
//!
//! * `rows`: a limit that waits after two batches; a queue that is full; a clerk that was dropped; four seats at once.
//! * `closed`: a desk that was closed.
//! * `ending`: the books, when the desk is closed or the clerk leaves.
//! * `fixture`: a store and a desk that are opened for a row.
#![tactic(auto)]

#[cfg(test)]
mod tests;
