//! Which batches were sent with which `seqNo`, with all memory allocated once.
//!
//! A batch with a `seqNo` that is resent is found by its `seqNo` and its process, whatever spans it has.
//! [`SentBatches`] indexes a list of entries that grows at its end. Each call gets the list, and a clause of
//! each call relates it to the index (`IsSentKept`). Adding one more entry allocates nothing. Batches are found by
//! a hash of `seqNo` and process under a key that is drawn at the program's start, in a table that is more than
//! half free. Every part of a process delimits itself in what is hashed, and the key is secret, so that
//! a sender can't choose batches that collide. No contract shows that. The caller computes the hash once
//! ([`BatchKeys::hash`]) and passes it to each call. A batch without a number costs nothing.
//!
//! * `batches`: the [`SentBatches`].
//! * `hashing`: the hash of a batch. `keys`: its [`BatchKeys`].
//! * `sought`: the batch to find, and the entries that are searched.
#![tactic(auto)]

mod batches;
mod hashing;
mod keys;
mod sought;

pub use batches::SentBatches;
pub use keys::BatchKeys;
