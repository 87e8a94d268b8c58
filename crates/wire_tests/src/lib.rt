//! Tests of the wire format: examples for `thrift_binary`, `batch_codec` and `batch_feeder`, whose expected values come
//! from the protocol's description and from Apache Thrift. What `get` and `pipe` print for batches, each fault included,
//! is in `cases/`.
//!
//! * `fault_texts`: the texts of faults that no command prints.
//! * `batch_bytes`: encoding batches, and running out of memory. `piece_faults` tests sizes that claim too much.
//! * `apache`: the numbers of batches as Apache Thrift encodes them.
//! * `large`: a body of more than two megabytes.
//! * `piece_cuts`: batches whose bytes arrive in pieces: the same bytes cut at each place, short ones at any two,
//!   and each byte alone; a large batch in odd pieces.
//! * `piece_faults`: the places of faults in pieces, prefixes, sizes that claim too much, levels of skipped
//!   containers, and running out of memory. Each is compared with decoding.
//! * `piece_samples`: the bytes.
//!
//! Explicit drops are for the prover: they are cheaper than those at the end of a block.
#![tactic(auto)]

#[cfg(test)]
mod tests;
