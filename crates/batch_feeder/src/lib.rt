//! Decodes batches of spans whose bytes arrive in pieces: `jaeger.thrift` in the Thrift binary protocol.
//!
//! A [`Feeder`] takes the bytes piece by piece. It is proved to return what `batch_codec` decodes from the joined bytes,
//! however they are cut: [`Feeder::feed`] reports a fault with the piece that has its last byte, and the cut doesn't
//! change the fault; [`Feeder::finish`] returns the batch. Its memory grows only with bytes that have arrived, never by
//! a size that they claim. Bytes of short pieces wait until their field is complete or may have a fault, and are then
//! read together; longer pieces are read without copying. [`decode_pieces`] makes all these calls. What has arrived of
//! a batch is in `struct_pieces`.
#![tactic(auto)]

mod feeder;

pub use feeder::{Feeder, decode_pieces};
