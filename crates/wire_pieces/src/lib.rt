//! Reads values of the Thrift binary protocol that arrive in pieces.
//!
//! Each type here is the state of one value between two pieces. Its method `more` takes a piece, as a
//! [`thrift_binary::Cursor`], and returns the value once its last byte has arrived, and nothing before
//! that. Contracts state what a state reads from the bytes that are still to come, by the readings of
//! `thrift_binary`. However the bytes are cut, the result is therefore that of the joined bytes, faults
//! included, and a fault is reported with the piece that has its last byte.
//!
//! - `partial_bytes`: a fixed number of bytes, such as those of a number ([`PartialBytes`]).
//! - `numbers`: [`Bool`], [`Size`].
//! - `strings`: a string or binary ([`StringPart`]), which allocates only for bytes that have arrived.
//! - `heads`, `maps`: [`FieldHead`], [`ListHead`], [`MapHead`]. `specs/Heads.antt` and `specs/Lists.antt` define what
//!   the fields of a struct and the values of a list read from a head or a value on;
//!   `proofs/FieldSteps.antt` and `proofs/ListSteps.antt` prove the steps of such loops.
//! - `skip`: a value of any type that is skipped ([`Skipping`]), with at most 64 levels of containers.
//! - `past`: a number of bytes that are skipped.
//! - `fault`: why a piece is refused ([`PieceError`]).
#![tactic(auto)]

mod fault;
mod heads;
mod maps;
mod numbers;
mod partial_bytes;
mod past;
mod skip;
mod strings;

pub use fault::PieceError;
pub use heads::{FieldHead, Head, ListHead};
pub use maps::MapHead;
pub use numbers::{Bool, Size, size_of};
pub use partial_bytes::PartialBytes;
pub use skip::Skipping;
pub use strings::StringPart;
