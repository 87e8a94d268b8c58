//! Structs of `jaeger.thrift`, and lists of them, whose bytes arrive in pieces.
//!
//! The fields of a struct say which part reads the value of each ([`PieceSlots`], [`Fields`]); [`Struct`] continues them
//! up to the stop byte, and [`PartialList`] its items one after the other. Both read the same as `batch_codec` does from
//! the bytes that are joined, with the same fault. Bytes of a struct that has arrived whole are read without copying.
//!
//! - `fields`, `structs`, `items`: a struct's fields up to its stop byte, a struct, a list of structs.
//! - `tag`, `log`, `reference`, `process`, `span`, `batch`: one struct of `jaeger.thrift` each.
#![tactic(auto)]

mod batch;
mod fields;
mod items;
mod log;
mod process;
mod reference;
mod span;
mod structs;
mod tag;

pub use fields::{Fields, InPlace, PieceSlots, Step};
pub use items::PartialList;
pub use structs::Struct;
