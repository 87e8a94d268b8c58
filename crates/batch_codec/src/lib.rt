//! Encodes and decodes batches of spans: `jaeger.thrift` in the Thrift binary protocol.
//!
//! [`decode`] returns the [`Batch`](jaeger_model::Batch) that all of the bytes spell, or the first fault
//! from left to right. It is proved both ways: it returns only a batch that the bytes spell, and reads every
//! spelling of a batch. Which bytes spell a batch is defined by a relation on complete texts
//! (`specs/Batches.antt`); which fault is the first is defined by functions that read lists of bytes
//! (`specs/*Reading.antt`). [`laws`] states the place of a fault without mentioning a reading.
//!
//! * `fault`: why bytes aren't a batch.
//! * [`field_ids`]: the ids of the fields of the structs of `jaeger.thrift`.
//! * `values`, `fields`, `items`: single values, a struct's fields up to its stop byte, and a list of structs. A
//!   list reserves memory for as many items as it claims only if the remaining bytes can hold them ([`room`]).
//! * `tag`, `log`, `reference`, `process`, `span`, `batch`: one struct of `jaeger.thrift` each. The fields read so
//!   far (`TagSlots` and so on) are public, as are the reading of single values, the tables of tag types and
//!   reference kinds, and [`required`]: crates that decode in another way use them. Such crates use tags and
//!   processes in their contracts only, and the others in their code too.
//! * `writer`: [`encode`] writes the one spelling of a batch.
//! * `hex_text`: batches as hexadecimal text, two digits of either case for each byte: [`decode_hex`] returns
//!   the batch that such a text encodes, or why it encodes none. `hex_fault`: why.
//! * `laws`: facts about the definitions.
#![tactic(auto)]

mod batch;
mod fault;
pub mod field_ids;
mod fields;
mod hex_fault;
mod hex_text;
mod items;
pub mod laws;
mod log;
mod process;
mod reference;
mod span;
mod tag;
mod values;
mod writer;

pub use batch::{BatchSlots, decode};
pub use fault::{DecodeError, Decoded, StructName};
pub use fields::required;
pub use hex_fault::HexFault;
pub use hex_text::decode_hex;
pub use items::room;
pub use log::{LogSlots, MIN_LOG_BYTES};
pub use process::ProcessSlots;
pub use reference::{MIN_REFERENCE_BYTES, ReferenceSlots, kind_of_number, read_kind};
pub use span::{MIN_SPAN_BYTES, SpanSlots, read_span};
pub use tag::{MIN_TAG_BYTES, TagSlots, TagType, read_type, type_of_number};
pub use values::{
    ByteSlice, TextSlice, read_bool, read_double, read_i32, read_i64, read_id, read_owned_binary,
    read_owned_text,
};
pub use writer::encode;
