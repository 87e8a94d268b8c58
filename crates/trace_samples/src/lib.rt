//! Values of traces for tests: spans, tags, processes, batches and searches with default contents, and a batch
//! as bytes with its requests and responses.
//!
//! Each constructor says exactly what it makes. A test calls it, and changes a field if it needs another value,
//! as `span.start = 900`. Only tests use this crate.
//!
//! * `parts`: tags, processes, spans, batches and entries of them, and searches.
//! * `exchanges`: requests that submit a batch and query it, and their responses, as bytes.
//! * `spellings`: batches as hexadecimal digits, as Apache Thrift spells them among them.
#![tactic(auto)]

pub mod exchanges;
mod parts;
pub mod spellings;

pub use parts::{
    batch, beside, host_process, kept, list_of, placed, process, retry, service_find, span,
    submitted, text_tag,
};
