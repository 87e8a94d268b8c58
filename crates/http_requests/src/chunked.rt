//! Parses the size lines and the trailer of a chunked body (RFC 9112, section 7.1).
//!
//! `specs/Chunks.antt` defines a chunked body as a relation of a text and the data in it. A prefix of the input that
//! decides what the body is has one outcome, and later bytes don't change it ([`laws`]).
//!
//! * `parse_status`: what a parser found at the start of the bytes received.
//! * `line`: the line with a chunk's size.
//! * `trailer`: the fields after the last chunk, up to an empty line.
//! * `prefix`: a prefix of limited length.
//! * `laws`: laws of the definition.

pub mod laws;
mod line;
mod parse_status;
mod prefix;
mod trailer;

pub use line::{MAX_LINE_BYTES, look_for_size};
pub use parse_status::{ParseStatus, limited_status};
pub use prefix::prefix_of;
pub use trailer::{MAX_TRAILER_BYTES, look_for_trailer};
