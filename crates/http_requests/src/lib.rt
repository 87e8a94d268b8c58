//! Reads the requests of an HTTP/1.x session one after the other (RFC 9112).
//!
//! A request is a head by `httparse`'s grammar, of at most 8,192 bytes and 64 fields, and a body: of the length that
//! the head announces, or in chunks. The bytes received are proved to start with a request, or to be malformed for a
//! reason that is returned: no continuation can start with one, or the input ended inside.
//!
//! A session takes a request in two steps. [`HeadWait::look`] looks for the head in the bytes received;
//! [`BodyReader::take_from`] then takes the body from them and pushes it into a [`Sink`] piece by piece, so no body is
//! held as a whole. Both read nothing and keep their state between two reads. Each read is one call of
//! [`ReadBuffer::read_more`], made only while the bytes received don't decide: they are not malformed, and don't start
//! with a complete request.
//!
//! [`next_head`] and [`read_body`] are loops of such a step and a read. Only tests call them.
//!
//! * `head`: finds a head at the start of bytes.
//! * `fields`: the fields of a head, by name.
//! * `request`: what a session reads from a head: method, target, length of the body, whether it closes.
//! * `bodies`: reads a body, by its length or in chunks.
//! * `body_reader`: a body that is read step by step.
//! * `read_buffer`: the bytes that were read and not yet taken.
//! * `room`: the memory of these bytes, which sessions reuse.
//! * `line_ends`: when to search for a text that ends with a line.
//! * `searching`: the search for such a text.
//! * `reading`: reads the head of the next request.
//! * `sink`: takes the pieces of a body.
//! * `chunked`: parses the size lines and the trailer of a chunked body.
//! * `laws`: laws of what bytes start with.
#![tactic(auto)]

mod bodies;
mod body_reader;
pub mod chunked;
mod fields;
mod head;
pub mod laws;
mod line_ends;
mod read_buffer;
mod reading;
mod request;
mod room;
mod searching;
mod sink;

pub use bodies::read_body;
pub use body_reader::{BodyReader, BodyStatus};
pub use chunked::ParseStatus;
pub use read_buffer::{ReadBuffer, ReadError};
pub use reading::{HeadWait, Next, next_head};
pub use request::{BodyLength, FoundHead, Method, Request, RequestFault};
pub use room::{READ_BYTES, SpareRoom};
pub use session_devices::MAX_READS;
pub use sink::Sink;
