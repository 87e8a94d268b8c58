//! JSON text that is written piece by piece to one buffer of bytes, the [`Page`].
//!
//! Each piece is appended whole: an escaped string, a number, hexadecimal digits. A page becomes full only if a piece
//! is larger than its remaining room and there is no memory for more. From then on it only counts bytes.
//!
//! * `page`: the page.
//! * `buffer`: a growable buffer of bytes.
//! * `plain`: tests whether a text needs no escape in a JSON string.
#![tactic(auto)]

mod buffer;
mod page;
mod plain;

pub use page::Page;
