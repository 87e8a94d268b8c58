//! The data model of traces: a batch of spans as a Jaeger client reports it, and the rules about a
//! single value.
//!
//! Contracts see every type here as plain data: a [`Seq`] as the list of its items, a [`Text`] as
//! its bytes, and every other type as a record or a variant of those. Two batches are therefore `≡`
//! exactly if the client reported the same data.
//!
//! * `ids`: the ids of traces and spans, and their hexadecimal text.
//! * `tag`, `span`, `batch`: the structs of `jaeger.thrift`, with unsigned ids, and a tag's text.
//! * `tag_value`: a tag's value in the form in which a tag stores it.
//! * `kind`: a span's kind, by its tag `span.kind`, as a text and as a [`Kind`].
//! * `parent`: the rule for a span's parent.
//! * `shared_process`: a process that all spans of a batch share.
//! * `placed`: a span together with the process that reported it.
//! * `text`, `short_text`, `seq`: texts and lists, as contracts see them.
//! * `decimal`: unsigned decimal numbers, with or without leading zeros.
//! * `process_order`: a total order of processes, in which two compare as equal exactly if they are equal:
//!   [`ByContent`], a process as the key of a map.
//! * `laws`: facts about these rules, stated without the code.
#![tactic(auto)]

mod batch;
pub mod decimal;
mod ids;
mod kind;
pub mod laws;
mod parent;
mod placed;
mod process_order;
mod seq;
mod shared_process;
mod short_text;
mod span;
mod tag;
mod tag_value;
mod text;

pub use batch::{Batch, Process};
pub use ids::{SpanId, TraceId, parse_trace, span_text, trace_text};
pub use kind::{Kind, kind_of};
pub use parent::{is_own_child, is_own_other, needs_no_reference, parent_of};
pub use placed::{Placed, Seen, domain, parent_reference, place_span, refer_to_parent};
pub use process_order::ByContent;
pub use seq::Seq;
pub use shared_process::SharedProcess;
pub use span::{Log, RefKind, Span, SpanRef};
pub use tag::{Tag, Value, first_tag, first_text, tag_text};
pub use tag_value::{TagValue, ValueRef};
pub use text::Text;
