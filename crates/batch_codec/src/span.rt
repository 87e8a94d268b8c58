ghost use Rattle.std.specs.Prelude.{◌≡◌, ◌≤◌, ◌==◌, false, length, OnOk, OnErr};
ghost use Rattle.batch_codec.specs.Decoding.{Decodes, Spends, Takes};
ghost use Rattle.batch_codec.specs.SpanReading.{span_at, span_from, take_span};
ghost use Rattle.batch_codec.specs.Changes.{change};

use crate::fault::{Decoded, StructName};
use crate::field_ids::span::{
    DURATION, FLAGS, LOGS, OPERATION_NAME, PARENT_SPAN_ID, REFERENCES, SPAN_ID, START_TIME, TAGS,
    TRACE_ID_HIGH, TRACE_ID_LOW,
};
use crate::fields::{Slots, keep, read_fields, required};
use crate::items::{Element, read_list};
use crate::values::{read_i32, read_i64, read_id, read_owned_text};
use jaeger_model::{Log, Seq, Span, SpanId, SpanRef, Tag, Text, TraceId};
use std::alloc::Global;
use thrift_binary::Cursor;
use thrift_binary::types::{I32, I64, LIST, STRING};

/// The least number of bytes of a span: 11 of each of the four numbers of its ids, 7 of the operation, 7 of
/// the flags, 11 of each of the two times and the stop byte.
pub const MIN_SPAN_BYTES: usize = 81;

/// The fields of a span that were read so far.
#[derive(Drop)]
pub struct SpanSlots {
    pub trace_low: Option<u64>,
    pub trace_high: Option<u64>,
    pub id: Option<u64>,
    pub parent: Option<u64>,
    pub operation: Option<Text>,
    pub references: Seq<SpanRef>,
    pub flags: Option<i32>,
    pub start: Option<i64>,
    pub duration: Option<i64>,
    pub tags: Seq<Tag>,
    pub logs: Seq<Log>,
}

impl SpanSlots {
    ghost use Rattle.batch_codec.specs.EmptySlots.{no_span};

    /// Returns the state before the first field. An optional list that is absent stays empty.
    pub fn new(alloc: Global) -> Self
        ensures nothing { result ≡ no_span }
    {
        SpanSlots {
            trace_low: None,
            trace_high: None,
            id: None,
            parent: None,
            operation: None,
            references: Seq::new(alloc),
            flags: None,
            start: None,
            duration: None,
            tags: Seq::new(alloc),
            logs: Seq::new(alloc),
        }
    }

    /// Reads the value of a field that is no list.
    ///
    /// # Errors
    ///
    /// The first fault of the value's bytes, after which the cursor has none left, or out of memory. The fields read so
    /// far are then unchanged.
    #[tactic(auto, unfolding(crate::specs::SpanReading::take_span))]
    #[inline(always)]
    pub fn put_value(
        &mut self,
        alloc: Global,
        code: u8,
        id: i16,
        cursor: &mut Cursor<'_>,
    ) -> Decoded<()>
        requires no_list { (code == LIST) ≡ false }
        ensures exact { Takes take_span
            (record {
              code = code;
              id = id;
              slots = change self.old self.new;
              cursor = change cursor.old cursor.new;
            })
            result }
        ensures unchanged { OnErr result (self.new ≡ self.old) }
        ensures spent { Spends result cursor.new }
        ensures no_longer { OnOk result (length cursor.new ≤ length cursor.old) }
    {
        match (code, id) {
            (I64, TRACE_ID_LOW) => self.trace_low = Some(read_id(cursor)?),
            (I64, TRACE_ID_HIGH) => self.trace_high = Some(read_id(cursor)?),
            (I64, SPAN_ID) => self.id = Some(read_id(cursor)?),
            (I64, PARENT_SPAN_ID) => self.parent = Some(read_id(cursor)?),
            (STRING, OPERATION_NAME) => self.operation = Some(read_owned_text(alloc, cursor)?),
            (I32, FLAGS) => self.flags = Some(read_i32(cursor)?),
            (I64, START_TIME) => self.start = Some(read_i64(cursor)?),
            (I64, DURATION) => self.duration = Some(read_i64(cursor)?),
            _ => cursor.skip(code)?,
        }
        Ok(())
    }

    /// Returns the span of the fields.
    ///
    /// # Errors
    ///
    /// [`DecodeError::Missing`] with the missing required field of the least id.
    #[tactic(auto, unfolding(crate::specs::SpanReading::span_from))]
    pub fn whole(self) -> Decoded<Span>
        ensures exact { result ≡ span_from self }
    {
        let low = required(self.trace_low, StructName::Span, TRACE_ID_LOW as u8)?;
        let high = required(self.trace_high, StructName::Span, TRACE_ID_HIGH as u8)?;
        let id = required(self.id, StructName::Span, SPAN_ID as u8)?;
        let parent = required(self.parent, StructName::Span, PARENT_SPAN_ID as u8)?;
        let operation = required(self.operation, StructName::Span, OPERATION_NAME as u8)?;
        let flags = required(self.flags, StructName::Span, FLAGS as u8)?;
        let start = required(self.start, StructName::Span, START_TIME as u8)?;
        let duration = required(self.duration, StructName::Span, DURATION as u8)?;
        Ok(Span {
            trace: TraceId { high, low },
            id: SpanId(id),
            parent: SpanId(parent),
            operation,
            references: self.references,
            flags,
            start,
            duration,
            tags: self.tags,
            logs: self.logs,
        })
    }
}

impl<'a> Slots<'a> for SpanSlots {
    ghost puts = { take_span };

    #[tactic(auto, unfolding(crate::specs::SpanReading::take_span))]
    fn put(&mut self, alloc: Global, code: u8, id: i16, cursor: &mut Cursor<'a>) -> Decoded<()> {
        match (code, id) {
            (LIST, REFERENCES) => keep(&mut self.references, read_list(alloc, cursor)),
            (LIST, TAGS) => keep(&mut self.tags, read_list(alloc, cursor)),
            (LIST, LOGS) => keep(&mut self.logs, read_list(alloc, cursor)),
            (LIST, _) => Ok(cursor.skip(code)?),
            _ => self.put_value(alloc, code, id, cursor),
        }
    }
}

impl Element for Span {
    ghost reads = { span_at };

    fn min_bytes() -> usize {
        MIN_SPAN_BYTES
    }

    #[tactic(auto, unfolding(crate::specs::SpanReading::span_at))]
    fn read(alloc: Global, cursor: &mut Cursor<'_>) -> Decoded<Self> {
        let slots = read_fields(alloc, SpanSlots::new(alloc), cursor)?;
        slots.whole()
    }
}

/// Reads a complete span, from its first byte on.
///
/// # Errors
///
/// The first fault of its bytes, or out of memory. The cursor then has no bytes left.
#[inline(never)]
pub fn read_span(alloc: Global, cursor: &mut Cursor<'_>) -> Decoded<Span>
    ensures exact { Decodes (λ s. s) span_at (change cursor.old cursor.new) result }
    ensures no_longer { OnOk result (length cursor.new ≤ length cursor.old) }
    ensures spent { Spends result cursor.new }
{
    let read = Span::read(alloc, cursor);
    if read.is_ok() {
        return read;
    }
    *cursor = Cursor::new(&[]);
    read
}
