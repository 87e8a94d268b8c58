use crate::fields::{Fields, InPlace, PieceSlots, Step, enter_in_pieces};
use crate::items::{PartialList, enter_list};
use crate::structs::Struct;
use crate::tag::OwnedTagSlots;
use batch_codec::field_ids::span::{
    DURATION, FLAGS, LOGS, OPERATION_NAME, PARENT_SPAN_ID, REFERENCES, SPAN_ID, START_TIME, TAGS,
    TRACE_ID_HIGH, TRACE_ID_LOW,
};
use batch_codec::{Decoded, LogSlots, MIN_SPAN_BYTES, ReferenceSlots, SpanSlots, read_span};
use jaeger_model::Span;
use std::alloc::Global;
use thrift_binary::Cursor;
use thrift_binary::types::{I32, I64, LIST, STRING};
use value_pieces::{
    Arrival, PartialI32, PartialI64, PartialId, PartialSkipped, PartialText, place,
};

/// The partially received value of a field of a span.
#[derive(Drop)]
pub enum PartialSpanField {
    TraceLow(PartialId),
    TraceHigh(PartialId),
    Id(PartialId),
    Parent(PartialId),
    Operation(PartialText),
    References(PartialList<Struct<ReferenceSlots>>),
    Flags(PartialI32),
    Start(PartialI64),
    Duration(PartialI64),
    Tags(PartialList<Struct<OwnedTagSlots>>),
    Logs(PartialList<Struct<LogSlots>>),
    Skip(PartialSkipped),
}

impl PieceSlots for SpanSlots {
    ghost use Rattle.batch_codec.specs.EmptySlots.{no_span};
    ghost use Rattle.batch_codec.specs.SpanReading.{take_span, span_from};
    ghost use Rattle.struct_pieces.specs.Spans.{span_continues};
    ghost use Rattle.struct_pieces.specs.FieldLaws.{take_span_safe, span_not_short};
    ghost use Rattle.struct_pieces.specs.ShortFieldLaws.{take_span_short};

    type PartialField = PartialSpanField;

    type Output = Span;

    ghost takes = { take_span };

    ghost resumes = { span_continues };

    ghost none = { no_span };

    ghost makes = { span_from };

    fn min_bytes() -> usize {
        MIN_SPAN_BYTES
    }

    fn start(alloc: Global) -> Self {
        SpanSlots::new(alloc)
    }

    #[tactic(auto, unfolding(batch_codec::specs::SpanReading::take_span))]
    #[inline(always)]
    fn put(
        &mut self,
        code: u8,
        id: i16,
        alloc: Global,
        cursor: &mut Cursor<'_>,
    ) -> Decoded<InPlace> {
        match (code, id) {
            (LIST, REFERENCES | TAGS | LOGS) => return Ok(InPlace::Deferred),
            (LIST, _) => cursor.skip(code)?,
            _ => self.put_value(alloc, code, id, cursor)?,
        }
        Ok(InPlace::Read)
    }

    #[tactic(auto, unfolding(batch_codec::specs::SpanReading::take_span))]
    fn begin(&self, code: u8, id: i16, alloc: Global) -> PartialSpanField {
        match (code, id) {
            (I64, TRACE_ID_LOW) => PartialSpanField::TraceLow(PartialId::new()),
            (I64, TRACE_ID_HIGH) => PartialSpanField::TraceHigh(PartialId::new()),
            (I64, SPAN_ID) => PartialSpanField::Id(PartialId::new()),
            (I64, PARENT_SPAN_ID) => PartialSpanField::Parent(PartialId::new()),
            (STRING, OPERATION_NAME) => PartialSpanField::Operation(PartialText::new()),
            (LIST, REFERENCES) => PartialSpanField::References(PartialList::new(alloc)),
            (I32, FLAGS) => PartialSpanField::Flags(PartialI32::new()),
            (I64, START_TIME) => PartialSpanField::Start(PartialI64::new()),
            (I64, DURATION) => PartialSpanField::Duration(PartialI64::new()),
            (LIST, TAGS) => PartialSpanField::Tags(PartialList::new(alloc)),
            (LIST, LOGS) => PartialSpanField::Logs(PartialList::new(alloc)),
            _ => PartialSpanField::Skip(PartialSkipped::new(code)),
        }
    }

    fn more(
        &mut self,
        held: &mut PartialSpanField,
        alloc: Global,
        piece: &mut Cursor<'_>,
    ) -> Decoded<Arrival> {
        match held {
            PartialSpanField::TraceLow(part) => place(part, &mut self.trace_low, alloc, piece),
            PartialSpanField::TraceHigh(part) => place(part, &mut self.trace_high, alloc, piece),
            PartialSpanField::Id(part) => place(part, &mut self.id, alloc, piece),
            PartialSpanField::Parent(part) => place(part, &mut self.parent, alloc, piece),
            PartialSpanField::Operation(part) => place(part, &mut self.operation, alloc, piece),
            PartialSpanField::References(part) => part.place(&mut self.references, alloc, piece),
            PartialSpanField::Flags(part) => place(part, &mut self.flags, alloc, piece),
            PartialSpanField::Start(part) => place(part, &mut self.start, alloc, piece),
            PartialSpanField::Duration(part) => place(part, &mut self.duration, alloc, piece),
            PartialSpanField::Tags(part) => part.place(&mut self.tags, alloc, piece),
            PartialSpanField::Logs(part) => part.place(&mut self.logs, alloc, piece),
            PartialSpanField::Skip(part) => place(part, &mut (), alloc, piece),
        }
    }

    fn is_between_fields(held: &PartialSpanField) -> bool {
        match held {
            PartialSpanField::References(part) => part.is_between_fields(),
            PartialSpanField::Tags(part) => part.is_between_fields(),
            PartialSpanField::Logs(part) => part.is_between_fields(),
            _ => false,
        }
    }

    #[inline(always)]
    fn whole(self) -> Decoded<Span> {
        SpanSlots::whole(self)
    }

    ghost safe = { take_span_safe };

    ghost not_short = { span_not_short };

    ghost short = { take_span_short };
}

impl Fields for SpanSlots {
    fn enter(
        &mut self,
        next: &mut Option<Step<PartialSpanField>>,
        code: u8,
        id: i16,
        alloc: Global,
        piece: &mut Cursor<'_>,
    ) -> Decoded<Arrival> {
        match (code, id) {
            (LIST, REFERENCES) => enter_list(
                &mut self.references,
                next,
                PartialSpanField::References,
                alloc,
                piece,
            ),
            (LIST, TAGS) => enter_list(&mut self.tags, next, PartialSpanField::Tags, alloc, piece),
            (LIST, LOGS) => enter_list(&mut self.logs, next, PartialSpanField::Logs, alloc, piece),
            _ => enter_in_pieces(self, next, code, id, alloc, piece),
        }
    }

    #[tactic(auto, unfolding(batch_codec::specs::SpanReading::span_at))]
    #[inline(always)]
    fn read_whole(alloc: Global, cursor: &mut Cursor<'_>) -> Decoded<Option<Span>> {
        let span = read_span(alloc, cursor)?;
        Ok(Some(span))
    }
}
