use crate::fields::{Fields, InPlace, PieceSlots};
use batch_codec::field_ids::reference::{REF_TYPE, SPAN_ID, TRACE_ID_HIGH, TRACE_ID_LOW};
use batch_codec::{Decoded, MIN_REFERENCE_BYTES, ReferenceSlots, read_id, read_kind};
use jaeger_model::SpanRef;
use std::alloc::Global;
use thrift_binary::Cursor;
use thrift_binary::types::{I32, I64};
use value_pieces::{Arrival, PartialId, PartialRefKind, PartialSkipped, place};

/// The partially received value of a field of a reference.
#[derive(Drop)]
pub enum PartialReferenceField {
    Kind(PartialRefKind),
    TraceLow(PartialId),
    TraceHigh(PartialId),
    Id(PartialId),
    Skip(PartialSkipped),
}

impl PieceSlots for ReferenceSlots {
    ghost use Rattle.batch_codec.specs.EmptySlots.{no_reference};
    ghost use Rattle.batch_codec.specs.ReferenceReading.{take_reference, reference_from};
    ghost use Rattle.struct_pieces.specs.References.{reference_continues};
    ghost use Rattle.struct_pieces.specs.FieldLaws.{take_reference_safe, reference_not_short};
    ghost use Rattle.struct_pieces.specs.ShortFieldLaws.{take_reference_short};

    type PartialField = PartialReferenceField;

    type Output = SpanRef;

    ghost takes = { take_reference };

    ghost resumes = { reference_continues };

    ghost none = { no_reference };

    ghost makes = { reference_from };

    fn min_bytes() -> usize {
        MIN_REFERENCE_BYTES
    }

    fn start(_alloc: Global) -> Self {
        ReferenceSlots::new()
    }

    #[tactic(auto, unfolding(batch_codec::specs::ReferenceReading::take_reference))]
    #[inline(always)]
    fn put(
        &mut self,
        code: u8,
        id: i16,
        _alloc: Global,
        cursor: &mut Cursor<'_>,
    ) -> Decoded<InPlace> {
        match (code, id) {
            (I32, REF_TYPE) => self.kind = Some(read_kind(cursor)?),
            (I64, TRACE_ID_LOW) => self.trace_low = Some(read_id(cursor)?),
            (I64, TRACE_ID_HIGH) => self.trace_high = Some(read_id(cursor)?),
            (I64, SPAN_ID) => self.id = Some(read_id(cursor)?),
            _ => cursor.skip(code)?,
        }
        Ok(InPlace::Read)
    }

    #[tactic(auto, unfolding(batch_codec::specs::ReferenceReading::take_reference))]
    fn begin(&self, code: u8, id: i16, _alloc: Global) -> PartialReferenceField {
        match (code, id) {
            (I32, REF_TYPE) => PartialReferenceField::Kind(PartialRefKind::new()),
            (I64, TRACE_ID_LOW) => PartialReferenceField::TraceLow(PartialId::new()),
            (I64, TRACE_ID_HIGH) => PartialReferenceField::TraceHigh(PartialId::new()),
            (I64, SPAN_ID) => PartialReferenceField::Id(PartialId::new()),
            _ => PartialReferenceField::Skip(PartialSkipped::new(code)),
        }
    }

    fn more(
        &mut self,
        held: &mut PartialReferenceField,
        alloc: Global,
        piece: &mut Cursor<'_>,
    ) -> Decoded<Arrival> {
        match held {
            PartialReferenceField::Kind(part) => place(part, &mut self.kind, alloc, piece),
            PartialReferenceField::TraceLow(part) => place(part, &mut self.trace_low, alloc, piece),
            PartialReferenceField::TraceHigh(part) => place(
                part,
                &mut self.trace_high,
                alloc,
                piece,
            ),
            PartialReferenceField::Id(part) => place(part, &mut self.id, alloc, piece),
            PartialReferenceField::Skip(part) => place(part, &mut (), alloc, piece),
        }
    }

    fn is_between_fields(_held: &PartialReferenceField) -> bool {
        false
    }

    #[inline(always)]
    fn whole(self) -> Decoded<SpanRef> {
        ReferenceSlots::whole(self)
    }

    ghost safe = { take_reference_safe };

    ghost not_short = { reference_not_short };

    ghost short = { take_reference_short };
}

impl Fields for ReferenceSlots {}
