use crate::fields::{Fields, InPlace, PieceSlots, Step, enter_in_pieces};
use crate::items::{PartialList, enter_list};
use crate::structs::Struct;
use crate::tag::OwnedTagSlots;
use batch_codec::field_ids::log::{FIELDS, TIMESTAMP};
use batch_codec::{Decoded, LogSlots, MIN_LOG_BYTES, read_i64};
use jaeger_model::Log;
use std::alloc::Global;
use thrift_binary::Cursor;
use thrift_binary::types::{I64, LIST};
use value_pieces::{Arrival, PartialI64, PartialSkipped, place};

/// The partially received value of a field of a log.
#[derive(Drop)]
pub enum PartialLogField {
    At(PartialI64),
    Fields(PartialList<Struct<OwnedTagSlots>>),
    Skip(PartialSkipped),
}

impl PieceSlots for LogSlots {
    ghost use Rattle.batch_codec.specs.EmptySlots.{no_log};
    ghost use Rattle.batch_codec.specs.LogReading.{take_log, log_from};
    ghost use Rattle.struct_pieces.specs.Logs.{log_continues};
    ghost use Rattle.struct_pieces.specs.FieldLaws.{take_log_safe, log_not_short};
    ghost use Rattle.struct_pieces.specs.ShortFieldLaws.{take_log_short};

    type PartialField = PartialLogField;

    type Output = Log;

    ghost takes = { take_log };

    ghost resumes = { log_continues };

    ghost none = { no_log };

    ghost makes = { log_from };

    fn min_bytes() -> usize {
        MIN_LOG_BYTES
    }

    fn start(_alloc: Global) -> Self {
        LogSlots::new()
    }

    #[tactic(auto, unfolding(batch_codec::specs::LogReading::take_log))]
    #[inline(always)]
    fn put(
        &mut self,
        code: u8,
        id: i16,
        _alloc: Global,
        cursor: &mut Cursor<'_>,
    ) -> Decoded<InPlace> {
        match (code, id) {
            (I64, TIMESTAMP) => self.at = Some(read_i64(cursor)?),
            (LIST, FIELDS) => return Ok(InPlace::Deferred),
            _ => cursor.skip(code)?,
        }
        Ok(InPlace::Read)
    }

    #[tactic(auto, unfolding(batch_codec::specs::LogReading::take_log, batch_codec::specs::TagReading::tag_at))]
    fn begin(&self, code: u8, id: i16, alloc: Global) -> PartialLogField {
        match (code, id) {
            (I64, TIMESTAMP) => PartialLogField::At(PartialI64::new()),
            (LIST, FIELDS) => PartialLogField::Fields(PartialList::new(alloc)),
            _ => PartialLogField::Skip(PartialSkipped::new(code)),
        }
    }

    fn more(
        &mut self,
        held: &mut PartialLogField,
        alloc: Global,
        piece: &mut Cursor<'_>,
    ) -> Decoded<Arrival> {
        match held {
            PartialLogField::At(part) => place(part, &mut self.at, alloc, piece),
            PartialLogField::Fields(part) => part.place(&mut self.fields, alloc, piece),
            PartialLogField::Skip(part) => place(part, &mut (), alloc, piece),
        }
    }

    fn is_between_fields(held: &PartialLogField) -> bool {
        match held {
            PartialLogField::Fields(part) => part.is_between_fields(),
            _ => false,
        }
    }

    #[inline(always)]
    fn whole(self) -> Decoded<Log> {
        LogSlots::whole(self)
    }

    ghost safe = { take_log_safe };

    ghost not_short = { log_not_short };

    ghost short = { take_log_short };
}

impl Fields for LogSlots {
    fn enter(
        &mut self,
        next: &mut Option<Step<PartialLogField>>,
        code: u8,
        id: i16,
        alloc: Global,
        piece: &mut Cursor<'_>,
    ) -> Decoded<Arrival> {
        match (code, id) {
            (LIST, FIELDS) => enter_list(
                &mut self.fields,
                next,
                PartialLogField::Fields,
                alloc,
                piece,
            ),
            _ => enter_in_pieces(self, next, code, id, alloc, piece),
        }
    }
}
