ghost use Rattle.struct_pieces.specs.Batches.{partial_shared_process};

use crate::fields::{Fields, InPlace, PieceSlots};
use crate::items::PartialList;
use crate::process::OwnedProcessSlots;
use crate::structs::Struct;
use batch_codec::field_ids::batch::{PROCESS, SEQ_NO, SPANS};
use batch_codec::{BatchSlots, Decoded, SpanSlots, read_i64};
use jaeger_model::{Batch, SharedProcess};
use std::alloc::Global;
use thrift_binary::Cursor;
use thrift_binary::types::{I64, LIST, STRUCT};
use value_pieces::{Arrival, Partial, PartialI64, PartialSkipped, place};

/// The least number of bytes of a batch: 11 of the process, 8 of the spans and the stop byte. Only items of lists are
/// asked for it, and a batch is none.
const MIN_BATCH_BYTES: usize = 20;

/// The partially received value of a field of a batch.
#[derive(Drop)]
pub enum PartialBatchField {
    Process(PartialSharedProcess),
    Spans(PartialList<Struct<SpanSlots>>),
    SeqNo(PartialI64),
    Skip(PartialSkipped),
}

/// A partially received process, which the batch's spans will share.
#[derive(Drop)]
pub struct PartialSharedProcess {
    process: Struct<OwnedProcessSlots>,
}

impl Partial for PartialSharedProcess {
    type Value = SharedProcess;

    ghost resumes = { partial_shared_process };

    fn more(&mut self, alloc: Global, piece: &mut Cursor<'_>) -> Decoded<Option<SharedProcess>> {
        let Some(process) = self.process.more(alloc, piece)? else {
            return Ok(None);
        };
        Ok(Some(SharedProcess::new(alloc, process)?))
    }
}

impl PieceSlots for BatchSlots {
    ghost use Rattle.batch_codec.specs.EmptySlots.{no_batch};
    ghost use Rattle.batch_codec.specs.BatchReading.{take_batch, batch_from};
    ghost use Rattle.struct_pieces.specs.Batches.{batch_continues};
    ghost use Rattle.struct_pieces.specs.FieldLaws.{take_batch_safe, batch_not_short};
    ghost use Rattle.struct_pieces.specs.ShortFieldLaws.{take_batch_short};

    type PartialField = PartialBatchField;

    type Output = Batch;

    ghost takes = { take_batch };

    ghost resumes = { batch_continues };

    ghost none = { no_batch };

    ghost makes = { batch_from };

    fn min_bytes() -> usize {
        MIN_BATCH_BYTES
    }

    fn start(_alloc: Global) -> Self {
        BatchSlots::new()
    }

    #[tactic(auto, unfolding(batch_codec::specs::BatchReading::take_batch))]
    #[inline(always)]
    fn put(
        &mut self,
        code: u8,
        id: i16,
        _alloc: Global,
        cursor: &mut Cursor<'_>,
    ) -> Decoded<InPlace> {
        match (code, id) {
            (I64, SEQ_NO) => self.seq_no = Some(read_i64(cursor)?),
            (STRUCT, PROCESS) | (LIST, SPANS) => return Ok(InPlace::Deferred),
            _ => cursor.skip(code)?,
        }
        Ok(InPlace::Read)
    }

    #[tactic(auto, unfolding(batch_codec::specs::BatchReading::take_batch))]
    fn begin(&self, code: u8, id: i16, alloc: Global) -> PartialBatchField {
        match (code, id) {
            (STRUCT, PROCESS) => PartialBatchField::Process(PartialSharedProcess {
                process: Struct::new(alloc),
            }),
            (LIST, SPANS) => PartialBatchField::Spans(PartialList::new(alloc)),
            (I64, SEQ_NO) => PartialBatchField::SeqNo(PartialI64::new()),
            _ => PartialBatchField::Skip(PartialSkipped::new(code)),
        }
    }

    fn more(
        &mut self,
        held: &mut PartialBatchField,
        alloc: Global,
        piece: &mut Cursor<'_>,
    ) -> Decoded<Arrival> {
        match held {
            PartialBatchField::Process(part) => place(part, &mut self.process, alloc, piece),
            PartialBatchField::Spans(part) => part.place(&mut self.spans, alloc, piece),
            PartialBatchField::SeqNo(part) => place(part, &mut self.seq_no, alloc, piece),
            PartialBatchField::Skip(part) => place(part, &mut (), alloc, piece),
        }
    }

    fn is_between_fields(held: &PartialBatchField) -> bool {
        match held {
            PartialBatchField::Process(part) => part.process.is_between(),
            PartialBatchField::Spans(part) => part.is_between_fields(),
            _ => false,
        }
    }

    #[inline(always)]
    fn whole(self) -> Decoded<Batch> {
        BatchSlots::whole(self)
    }

    ghost safe = { take_batch_safe };

    ghost not_short = { batch_not_short };

    ghost short = { take_batch_short };
}

impl Fields for BatchSlots {}
