use crate::fields::{Fields, InPlace, PieceSlots, Step, enter_in_pieces};
use crate::items::{PartialList, enter_list};
use crate::structs::Struct;
use crate::tag::OwnedTagSlots;
use batch_codec::field_ids::process::{SERVICE_NAME, TAGS};
use batch_codec::{Decoded, StructName, read_owned_text, required};
use jaeger_model::{Process, Seq, Tag, Text};
use std::alloc::Global;
use std::marker::Model;
use thrift_binary::Cursor;
use thrift_binary::types::{LIST, STRING};
use value_pieces::{Arrival, PartialSkipped, PartialText, place};

/// The least number of bytes of a process: 7 of the service and the stop byte. Only items of lists are asked for it, and a
/// process is none.
const MIN_PROCESS_BYTES: usize = 8;

/// The fields of a process that were read so far: those of `ProcessSlots`, but owned, since the bytes are gone when the
/// next piece comes.
#[derive(Drop)]
pub struct OwnedProcessSlots {
    service: Option<Text>,
    tags: Seq<Tag>,
}

impl Model for OwnedProcessSlots {
    ghost use Rattle.batch_codec.specs.declared.process.ProcessSlots.{ProcessSlots};

    ghost Value = { ProcessSlots };

    ghost view = { λ s. record { service = s.service; tags = s.tags } };
}

/// The partially received value of a field of a process.
#[derive(Drop)]
pub enum PartialProcessField {
    Service(PartialText),
    Tags(PartialList<Struct<OwnedTagSlots>>),
    Skip(PartialSkipped),
}

impl PieceSlots for OwnedProcessSlots {
    ghost use Rattle.batch_codec.specs.EmptySlots.{no_process};
    ghost use Rattle.batch_codec.specs.ProcessReading.{take_process, process_from};
    ghost use Rattle.struct_pieces.specs.Processes.{process_continues};
    ghost use Rattle.struct_pieces.specs.FieldLaws.{take_process_safe, process_not_short};
    ghost use Rattle.struct_pieces.specs.ShortFieldLaws.{take_process_short};

    type PartialField = PartialProcessField;

    type Output = Process;

    ghost takes = { take_process };

    ghost resumes = { process_continues };

    ghost none = { no_process };

    ghost makes = { process_from };

    fn min_bytes() -> usize {
        MIN_PROCESS_BYTES
    }

    fn start(alloc: Global) -> Self {
        OwnedProcessSlots {
            service: None,
            tags: Seq::new(alloc),
        }
    }

    #[tactic(auto, unfolding(batch_codec::specs::ProcessReading::take_process))]
    #[inline(always)]
    fn put(
        &mut self,
        code: u8,
        id: i16,
        alloc: Global,
        cursor: &mut Cursor<'_>,
    ) -> Decoded<InPlace> {
        match (code, id) {
            (STRING, SERVICE_NAME) => self.service = Some(read_owned_text(alloc, cursor)?),
            (LIST, TAGS) => return Ok(InPlace::Deferred),
            _ => cursor.skip(code)?,
        }
        Ok(InPlace::Read)
    }

    #[tactic(auto, unfolding(batch_codec::specs::ProcessReading::take_process, batch_codec::specs::TagReading::tag_at))]
    fn begin(&self, code: u8, id: i16, alloc: Global) -> PartialProcessField {
        match (code, id) {
            (STRING, SERVICE_NAME) => PartialProcessField::Service(PartialText::new()),
            (LIST, TAGS) => PartialProcessField::Tags(PartialList::new(alloc)),
            _ => PartialProcessField::Skip(PartialSkipped::new(code)),
        }
    }

    fn more(
        &mut self,
        held: &mut PartialProcessField,
        alloc: Global,
        piece: &mut Cursor<'_>,
    ) -> Decoded<Arrival> {
        match held {
            PartialProcessField::Service(part) => place(part, &mut self.service, alloc, piece),
            PartialProcessField::Tags(part) => part.place(&mut self.tags, alloc, piece),
            PartialProcessField::Skip(part) => place(part, &mut (), alloc, piece),
        }
    }

    fn is_between_fields(held: &PartialProcessField) -> bool {
        match held {
            PartialProcessField::Tags(part) => part.is_between_fields(),
            _ => false,
        }
    }

    #[tactic(auto, unfolding(batch_codec::specs::ProcessReading::process_from))]
    #[inline(always)]
    fn whole(self) -> Decoded<Process> {
        let service = required(self.service, StructName::Process, SERVICE_NAME as u8)?;
        Ok(Process {
            service,
            tags: self.tags,
        })
    }

    ghost safe = { take_process_safe };

    ghost not_short = { process_not_short };

    ghost short = { take_process_short };
}

impl Fields for OwnedProcessSlots {
    fn enter(
        &mut self,
        next: &mut Option<Step<PartialProcessField>>,
        code: u8,
        id: i16,
        alloc: Global,
        piece: &mut Cursor<'_>,
    ) -> Decoded<Arrival> {
        match (code, id) {
            (LIST, TAGS) => enter_list(
                &mut self.tags,
                next,
                PartialProcessField::Tags,
                alloc,
                piece,
            ),
            _ => enter_in_pieces(self, next, code, id, alloc, piece),
        }
    }
}
