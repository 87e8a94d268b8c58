ghost use Rattle.std.specs.Prelude.{◌≡◌, ◌≤◌, ◌<◌, length, OnOk};
ghost use Rattle.batch_codec.specs.Decoding.{Decodes, Gives};
ghost use Rattle.batch_codec.specs.ProcessReading.{process_at, process_from};
ghost use Rattle.batch_codec.specs.Changes.{change};

use crate::fault::{Decoded, StructName};
use crate::field_ids::process::{SERVICE_NAME, TAGS};
use crate::fields::{Slots, read_fields, required};
use crate::items::read_list;
use crate::values::{TextSlice, read_text};
use jaeger_model::{Process, Seq, Tag};
use std::alloc::Global;
use thrift_binary::Cursor;
use thrift_binary::types::{LIST, STRING};

/// The fields of a process that were read so far.
#[derive(Drop)]
pub struct ProcessSlots<'a> {
    pub service: Option<TextSlice<'a>>,
    pub tags: Seq<Tag>,
}

impl<'a> Slots<'a> for ProcessSlots<'a> {
    ghost use Rattle.batch_codec.specs.ProcessReading.{take_process};

    ghost puts = { take_process };

    #[tactic(auto, unfolding(crate::specs::ProcessReading::take_process))]
    fn put(&mut self, alloc: Global, code: u8, id: i16, cursor: &mut Cursor<'a>) -> Decoded<()> {
        match (code, id) {
            (STRING, SERVICE_NAME) => self.service = Some(read_text(cursor)?),
            (LIST, TAGS) => self.tags = read_list(alloc, cursor)?,
            _ => cursor.skip(code)?,
        }
        Ok(())
    }
}

#[tactic(auto, unfolding(crate::specs::ProcessReading::process_from))]
fn process_of(alloc: Global, slots: ProcessSlots<'_>) -> Decoded<Process>
    ensures { Gives result (process_from slots.entry) }
{
    let service = required(slots.service, StructName::Process, SERVICE_NAME as u8)?;
    Ok(Process {
        service: service.to_text(alloc)?,
        tags: slots.tags,
    })
}

#[tactic(auto, unfolding(crate::specs::ProcessReading::process_at))]
pub(crate) fn read_process(alloc: Global, cursor: &mut Cursor<'_>) -> Decoded<Process>
    ensures exact { Decodes (λ p. p) process_at (change cursor.old cursor.new) result }
    ensures no_longer { OnOk result (length cursor.new ≤ length cursor.old) }
{
    let none = ProcessSlots {
        service: None,
        tags: Seq::new(alloc),
    };
    let slots = read_fields(alloc, none, cursor)?;
    process_of(alloc, slots)
}
