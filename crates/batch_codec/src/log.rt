ghost use Rattle.std.specs.Prelude.{◌≡◌};
ghost use Rattle.batch_codec.specs.LogReading.{log_at, log_from};

use crate::fault::{Decoded, StructName};
use crate::field_ids::log::{FIELDS, TIMESTAMP};
use crate::fields::{Slots, read_fields, required};
use crate::items::{Element, read_list};
use crate::values::read_i64;
use jaeger_model::{Log, Seq, Tag};
use std::alloc::Global;
use thrift_binary::Cursor;
use thrift_binary::types::{I64, LIST};

/// The least number of bytes of a log: 11 of the timestamp, 8 of the fields and the stop byte.
pub const MIN_LOG_BYTES: usize = 20;

/// The fields of a log that were read so far.
#[derive(Drop)]
pub struct LogSlots {
    pub at: Option<i64>,
    pub fields: Option<Seq<Tag>>,
}

impl LogSlots {
    ghost use Rattle.batch_codec.specs.EmptySlots.{no_log};

    /// Returns the state before the first field.
    #[inline]
    pub fn new() -> Self
        ensures nothing { result ≡ no_log }
    {
        LogSlots {
            at: None,
            fields: None,
        }
    }

    /// Returns the log of the fields.
    ///
    /// # Errors
    ///
    /// [`DecodeError::Missing`] with the missing required field of the least id.
    #[tactic(auto, unfolding(crate::specs::LogReading::log_from))]
    #[inline]
    pub fn whole(self) -> Decoded<Log>
        ensures exact { result ≡ log_from self }
    {
        let at = required(self.at, StructName::Log, TIMESTAMP as u8)?;
        let fields = required(self.fields, StructName::Log, FIELDS as u8)?;
        Ok(Log { at, fields })
    }
}

impl<'a> Slots<'a> for LogSlots {
    ghost use Rattle.batch_codec.specs.LogReading.{take_log};

    ghost puts = { take_log };

    #[tactic(auto, unfolding(crate::specs::LogReading::take_log))]
    fn put(&mut self, alloc: Global, code: u8, id: i16, cursor: &mut Cursor<'a>) -> Decoded<()> {
        match (code, id) {
            (I64, TIMESTAMP) => self.at = Some(read_i64(cursor)?),
            (LIST, FIELDS) => self.fields = Some(read_list(alloc, cursor)?),
            _ => cursor.skip(code)?,
        }
        Ok(())
    }
}

impl Element for Log {
    ghost reads = { log_at };

    fn min_bytes() -> usize {
        MIN_LOG_BYTES
    }

    #[tactic(auto, unfolding(crate::specs::LogReading::log_at))]
    fn read(alloc: Global, cursor: &mut Cursor<'_>) -> Decoded<Self> {
        let slots = read_fields(alloc, LogSlots::new(), cursor)?;
        slots.whole()
    }
}
