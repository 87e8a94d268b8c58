ghost use Rattle.std.specs.Prelude.{◌≡◌, ◌≤◌, length, IfOk, OnOk};
ghost use Rattle.batch_codec.specs.Batches.{Answers, IsBatch};
ghost use Rattle.batch_codec.specs.BatchReading.{batch_from, batch_at, decoded};
ghost use Rattle.batch_codec.specs.Decoding.{Decodes, Gives};
ghost use Rattle.batch_codec.specs.ProcessReading.{process_at};
ghost use Rattle.batch_codec.specs.Changes.{change};

use crate::fault::{DecodeError, Decoded, StructName};
use crate::field_ids::batch::{PROCESS, SEQ_NO, SPANS};
use crate::fields::{Slots, read_fields, required};
use crate::items::read_list;
use crate::process::read_process;
use crate::values::read_i64;
use jaeger_model::{Batch, Seq, SharedProcess, Span};
use std::alloc::Global;
use thrift_binary::Cursor;
use thrift_binary::types::{I64, LIST, STRUCT};

/// The fields of a batch that were read so far.
#[derive(Drop)]
pub struct BatchSlots {
    pub process: Option<SharedProcess>,
    pub spans: Option<Seq<Span>>,
    pub seq_no: Option<i64>,
}

impl BatchSlots {
    ghost use Rattle.batch_codec.specs.EmptySlots.{no_batch};

    /// Returns the state before the first field.
    #[inline]
    pub fn new() -> Self
        ensures nothing { result ≡ no_batch }
    {
        BatchSlots {
            process: None,
            spans: None,
            seq_no: None,
        }
    }

    /// Returns the batch of the fields.
    ///
    /// # Errors
    ///
    /// [`DecodeError::Missing`] with the missing required field of the least id.
    #[tactic(auto, unfolding(crate::specs::BatchReading::batch_from))]
    #[inline]
    pub fn whole(self) -> Decoded<Batch>
        ensures exact { result ≡ batch_from self }
    {
        let process = required(self.process, StructName::Batch, PROCESS as u8)?;
        let spans = required(self.spans, StructName::Batch, SPANS as u8)?;
        Ok(Batch {
            process,
            spans,
            seq_no: self.seq_no,
        })
    }
}

/// Reads the process, which the spans of the batch share.
#[tactic(auto, unfolding(crate::specs::ProcessReading::process_at))]
fn read_shared(alloc: Global, cursor: &mut Cursor<'_>) -> Decoded<SharedProcess>
    ensures exact { Decodes (λ p. p) process_at (change cursor.old cursor.new) result }
    ensures no_longer { OnOk result (length cursor.new ≤ length cursor.old) }
{
    let process = read_process(alloc, cursor)?;
    Ok(SharedProcess::new(alloc, process)?)
}

impl<'a> Slots<'a> for BatchSlots {
    ghost use Rattle.batch_codec.specs.BatchReading.{take_batch};

    ghost puts = { take_batch };

    #[tactic(auto, unfolding(crate::specs::BatchReading::take_batch))]
    fn put(&mut self, alloc: Global, code: u8, id: i16, cursor: &mut Cursor<'a>) -> Decoded<()> {
        match (code, id) {
            (STRUCT, PROCESS) => self.process = Some(read_shared(alloc, cursor)?),
            (LIST, SPANS) => self.spans = Some(read_list(alloc, cursor)?),
            (I64, SEQ_NO) => self.seq_no = Some(read_i64(cursor)?),
            _ => cursor.skip(code)?,
        }
        Ok(())
    }
}

#[tactic(auto, unfolding(crate::specs::BatchReading::batch_at))]
fn read_batch(alloc: Global, cursor: &mut Cursor<'_>) -> Decoded<Batch>
    ensures exact { Decodes (λ b. b) batch_at (change cursor.old cursor.new) result }
{
    let slots = read_fields(alloc, BatchSlots::new(), cursor)?;
    slots.whole()
}

#[tactic(auto, unfolding(crate::specs::BatchReading::decoded))]
fn read_whole(alloc: Global, bytes: &[u8]) -> Decoded<Batch>
    ensures { Gives result (decoded bytes.now) }
{
    let mut cursor = Cursor::new(bytes);
    let batch = read_batch(alloc, &mut cursor)?;
    if !cursor.rest().is_empty() {
        return Err(DecodeError::Trailing);
    }
    Ok(batch)
}

/// Decodes a batch that takes up all of the bytes: the struct `Batch` of `jaeger.thrift` in the Thrift
/// binary protocol.
///
/// # Errors
///
/// The first fault from left to right, or [`DecodeError::Memory`] if memory for the batch ran out. It
/// never allocates by a claimed size alone.
pub fn decode(alloc: Global, bytes: &[u8]) -> Decoded<Batch>
    // The batch that is returned is the one that the bytes spell, and every spelling of a batch is read.
    ensures found { IfOk result (λ b. IsBatch bytes.now b) }
    ensures complete { Answers bytes.now result }

    // The batch or the first fault, unless memory ran out.
    ensures exact { Gives result (decoded bytes.now) }
{
    // For the prover: the clauses `found` and `complete` are proved from that of this call, which is `exact`.
    read_whole(alloc, bytes)
}
