ghost use Rattle.std.specs.Prelude.{◌≡◌, ◌≤◌, length, OnOk, IfErr};
ghost use Rattle.batch_codec.specs.declared.fault.DecodeError.TheVariants.{BadEnum};
ghost use Rattle.batch_codec.specs.Decoding.{Decodes, Spends};
ghost use Rattle.batch_codec.specs.ReferenceReading.{reference_at, reference_from, kind_at, kind_of_number};
ghost use Rattle.batch_codec.specs.Batches.{kind_number};
ghost use Rattle.batch_codec.specs.Changes.{change};

use crate::fault::{DecodeError, Decoded, StructName};
use crate::field_ids::reference::{REF_TYPE, SPAN_ID, TRACE_ID_HIGH, TRACE_ID_LOW};
use crate::fields::{Slots, read_fields, required};
use crate::items::Element;
use crate::values::{read_i32, read_id, refuse};
use jaeger_model::{RefKind, SpanId, SpanRef, TraceId};
use std::alloc::Global;
use thrift_binary::Cursor;
use thrift_binary::types::{I32, I64};

/// The least number of bytes of a reference: 7 of `refType`, 11 of each of the three numbers of its ids
/// and the stop byte.
pub const MIN_REFERENCE_BYTES: usize = 41;

/// The fields of a reference that were read so far.
#[derive(Drop)]
pub struct ReferenceSlots {
    pub kind: Option<RefKind>,
    pub trace_low: Option<u64>,
    pub trace_high: Option<u64>,
    pub id: Option<u64>,
}

impl ReferenceSlots {
    ghost use Rattle.batch_codec.specs.EmptySlots.{no_reference};

    /// Returns the state before the first field.
    #[inline]
    pub fn new() -> Self
        ensures nothing { result ≡ no_reference }
    {
        ReferenceSlots {
            kind: None,
            trace_low: None,
            trace_high: None,
            id: None,
        }
    }

    /// Returns the reference of the fields.
    ///
    /// # Errors
    ///
    /// [`DecodeError::Missing`] with the missing required field of the least id.
    #[tactic(auto, unfolding(crate::specs::ReferenceReading::reference_from))]
    #[inline]
    pub fn whole(self) -> Decoded<SpanRef>
        ensures exact { result ≡ reference_from self }
    {
        let kind = required(self.kind, StructName::SpanRef, REF_TYPE as u8)?;
        let low = required(self.trace_low, StructName::SpanRef, TRACE_ID_LOW as u8)?;
        let high = required(self.trace_high, StructName::SpanRef, TRACE_ID_HIGH as u8)?;
        let id = required(self.id, StructName::SpanRef, SPAN_ID as u8)?;
        Ok(SpanRef {
            kind,
            trace: TraceId { high, low },
            id: SpanId(id),
        })
    }
}

impl<'a> Slots<'a> for ReferenceSlots {
    ghost use Rattle.batch_codec.specs.ReferenceReading.{take_reference};

    ghost puts = { take_reference };

    #[tactic(auto, unfolding(crate::specs::ReferenceReading::take_reference))]
    fn put(&mut self, _alloc: Global, code: u8, id: i16, cursor: &mut Cursor<'a>) -> Decoded<()> {
        match (code, id) {
            (I32, REF_TYPE) => self.kind = Some(read_kind(cursor)?),
            (I64, TRACE_ID_LOW) => self.trace_low = Some(read_id(cursor)?),
            (I64, TRACE_ID_HIGH) => self.trace_high = Some(read_id(cursor)?),
            (I64, SPAN_ID) => self.id = Some(read_id(cursor)?),
            _ => cursor.skip(code)?,
        }
        Ok(())
    }
}

/// Returns the kind that has this number in `jaeger.thrift`.
///
/// # Errors
///
/// [`DecodeError::BadEnum`] if no kind has it.
#[tactic(auto, unfolding(crate::specs::ReferenceReading::kind_of_number))]
#[inline]
pub fn kind_of_number(number: i32) -> Decoded<RefKind>
    ensures exact { result ≡ kind_of_number number }
    ensures fault { IfErr result (λ error. error ≡ BadEnum) }
{
    match number {
        0 => Ok(RefKind::ChildOf),
        1 => Ok(RefKind::FollowsFrom),
        _ => Err(DecodeError::BadEnum),
    }
}

/// Returns the number that the kind has in `jaeger.thrift` (`SpanRefType`).
pub(crate) fn kind_number(kind: RefKind) -> i32
    ensures { result ≡ kind_number kind }
{
    match kind {
        RefKind::ChildOf => 0,
        RefKind::FollowsFrom => 1,
    }
}

/// Reads a reference's kind, which is encoded as its number.
///
/// # Errors
///
/// Too few bytes, or a number that no kind has.
#[tactic(auto, unfolding(crate::specs::ReferenceReading::kind_at))]
#[inline]
pub fn read_kind(cursor: &mut Cursor<'_>) -> Decoded<RefKind>
    ensures exact { Decodes (λ k. k) kind_at (change cursor.old cursor.new) result }
    ensures no_longer { OnOk result (length cursor.new ≤ length cursor.old) }
    ensures spent { Spends result cursor.new }
{
    let number = read_i32(cursor)?;
    match kind_of_number(number) {
        Ok(kind) => Ok(kind),
        Err(error) => refuse(cursor, error),
    }
}

impl Element for SpanRef {
    ghost reads = { reference_at };

    fn min_bytes() -> usize {
        MIN_REFERENCE_BYTES
    }

    #[tactic(auto, unfolding(crate::specs::ReferenceReading::reference_at))]
    fn read(alloc: Global, cursor: &mut Cursor<'_>) -> Decoded<Self> {
        let slots = read_fields(alloc, ReferenceSlots::new(), cursor)?;
        slots.whole()
    }
}
