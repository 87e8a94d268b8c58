ghost use Rattle.std.specs.Prelude.{◌≡◌, true, false, List, ℕ, None, Ok, Err};
ghost use Rattle.thrift_binary.specs.declared.fault.WireError.TheVariants.{Truncated};
ghost use Rattle.thrift_binary.specs.Reading.{field_at, list_at};
ghost use Rattle.wire_pieces.specs.declared.fault.PieceError.TheVariants.{Memory};
ghost use Rattle.wire_pieces.specs.Pieces.{Reaches, Continues, TakesBytes, OkTakes, moment};
ghost use Rattle.wire_pieces.specs.Numbers.{i16_from};
ghost use Rattle.wire_pieces.specs.Heads.{IsTyped, head_of, id_from, head_from, typed_size_from, list_head};

use crate::fault::PieceError;
use crate::numbers::Size;
use crate::partial_bytes::PartialBytes;
use byteorder::{BigEndian, ByteOrder};
use thrift_binary::types::{STOP, is_code};
use thrift_binary::{Cursor, WireError};

/// What begins a field, or ends the fields of a struct.
#[derive(Clone, Copy, Debug)]
pub enum Head {
    /// A field, by its type and its id.
    Field(u8, i16),
    /// The stop byte: no field follows.
    Stop,
}

/// Continues a signed number of 16 bits with a piece.
#[inline]
fn more_i16(bytes: &mut PartialBytes<2>, piece: &mut Cursor<'_>) -> Option<i16>
    ensures reads { Reaches Truncated (moment (i16_from bytes.old) piece.old)
        (moment (i16_from bytes.new) piece.new) result }
    ensures taken { TakesBytes piece.old piece.new result }
{
    let whole = bytes.more(piece)?;
    Some(BigEndian::read_i16(&whole))
}

/// The id after a field's type.
#[derive(Drop)]
pub(crate) struct TypedId {
    code: u8,
    id: PartialBytes<2>,
}

impl TypedId {
    #[inline]
    fn more(&mut self, piece: &mut Cursor<'_>) -> Result<Option<Head>, PieceError>
        ensures reads { Continues head_of (moment (id_from self.old) piece.old)
            (moment (id_from self.new) piece.new) result }
        ensures taken { OkTakes piece.old piece.new result }
        ensures no_memory { result ≡ Err Memory → ⊥ }
        ensures typed { IsTyped result }
    {
        let Some(id) = more_i16(&mut self.id, piece) else {
            return Ok(None);
        };
        if !is_code(self.code) {
            return Err(PieceError::Wire(WireError::BadType));
        }
        Ok(Some(Head::Field(self.code, id)))
    }
}

#[derive(Drop)]
pub(crate) enum HeadStep {
    First,
    Id(TypedId),
}

/// A [`Head`] that is read.
#[derive(Drop)]
pub struct FieldHead {
    step: HeadStep,
}

impl FieldHead {
    /// Returns the state before the first byte.
    #[inline]
    pub fn new() -> Self
        ensures fresh { (w : List ℕ) → head_from result w ≡ field_at w }
    {
        FieldHead {
            step: HeadStep::First,
        }
    }

    /// Returns whether no byte of the head has arrived. Otherwise the head is a field's, and not the stop byte.
    #[inline]
    pub fn is_first(&self) -> bool
        ensures first { result ≡ true → (w : List ℕ) → head_from self.now w ≡ field_at w }
        ensures begun { result ≡ false → (w rest : List ℕ) →
            head_from self.now w ≡ Ok (None, rest) → ⊥ }
    {
        matches!(self.step, HeadStep::First)
    }

    /// Continues with a piece. Returns the head once it is complete.
    #[tactic(auto, unfolding(thrift_binary::specs::Reading::field_at))]
    #[inline]
    pub fn more(&mut self, piece: &mut Cursor<'_>) -> Result<Option<Head>, PieceError>
        ensures reads { Continues head_of (moment (head_from self.old) piece.old)
            (moment (head_from self.new) piece.new) result }
        ensures taken { OkTakes piece.old piece.new result }
        ensures no_memory { result ≡ Err Memory → ⊥ }
        ensures typed { IsTyped result }
    {
        match &mut self.step {
            HeadStep::First => {
                let Some(code) = piece.next() else {
                    return Ok(None);
                };
                if code == STOP {
                    return Ok(Some(Head::Stop));
                }
                let mut part = TypedId {
                    code,
                    id: PartialBytes::new(),
                };
                let head = part.more(piece)?;
                self.step = HeadStep::Id(part);
                Ok(head)
            }
            HeadStep::Id(part) => part.more(piece),
        }
    }
}

/// The size after the type of a list's elements.
#[derive(Drop)]
pub(crate) struct TypedSize {
    code: u8,
    size: Size,
}

impl TypedSize {
    #[inline]
    fn more(&mut self, piece: &mut Cursor<'_>) -> Result<Option<(u8, u32)>, PieceError>
        ensures reads { Continues (λ x. x) (moment (typed_size_from self.old) piece.old)
            (moment (typed_size_from self.new) piece.new) result }
        ensures taken { OkTakes piece.old piece.new result }
        ensures no_memory { result ≡ Err Memory → ⊥ }
    {
        let Some(size) = self.size.more(piece)? else {
            return Ok(None);
        };
        if size != 0 && !is_code(self.code) {
            return Err(PieceError::Wire(WireError::BadType));
        }
        Ok(Some((self.code, size)))
    }
}

#[derive(Drop)]
pub(crate) enum ListStep {
    First,
    Sized(TypedSize),
}

/// The head of a list or set: the type and the number of its elements.
#[derive(Drop)]
pub struct ListHead {
    step: ListStep,
}

impl ListHead {
    /// Returns the state before the first byte.
    #[inline]
    pub fn new() -> Self
        ensures fresh { (w : List ℕ) → list_head result w ≡ list_at w }
    {
        ListHead {
            step: ListStep::First,
        }
    }

    /// Continues with a piece. Returns the head once it is complete.
    #[tactic(auto, unfolding(thrift_binary::specs::Reading::list_at))]
    #[inline]
    pub fn more(&mut self, piece: &mut Cursor<'_>) -> Result<Option<(u8, u32)>, PieceError>
        ensures reads { Continues (λ x. x) (moment (list_head self.old) piece.old)
            (moment (list_head self.new) piece.new) result }
        ensures taken { OkTakes piece.old piece.new result }
        ensures no_memory { result ≡ Err Memory → ⊥ }
    {
        match &mut self.step {
            ListStep::First => {
                let Some(code) = piece.next() else {
                    return Ok(None);
                };
                let mut part = TypedSize {
                    code,
                    size: Size::new(),
                };
                let head = part.more(piece)?;
                self.step = ListStep::Sized(part);
                Ok(head)
            }
            ListStep::Sized(part) => part.more(piece),
        }
    }
}
