ghost use Rattle.std.specs.Prelude.{◌≡◌, List, ℕ, [], ◌++◌, Some, Ok, Err};
ghost use Rattle.thrift_binary.specs.Reading.{bool_at, size_at};
ghost use Rattle.wire_pieces.specs.declared.fault.PieceError.TheVariants.{Memory};
ghost use Rattle.wire_pieces.specs.Pieces.{Continues, OkTakes, moment};

use crate::fault::PieceError;
use crate::partial_bytes::PartialBytes;
use byteorder::{BigEndian, ByteOrder};
use thrift_binary::types::MAX_LENGTH;
use thrift_binary::{Cursor, WireError};

/// A bool: one byte, 1 for true and 0 for false.
#[derive(Drop)]
pub struct Bool {}

impl Bool {
    /// Returns the state before the byte.
    #[inline]
    pub fn new() -> Self {
        Bool {}
    }

    /// Continues with a piece. Returns the value once it is complete.
    #[tactic(auto, unfolding(thrift_binary::specs::Reading::bool_at))]
    #[inline]
    pub fn more(&mut self, piece: &mut Cursor<'_>) -> Result<Option<bool>, PieceError>
        ensures reads { Continues (λ x. x) (moment bool_at piece.old)
            (moment bool_at piece.new) result }
        ensures taken { OkTakes piece.old piece.new result }
        ensures no_memory { result ≡ Err Memory → ⊥ }
    {
        match piece.next() {
            None => Ok(None),
            Some(0) => Ok(Some(false)),
            Some(1) => Ok(Some(true)),
            Some(_) => Err(PieceError::Wire(WireError::BadBool)),
        }
    }
}

/// A length or a size: a number of 32 bits that isn't negative.
#[derive(Drop)]
pub struct Size {
    bytes: PartialBytes<4>,
}

impl Size {
    ghost use Rattle.wire_pieces.specs.Numbers.{size_from};

    /// Returns the state before the first byte.
    #[inline]
    pub fn new() -> Self
        ensures fresh { (w : List ℕ) → size_from result w ≡ size_at w }
    {
        Size {
            bytes: PartialBytes::new(),
        }
    }

    /// Continues with a piece. Returns the value once it is complete.
    #[inline]
    pub fn more(&mut self, piece: &mut Cursor<'_>) -> Result<Option<u32>, PieceError>
        ensures reads { Continues (λ x. x) (moment (size_from self.old) piece.old)
            (moment (size_from self.new) piece.new) result }
        ensures taken { OkTakes piece.old piece.new result }
        ensures no_memory { result ≡ Err Memory → ⊥ }
    {
        let Some(whole) = self.bytes.more(piece) else {
            return Ok(None);
        };
        let number = BigEndian::read_u32(&whole);
        if number > MAX_LENGTH {
            return Err(PieceError::Wire(WireError::BadLength));
        }
        Ok(Some(number))
    }
}

/// Returns the size that four bytes spell, or nothing if they aren't four or spell a negative number.
#[inline]
pub fn size_of(bytes: &[u8]) -> Option<u32>
    ensures reads { (n : ℕ) → result ≡ Some n → (w : List ℕ) →
        size_at (bytes.now ++ w) ≡ Ok (n, w) }
    ensures every { (n : ℕ) → size_at bytes.now ≡ Ok (n, []) → result ≡ Some n }
{
    if bytes.len() != 4 {
        return None;
    }
    let number = BigEndian::read_u32(bytes);
    if number > MAX_LENGTH {
        return None;
    }
    Some(number)
}
