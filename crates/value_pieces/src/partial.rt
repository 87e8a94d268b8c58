ghost use Rattle.std.specs.Prelude.{◌≡◌, ◌≤◌, ℕ, List, Result, Err, true, length, OnOk};
ghost use Rattle.thrift_binary.specs.declared.fault.WireError.TheVariants.{Truncated};
ghost use Rattle.wire_pieces.specs.Pieces.{moment};
ghost use Rattle.batch_codec.specs.declared.fault.DecodeError.{DecodeError};
ghost use Rattle.batch_codec.specs.declared.fault.DecodeError.TheVariants.{Wire};
ghost use Rattle.value_pieces.specs.LeastBytes.{IsTooShort};
ghost use Rattle.value_pieces.specs.ContinuedCalls.{Arrives, BeginsValue, Continues, Places, fault_of, slot_moment};

use batch_codec::{DecodeError, Decoded};
use std::alloc::Global;
use thrift_binary::Cursor;
use wire_pieces::PieceError;

/// Whether a value is complete after a piece.
#[derive(Clone, Copy)]
pub enum Arrival {
    /// The last byte of the value has arrived.
    Complete,
    /// The piece has ended before the value.
    Pending,
}

/// A partially received value.
pub trait Partial: Drop + Sized {
    type Value: Drop;

    /// What it reads from the bytes that are still to come.
    ghost resumes: { Self → List ℕ → Result (Self.Value × List ℕ) DecodeError };

    /// Continues with a piece. Returns the value if it is complete, and `None` if the piece ends before.
    fn more(&mut self, alloc: Global, piece: &mut Cursor<'_>) -> Decoded<Option<Self::Value>>
        ensures continues { Continues (moment (resumes self.old) piece.old)
            (moment (resumes self.new) piece.new) result }
        ensures no_longer { OnOk result (length piece.new ≤ length piece.old) };
}

/// A kind of value that occurs in lists.
pub trait Item: Partial {
    ghost reads: { List ℕ → Result (Self.Value × List ℕ) DecodeError };

    /// The value if all of its bytes have arrived.
    ghost ends: { Self → Result Self.Value DecodeError };

    /// Returns the least number of bytes of a value.
    fn min_bytes() -> usize;

    /// Returns whether the value is between two fields of the innermost struct that has begun in it.
    fn is_between_fields(&self) -> bool
        ensures wants { result ≡ true → (w : List ℕ) → IsTooShort w →
            Self.resumes self.now w ≡ Err (Wire Truncated) };

    /// Begins a value in a piece. Returns the value if it is complete, and else what has arrived of it.
    fn begin(
        part: &mut Option<Self>,
        alloc: Global,
        piece: &mut Cursor<'_>,
    ) -> Decoded<Option<Self::Value>>
        ensures continues { BeginsValue (moment reads piece.old)
            (record { resumes = Self.resumes; part = part.new; left = piece.new }) result }
        ensures no_longer { OnOk result (length piece.new ≤ length piece.old) };

    /// Continues with a piece. Take the value once it is complete.
    fn arrive(&mut self, alloc: Global, piece: &mut Cursor<'_>) -> Decoded<Arrival>
        ensures continues { Arrives (moment (Self.resumes self.old) piece.old)
            (moment (Self.resumes self.new) piece.new) (ends self.new) result }
        ensures no_longer { OnOk result (length piece.new ≤ length piece.old) };

    /// Takes the value, all of whose bytes have arrived, and resets the state to before the first byte of another.
    fn take(&mut self, alloc: Global) -> Decoded<Self::Value>
        ensures value { result ≡ ends self.old }
        ensures no_want { result ≡ Err (Wire Truncated) → ⊥ }
        ensures fresh { (w : List ℕ) → Self.resumes self.new w ≡ reads w };
}

/// Converts the fault of a part.
pub fn fault_of(error: PieceError) -> DecodeError
    ensures { result ≡ fault_of error }
{
    match error {
        PieceError::Wire(e) => DecodeError::Wire(e),
        PieceError::Memory => DecodeError::Memory,
    }
}

/// A slot for a value.
pub trait Slot<V> {
    /// The slot that has the value.
    ghost holding: { V → Self };

    /// Stores the value in it.
    fn fill(&mut self, value: V)
        ensures { self.new ≡ holding value };
}

impl<V: Drop> Slot<V> for V {
    ghost holding = { λ v. v };

    #[inline(always)]
    fn fill(&mut self, value: V) {
        *self = value;
    }
}

impl<V: Drop> Slot<V> for Option<V> {
    ghost use Rattle.std.specs.Prelude.{Some};

    ghost holding = { λ v. Some v };

    #[inline(always)]
    fn fill(&mut self, value: V) {
        *self = Some(value);
    }
}

/// Continues with a piece, and stores the value in its slot.
pub fn place<P: Partial, S: Slot<P::Value>>(
    part: &mut P,
    slot: &mut S,
    alloc: Global,
    piece: &mut Cursor<'_>,
) -> Decoded<Arrival>
    ensures continues { Places S.holding (slot_moment (P.resumes part.old) piece.old slot.old)
        (slot_moment (P.resumes part.new) piece.new slot.new) result }
    ensures no_longer { OnOk result (length piece.new ≤ length piece.old) }
{
    let Some(value) = part.more(alloc, piece)? else {
        return Ok(Arrival::Pending);
    };
    slot.fill(value);
    Ok(Arrival::Complete)
}
