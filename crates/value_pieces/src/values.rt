ghost use Rattle.std.specs.Prelude.{◌≡◌, ◌<◌, ℕ, List, ◌++◌, length, Result, Err};
ghost use Rattle.thrift_binary.specs.declared.fault.WireError.TheVariants.{Truncated};
ghost use Rattle.batch_codec.specs.declared.fault.DecodeError.{DecodeError};
ghost use Rattle.batch_codec.specs.declared.fault.DecodeError.TheVariants.{Wire};
ghost use Rattle.batch_codec.specs.Decoding.{bool_at};
ghost use Rattle.value_pieces.specs.ContinuedCalls.{ended};
ghost use Rattle.value_pieces.specs.Values.{bool_from};

use crate::partial::{Partial, fault_of};
use batch_codec::Decoded;
use byteorder::{BigEndian, ByteOrder};
use std::alloc::Global;
use std::marker::PhantomData;
use thrift_binary::Cursor;
use wire_pieces::{Bool, PartialBytes};

/// A bool.
#[derive(Drop)]
pub struct PartialBool {
    part: Bool,
}

impl Partial for PartialBool {
    type Value = bool;

    ghost resumes = { bool_from };

    fn more(&mut self, _alloc: Global, piece: &mut Cursor<'_>) -> Decoded<Option<bool>> {
        self.part.more(piece).map_err(fault_of)
    }
}

impl PartialBool {
    /// Returns the state before the first byte.
    #[tactic(auto, unfolding(batch_codec::specs::Decoding::bool_at))]
    pub fn new() -> Self
        ensures fresh { (w : List ℕ) → bool_from result w ≡ bool_at w }
    {
        PartialBool { part: Bool::new() }
    }
}

/// A value that is encoded in N bytes. Some bytes may be a fault.
pub trait Fixed<const N: usize>: Drop + Sized {
    /// What is read from bytes that begin with it.
    ghost at: { List ℕ → Result (Self × List ℕ) DecodeError };

    /// Returns the value that the bytes spell.
    fn of(bytes: &[u8; N]) -> Decoded<Self>
        ensures spells { (w : List ℕ) → at (bytes.now ++ w) ≡ ended result w }
        ensures no_want { result ≡ Err (Wire Truncated) → ⊥ };

    /// Reading fewer than N bytes is too few bytes.
    ghost few: { (w : List ℕ) → length w < N → at w ≡ Err (Wire Truncated) };
}

/// A partially received value of N bytes.
#[derive(Drop)]
pub struct PartialFixed<V, const N: usize> {
    bytes: PartialBytes<N>,
    value: PhantomData<V>,
}

impl<V: Fixed<N>, const N: usize> Partial for PartialFixed<V, N> {
    type Value = V;

    ghost resumes = { λ p w. V.at (p.bytes ++ w) };

    fn more(&mut self, _alloc: Global, piece: &mut Cursor<'_>) -> Decoded<Option<V>> {
        match self.bytes.more(piece) {
            None => Ok(None),
            // For the prover: the match takes the cases of the clause `spells` apart.
            Some(bytes) => match V::of(&bytes) {
                Ok(value) => Ok(Some(value)),
                Err(error) => Err(error),
            },
        }
    }
}

impl<V: Fixed<N>, const N: usize> PartialFixed<V, N> {
    /// Returns the state before the first byte.
    pub fn new() -> Self
        requires some { 0 < N }
        ensures fresh { (w : List ℕ) → V.at (result.bytes ++ w) ≡ V.at w }
    {
        PartialFixed {
            bytes: PartialBytes::new(),
            value: PhantomData,
        }
    }
}

/// The eight bytes of a double.
pub type PartialDouble = PartialFixed<[u8; 8], 8>;

/// A signed number of 32 bits.
pub type PartialI32 = PartialFixed<i32, 4>;

/// A signed number of 64 bits.
pub type PartialI64 = PartialFixed<i64, 8>;

/// 64 bits of an id.
pub type PartialId = PartialFixed<u64, 8>;

impl Fixed<8> for [u8; 8] {
    ghost use Rattle.batch_codec.specs.Decoding.{double_at};
    ghost use Rattle.value_pieces.specs.ShortValueLaws.{double_few};

    ghost at = { double_at };

    #[tactic(auto, unfolding(batch_codec::specs::Decoding::double_at))]
    fn of(bytes: &[u8; 8]) -> Decoded<[u8; 8]> {
        Ok(*bytes)
    }

    ghost few = { double_few };
}

impl Fixed<4> for i32 {
    ghost use Rattle.batch_codec.specs.Decoding.{i32_at};
    ghost use Rattle.value_pieces.specs.ShortValueLaws.{i32_few};

    ghost at = { i32_at };

    #[tactic(auto, unfolding(batch_codec::specs::Decoding::i32_at))]
    fn of(bytes: &[u8; 4]) -> Decoded<i32> {
        Ok(BigEndian::read_i32(bytes))
    }

    ghost few = { i32_few };
}

impl Fixed<8> for i64 {
    ghost use Rattle.batch_codec.specs.Decoding.{i64_at};
    ghost use Rattle.value_pieces.specs.ShortValueLaws.{i64_few};

    ghost at = { i64_at };

    #[tactic(auto, unfolding(batch_codec::specs::Decoding::i64_at))]
    fn of(bytes: &[u8; 8]) -> Decoded<i64> {
        Ok(BigEndian::read_i64(bytes))
    }

    ghost few = { i64_few };
}

/// An id, which is a signed number on the wire.
impl Fixed<8> for u64 {
    ghost use Rattle.batch_codec.specs.Decoding.{id_at};
    ghost use Rattle.value_pieces.specs.ShortValueLaws.{id_few};

    ghost at = { id_at };

    #[tactic(auto, unfolding(batch_codec::specs::Decoding::id_at, batch_codec::specs::Decoding::i64_at))]
    fn of(bytes: &[u8; 8]) -> Decoded<u64> {
        Ok(BigEndian::read_i64(bytes).cast_unsigned())
    }

    ghost few = { id_few };
}
