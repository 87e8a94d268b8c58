ghost use Rattle.std.specs.Prelude.{◌≡◌, ◌≤◌, ◌<◌, List, [], ℕ, length, Err, OnOk, IfOk};
ghost use Rattle.std.specs.Int.{w64};
ghost use Rattle.batch_codec.specs.Decoding.{Decodes, Spends, bool_at, double_at, i32_at, i64_at, id_at, text_at, binary_at};
ghost use Rattle.batch_codec.specs.Changes.{change};

use crate::fault::{DecodeError, Decoded};
use jaeger_model::{Seq, Text};
use std::alloc::{AllocError, Global};
use std::marker::Model;
use thrift_binary::{Cursor, WireError};

/// A text borrowed from the input, which contracts see as its bytes. Only a text that is kept is copied.
#[derive(Drop)]
pub struct TextSlice<'a> {
    text: &'a str,
}

impl<'a> Model for TextSlice<'a> {
    ghost Value = { List ℕ };

    ghost view = { λ s. s.text.now };
}

impl<'a> TextSlice<'a> {
    pub(crate) fn new(text: &'a str) -> Self
        ensures { result ≡ text.now }
    {
        TextSlice { text }
    }

    pub(crate) fn to_text(&self, alloc: Global) -> Result<Text, AllocError>
        ensures { IfOk result (λ t. t ≡ self.now) }
    {
        Text::from_str(alloc, self.text)
    }
}

/// Bytes borrowed from the input, which contracts see as their list. Only bytes that are kept are copied.
#[derive(Drop)]
pub struct ByteSlice<'a> {
    bytes: &'a [u8],
}

impl<'a> Model for ByteSlice<'a> {
    ghost Value = { List ℕ };

    ghost view = { λ s. s.bytes.now };
}

impl<'a> ByteSlice<'a> {
    pub(crate) fn new(bytes: &'a [u8]) -> Self
        ensures { result ≡ bytes.now }
    {
        ByteSlice { bytes }
    }

    pub(crate) fn to_seq(&self, alloc: Global) -> Result<Seq<u8>, AllocError>
        ensures { IfOk result (λ b. b ≡ self.now) }
    {
        Ok(Seq::from_vec(Vec::from_slice(alloc, self.bytes)?))
    }
}

/// Returns the fault, and leaves no bytes.
#[cold]
pub(crate) fn refuse<T>(cursor: &mut Cursor<'_>, error: DecodeError) -> Decoded<T>
    ensures spent { cursor.new ≡ [] }
    ensures error { result ≡ Err error }
{
    *cursor = Cursor::new(&[]);
    Err(error)
}

/// Reads a bool.
///
/// # Errors
///
/// Too few bytes, or a byte that is no bool.
#[tactic(auto, unfolding(crate::specs::Decoding::bool_at))]
#[inline]
pub fn read_bool(cursor: &mut Cursor<'_>) -> Decoded<bool>
    ensures exact { Decodes (λ b. b) bool_at (change cursor.old cursor.new) result }
    ensures no_longer { OnOk result (length cursor.new ≤ length cursor.old) }
    ensures spent { Spends result cursor.new }
{
    Ok(cursor.read_bool()?)
}

/// Reads the eight bytes of a double.
///
/// # Errors
///
/// Too few bytes.
#[tactic(auto, unfolding(crate::specs::Decoding::double_at))]
#[inline]
pub fn read_double(cursor: &mut Cursor<'_>) -> Decoded<[u8; 8]>
    ensures exact { Decodes (λ b. b) double_at (change cursor.old cursor.new) result }
    ensures no_longer { OnOk result (length cursor.new ≤ length cursor.old) }
    ensures spent { Spends result cursor.new }
{
    Ok(cursor.read_double()?)
}

/// Reads a signed number of 32 bits.
///
/// # Errors
///
/// Too few bytes.
#[tactic(auto, unfolding(crate::specs::Decoding::i32_at))]
#[inline]
pub fn read_i32(cursor: &mut Cursor<'_>) -> Decoded<i32>
    ensures exact { Decodes (λ z. z) i32_at (change cursor.old cursor.new) result }
    ensures no_longer { OnOk result (length cursor.new ≤ length cursor.old) }
    ensures spent { Spends result cursor.new }
{
    Ok(cursor.read_i32()?)
}

/// Reads a signed number of 64 bits.
///
/// # Errors
///
/// Too few bytes.
#[tactic(auto, unfolding(crate::specs::Decoding::i64_at))]
#[inline]
pub fn read_i64(cursor: &mut Cursor<'_>) -> Decoded<i64>
    ensures exact { Decodes (λ z. z) i64_at (change cursor.old cursor.new) result }
    ensures no_longer { OnOk result (length cursor.new ≤ length cursor.old) }
    ensures spent { Spends result cursor.new }
{
    Ok(cursor.read_i64()?)
}

/// Reads 64 bits of an id, an `i64` on the wire, as an unsigned number.
///
/// # Errors
///
/// Too few bytes.
#[tactic(auto, unfolding(crate::specs::Decoding::id_at, crate::specs::Decoding::i64_at))]
#[inline]
pub fn read_id(cursor: &mut Cursor<'_>) -> Decoded<u64>
    ensures exact { Decodes (λ n. n) id_at (change cursor.old cursor.new) result }
    ensures no_longer { OnOk result (length cursor.new ≤ length cursor.old) }
    ensures spent { Spends result cursor.new }
{
    Ok(cursor.read_i64()?.cast_unsigned())
}

/// Reads a string, which must be UTF-8.
#[tactic(auto, unfolding(crate::specs::Decoding::text_at))]
pub(crate) fn read_text<'a>(cursor: &mut Cursor<'a>) -> Decoded<TextSlice<'a>>
    ensures exact { Decodes (λ t. t) text_at (change cursor.old cursor.new) result }
    ensures no_longer { OnOk result (length cursor.new ≤ length cursor.old) }
    ensures spent { Spends result cursor.new }
{
    let bytes = cursor.read_bytes()?;
    let Ok(text) = str::from_utf8(bytes) else {
        return refuse(cursor, DecodeError::Wire(WireError::BadText));
    };
    Ok(TextSlice::new(text))
}

/// Reads a binary: any bytes.
#[tactic(auto, unfolding(crate::specs::Decoding::binary_at))]
pub(crate) fn read_binary<'a>(cursor: &mut Cursor<'a>) -> Decoded<ByteSlice<'a>>
    ensures exact { Decodes (λ b. b) binary_at (change cursor.old cursor.new) result }
    ensures no_longer { OnOk result (length cursor.new ≤ length cursor.old) }
    ensures spent { Spends result cursor.new }
{
    Ok(ByteSlice::new(cursor.read_bytes()?))
}

/// Reads and copies a string, which must be UTF-8.
///
/// # Errors
///
/// Too few bytes, bytes that aren't UTF-8, or out of memory.
#[inline]
pub fn read_owned_text(alloc: Global, cursor: &mut Cursor<'_>) -> Decoded<Text>
    ensures exact { Decodes (λ t. t) text_at (change cursor.old cursor.new) result }
    ensures no_longer { OnOk result (length cursor.new ≤ length cursor.old) }
    ensures spent { Spends result cursor.new }
{
    Ok(read_text(cursor)?.to_text(alloc)?)
}

/// Reads and copies a binary: any bytes.
///
/// # Errors
///
/// Too few bytes, or out of memory.
#[inline]
pub fn read_owned_binary(alloc: Global, cursor: &mut Cursor<'_>) -> Decoded<Seq<u8>>
    ensures exact { Decodes (λ b. b) binary_at (change cursor.old cursor.new) result }
    ensures no_longer { OnOk result (length cursor.new ≤ length cursor.old) }
    ensures spent { Spends result cursor.new }
{
    Ok(read_binary(cursor)?.to_seq(alloc)?)
}
