ghost use Rattle.std.specs.Prelude.{◌≡◌, ◌≤◌, ◌<◌, length, OnOk, IfErr};
ghost use Rattle.batch_codec.specs.declared.fault.DecodeError.TheVariants.{BadEnum};
ghost use Rattle.batch_codec.specs.Decoding.{Decodes, Gives, Spends};
ghost use Rattle.batch_codec.specs.TagReading.{tag_at, tag_from, type_at, type_of_number};
ghost use Rattle.batch_codec.specs.Batches.{type_number};
ghost use Rattle.batch_codec.specs.Changes.{change};

use crate::fault::{DecodeError, Decoded, StructName};
use crate::field_ids::tag::{KEY, V_BINARY, V_BOOL, V_DOUBLE, V_LONG, V_STR, V_TYPE};
use crate::fields::{Slots, read_fields, required};
use crate::items::Element;
use crate::values::{
    ByteSlice, TextSlice, read_binary, read_bool, read_double, read_i32, read_i64, read_text,
    refuse,
};
use jaeger_model::{Tag, TagValue, Value};
use std::alloc::Global;
use thrift_binary::Cursor;
use thrift_binary::types::{BOOL, DOUBLE, I32, I64, STRING};

/// The least number of bytes of a tag: 7 of the key, 7 of `vType` and the stop byte.
pub const MIN_TAG_BYTES: usize = 15;

/// The type of a tag's value (`TagType` of `jaeger.thrift`).
#[derive(Clone, Copy)]
pub enum TagType {
    Text,
    Double,
    Bool,
    Long,
    Binary,
}

/// The fields of a tag that were read so far. The tag keeps only the value of its type, so texts and
/// bytes are borrowed from the input until the type is known.
#[derive(Drop)]
pub struct TagSlots<'a> {
    pub key: Option<TextSlice<'a>>,
    pub kind: Option<TagType>,
    pub text: TextSlice<'a>,
    pub double: [u8; 8],
    pub boolean: bool,
    pub long: i64,
    pub binary: ByteSlice<'a>,
}

impl<'a> TagSlots<'a> {
    ghost use Rattle.batch_codec.specs.EmptySlots.{no_tag};

    fn new() -> Self
        ensures { result ≡ no_tag }
    {
        TagSlots {
            key: None,
            kind: None,
            text: TextSlice::new(""),
            double: [0; 8],
            boolean: false,
            long: 0,
            binary: ByteSlice::new(&[]),
        }
    }
}

impl<'a> Slots<'a> for TagSlots<'a> {
    ghost use Rattle.batch_codec.specs.TagReading.{take_tag};

    ghost puts = { take_tag };

    #[tactic(auto, unfolding(crate::specs::TagReading::take_tag))]
    fn put(&mut self, alloc: Global, code: u8, id: i16, cursor: &mut Cursor<'a>) -> Decoded<()> {
        match (code, id) {
            (STRING, KEY) => self.key = Some(read_text(cursor)?),
            (I32, V_TYPE) => self.kind = Some(read_type(cursor)?),
            (STRING, V_STR) => self.text = read_text(cursor)?,
            (DOUBLE, V_DOUBLE) => self.double = read_double(cursor)?,
            (BOOL, V_BOOL) => self.boolean = read_bool(cursor)?,
            (I64, V_LONG) => self.long = read_i64(cursor)?,
            (STRING, V_BINARY) => self.binary = read_binary(cursor)?,
            _ => cursor.skip(code)?,
        }
        Ok(())
    }
}

/// Returns the type that has this number in `jaeger.thrift`.
///
/// # Errors
///
/// [`DecodeError::BadEnum`] if no type has it.
#[tactic(auto, unfolding(crate::specs::TagReading::type_of_number))]
#[inline]
pub fn type_of_number(number: i32) -> Decoded<TagType>
    ensures exact { result ≡ type_of_number number }
    ensures fault { IfErr result (λ error. error ≡ BadEnum) }
{
    match number {
        0 => Ok(TagType::Text),
        1 => Ok(TagType::Double),
        2 => Ok(TagType::Bool),
        3 => Ok(TagType::Long),
        4 => Ok(TagType::Binary),
        _ => Err(DecodeError::BadEnum),
    }
}

/// Returns the number that the type has in `jaeger.thrift`.
pub(crate) fn type_number(kind: TagType) -> i32
    ensures { result ≡ type_number kind }
{
    match kind {
        TagType::Text => 0,
        TagType::Double => 1,
        TagType::Bool => 2,
        TagType::Long => 3,
        TagType::Binary => 4,
    }
}

/// Reads a tag's type, which is encoded as its number.
///
/// # Errors
///
/// Too few bytes, or a number that no type has.
#[tactic(auto, unfolding(crate::specs::TagReading::type_at))]
#[inline]
pub fn read_type(cursor: &mut Cursor<'_>) -> Decoded<TagType>
    ensures exact { Decodes (λ t. t) type_at (change cursor.old cursor.new) result }
    ensures no_longer { OnOk result (length cursor.new ≤ length cursor.old) }
    ensures spent { Spends result cursor.new }
{
    let number = read_i32(cursor)?;
    match type_of_number(number) {
        Ok(kind) => Ok(kind),
        Err(error) => refuse(cursor, error),
    }
}

#[tactic(auto, unfolding(crate::specs::TagReading::tag_from))]
fn tag_of(alloc: Global, slots: TagSlots<'_>) -> Decoded<Tag>
    ensures { Gives result (tag_from slots.entry) }
{
    let key = required(slots.key, StructName::Tag, KEY as u8)?;
    let kind = required(slots.kind, StructName::Tag, V_TYPE as u8)?;
    let value = match kind {
        TagType::Text => Value::Text(slots.text.to_text(alloc)?),
        TagType::Double => Value::Double(slots.double),
        TagType::Bool => Value::Bool(slots.boolean),
        TagType::Long => Value::Long(slots.long),
        TagType::Binary => Value::Bytes(slots.binary.to_seq(alloc)?),
    };
    Ok(Tag {
        key: key.to_text(alloc)?,
        value: TagValue::new(value),
    })
}

impl Element for Tag {
    ghost reads = { tag_at };

    fn min_bytes() -> usize {
        MIN_TAG_BYTES
    }

    #[tactic(auto, unfolding(crate::specs::TagReading::tag_at))]
    fn read(alloc: Global, cursor: &mut Cursor<'_>) -> Decoded<Self> {
        let slots = read_fields(alloc, TagSlots::new(), cursor)?;
        tag_of(alloc, slots)
    }
}
