ghost use Rattle.std.specs.Prelude.{◌≡◌};

use crate::fields::{Fields, InPlace, PieceSlots};
use batch_codec::field_ids::tag::{KEY, V_BINARY, V_BOOL, V_DOUBLE, V_LONG, V_STR, V_TYPE};
use batch_codec::{
    Decoded, MIN_TAG_BYTES, StructName, TagType, read_bool, read_double, read_i64,
    read_owned_binary, read_owned_text, read_type, required,
};
use jaeger_model::{Seq, Tag, TagValue, Text, Value};
use std::alloc::Global;
use std::marker::Model;
use thrift_binary::Cursor;
use thrift_binary::types::{BOOL, DOUBLE, I32, I64, STRING};
use value_pieces::{
    Arrival, PartialBinary, PartialBool, PartialDouble, PartialI64, PartialSkipped, PartialTagType,
    PartialText, place,
};

/// The fields of a tag that were read so far: those of `TagSlots`, but owned, since the bytes are gone when the next piece
/// comes.
#[derive(Drop)]
pub struct OwnedTagSlots {
    key: Option<Text>,
    kind: Option<TagType>,
    text: Text,
    double: [u8; 8],
    boolean: bool,
    long: i64,
    binary: Seq<u8>,
}

impl Model for OwnedTagSlots {
    ghost use Rattle.batch_codec.specs.declared.tag.TagSlots.{TagSlots};

    ghost Value = { TagSlots };

    ghost view = { λ s. record {
      key = s.key;
      kind = s.kind;
      text = s.text;
      double = s.double;
      boolean = s.boolean;
      long = s.long;
      binary = s.binary;
    } };
}

/// The partially received value of a field of a tag.
#[derive(Drop)]
pub enum PartialTagField {
    Key(PartialText),
    Kind(PartialTagType),
    Text(PartialText),
    Double(PartialDouble),
    Boolean(PartialBool),
    Long(PartialI64),
    Binary(PartialBinary),
    Skip(PartialSkipped),
}

impl PieceSlots for OwnedTagSlots {
    ghost use Rattle.batch_codec.specs.EmptySlots.{no_tag};
    ghost use Rattle.batch_codec.specs.TagReading.{take_tag, tag_from};
    ghost use Rattle.struct_pieces.specs.Tags.{tag_continues};
    ghost use Rattle.struct_pieces.specs.FieldLaws.{take_tag_safe, tag_not_short};
    ghost use Rattle.struct_pieces.specs.ShortFieldLaws.{take_tag_short};

    type PartialField = PartialTagField;

    type Output = Tag;

    ghost takes = { take_tag };

    ghost resumes = { tag_continues };

    ghost none = { no_tag };

    ghost makes = { tag_from };

    fn min_bytes() -> usize {
        MIN_TAG_BYTES
    }

    fn start(alloc: Global) -> Self {
        OwnedTagSlots {
            key: None,
            kind: None,
            text: Text::new(alloc),
            double: [0; 8],
            boolean: false,
            long: 0,
            binary: Seq::new(alloc),
        }
    }

    #[tactic(auto, unfolding(batch_codec::specs::TagReading::take_tag))]
    #[inline(always)]
    fn put(
        &mut self,
        code: u8,
        id: i16,
        alloc: Global,
        cursor: &mut Cursor<'_>,
    ) -> Decoded<InPlace> {
        match (code, id) {
            (STRING, KEY) => self.key = Some(read_owned_text(alloc, cursor)?),
            (I32, V_TYPE) => self.kind = Some(read_type(cursor)?),
            (STRING, V_STR) => self.text = read_owned_text(alloc, cursor)?,
            (DOUBLE, V_DOUBLE) => self.double = read_double(cursor)?,
            (BOOL, V_BOOL) => self.boolean = read_bool(cursor)?,
            (I64, V_LONG) => self.long = read_i64(cursor)?,
            (STRING, V_BINARY) => self.binary = read_owned_binary(alloc, cursor)?,
            _ => cursor.skip(code)?,
        }
        Ok(InPlace::Read)
    }

    #[tactic(auto, unfolding(batch_codec::specs::TagReading::take_tag))]
    fn begin(&self, code: u8, id: i16, _alloc: Global) -> PartialTagField {
        match (code, id) {
            (STRING, KEY) => PartialTagField::Key(PartialText::new()),
            (I32, V_TYPE) => PartialTagField::Kind(PartialTagType::new()),
            (STRING, V_STR) => PartialTagField::Text(PartialText::new()),
            (DOUBLE, V_DOUBLE) => PartialTagField::Double(PartialDouble::new()),
            (BOOL, V_BOOL) => PartialTagField::Boolean(PartialBool::new()),
            (I64, V_LONG) => PartialTagField::Long(PartialI64::new()),
            (STRING, V_BINARY) => PartialTagField::Binary(PartialBinary::new()),
            _ => PartialTagField::Skip(PartialSkipped::new(code)),
        }
    }

    fn more(
        &mut self,
        held: &mut PartialTagField,
        alloc: Global,
        piece: &mut Cursor<'_>,
    ) -> Decoded<Arrival> {
        match held {
            PartialTagField::Key(part) => place(part, &mut self.key, alloc, piece),
            PartialTagField::Kind(part) => place(part, &mut self.kind, alloc, piece),
            PartialTagField::Text(part) => place(part, &mut self.text, alloc, piece),
            PartialTagField::Double(part) => place(part, &mut self.double, alloc, piece),
            PartialTagField::Boolean(part) => place(part, &mut self.boolean, alloc, piece),
            PartialTagField::Long(part) => place(part, &mut self.long, alloc, piece),
            PartialTagField::Binary(part) => place(part, &mut self.binary, alloc, piece),
            PartialTagField::Skip(part) => place(part, &mut (), alloc, piece),
        }
    }

    fn is_between_fields(_held: &PartialTagField) -> bool {
        false
    }

    #[tactic(auto, unfolding(batch_codec::specs::TagReading::tag_from))]
    #[inline(always)]
    fn whole(self) -> Decoded<Tag> {
        let OwnedTagSlots {
            key,
            kind,
            text,
            double,
            boolean,
            long,
            binary,
        } = self;
        let key = required(key, StructName::Tag, KEY as u8)?;
        let kind = required(kind, StructName::Tag, V_TYPE as u8)?;
        let value = match kind {
            TagType::Text => Value::Text(text),
            TagType::Double => Value::Double(double),
            TagType::Bool => Value::Bool(boolean),
            TagType::Long => Value::Long(long),
            TagType::Binary => Value::Bytes(binary),
        };
        Ok(Tag {
            key,
            value: TagValue::new(value),
        })
    }

    ghost safe = { take_tag_safe };

    ghost not_short = { tag_not_short };

    ghost short = { take_tag_short };
}

impl Fields for OwnedTagSlots {}
