use crate::values::{Fixed, PartialFixed};
use batch_codec::{Decoded, TagType, kind_of_number, type_of_number};
use byteorder::{BigEndian, ByteOrder};
use jaeger_model::RefKind;

/// A tag's type.
pub type PartialTagType = PartialFixed<TagType, 4>;

/// A reference's kind.
pub type PartialRefKind = PartialFixed<RefKind, 4>;

/// A tag's type, which is encoded as its number.
impl Fixed<4> for TagType {
    ghost use Rattle.batch_codec.specs.TagReading.{type_at};
    ghost use Rattle.value_pieces.specs.ShortValueLaws.{type_few};

    ghost at = { type_at };

    #[tactic(auto, unfolding(batch_codec::specs::TagReading::type_at, batch_codec::specs::Decoding::i32_at))]
    fn of(bytes: &[u8; 4]) -> Decoded<TagType> {
        type_of_number(BigEndian::read_i32(bytes))
    }

    ghost few = { type_few };
}

/// A reference's kind, which is encoded as its number.
impl Fixed<4> for RefKind {
    ghost use Rattle.batch_codec.specs.ReferenceReading.{kind_at};
    ghost use Rattle.value_pieces.specs.ShortValueLaws.{kind_few};

    ghost at = { kind_at };

    #[tactic(auto, unfolding(batch_codec::specs::ReferenceReading::kind_at, batch_codec::specs::Decoding::i32_at))]
    fn of(bytes: &[u8; 4]) -> Decoded<RefKind> {
        kind_of_number(BigEndian::read_i32(bytes))
    }

    ghost few = { kind_few };
}
