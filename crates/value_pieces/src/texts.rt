ghost use Rattle.std.specs.Prelude.{◌≡◌, ℕ, List};
ghost use Rattle.batch_codec.specs.Decoding.{text_at, binary_at};
ghost use Rattle.value_pieces.specs.Values.{partial_text, partial_binary};

use crate::partial::{Partial, fault_of};
use batch_codec::{DecodeError, Decoded};
use jaeger_model::{Seq, Text};
use std::alloc::Global;
use thrift_binary::{Cursor, WireError};
use wire_pieces::StringPart;

/// A string, which must be UTF-8. It is validated once, when its last byte has arrived.
#[derive(Drop)]
pub struct PartialText {
    part: StringPart,
}

impl Partial for PartialText {
    type Value = Text;

    ghost resumes = { partial_text };

    fn more(&mut self, alloc: Global, piece: &mut Cursor<'_>) -> Decoded<Option<Text>> {
        match self.part.more(alloc, piece) {
            Err(error) => Err(fault_of(error)),
            Ok(None) => Ok(None),
            Ok(Some(bytes)) => match String::from_utf8(bytes) {
                Ok(text) => Ok(Some(Text::from_string(text))),
                Err(_) => Err(DecodeError::Wire(WireError::BadText)),
            },
        }
    }
}

impl PartialText {
    /// Returns the state before the first byte.
    #[tactic(auto, unfolding(batch_codec::specs::Decoding::text_at))]
    pub fn new() -> Self
        ensures fresh { (w : List ℕ) → partial_text result w ≡ text_at w }
    {
        PartialText {
            part: StringPart::new(),
        }
    }
}

/// A binary: any bytes.
#[derive(Drop)]
pub struct PartialBinary {
    part: StringPart,
}

impl Partial for PartialBinary {
    type Value = Seq<u8>;

    ghost resumes = { partial_binary };

    fn more(&mut self, alloc: Global, piece: &mut Cursor<'_>) -> Decoded<Option<Seq<u8>>> {
        match self.part.more(alloc, piece) {
            Err(error) => Err(fault_of(error)),
            Ok(None) => Ok(None),
            Ok(Some(bytes)) => Ok(Some(Seq::from_vec(bytes))),
        }
    }
}

impl PartialBinary {
    /// Returns the state before the first byte.
    #[tactic(auto, unfolding(batch_codec::specs::Decoding::binary_at))]
    pub fn new() -> Self
        ensures fresh { (w : List ℕ) → partial_binary result w ≡ binary_at w }
    {
        PartialBinary {
            part: StringPart::new(),
        }
    }
}
