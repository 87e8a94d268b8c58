ghost use Rattle.std.specs.Prelude.{◌≡◌, ◌≤◌, ℕ, List, true, length, OnOk};
ghost use Rattle.thrift_binary.specs.Reading.{lift, is_code};
ghost use Rattle.thrift_binary.specs.Skipping.{skip_at};
ghost use Rattle.batch_codec.specs.Decoding.{wire};
ghost use Rattle.value_pieces.specs.Values.{skip_from};

use crate::partial::{Partial, fault_of};
use batch_codec::Decoded;
use std::alloc::Global;
use thrift_binary::Cursor;
use wire_pieces::Skipping;

/// A value that is skipped, of which some bytes have arrived. It takes no memory.
#[derive(Drop)]
pub struct PartialSkipped {
    part: Skipping,
}

impl PartialSkipped {
    /// Returns the state before the first byte of a value of the type.
    pub fn new(code: u8) -> Self
        requires { is_code code ≡ true }
        ensures { (w : List ℕ) → skip_from result w ≡ lift wire (skip_at code w) }
    {
        PartialSkipped {
            part: Skipping::new(code),
        }
    }
}

impl Partial for PartialSkipped {
    type Value = ();

    ghost resumes = { skip_from };

    fn more(&mut self, _alloc: Global, piece: &mut Cursor<'_>) -> Decoded<Option<()>> {
        self.part.more(piece).map_err(fault_of)
    }
}
