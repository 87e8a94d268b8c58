ghost use Rattle.std.specs.Prelude.{◌≡◌, ◌≤◌, List, ℕ, [], length, OnOk};
ghost use Rattle.thrift_binary.specs.Reading.{string_at};
ghost use Rattle.wire_pieces.specs.Pieces.{Continues, moment};
ghost use Rattle.wire_pieces.specs.Strings.{bytes_end, string_from};

use crate::fault::PieceError;
use crate::numbers::Size;
use std::alloc::Global;
use std::mem;
use thrift_binary::Cursor;

/// The bytes after a length; some have arrived.
#[derive(Drop)]
pub(crate) struct Body {
    left: usize,
    got: Vec<u8>,
}

impl Body {
    #[inline]
    fn new(alloc: Global, left: usize) -> Self
        ensures left { result.left ≡ left }
        ensures got { result.got.items ≡ [] }
    {
        Body {
            left,
            got: Vec::new(alloc),
        }
    }

    #[inline]
    fn more(&mut self, alloc: Global, piece: &mut Cursor<'_>) -> Result<Option<Vec<u8>>, PieceError>
        ensures reads { Continues (λ x. x.items)
            (moment (bytes_end self.old.got.items self.old.left) piece.old)
            (moment (bytes_end self.new.got.items self.new.left) piece.new) result }
        ensures no_longer { OnOk result (length piece.new ≤ length piece.old) }
    {
        let prefix = piece.at_most(self.left);
        self.got.extend_from_slice(prefix)?;
        self.left -= prefix.len();
        if self.left > 0 {
            return Ok(None);
        }
        Ok(Some(mem::replace(&mut self.got, Vec::new(alloc))))
    }
}

#[derive(Drop)]
pub(crate) enum StringStep {
    Size(Size),
    Body(Body),
}

/// The bytes of a string or binary. It grows only with the bytes that have arrived, whatever its length claims.
#[derive(Drop)]
pub struct StringPart {
    step: StringStep,
}

impl StringPart {
    /// Returns the state before the first byte.
    #[inline]
    pub fn new() -> Self
        ensures fresh { (w : List ℕ) → string_from result w ≡ string_at w }
    {
        StringPart {
            step: StringStep::Size(Size::new()),
        }
    }

    /// Continues with a piece. Returns the bytes once all have arrived.
    #[inline]
    pub fn more(
        &mut self,
        alloc: Global,
        piece: &mut Cursor<'_>,
    ) -> Result<Option<Vec<u8>>, PieceError>
        ensures reads { Continues (λ x. x.items) (moment (string_from self.old) piece.old)
            (moment (string_from self.new) piece.new) result }
        ensures no_longer { OnOk result (length piece.new ≤ length piece.old) }
    {
        match &mut self.step {
            StringStep::Size(part) => {
                let Some(size) = part.more(piece)? else {
                    return Ok(None);
                };
                if let Some(prefix) = piece.prefix(size as usize) {
                    let bytes = Vec::from_slice(alloc, prefix)?;
                    return Ok(Some(bytes));
                }
                let mut body = Body::new(alloc, size as usize);
                let bytes = body.more(alloc, piece)?;
                self.step = StringStep::Body(body);
                Ok(bytes)
            }
            StringStep::Body(body) => body.more(alloc, piece),
        }
    }
}
