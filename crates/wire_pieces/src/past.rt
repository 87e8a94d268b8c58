ghost use Rattle.std.specs.Prelude.{◌≡◌, ◌<◌};
ghost use Rattle.thrift_binary.specs.Skipping.{past};
ghost use Rattle.thrift_binary.specs.declared.fault.WireError.TheVariants.{Truncated};
ghost use Rattle.wire_pieces.specs.Pieces.{Reaches, TakesBytes, moment};

use thrift_binary::Cursor;

/// A number of bytes to skip, at least one.
#[derive(Drop)]
pub(crate) struct SkippedBytes {
    left: usize,
    ghost some: { 0 < left },
}

impl SkippedBytes {
    pub(crate) fn new(left: usize) -> Self
        requires { 0 < left }
        ensures { result.left ≡ left }
    {
        SkippedBytes { left }
    }

    /// Continues with a piece. Returns `()` once all have been skipped.
    pub(crate) fn more(&mut self, piece: &mut Cursor<'_>) -> Option<()>
        ensures reads { Reaches Truncated (moment (past self.old.left) piece.old)
            (moment (past self.new.left) piece.new) result }
        ensures taken { TakesBytes piece.old piece.new result }
    {
        let prefix = piece.at_most(self.left);
        if prefix.len() == self.left {
            return Some(());
        }
        self.left -= prefix.len();
        None
    }
}
