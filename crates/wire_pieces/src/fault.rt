ghost use Rattle.std.specs.Prelude.{◌≡◌};
ghost use Rattle.wire_pieces.specs.declared.fault.PieceError.TheVariants.{Memory, Wire};

use std::alloc::{AllocError, AllocFailed};
use thrift_binary::WireError;

/// Why a piece is refused.
#[derive(Clone, Copy, Debug, PartialEq, Eq)]
pub enum PieceError {
    /// The first fault of the bytes, which isn't [`WireError::Truncated`].
    Wire(WireError),
    /// Memory for the bytes so far ran out.
    Memory,
}

impl From<WireError> for PieceError {
    ghost from_gives = { λ x e. e ≡ Wire x };

    fn from(e: WireError) -> PieceError {
        PieceError::Wire(e)
    }
}

impl From<AllocError> for PieceError {
    ghost from_gives = { λ _ e. e ≡ Memory };

    fn from(_e: AllocError) -> PieceError {
        PieceError::Memory
    }
}

impl<T: Drop> From<AllocFailed<T>> for PieceError {
    ghost from_gives = { λ _ e. e ≡ Memory };

    fn from(_e: AllocFailed<T>) -> PieceError {
        PieceError::Memory
    }
}
