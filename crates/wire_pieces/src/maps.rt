ghost use Rattle.std.specs.Prelude.{◌≡◌, List, ℕ, Err};
ghost use Rattle.thrift_binary.specs.Reading.{map_at};
ghost use Rattle.wire_pieces.specs.declared.fault.PieceError.TheVariants.{Memory};
ghost use Rattle.wire_pieces.specs.Pieces.{Continues, OkTakes, moment};
ghost use Rattle.wire_pieces.specs.Heads.{pair_size_from, pair_head, map_head};

use crate::fault::PieceError;
use crate::numbers::Size;
use thrift_binary::types::is_code;
use thrift_binary::{Cursor, WireError};

/// The size after the types of a map's keys and values.
#[derive(Drop)]
pub(crate) struct PairSize {
    key: u8,
    value: u8,
    size: Size,
}

impl PairSize {
    fn more(&mut self, piece: &mut Cursor<'_>) -> Result<Option<(u8, u8, u32)>, PieceError>
        ensures reads { Continues (λ x. ((x.0, x.1), x.2))
            (moment (pair_size_from self.old) piece.old)
            (moment (pair_size_from self.new) piece.new) result }
        ensures taken { OkTakes piece.old piece.new result }
        ensures no_memory { result ≡ Err Memory → ⊥ }
    {
        let Some(size) = self.size.more(piece)? else {
            return Ok(None);
        };
        if size != 0 && !(is_code(self.key) && is_code(self.value)) {
            return Err(PieceError::Wire(WireError::BadType));
        }
        Ok(Some((self.key, self.value, size)))
    }
}

#[derive(Drop)]
pub(crate) enum PairStep {
    First,
    Sized(PairSize),
}

/// The rest of a map's head after the type of its keys.
#[derive(Drop)]
pub(crate) struct PairHead {
    key: u8,
    step: PairStep,
}

impl PairHead {
    fn more(&mut self, piece: &mut Cursor<'_>) -> Result<Option<(u8, u8, u32)>, PieceError>
        ensures reads { Continues (λ x. ((x.0, x.1), x.2)) (moment (pair_head self.old) piece.old)
            (moment (pair_head self.new) piece.new) result }
        ensures taken { OkTakes piece.old piece.new result }
        ensures no_memory { result ≡ Err Memory → ⊥ }
    {
        match &mut self.step {
            PairStep::First => {
                let Some(value) = piece.next() else {
                    return Ok(None);
                };
                let mut part = PairSize {
                    key: self.key,
                    value,
                    size: Size::new(),
                };
                let head = part.more(piece)?;
                self.step = PairStep::Sized(part);
                Ok(head)
            }
            PairStep::Sized(part) => part.more(piece),
        }
    }
}

#[derive(Drop)]
pub(crate) enum MapStep {
    First,
    Keyed(PairHead),
}

/// The head of a map: the key type, the value type and the number of its pairs.
#[derive(Drop)]
pub struct MapHead {
    step: MapStep,
}

impl MapHead {
    /// Returns the state before the first byte.
    pub fn new() -> Self
        ensures fresh { (w : List ℕ) → map_head result w ≡ map_at w }
    {
        MapHead {
            step: MapStep::First,
        }
    }

    /// Continues with a piece. Returns the head once it is complete.
    #[tactic(auto, unfolding(thrift_binary::specs::Reading::map_at))]
    pub fn more(&mut self, piece: &mut Cursor<'_>) -> Result<Option<(u8, u8, u32)>, PieceError>
        ensures reads { Continues (λ x. ((x.0, x.1), x.2)) (moment (map_head self.old) piece.old)
            (moment (map_head self.new) piece.new) result }
        ensures taken { OkTakes piece.old piece.new result }
        ensures no_memory { result ≡ Err Memory → ⊥ }
    {
        match &mut self.step {
            MapStep::First => {
                let Some(key) = piece.next() else {
                    return Ok(None);
                };
                let mut part = PairHead {
                    key,
                    step: PairStep::First,
                };
                let head = part.more(piece)?;
                self.step = MapStep::Keyed(part);
                Ok(head)
            }
            MapStep::Keyed(part) => part.more(piece),
        }
    }
}
