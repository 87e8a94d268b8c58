ghost use Rattle.std.specs.Prelude.{◌≡◌, ◌<◌, ◌≤◌, ◌+◌, ◌*◌, List, ℕ, [], ◌∷◌, ◌++◌, length, true, Ok, Err, OnOk, IfOk, MatchResult};
ghost use Rattle.thrift_binary.specs.Reading.{is_code};
ghost use Rattle.thrift_binary.specs.declared.fault.WireError.TheVariants.{BadType};
ghost use Rattle.thrift_binary.specs.Skipping.{is_container, skip_at, leaf, past};
ghost use Rattle.wire_pieces.specs.declared.fault.PieceError.TheVariants.{Wire, Memory};
ghost use Rattle.wire_pieces.specs.declared.skip.Current.TheVariants.{Nothing};
ghost use Rattle.wire_pieces.specs.Pieces.{Continues, moment};
ghost use Rattle.wire_pieces.specs.Frames.{now_at, opens, begun, rank, Progresses, Lightens};

use crate::fault::PieceError;
use crate::heads::{FieldHead, Head, ListHead};
use crate::maps::MapHead;
use crate::numbers::Size;
use crate::past::SkippedBytes;
use arrayvec::ArrayVec;
use thrift_binary::types::{self, is_container, width};
use thrift_binary::{Cursor, WireError};

/// The greatest number of frames: those of 64 levels of containers, and that of the value itself. Clauses write it out
/// on purpose.
const MAX_FRAMES: usize = thrift_binary::MAX_LEVELS as usize + 1;

/// The values that are left of a container after its head.
#[derive(Clone, Copy, Drop)]
pub(crate) enum Frame {
    /// The fields of a struct, from a head on.
    Fields,
    /// The elements of a list or set: their type and their number.
    Elements(u8, u32),
    /// The pairs of a map: the types of the keys and the values, and the number of pairs.
    Pairs(u8, u8, u32),
    /// The value of a pair, and the pairs after it.
    PairValue(u8, u8, u32),
}

/// No values.
impl Default for Frame {
    fn default() -> Self {
        Frame::Elements(0, 0)
    }
}

/// The part of a skipped value that is being read.
#[derive(Drop)]
pub(crate) enum Current {
    Nothing,
    Past(SkippedBytes),
    Size(Size),
    Field(FieldHead),
    List(ListHead),
    Map(MapHead),
}

/// The result of a step.
pub(crate) enum SkipProgress {
    /// Another step follows.
    Continue,
    /// The piece has ended before the value.
    NeedsMore,
    /// The value is complete.
    Complete,
}

/// A value of any type that is skipped, with at most 64 levels of containers. A bool may be any byte here, and a
/// string any bytes. It stores 8 bytes for each level, and never allocates.
#[derive(Drop)]
pub struct Skipping {
    now: Current,
    around: ArrayVec<Frame, MAX_FRAMES>,
    ghost room: { opens now + length around.items ≤ 65 },
}

/// Skips a number of bytes, which may be 0.
fn skip_bytes(size: u32) -> Current
    ensures reads { (levels : ℕ) (w : List ℕ) → now_at levels result w ≡ past size w }
    ensures rank { rank result ≤ 1 }
    ensures opens { opens result ≡ 0 }
{
    if size == 0 {
        return Current::Nothing;
    }
    Current::Past(SkippedBytes::new(size as usize))
}

/// Begins a value that is no container.
#[tactic(auto, unfolding(thrift_binary::specs::Skipping::text))]
fn leaf(code: u8) -> Result<Current, PieceError>
    ensures reads { MatchResult result (λ now. (levels : ℕ) (w : List ℕ) →
        now_at levels now w ≡ leaf code w)
        (λ e. (e ≡ Wire BadType) × ((w : List ℕ) → leaf code w ≡ Err BadType)) }
    ensures rank { IfOk result (λ now. rank now ≡ 0) }
    ensures opens { IfOk result (λ now. opens now ≡ 0) }
{
    if code == types::STRING {
        return Ok(Current::Size(Size::new()));
    }
    let width = width(code);
    if width == 0 {
        return Err(PieceError::Wire(WireError::BadType));
    }
    Ok(Current::Past(SkippedBytes::new(width)))
}

impl Skipping {
    ghost use Rattle.wire_pieces.specs.Skipped.{skipping, height, weight};

    /// Returns the state before the first byte of a value of the type.
    pub fn new(code: u8) -> Self
        requires table { is_code code ≡ true }
        ensures fresh { (w : List ℕ) → skipping result w ≡ skip_at code w }
    {
        let mut around = ArrayVec::new();
        around.push(Frame::Elements(code, 1));
        Skipping {
            now: Current::Nothing,
            around,
        }
    }

    /// Begins a container inside the innermost one.
    fn enter(&mut self, code: u8) -> Result<SkipProgress, PieceError>
        requires now { self.old.now ≡ Nothing }
        requires container { is_container code ≡ true }
        ensures progress { (piece : List ℕ) → Progresses
            (moment (begun code self.old.around.items) piece)
            (moment (skipping self.new) piece) result }
        ensures height { OnOk result (height self.new ≤ 2 * length self.old.around.items) }
        ensures no_memory { result ≡ Err Memory → ⊥ }
    {
        if self.around.is_full() {
            return Err(PieceError::Wire(WireError::TooDeep));
        }
        match code {
            types::STRUCT => self.now = Current::Field(FieldHead::new()),
            types::MAP => self.now = Current::Map(MapHead::new()),
            _ => self.now = Current::List(ListHead::new()),
        }
        Ok(SkipProgress::Continue)
    }

    /// Begins a value inside the innermost container, of which `rest` is left after it.
    fn begin(&mut self, code: u8, rest: Frame) -> Result<SkipProgress, PieceError>
        requires now { self.old.now ≡ Nothing }
        requires room { length self.old.around.items < 65 }
        ensures progress { (piece : List ℕ) →
            Progresses (moment (begun code (self.old.around.items ++ rest ∷ [])) piece)
            (moment (skipping self.new) piece) result }
        ensures height { OnOk result (height self.new ≤ 2 * length self.old.around.items + 2) }
        ensures no_memory { result ≡ Err Memory → ⊥ }
    {
        self.around.push(rest);
        if is_container(code) {
            return self.enter(code);
        }
        self.now = leaf(code)?;
        Ok(SkipProgress::Continue)
    }

    /// Continues between two values.
    fn between_values(&mut self) -> Result<SkipProgress, PieceError>
        requires now { self.old.now ≡ Nothing }
        ensures progress { (piece : List ℕ) → Progresses (moment (skipping self.old) piece)
            (moment (skipping self.new) piece) result }
        ensures lighter { Lightens (height self.old) (height self.new) result }
        ensures no_memory { result ≡ Err Memory → ⊥ }
    {
        match self.around.pop() {
            None => Ok(SkipProgress::Complete),
            Some(Frame::Fields) => {
                self.now = Current::Field(FieldHead::new());
                Ok(SkipProgress::Continue)
            }
            Some(Frame::Elements(code, left)) => match left.checked_sub(1) {
                None => Ok(SkipProgress::Continue),
                Some(left) => self.begin(code, Frame::Elements(code, left)),
            },
            Some(Frame::Pairs(key, value, left)) => match left.checked_sub(1) {
                None => Ok(SkipProgress::Continue),
                Some(left) => self.begin(key, Frame::PairValue(key, value, left)),
            },
            Some(Frame::PairValue(key, value, left)) => {
                self.begin(value, Frame::Pairs(key, value, left))
            }
        }
    }

    /// Continues inside a value.
    fn step(&mut self, piece: &mut Cursor<'_>) -> Result<SkipProgress, PieceError>
        ensures progress { Progresses (moment (skipping self.old) piece.old)
            (moment (skipping self.new) piece.new) result }
        ensures lighter { Lightens (weight self.old piece.old) (weight self.new piece.new) result }
        ensures no_longer { OnOk result (length piece.new ≤ length piece.old) }
        ensures no_memory { result ≡ Err Memory → ⊥ }
    {
        match &mut self.now {
            Current::Nothing => return self.between_values(),
            Current::Past(part) => {
                if part.more(piece).is_none() {
                    return Ok(SkipProgress::NeedsMore);
                }
                self.now = Current::Nothing;
            }
            Current::Size(part) => {
                let Some(size) = part.more(piece)? else {
                    return Ok(SkipProgress::NeedsMore);
                };
                self.now = skip_bytes(size);
            }
            Current::Field(part) => match part.more(piece)? {
                None => return Ok(SkipProgress::NeedsMore),
                Some(Head::Stop) => self.now = Current::Nothing,
                Some(Head::Field(code, _)) => {
                    self.now = Current::Nothing;
                    return self.begin(code, Frame::Fields);
                }
            },
            Current::List(part) => {
                let Some((code, size)) = part.more(piece)? else {
                    return Ok(SkipProgress::NeedsMore);
                };
                self.now = Current::Nothing;
                self.around.push(Frame::Elements(code, size));
            }
            Current::Map(part) => {
                let Some((key, value, size)) = part.more(piece)? else {
                    return Ok(SkipProgress::NeedsMore);
                };
                self.now = Current::Nothing;
                self.around.push(Frame::Pairs(key, value, size));
            }
        }
        Ok(SkipProgress::Continue)
    }

    /// Continues with a piece. Returns `()` once the value has been skipped. It takes no memory.
    pub fn more(&mut self, piece: &mut Cursor<'_>) -> Result<Option<()>, PieceError>
        ensures reads { Continues (λ x. x) (moment (skipping self.old) piece.old)
            (moment (skipping self.new) piece.new) result }
        ensures no_longer { OnOk result (length piece.new ≤ length piece.old) }
        ensures no_memory { result ≡ Err Memory → ⊥ }
    {
        loop {
            match self.step(piece)? {
                SkipProgress::Continue => {}
                SkipProgress::NeedsMore => return Ok(None),
                SkipProgress::Complete => return Ok(Some(())),
            }
        }
    }
}
