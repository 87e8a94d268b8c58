ghost use Rattle.std.specs.Prelude.{◌≡◌, ◌≤◌, ℕ, List, Some, Err, true, length, OnOk};
ghost use Rattle.thrift_binary.specs.declared.fault.WireError.TheVariants.{Truncated};
ghost use Rattle.wire_pieces.specs.Pieces.{moment};
ghost use Rattle.batch_codec.specs.declared.fault.DecodeError.TheVariants.{Wire};
ghost use Rattle.struct_pieces.specs.declared.fields.Step.{Step};
ghost use Rattle.value_pieces.specs.ContinuedCalls.{BeginsValue};
ghost use Rattle.struct_pieces.specs.Fields.{made_of, struct_at, struct_from, struct_reading};
ghost use Rattle.value_pieces.specs.LeastBytes.{IsTooShort};

use crate::fields::{Fields, PieceSlots, Step, enter_fields, is_truncated, more_fields};
use batch_codec::Decoded;
use std::alloc::Global;
use std::mem;
use thrift_binary::Cursor;
use value_pieces::{Arrival, Item, Partial};
use wire_pieces::FieldHead;

/// A partially received struct.
#[derive(Drop)]
pub struct Struct<S: PieceSlots> {
    slots: S,
    step: Step<S::PartialField>,
}

impl<S: Fields> Partial for Struct<S> {
    type Value = S::Output;

    ghost resumes = { λ p. struct_from (struct_reading S.takes S.resumes S.makes) p.slots p.step };

    fn more(&mut self, alloc: Global, piece: &mut Cursor<'_>) -> Decoded<Option<S::Output>> {
        match more_fields(&mut self.slots, &mut self.step, alloc, piece)? {
            Arrival::Pending => Ok(None),
            Arrival::Complete => Ok(Some(self.take_made(alloc)?)),
        }
    }
}

impl<S: Fields> Item for Struct<S> {
    ghost reads = { struct_at S.takes S.none S.makes };

    ghost ends = { λ p. S.makes p.slots };

    fn min_bytes() -> usize {
        S::min_bytes()
    }

    fn is_between_fields(&self) -> bool {
        self.is_between()
    }

    fn begin(
        part: &mut Option<Self>,
        alloc: Global,
        piece: &mut Cursor<'_>,
    ) -> Decoded<Option<S::Output>> {
        let mut cursor = Cursor::new(piece.rest());
        match S::read_whole(alloc, &mut cursor) {
            Ok(Some(value)) => {
                *piece = cursor;
                Ok(Some(value))
            }
            Ok(None) => begin_fields(part, alloc, piece),
            Err(error) => {
                if is_truncated(error) {
                    begin_fields(part, alloc, piece)
                } else {
                    Err(error)
                }
            }
        }
    }

    #[inline(always)]
    fn arrive(&mut self, alloc: Global, piece: &mut Cursor<'_>) -> Decoded<Arrival> {
        more_fields(&mut self.slots, &mut self.step, alloc, piece)
    }

    fn take(&mut self, alloc: Global) -> Decoded<S::Output> {
        self.take_made(alloc)
    }
}

/// Begins a struct in a piece, field by field.
fn begin_fields<S: Fields>(
    part: &mut Option<Struct<S>>,
    alloc: Global,
    piece: &mut Cursor<'_>,
) -> Decoded<Option<S::Output>>
    ensures continues { BeginsValue (moment (struct_at S.takes S.none S.makes) piece.old)
        (record {
          resumes = λ p. struct_from (struct_reading S.takes S.resumes S.makes) p.slots p.step;
          part = part.new;
          left = piece.new;
        })
        result }
    ensures no_longer { OnOk result (length piece.new ≤ length piece.old) }
{
    let mut slots = S::start(alloc);
    let mut next = None;
    // For the prover: the match takes the cases of the clause `continues` apart.
    match enter_fields(&mut slots, &mut next, alloc, piece) {
        Err(error) => Err(error),
        Ok(Arrival::Complete) => made(slots),
        Ok(Arrival::Pending) => {
            hold(part, slots, next);
            Ok(None)
        }
    }
}

/// Stores the fields so far and the next step. It isn't inlined, so that a complete struct costs no such part.
#[inline(never)]
fn hold<S: PieceSlots>(part: &mut Option<Struct<S>>, slots: S, next: Option<Step<S::PartialField>>)
    ensures { (s : Step S.PartialField) → next ≡ Some s →
        part.new ≡ Some (record { slots = slots; step = s }) }
{
    // Impossible: `None`, since the value is pending. No clause says so.
    if let Some(step) = next {
        *part = Some(Struct { slots, step });
    }
}

/// Returns the struct of complete fields.
#[inline(always)]
fn made<S: PieceSlots>(slots: S) -> Decoded<Option<S::Output>>
    ensures { result ≡ made_of S.makes slots }
{
    Ok(Some(slots.whole()?))
}

impl<S: PieceSlots> Struct<S> {
    /// Returns whether it is between two fields of the innermost struct that has begun.
    pub fn is_between(&self) -> bool
        ensures wants { result ≡ true → (w : List ℕ) → IsTooShort w →
            struct_from (struct_reading S.takes S.resumes S.makes) self.now.slots self.now.step w ≡
            Err (Wire Truncated) }
    {
        match &self.step {
            Step::Head(head) => head.is_first(),
            Step::Value(held) => S::is_between_fields(held),
        }
    }

    /// Returns the state before the first byte.
    pub fn new(alloc: Global) -> Self
        ensures { (w : List ℕ) → struct_from (struct_reading S.takes S.resumes S.makes)
            result.slots result.step w ≡ struct_at S.takes S.none S.makes w }
    {
        Struct {
            slots: S::start(alloc),
            step: Step::Head(FieldHead::new()),
        }
    }

    /// Takes the struct of its complete fields, and resets the state to before the first byte of another. It isn't
    /// inlined, so that a call that continues inside a field has no struct in its stack frame.
    #[inline(never)]
    fn take_made(&mut self, alloc: Global) -> Decoded<S::Output>
        ensures made { result ≡ S.makes self.old.slots }
        ensures fresh { (w : List ℕ) → struct_from (struct_reading S.takes S.resumes S.makes)
            self.new.slots self.new.step w ≡ struct_at S.takes S.none S.makes w }
    {
        let slots = mem::replace(&mut self.slots, S::start(alloc));
        self.step = Step::Head(FieldHead::new());
        slots.whole()
    }
}
