ghost use Rattle.std.specs.Prelude.{◌≡◌, ◌≤◌, ℕ, ℤ, List, Result, Err, true, length, OnOk};
ghost use Rattle.thrift_binary.specs.declared.fault.WireError.TheVariants.{Truncated};
ghost use Rattle.thrift_binary.specs.Reading.{field_at, is_code};
ghost use Rattle.thrift_binary.specs.Fields.{fields_at};
ghost use Rattle.thrift_binary.specs.Cuts.{IsCutSafe};
ghost use Rattle.wire_pieces.specs.Heads.{fields_value};
ghost use Rattle.wire_pieces.specs.Pieces.{moment};
ghost use Rattle.batch_codec.specs.Changes.{change};
ghost use Rattle.batch_codec.specs.declared.fault.DecodeError.{DecodeError};
ghost use Rattle.batch_codec.specs.declared.fault.DecodeError.TheVariants.{Wire};
ghost use Rattle.batch_codec.specs.Decoding.{wire};
ghost use Rattle.value_pieces.specs.ContinuedCalls.{Attempts, Enters, ContinuesTo, IsTruncated};
ghost use Rattle.struct_pieces.specs.TriedFields.{Tries};
ghost use Rattle.struct_pieces.specs.Fields.{IsFresh, Opens, ReadsFields, fields_from, struct_at};
ghost use Rattle.value_pieces.specs.LeastBytes.{IsTooShort, least_bytes};

use batch_codec::{DecodeError, Decoded};
use std::alloc::Global;
use thrift_binary::{Cursor, WireError};
use value_pieces::{Arrival, fault_of};
use wire_pieces::{FieldHead, Head};

/// Whether the value of a field was read where it is in the piece.
pub enum InPlace {
    /// The value was read or skipped.
    Read,
    /// Nothing was read: the value is to be begun in pieces.
    Deferred,
}

/// The fields of a struct that were read so far.
///
/// Its impls are one table in parts, of the same form for each struct: a match lists the types and ids of the fields
/// with the part that reads the value of each.
pub trait PieceSlots: Drop + Sized {
    /// The partially received value of a field.
    type PartialField: Drop;

    /// The struct.
    type Output: Drop;

    /// How a field of a type and id changes the fields so far.
    ghost takes: { Self → ℕ → ℤ → List ℕ → Result (Self × List ℕ) DecodeError };

    /// How a field whose value has begun changes the fields so far.
    ghost resumes: { Self → Self.PartialField → List ℕ → Result (Self × List ℕ) DecodeError };

    /// The state before the first field.
    ghost none: { Self };

    /// The struct of the fields at the stop byte.
    ghost makes: { Self → Result Self.Output DecodeError };

    /// Returns the least number of bytes of the struct.
    fn min_bytes() -> usize;

    fn start(alloc: Global) -> Self
        ensures { result ≡ none };

    /// Reads or skips the value of a field if it is complete. It defers lists of structs, and the process of a batch.
    fn put(&mut self, code: u8, id: i16, alloc: Global, cursor: &mut Cursor<'_>) -> Decoded<InPlace>
        ensures tries { Tries (takes self.old code id) (change self.old self.new)
            (change cursor.old cursor.new) result }
        ensures no_longer { OnOk result (length cursor.new ≤ length cursor.old) };

    /// Returns the state before the first byte of a field's value.
    fn begin(&self, code: u8, id: i16, alloc: Global) -> Self::PartialField
        requires { is_code code ≡ true }
        ensures fresh { (w : List ℕ) → resumes self.now result w ≡ takes self.now code id w };

    /// Continues a field's value with a piece.
    fn more(
        &mut self,
        held: &mut Self::PartialField,
        alloc: Global,
        piece: &mut Cursor<'_>,
    ) -> Decoded<Arrival>
        ensures continues { ContinuesTo self.new (moment (resumes self.old held.old) piece.old)
            (moment (resumes self.new held.new) piece.new) result }
        ensures no_longer { OnOk result (length piece.new ≤ length piece.old) };

    /// Returns whether the value is between two fields of the innermost struct that has begun in it.
    fn is_between_fields(held: &Self::PartialField) -> bool
        ensures wants { result ≡ true → (s : Self) (w : List ℕ) → IsTooShort w →
            resumes s held.now w ≡ Err (Wire Truncated) };

    fn whole(self) -> Decoded<Self::Output>
        ensures { result ≡ makes self };

    /// The faults of a field's value have places.
    ghost safe: { (s : Self) (c : ℕ) (i : ℤ) → IsCutSafe (Wire Truncated) (takes s c i) };

    /// A missing field isn't reported as too few bytes.
    ghost not_short: { (s : Self) → makes s ≡ Err (Wire Truncated) → ⊥ };

    /// With fewer bytes than every value of the type has, reading a field yields too few bytes.
    ghost short: { (s : Self) (c : ℕ) (i : ℤ) (w : List ℕ) → least_bytes c w ≡ Err Truncated → takes s c i w ≡ Err (Wire Truncated) };
}

/// The fields of a struct that were read so far, for the fields that begin in a piece.
pub trait Fields: PieceSlots {
    /// Begins the value of a field in a piece, and stores the part of it that has arrived if it isn't complete.
    fn enter(
        &mut self,
        next: &mut Option<Step<Self::PartialField>>,
        code: u8,
        id: i16,
        alloc: Global,
        piece: &mut Cursor<'_>,
    ) -> Decoded<Arrival>
        requires { is_code code ≡ true }
        ensures continues { Opens self.new (moment (Self.takes self.old code id) piece.old)
            (record { resumes = Self.resumes self.new; next = next.new; left = piece.new }) result }
        ensures no_longer { OnOk result (length piece.new ≤ length piece.old) }
    {
        enter_in_pieces(self, next, code, id, alloc, piece)
    }

    /// Reads the struct if the bytes have all of it. Otherwise it takes nothing, and the struct is read in pieces.
    #[inline(always)]
    fn read_whole(_alloc: Global, _cursor: &mut Cursor<'_>) -> Decoded<Option<Self::Output>>
        ensures attempts { Attempts (struct_at Self.takes Self.none Self.makes)
            _cursor.old _cursor.new result }
        ensures no_longer { OnOk result (length _cursor.new ≤ length _cursor.old) }
    {
        Ok(None)
    }
}

/// The state of a struct's fields between two pieces.
#[derive(Drop)]
pub enum Step<V> {
    Head(FieldHead),
    Value(V),
}

/// Where the complete fields end: at the stop byte, at the value of a field, or inside a head.
#[derive(Clone, Copy)]
pub(crate) enum FieldsEnd {
    Stop,
    Value(u8, i16),
    Head,
}

/// Returns whether the fault is too few bytes.
#[inline(always)]
pub(crate) fn is_truncated(error: DecodeError) -> bool
    ensures { IsTruncated error result }
{
    matches!(error, DecodeError::Wire(WireError::Truncated))
}

/// Reads complete fields without copying them, from the first byte of a head on.
#[inline(always)]
fn read_fields<S: PieceSlots>(
    slots: &mut S,
    alloc: Global,
    piece: &mut Cursor<'_>,
) -> Decoded<FieldsEnd>
    ensures reads { ReadsFields S.takes (change slots.old slots.new) (change piece.old piece.new)
        result }
    ensures no_longer { OnOk result (length piece.new ≤ length piece.old) }
{
    let mut cursor = Cursor::new(piece.rest());
    loop {
        let head = cursor.rest();
        let field = match cursor.field() {
            Err(error) => {
                if !is_truncated(DecodeError::Wire(error)) {
                    return Err(DecodeError::Wire(error));
                }
                *piece = Cursor::new(head);
                return Ok(FieldsEnd::Head);
            }
            Ok(field) => field,
        };
        let value = cursor.rest();
        let Some((code, id)) = field else {
            *piece = cursor;
            return Ok(FieldsEnd::Stop);
        };
        match slots.put(code, id, alloc, &mut cursor) {
            Ok(InPlace::Read) => {}
            Ok(InPlace::Deferred) => {
                *piece = Cursor::new(value);
                return Ok(FieldsEnd::Value(code, id));
            }
            Err(error) => {
                if !is_truncated(error) {
                    return Err(error);
                }
                *piece = Cursor::new(value);
                return Ok(FieldsEnd::Value(code, id));
            }
        }
    }
}

/// Begins the value of a field in a piece that may end before the value does.
#[inline(never)]
pub(crate) fn enter_in_pieces<S: PieceSlots>(
    slots: &mut S,
    next: &mut Option<Step<S::PartialField>>,
    code: u8,
    id: i16,
    alloc: Global,
    piece: &mut Cursor<'_>,
) -> Decoded<Arrival>
    requires { is_code code ≡ true }
    ensures continues { Opens slots.new (moment (S.takes slots.old code id) piece.old)
        (record { resumes = S.resumes slots.new; next = next.new; left = piece.new }) result }
    ensures no_longer { OnOk result (length piece.new ≤ length piece.old) }
{
    let mut value = slots.begin(code, id, alloc);
    match slots.more(&mut value, alloc, piece)? {
        Arrival::Complete => Ok(Arrival::Complete),
        Arrival::Pending => {
            *next = Some(Step::Value(value));
            Ok(Arrival::Pending)
        }
    }
}

/// Stores the first bytes of a head, for which the piece is too short. For the prover: only clauses name `_slots`.
#[inline(never)]
fn enter_head<S: PieceSlots>(
    _slots: &S,
    next: &mut Option<Step<S::PartialField>>,
    piece: &mut Cursor<'_>,
) -> Decoded<Arrival>
    requires { field_at piece.old ≡ Err Truncated }
    ensures continues { Enters _slots.now (moment (fields_at wire S.takes _slots.now) piece.old)
        (record {
          resumes = fields_from S.takes S.resumes _slots.now;
          part = next.new;
          left = piece.new;
        })
        result }
    ensures no_longer { OnOk result (length piece.new ≤ length piece.old) }
{
    let mut head = FieldHead::new();
    match head.more(piece) {
        Err(error) => Err(fault_of(error)),
        Ok(_) => {
            *next = Some(Step::Head(head));
            Ok(Arrival::Pending)
        }
    }
}

/// Reads fields from the first byte of a head on, up to the stop byte. It stores the state if the piece ends before.
#[inline(always)]
pub(crate) fn enter_fields<S: Fields>(
    slots: &mut S,
    next: &mut Option<Step<S::PartialField>>,
    alloc: Global,
    piece: &mut Cursor<'_>,
) -> Decoded<Arrival>
    ensures continues { Enters slots.new (moment (fields_at wire S.takes slots.old) piece.old)
        (record {
          resumes = fields_from S.takes S.resumes slots.new;
          part = next.new;
          left = piece.new;
        })
        result }
    ensures no_longer { OnOk result (length piece.new ≤ length piece.old) }
{
    loop {
        // For the prover: the matches take the cases of the clauses `reads` and `continues` apart.
        match read_fields(slots, alloc, piece) {
            Err(error) => return Err(error),
            Ok(FieldsEnd::Stop) => return Ok(Arrival::Complete),
            Ok(FieldsEnd::Head) => return enter_head(slots, next, piece),
            Ok(FieldsEnd::Value(code, id)) => match slots.enter(next, code, id, alloc, piece) {
                Err(error) => return Err(error),
                Ok(Arrival::Pending) => return Ok(Arrival::Pending),
                Ok(Arrival::Complete) => {}
            },
        }
    }
}

/// Stores a partially received value as the next step.
#[inline(always)]
pub(crate) fn hold_next<V: Drop>(next: &mut Option<V>, step: V)
    ensures { next.new ≡ Some step }
{
    // For the prover: the call is generic in the value, so that the old one is dropped without its type being opened.
    *next = Some(step);
}

/// Stores the next step. If all fields are complete there is none; if one is pending there always is, which no clause says.
fn set_step<V: Drop>(step: &mut Step<V>, next: Option<Step<V>>)
    ensures { (s : Step V) → next ≡ Some s → step.new ≡ s }
{
    if let Some(next) = next {
        *step = next;
    }
}

/// Reads fields up to the stop byte, and stores what has arrived of the last one. It isn't inlined, so that a call
/// that continues inside a value has no such part in its stack frame.
#[inline(never)]
fn hold_fields<S: Fields>(
    slots: &mut S,
    step: &mut Step<S::PartialField>,
    alloc: Global,
    piece: &mut Cursor<'_>,
) -> Decoded<Arrival>
    ensures continues { ContinuesTo slots.new (moment (fields_at wire S.takes slots.old) piece.old)
        (moment (fields_from S.takes S.resumes slots.new step.new) piece.new) result }
    ensures no_longer { OnOk result (length piece.new ≤ length piece.old) }
{
    let mut next = None;
    let result = enter_fields(slots, &mut next, alloc, piece);
    set_step(step, next);
    result
}

/// Begins the value of a field, and reads the fields after it. It isn't inlined, for the same reason as `hold_fields`.
#[inline(never)]
fn hold_field<S: Fields>(
    slots: &mut S,
    step: &mut Step<S::PartialField>,
    code: u8,
    id: i16,
    alloc: Global,
    piece: &mut Cursor<'_>,
) -> Decoded<Arrival>
    requires { is_code code ≡ true }
    ensures continues { ContinuesTo slots.new
        (moment (fields_value wire S.takes (S.takes slots.old code id)) piece.old)
        (moment (fields_from S.takes S.resumes slots.new step.new) piece.new) result }
    ensures no_longer { OnOk result (length piece.new ≤ length piece.old) }
{
    let mut next = None;
    match slots.enter(&mut next, code, id, alloc, piece)? {
        Arrival::Complete => hold_fields(slots, step, alloc, piece),
        Arrival::Pending => {
            set_step(step, next);
            Ok(Arrival::Pending)
        }
    }
}

/// Reads fields from the first byte of a head on. If the piece ends before a head, the step is such a head again.
#[inline(never)]
fn read_on<S: Fields>(
    slots: &mut S,
    step: &mut Step<S::PartialField>,
    alloc: Global,
    piece: &mut Cursor<'_>,
) -> Decoded<Arrival>
    requires { IsFresh S.takes S.resumes step.old }
    ensures continues { ContinuesTo slots.new (moment (fields_at wire S.takes slots.old) piece.old)
        (moment (fields_from S.takes S.resumes slots.new step.new) piece.new) result }
    ensures no_longer { OnOk result (length piece.new ≤ length piece.old) }
{
    // For the prover: the match takes the cases of the clause `reads` apart.
    match read_fields(slots, alloc, piece) {
        Err(error) => Err(error),
        Ok(FieldsEnd::Stop) => Ok(Arrival::Complete),
        Ok(FieldsEnd::Head) => {
            if piece.is_empty() {
                return Ok(Arrival::Pending);
            }
            hold_fields(slots, step, alloc, piece)
        }
        Ok(FieldsEnd::Value(code, id)) => hold_field(slots, step, code, id, alloc, piece),
    }
}

/// Continues with a piece, up to the stop byte.
#[inline(always)]
pub(crate) fn more_fields<S: Fields>(
    slots: &mut S,
    step: &mut Step<S::PartialField>,
    alloc: Global,
    piece: &mut Cursor<'_>,
) -> Decoded<Arrival>
    ensures continues { ContinuesTo slots.new
        (moment (fields_from S.takes S.resumes slots.old step.old) piece.old)
        (moment (fields_from S.takes S.resumes slots.new step.new) piece.new) result }
    ensures no_longer { OnOk result (length piece.new ≤ length piece.old) }
{
    match step {
        Step::Head(head) => {
            if head.is_first() {
                return read_on(slots, step, alloc, piece);
            }
            match head.more(piece) {
                Err(error) => Err(fault_of(error)),
                Ok(None) => Ok(Arrival::Pending),
                Ok(Some(Head::Stop)) => Ok(Arrival::Complete),
                Ok(Some(Head::Field(code, id))) => hold_field(slots, step, code, id, alloc, piece),
            }
        }
        // For the prover: the match takes the cases of the clause `continues` apart.
        Step::Value(held) => match slots.more(held, alloc, piece) {
            Err(error) => Err(error),
            Ok(Arrival::Pending) => Ok(Arrival::Pending),
            Ok(Arrival::Complete) => hold_fields(slots, step, alloc, piece),
        },
    }
}
