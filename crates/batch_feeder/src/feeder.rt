ghost use Rattle.std.specs.Prelude.{◌≡◌, ◌<◌, ◌≤◌, List, ℕ, [], ◌∷◌, Err, flat_map};
ghost use Rattle.thrift_binary.specs.declared.fault.WireError.TheVariants.{Truncated};
ghost use Rattle.batch_codec.specs.declared.fault.DecodeError.TheVariants.{Wire};
ghost use Rattle.batch_codec.specs.BatchReading.{decoded};
ghost use Rattle.batch_codec.specs.Decoding.{Gives};
ghost use Rattle.batch_feeder.specs.declared.feeder.State.TheVariants.{Whole, Failed};
ghost use Rattle.value_pieces.specs.LeastBytes.{AreQuiet, least};
ghost use Rattle.batch_feeder.specs.FeederResults.{IsSettled, IsBetweenFields, Holds, Ends, Advances, Feeds, Keeps, answers_of};

use batch_codec::{BatchSlots, DecodeError, Decoded};
use jaeger_model::Batch;
use std::alloc::Global;
use struct_pieces::Struct;
use thrift_binary::types::{LIST, MAP, SET, STOP, STRING, STRUCT, width};
use thrift_binary::{Cursor, WireError};
use value_pieces::{Arrival, Item};
use wire_pieces::size_of;

/// A piece of at most this number of bytes is taken byte by byte.
const SHORT: usize = 8;

/// The state of a batch between two pieces.
#[derive(Drop)]
pub(crate) enum State {
    Reading(Struct<BatchSlots>),
    Whole(Batch),
    Failed(DecodeError),
}

/// Assigns a value.
#[inline]
fn assign<V: Drop>(place: &mut V, value: V)
    ensures { place.new ≡ value }
{
    // For the prover: the call is generic in the value, so that the old one is dropped without its type being opened.
    *place = value;
}

/// Stores the complete batch. It isn't inlined, so that a call that continues has no `State` in its stack frame.
#[inline(never)]
fn complete(state: &mut State, batch: Batch)
    ensures { state.new ≡ Whole batch }
{
    assign(state, State::Whole(batch));
}

/// Stores the error. It isn't inlined, for the same reason as [`complete`].
#[inline(never)]
fn fail(state: &mut State, error: DecodeError)
    ensures { state.new ≡ Failed error }
{
    assign(state, State::Failed(error));
}

/// Checks that nothing follows the batch.
fn end_of(left: &Cursor<'_>) -> Decoded<()>
    ensures { Ends left.now result }
{
    if left.is_empty() {
        return Ok(());
    }
    Err(DecodeError::Trailing)
}

/// Continues with a piece. After an error the state must be discarded.
fn advance(state: &mut State, alloc: Global, piece: &[u8]) -> Decoded<()>
    requires { IsSettled state.old }
    ensures { Advances state.old state.new piece.now result }
{
    let mut left = Cursor::new(piece);
    match state {
        State::Reading(reading) => {
            // For the prover: the match takes the cases of the clause `continues` apart.
            match reading.arrive(alloc, &mut left) {
                Err(error) => return Err(error),
                Ok(Arrival::Pending) => return Ok(()),
                Ok(Arrival::Complete) => {}
            }
            let batch = reading.take(alloc)?;
            complete(state, batch);
            end_of(&left)
        }
        State::Whole(_) => end_of(&left),
        State::Failed(error) => Err(*error),
    }
}

/// Continues with a piece, and stores an error. `wanted` becomes the number of bytes to wait for, 0 if each byte is
/// read as it arrives.
#[inline(never)]
fn advance_or_fail(
    state: &mut State,
    wanted: &mut usize,
    alloc: Global,
    piece: &[u8],
) -> Decoded<()>
    requires { IsSettled state.old }
    ensures feeds { Feeds (answers_of state.old) (answers_of state.new) piece.now result }
    ensures settled { IsSettled state.new }
    ensures holds { Holds state.new [] wanted.new }
{
    match advance(state, alloc, piece) {
        Err(error) => {
            fail(state, error);
            *wanted = 0;
            Err(error)
        }
        Ok(()) => {
            *wanted = wanted_between_fields(state);
            Ok(())
        }
    }
}

/// Reads the waiting bytes. None waits after that.
fn advance_over_waiting(
    state: &mut State,
    waiting: &mut Vec<u8>,
    wanted: &mut usize,
    alloc: Global,
) -> Decoded<()>
    requires { IsSettled state.old }
    ensures feeds { Feeds (answers_of state.old) (answers_of state.new) waiting.old.items result }
    ensures settled { IsSettled state.new }
    ensures holds { Holds state.new [] wanted.new }
    ensures empty { waiting.new.items ≡ [] }
{
    let result = advance_or_fail(state, wanted, alloc, waiting.as_slice());
    waiting.clear();
    result
}

/// Returns 1 if the state is between two fields of the innermost struct that has begun, else 0.
fn wanted_between_fields(state: &State) -> usize
    ensures wants { 0 < result → IsBetweenFields state.now }
    ensures one { result ≤ 1 }
{
    match state {
        State::Reading(reading) => {
            if reading.is_between() {
                return 1;
            }
            0
        }
        State::Whole(_) => 0,
        State::Failed(_) => 0,
    }
}

/// Returns the least number of bytes of a value of the type.
fn min_bytes(code: u8) -> usize
    ensures table { result ≡ least code }
{
    match code {
        STRING => 4,
        STRUCT => 1,
        MAP => 6,
        SET | LIST => 5,
        _ => width(code),
    }
}

/// Returns the number of bytes to wait for after these, the first ones of a field, before it can have a fault.
fn wanted(bytes: &[u8]) -> usize
    ensures quiet { AreQuiet bytes.now result }
{
    match bytes {
        [] => 1,
        [code] => wanted_of_type(*code),
        [STRING, _, _, size @ ..] => wanted_of_string(size),
        _ => 0,
    }
}

/// Returns the number of bytes to wait for after the type of a field.
fn wanted_of_type(code: u8) -> usize
    ensures quiet { AreQuiet (code ∷ []) result }
{
    if code == STOP {
        return 0;
    }
    2 + min_bytes(code)
}

/// Returns the number of bytes to wait for after the head of a string field and the string's size.
fn wanted_of_string(size: &[u8]) -> usize
    ensures quiet { (a b : ℕ) → AreQuiet (STRING ∷ a ∷ b ∷ size.now) result }
{
    match size_of(size) {
        Some(length) => length as usize,
        None => 0,
    }
}

/// Returns the number of bytes to wait for after these, if the last of them was the last one wanted; 0 if none was.
#[inline]
fn still_wanted(before: usize, bytes: &[u8]) -> usize
    ensures quiet { AreQuiet bytes.now result }
    ensures begun { 0 < result → 0 < before }
{
    if before == 0 {
        return 0;
    }
    wanted(bytes)
}

/// Decodes a batch whose bytes arrive in pieces.
///
/// The bytes of a short piece wait until their field is complete or may have a fault, and are then read together.
#[derive(Drop)]
pub struct Feeder {
    state: State,
    /// The bytes of a field that `state` hasn't read.
    waiting: Vec<u8>,
    /// The number of bytes to wait for before they are read; 0 if each byte is read as it arrives.
    wanted: usize,
    ghost settled: { IsSettled state },
    ghost holds: { Holds state waiting.items wanted },
}

impl Feeder {
    ghost use Rattle.batch_feeder.specs.FeederAnswers.{answers};

    /// Returns a feeder before the first byte. Whatever bytes follow, it returns what decoding them returns.
    pub fn new(alloc: Global) -> Self
        ensures decodes { (w : List ℕ) → answers result w ≡ decoded w }
    {
        Feeder {
            state: State::Reading(Struct::new(alloc)),
            waiting: Vec::new(alloc),
            wanted: 0,
        }
    }

    /// Takes the next piece.
    ///
    /// # Errors
    ///
    /// The first fault of the bytes so far, as soon as its last byte has arrived, unless it is too few bytes; or
    /// [`DecodeError::Memory`]. Every later call returns the same error, whatever follows: a feeder that has failed
    /// doesn't run out of memory.
    pub fn feed(&mut self, alloc: Global, piece: &[u8]) -> Decoded<()>
        ensures feeds { Feeds (answers self.old) (answers self.new) piece.now result }
    {
        if let [byte] = piece {
            return self.feed_byte(alloc, *byte);
        }
        self.feed_bytes(alloc, piece)
    }

    /// Takes a piece that isn't a single byte. It takes a short one byte by byte, since it probably ends inside a field.
    #[inline(never)]
    fn feed_bytes(&mut self, alloc: Global, piece: &[u8]) -> Decoded<()>
        ensures feeds { Feeds (answers self.old) (answers self.new) piece.now result }
    {
        if piece.is_empty() || piece.len() > SHORT {
            return self.feed_long(alloc, piece);
        }
        for byte in piece {
            self.feed_byte(alloc, *byte)?;
        }
        Ok(())
    }

    /// Takes a byte.
    #[inline(always)]
    fn feed_byte(&mut self, alloc: Global, byte: u8) -> Decoded<()>
        ensures feeds { Feeds (answers self.old) (answers self.new) (byte ∷ []) result }
    {
        if self.wanted > 1 && self.waiting.len() < self.waiting.capacity() {
            self.waiting.push_reserved(byte);
            self.wanted -= 1;
            return Ok(());
        }
        self.feed_byte_slow_path(alloc, byte)
    }

    /// Takes a byte that is read at once, or for which the buffer may have no room.
    #[inline(never)]
    fn feed_byte_slow_path(&mut self, alloc: Global, byte: u8) -> Decoded<()>
        ensures feeds { Feeds (answers self.old) (answers self.new) (byte ∷ []) result }
    {
        if self.wanted > 1 {
            return self.buffer_byte(byte);
        }
        self.feed_last(alloc, byte)
    }

    /// Appends a byte that can't have a fault to the waiting ones.
    fn buffer_byte(&mut self, byte: u8) -> Decoded<()>
        requires { 1 < self.old.wanted }
        ensures feeds { Feeds (answers self.old) (answers self.new) (byte ∷ []) result }
    {
        match self.waiting.push(byte) {
            Err(_) => self.fail(DecodeError::Memory),
            Ok(()) => {
                self.wanted -= 1;
                Ok(())
            }
        }
    }

    /// Takes the last byte that was wanted, or one if none was. It doesn't allocate to store the byte.
    fn feed_last(&mut self, alloc: Global, byte: u8) -> Decoded<()>
        requires { self.old.wanted ≤ 1 }
        ensures feeds { Feeds (answers self.old) (answers self.new) (byte ∷ []) result }
    {
        if self.wanted == 0 {
            return advance_or_fail(&mut self.state, &mut self.wanted, alloc, &[byte]);
        }
        match self.waiting.push(byte) {
            Err(_) => self.fail(DecodeError::Memory),
            Ok(()) => {
                let more = still_wanted(self.wanted, self.waiting.as_slice());
                if more > 0 {
                    self.wanted = more;
                    return Ok(());
                }
                advance_over_waiting(&mut self.state, &mut self.waiting, &mut self.wanted, alloc)
            }
        }
    }

    /// Stores the error, which every later call returns.
    #[inline(never)]
    fn fail(&mut self, error: DecodeError) -> Decoded<()>
        requires { error ≡ Wire Truncated → ⊥ }
        ensures fails { result ≡ Err error }
        ensures stays { (w : List ℕ) → answers self.new w ≡ Err error }
    {
        fail(&mut self.state, error);
        self.waiting.clear();
        self.wanted = 0;
        Err(error)
    }

    /// Reads the waiting bytes and then a piece, without copying the piece.
    #[inline(never)]
    fn feed_long(&mut self, alloc: Global, piece: &[u8]) -> Decoded<()>
        ensures feeds { Feeds (answers self.old) (answers self.new) piece.now result }
    {
        // For the prover: the match takes the cases of the clause `keeps` apart.
        match self.read_waiting(alloc) {
            Err(error) => Err(error),
            Ok(()) => advance_or_fail(&mut self.state, &mut self.wanted, alloc, piece),
        }
    }

    /// Reads the waiting bytes.
    fn read_waiting(&mut self, alloc: Global) -> Decoded<()>
        ensures keeps { Keeps (answers self.old) (answers self.new) result }
        ensures empty { self.new.waiting.items ≡ [] }
    {
        if self.waiting.is_empty() {
            return Ok(());
        }
        advance_over_waiting(&mut self.state, &mut self.waiting, &mut self.wanted, alloc)
    }

    /// Returns what decoding the joined pieces returns: the batch that all of the bytes spell, or the first fault. It
    /// doesn't allocate.
    ///
    /// # Errors
    ///
    /// The error that [`Feeder::feed`] returned, if it did; otherwise that there are too few bytes.
    pub fn finish(self) -> Decoded<Batch>
        ensures gives { result ≡ answers self [] }
    {
        // For the prover: its borrow checker doesn't cover moving out of a part of a part, `self.state`.
        let state = self.state;
        match state {
            State::Reading(reading) => {
                // For the prover: an explicit drop is cheaper than one at the end of the block.
                drop(reading);
                Err(DecodeError::Wire(WireError::Truncated))
            }
            State::Whole(batch) => Ok(batch),
            State::Failed(error) => Err(error),
        }
    }
}

/// Decodes the joined pieces, however they are cut. Only tests call it: a session feeds its pieces as they come.
///
/// # Errors
///
/// The first fault from left to right, or [`DecodeError::Memory`].
pub fn decode_pieces(alloc: Global, pieces: &[Vec<u8>]) -> Decoded<Batch>
    ensures gives { Gives result (decoded (flat_map (λ p. p.items) pieces.now)) }
{
    let mut feeder = Feeder::new(alloc);
    for piece in pieces {
        if let Err(error) = feeder.feed(alloc, piece.as_slice()) {
            // For the prover: an explicit drop is cheaper than one at the end of the block.
            drop(feeder);
            return Err(error);
        }
    }
    feeder.finish()
}
