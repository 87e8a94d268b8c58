//! Reads the lines of an input one at a time.
ghost use Rattle.std.specs.Prelude.{◌≡◌, ◌≤◌, ◌⊎◌, true, false, [], length, drop, take};
ghost use Rattle.std.specs.Prelude.{IfErr, IfOk, OnOk, vec_len, MatchBool};
ghost use Rattle.std.specs.Io.KnownBytes.{Keeps};
ghost use Rattle.session_devices.specs.Traffic.{traffic_of};
ghost use Rattle.text_lines.specs.Lines.{without_return};
ghost use Rattle.text_lines.specs.LineReads.{Feed, Fills, StopsReading, TakesLine, TakesNone, feed_moment};
ghost use Rattle.text_lines.specs.ReadCounts.{CountsReads, reads_of};
ghost use Rattle.text_lines.specs.RunErrors.{BothWork, Moves};
ghost use Rattle.text_lines.specs.declared.line_buffer.TheConstants.{READ_BYTES};

use crate::output_buffer::OutputBuffer;
use crate::run_error::RunError;
use memchr::memchr;
use session_devices::{Input, MAX_READS, Output};
use std::alloc::{AllocError, Global};
use std::marker::Model;

/// The number of bytes that a read asks for.
const READ_BYTES: usize = 65_536;

/// The bytes that were read and not yet returned as lines.
#[derive(Drop)]
pub struct LineBuffer {
    piece: Vec<u8>,
    at: usize,
    end: usize,
    reads_left: u64,
    ended: bool,
}

impl Model for LineBuffer {
    ghost Value = { Feed };

    ghost view = { λ s. record { waiting = drop s.at (take s.end s.piece.items); reads_left = s.reads_left; ended = s.ended } };

    ghost invariant = { λ s. (s.at ≤ s.end) × (s.end ≤ vec_len s.piece)
        × (vec_len s.piece ≡ READ_BYTES) };
}

impl LineBuffer {
    /// Creates a buffer before the first read.
    ///
    /// # Errors
    ///
    /// Out of memory, and nothing else.
    pub fn new(alloc: Global) -> Result<LineBuffer, AllocError>
        ensures { IfOk result (λ s.
            s ≡ record { waiting = []; reads_left = MAX_READS; ended = false }) }
    {
        let piece = vec![in alloc; 0u8; READ_BYTES]?;
        Ok(LineBuffer {
            piece,
            at: 0,
            end: 0,
            reads_left: MAX_READS,
            ended: false,
        })
    }

    fn waiting(&self) -> &[u8]
        ensures { result.now ≡ self.now.waiting }
    {
        &self.piece.as_slice()[self.at..self.end]
    }

    fn skip(&mut self, count: usize)
        requires { count ≤ length self.old.waiting }
        ensures { self.new ≡ record self.old { waiting = drop count self.old.waiting } }
    {
        self.at += count;
    }

    fn skip_all(&mut self)
        ensures { self.new ≡ record self.old { waiting = [] } }
    {
        self.at = self.end;
    }

    fn has_ended(&self) -> bool
        ensures { result ≡ self.now.ended }
    {
        self.ended
    }

    /// Makes one read.
    fn fill<R: Input>(&mut self, input: &mut R) -> Result<(), RunError>
        requires none { self.old.waiting ≡ [] }
        requires works { R.has_failed input.old ≡ false }
        ensures read { OnOk result (Fills (feed_moment (R.remaining input.old) self.old)
            (feed_moment (R.remaining input.new) self.new)) }
        ensures made { CountsReads (reads_of R.gives input.old input.new)
            self.old.reads_left self.new.reads_left }
        ensures works { OnOk result (R.has_failed input.new ≡ false) }
        ensures err { IfErr result (λ h. (h ≡ RunError.Device)
            × Keeps (R.remaining input.old) (R.remaining input.new)
            × ((R.has_failed input.new ≡ true) ⊎ (self.old.reads_left ≡ 0))) }
    {
        if self.reads_left == 0 {
            return Err(RunError::Device);
        }
        self.reads_left -= 1;
        self.at = 0;
        self.end = 0;
        let count = input.read(self.piece.as_mut_slice())?;
        self.end = count;
        self.ended = count == 0;
        Ok(())
    }

    /// Reads the next line into `line`, without its end, and returns whether there was one. A carriage return right
    /// before the line feed belongs to the line's end. What follows the last line feed is a line too, unless it is
    /// empty.
    ///
    /// The output buffer is flushed before each read, so the replies so far are visible while the input is awaited.
    ///
    /// # Errors
    ///
    /// A device failed, the limit of reads was reached, or memory ran out.
    pub fn next<R: Input, W: Output>(
        &mut self,
        input: &mut R,
        output: &mut W,
        buffer: &mut OutputBuffer,
        line: &mut Vec<u8>,
    ) -> Result<bool, RunError>
        requires input_works { R.has_failed input.old ≡ false }
        requires output_works { W.has_failed output.old ≡ false }
        ensures line { IfOk result (λ found. MatchBool found
            (TakesLine (feed_moment (R.remaining input.old) self.old)
            (feed_moment (R.remaining input.new) self.new) line.new.items)
            (TakesNone (feed_moment (R.remaining input.old) self.old)
            (feed_moment (R.remaining input.new) self.new))) }
        ensures made { CountsReads (reads_of R.gives input.old input.new)
            self.old.reads_left self.new.reads_left }
        ensures buffer { Moves (W.contents output.old) (W.contents output.new)
            buffer.old buffer.new }
        ensures works { OnOk result (BothWork (R.has_failed input.new) (W.has_failed output.new)) }
        ensures err { IfErr result (StopsReading self.old
            (traffic_of R.remaining R.has_failed input.old input.new) (W.has_failed output.new)) }
        ensures limit { IfErr result (λ h. h ≡ RunError.Device → R.has_failed input.new ≡ false
            → W.has_failed output.new ≡ false → self.new.reads_left ≡ 0) }
    {
        line.clear();
        // For the prover: its proof names the loop by the label.
        'pieces: loop {
            if let Some(count) = memchr(b'\n', self.waiting()) {
                line.extend_from_slice(&self.waiting()[..count])?;
                self.skip(count + 1);
                drop_return(line);
                return Ok(true);
            }
            line.extend_from_slice(self.waiting())?;
            self.skip_all();
            if self.has_ended() {
                return Ok(!line.is_empty());
            }
            buffer.flush(output)?;
            self.fill(input)?;
        }
    }
}

/// Removes a carriage return from the end of the line.
fn drop_return(line: &mut Vec<u8>)
    ensures { line.new.items ≡ without_return line.old.items }
{
    let last = line.as_slice().last().copied();
    if last == Some(b'\r') {
        line.truncate(line.len() - 1);
    }
}
