ghost use Rattle.std.specs.Prelude.{◌≡◌, ◌≤◌, ◌++◌, [], false, true, IfErr, IfOk, OnErr, OnOk, drop, length, vec_len};
ghost use Rattle.session_devices.specs.Traffic.{traffic_of};
ghost use Rattle.text_lines.specs.RunErrors.{Moves, WritesText};

use crate::run_error::RunError;
use session_devices::Output;
use std::alloc::{AllocError, Global};
use std::marker::Model;

/// The number of waiting bytes from which [`OutputBuffer::flush_if_large`] writes them.
const FLUSH_AT: usize = 65_536;

/// Text that waits to be written.
#[derive(Drop)]
pub struct OutputBuffer {
    text: Vec<u8>,
    at: usize,
}

impl Model for OutputBuffer {
    ghost use Rattle.std.specs.Prelude.{List, ℕ, drop, vec_len, ◌≤◌};

    ghost Value = { List ℕ };

    ghost view = { λ s. drop s.at s.text.items };

    ghost invariant = { λ s. s.at ≤ vec_len s.text };
}

impl OutputBuffer {
    /// Creates an empty buffer.
    pub fn new(alloc: Global) -> OutputBuffer
        ensures { result ≡ [] }
    {
        OutputBuffer {
            text: Vec::new(alloc),
            at: 0,
        }
    }

    /// Appends text.
    ///
    /// # Errors
    ///
    /// Out of memory. The buffer is unchanged.
    pub fn push(&mut self, text: &[u8]) -> Result<(), AllocError>
        ensures ok { OnOk result (self.new ≡ self.old ++ text.now) }
        ensures err { OnErr result (self.new ≡ self.old) }
    {
        self.text.extend_from_slice(text)
    }

    /// Writes all of the waiting text.
    ///
    /// # Errors
    ///
    /// The output failed. What it didn't take stays in the buffer.
    pub fn flush<W: Output>(&mut self, output: &mut W) -> Result<(), RunError>
        requires { W.has_failed output.old ≡ false }
        ensures moves { Moves (W.contents output.old) (W.contents output.new) self.old self.new }
        ensures ok { OnOk result (self.new ≡ []) }
        ensures works { OnOk result (W.has_failed output.new ≡ false) }
        ensures err { IfErr result (λ h. (h ≡ RunError.Device) × (W.has_failed output.new ≡ true)) }
    {
        // For the prover: its proof names the loop by the label.
        'writes: while self.at < self.text.len() {
            let count = output.write(&self.text.as_slice()[self.at..])?;
            self.at += count;
        }
        self.text.clear();
        self.at = 0;
        Ok(())
    }

    /// Writes all of the waiting text if it is large.
    ///
    /// # Errors
    ///
    /// The output failed. What it didn't take stays in the buffer.
    pub fn flush_if_large<W: Output>(&mut self, output: &mut W) -> Result<(), RunError>
        requires { W.has_failed output.old ≡ false }
        ensures moves { Moves (W.contents output.old) (W.contents output.new) self.old self.new }
        ensures works { OnOk result (W.has_failed output.new ≡ false) }
        ensures err { IfErr result (λ h. (h ≡ RunError.Device) × (W.has_failed output.new ≡ true)) }
    {
        if self.text.len() >= FLUSH_AT {
            self.flush(output)?;
        }
        Ok(())
    }
}

/// Writes a text.
///
/// # Errors
///
/// The output failed, or memory ran out.
pub fn write_text<W: Output>(alloc: Global, output: &mut W, text: &[u8]) -> Result<(), RunError>
    requires { W.has_failed output.old ≡ false }
    ensures { WritesText (traffic_of W.contents W.has_failed output.old output.new)
        text.now result }
{
    let mut buffer = OutputBuffer::new(alloc);
    buffer.push(text)?;
    buffer.flush(output)
}
