//! The inputs and outputs of a session. Contracts can name their bytes, and they remember whether they failed.
//!
//! A contract of a session over an [`Input`] and an [`Output`] speaks of the bytes that were read and written. A
//! failure is distinct from the end of the input: the device itself says which one it was. The contract of a session
//! over a [`Connection`], which is both, also says what was written before each read.
//!
//! * `watched`: std's readers and writers as devices.
//! * `memory`: devices over memory.
//! * `connection`: an input and an output as one.
//! * `limits`: how often a device is read, and a call retried.
#![tactic(auto)]

ghost use Rattle.std.specs.Prelude.{◌≡◌, ℕ, List, Bool, true, Option, ◌<◌, length, take, OnErr, IfOk, []};
ghost use Rattle.std.specs.Io.KnownBytes.{ReadConsumes, WriteAppends};
ghost use Rattle.std.specs.Io.{ReadsAtMost, WritesAtMost};
ghost use Rattle.session_devices.specs.ByteTransfers.{TakesNothing, TakesJoined};

mod connection;
mod limits;
mod memory;
mod watched;

pub use connection::{Connection, Join};
pub use limits::{MAX_INTERRUPTIONS, MAX_READS};
pub use memory::{MemoryInput, MemoryOutput};
pub use watched::Watched;

/// The device failed.
#[derive(Clone, Copy, Debug, PartialEq, Eq)]
pub struct Failed;

/// An input that remembers whether a read failed.
pub trait Input {
    /// The bytes that later reads return, if they are known.
    ghost remaining: { Self → Option (List ℕ) };

    /// Relates the states before and after one read that returns these bytes. A read that fails returns none.
    ghost gives: { Self → List ℕ → Self → Type 0 };

    ghost has_failed: { Self → Bool };

    /// Reads some bytes into the start of the buffer and returns how many. 0 for a nonempty buffer means that the input
    /// has ended.
    ///
    /// # Errors
    ///
    /// The device has failed for good. Nothing else makes [`Input::failed`] true, and nothing makes it false again.
    fn read(&mut self, buf: &mut [u8]) -> Result<usize, Failed>
        ensures bound { ReadsAtMost result buf.new }
        ensures bytes { ReadConsumes (remaining self.old) (remaining self.new) result buf.new }
        ensures given { IfOk result (λ n. gives self.old (take n buf.new) self.new) }
        ensures none { OnErr result (gives self.old [] self.new) }
        ensures ok { IfOk result (λ n. has_failed self.new ≡ has_failed self.old) }
        ensures err { OnErr result (has_failed self.new ≡ true) };

    /// Returns whether a read has failed.
    fn failed(&self) -> bool
        ensures { result ≡ has_failed self.now };
}

/// An output that remembers whether a write failed.
pub trait Output {
    /// The bytes that the output holds, if they are known.
    ghost contents: { Self → Option (List ℕ) };

    /// Relates the states before and after writes that take these bytes. A write that fails takes none.
    ghost takes: { Self → List ℕ → Self → Type 0 };

    ghost has_failed: { Self → Bool };

    /// Writes some bytes from the start of the buffer, at least one unless it is empty, and returns how many.
    ///
    /// # Errors
    ///
    /// The device has failed for good. Taking nothing of a nonempty buffer is a failure too.
    fn write(&mut self, buf: &[u8]) -> Result<usize, Failed>
        ensures bound { WritesAtMost result buf.now }
        ensures some { IfOk result (λ n. 0 < length buf.now → 0 < n) }
        ensures bytes { WriteAppends (contents self.old) (contents self.new) result buf.now }
        ensures taken { IfOk result (λ n. takes self.old (take n buf.now) self.new) }
        ensures none { OnErr result (takes self.old [] self.new) }
        ensures ok { IfOk result (λ n. has_failed self.new ≡ has_failed self.old) }
        ensures err { OnErr result (has_failed self.new ≡ true) };

    /// Returns whether a write has failed.
    fn failed(&self) -> bool
        ensures { result ≡ has_failed self.now };

    /// Writing no bytes changes nothing.
    ghost takes_nothing: { TakesNothing Self takes };

    /// Bytes may be written in any number of pieces.
    ghost takes_joined: { TakesJoined Self takes };
}
