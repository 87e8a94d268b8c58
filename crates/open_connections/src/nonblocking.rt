//! Connections whose writes never block.

ghost use Rattle.std.specs.Prelude.{◌≡◌, ℕ, List, Option};
ghost use Rattle.std.specs.Io.{WritesAtMost};
ghost use Rattle.std.specs.Io.KnownBytes.{WriteAppends};
ghost use Rattle.open_connections.specs.ReadEffects.{KeepsContents};

use session_devices::{Failed, Input};

/// A connection whose writes never block.
pub trait TryConnection: Input {
    /// The bytes that were written, if they are known.
    ghost contents: { Self → Option (List ℕ) };

    /// Writes some bytes from the start of the buffer and returns how many. 0 for a nonempty buffer means that the
    /// connection can't take any now.
    ///
    /// # Errors
    ///
    /// The connection has failed, and takes nothing more.
    fn try_write(&mut self, buf: &[u8]) -> Result<usize, Failed>
        ensures bound { WritesAtMost result buf.now }
        ensures bytes { WriteAppends (contents self.old) (contents self.new) result buf.now }
        ensures input { Self.remaining self.new ≡ Self.remaining self.old }
        ensures input_works { Self.has_failed self.new ≡ Self.has_failed self.old };

    /// A read doesn't change what was written.
    ghost reads_leave: { KeepsContents Self Self.gives contents };
}
