ghost use Rattle.std.specs.Prelude.{◌≡◌, false};

use crate::limits::MAX_INTERRUPTIONS;
use crate::{Failed, Input, Output};
use std::io::{ErrorKind, Read, Write};

/// A reader or a writer of std as a device. Every error is a failure, except that a call interrupted by a signal is
/// retried.
#[derive(Drop)]
pub struct Watched<T> {
    inner: T,
    failed: bool,
}

impl<T> Watched<T> {
    /// Creates a device that hasn't failed yet.
    pub fn new(inner: T) -> Self
        ensures inner { result.inner ≡ inner }
        ensures failed { result.failed ≡ false }
    {
        Watched {
            inner,
            failed: false,
        }
    }
}

impl<T: Read> Input for Watched<T> {
    ghost use Rattle.std.specs.Io.KnownBytes.{Consumes};

    ghost remaining = { λ s. T.remaining s.inner };

    ghost gives = { λ s given t. Consumes (T.remaining s.inner) (T.remaining t.inner) given };

    ghost has_failed = { λ s. s.failed };

    fn read(&mut self, buf: &mut [u8]) -> Result<usize, Failed> {
        for _tried in 0..MAX_INTERRUPTIONS {
            match self.inner.read(buf) {
                Ok(count) => return Ok(count),
                Err(error) if error.kind() == ErrorKind::Interrupted => {}
                Err(_) => break,
            }
        }
        self.failed = true;
        Err(Failed)
    }

    fn failed(&self) -> bool {
        self.failed
    }
}

impl<T: Write> Output for Watched<T> {
    ghost use Rattle.std.specs.Io.KnownBytes.{Appends};
    ghost use Rattle.std.proofs.KnownBytes.{Appends-nil, Appends-trans};

    ghost contents = { λ s. T.contents s.inner };

    ghost takes = { λ s bytes t. Appends (T.contents s.inner) (T.contents t.inner) bytes };

    ghost has_failed = { λ s. s.failed };

    ghost takes_nothing = { λ s. Appends-nil (T.contents s.inner) };

    ghost takes_joined = { λ s t u front back one two. Appends-trans (T.contents s.inner)
        (T.contents t.inner) (T.contents u.inner) front back one two };

    fn write(&mut self, buf: &[u8]) -> Result<usize, Failed> {
        for _tried in 0..MAX_INTERRUPTIONS {
            match self.inner.write(buf) {
                Ok(count) if count > 0 || buf.is_empty() => return Ok(count),
                Err(error) if error.kind() == ErrorKind::Interrupted => {}
                _ => break,
            }
        }
        self.failed = true;
        Err(Failed)
    }

    fn failed(&self) -> bool {
        self.failed
    }
}
