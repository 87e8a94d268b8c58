ghost use Rattle.std.specs.Prelude.{◌≡◌, false, None};
ghost use Rattle.std.specs.Io.{ReadsAtMost};

use crate::nonblocking::TryConnection;
use session_devices::{Failed, Input, MAX_INTERRUPTIONS};
use std::io::{self, ErrorKind, Read, Write};
use std::net::TcpStream;
use std::os::fd::{AsRawFd, RawFd};

/// A TCP stream in non-blocking mode as a connection. Nothing is known about the bytes that it carries.
#[derive(Drop)]
pub struct Socket {
    stream: TcpStream,
    failed: bool,
    /// The last read filled its buffer, so more bytes may be there already.
    last_read_was_full: bool,
}

impl Socket {
    /// Wraps a stream in non-blocking mode; none of its reads has failed.
    pub fn new(stream: TcpStream) -> Socket
        ensures { result.failed ≡ false }
    {
        Socket {
            stream,
            failed: false,
            last_read_was_full: false,
        }
    }

    /// Returns whether the last read filled its buffer. The system doesn't report bytes that are there already.
    pub fn last_read_was_full(&self) -> bool {
        self.last_read_was_full
    }

    /// Returns the stream.
    pub fn stream(&self) -> &TcpStream {
        &self.stream
    }

    /// Returns the socket's file descriptor.
    pub fn raw_fd(&self) -> RawFd {
        self.stream.as_raw_fd()
    }
}

/// Reads once, and blocks until bytes come or the stream's read timeout has elapsed.
fn read_waiting(stream: &TcpStream, buf: &mut [u8]) -> io::Result<usize>
    ensures { ReadsAtMost result buf.new }
{
    stream.set_nonblocking(false)?;
    let mut input = stream;
    let got = input.read(buf);
    stream.set_nonblocking(true)?;
    got
}

impl Input for Socket {
    ghost remaining = { λ s. None };

    ghost gives = { λ s given t. Unit {0} };

    ghost has_failed = { λ s. s.failed };

    /// Expects a readable stream. If it isn't readable after all, this blocks.
    fn read(&mut self, buf: &mut [u8]) -> Result<usize, Failed> {
        for _tried in 0..MAX_INTERRUPTIONS {
            let got = match self.stream.read(buf) {
                Err(error) if error.kind() == ErrorKind::WouldBlock => {
                    read_waiting(&self.stream, buf)
                }
                got => got,
            };
            match got {
                Ok(count) => {
                    self.last_read_was_full = count > 0 && count == buf.len();
                    return Ok(count);
                }
                Err(error) if error.kind() == ErrorKind::Interrupted => {}
                Err(_) => break,
            }
        }
        self.failed = true;
        Err(Failed)
    }

    fn failed(&self) -> bool {
        self.failed
    }
}

impl TryConnection for Socket {
    ghost use Rattle.std.proofs.Common.{refl};

    ghost contents = { λ s. None };

    ghost reads_leave = { λ s t bytes given. refl };

    fn try_write(&mut self, buf: &[u8]) -> Result<usize, Failed> {
        for _tried in 0..MAX_INTERRUPTIONS {
            match self.stream.write(buf) {
                Ok(count) if count > 0 || buf.is_empty() => return Ok(count),
                Err(error) if error.kind() == ErrorKind::WouldBlock => return Ok(0),
                Err(error) if error.kind() == ErrorKind::Interrupted => {}
                _ => break,
            }
        }
        Err(Failed)
    }
}
