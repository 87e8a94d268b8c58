//! Sockets before and after their sessions.

use std::io;
use std::io::{ErrorKind, Read};
use std::net::{Shutdown, TcpStream};
use std::time::Duration;

/// The number of seconds for which input is discarded after a response that closes the connection.
pub(crate) const DISCARD_SECONDS: u64 = 2;

/// The timeout of a read whose connection was reported readable, and isn't.
const MAX_STALL_SECONDS: u64 = 10;

/// Returns how long a connection may be silent; `None` for no limit.
pub fn idle_limit(idle: u32) -> Option<Duration> {
    match idle {
        0 => None,
        seconds => Some(Duration::from_secs(seconds as u64)),
    }
}

/// Makes a socket send each response at once and not block, and limits the one read that may block: that of a
/// connection which was reported readable, and isn't (`open_connections::Socket`).
pub fn prepare(stream: &TcpStream) -> io::Result<()> {
    stream.set_nodelay(true)?;
    stream.set_read_timeout(Some(Duration::from_secs(MAX_STALL_SECONDS)))?;
    stream.set_nonblocking(true)
}

/// Closes the sending side, so that the client knows that the last response was the last. What it still sends is
/// discarded.
pub(crate) fn close_sending(stream: &TcpStream) -> io::Result<()> {
    stream.shutdown(Shutdown::Write)
}

/// The result of discarding input.
#[derive(Clone, Copy, Debug, PartialEq, Eq)]
pub(crate) enum Discarded {
    /// All of the input received was discarded.
    All,
    /// Much input was discarded, and more has come.
    Much,
    /// No more input comes: the client has closed its side, or the connection failed.
    Last,
}

/// The number of reads that are discarded at a time.
const MAX_DISCARDED_READS: u32 = 64;

/// Discards received input.
pub(crate) fn discard_some(stream: &TcpStream) -> Discarded {
    let mut rest = stream;
    let mut bytes = [0u8; 4096];
    for _ in 0..MAX_DISCARDED_READS {
        match rest.read(&mut bytes) {
            Ok(0) => return Discarded::Last,
            Ok(_) => {}
            Err(error) if error.kind() == ErrorKind::WouldBlock => return Discarded::All,
            Err(error) if error.kind() == ErrorKind::Interrupted => {}
            Err(_) => return Discarded::Last,
        }
    }
    Discarded::Much
}
