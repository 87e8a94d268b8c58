use mio::unix::SourceFd;
use mio::{Events, Interest, Poll, Token};
use std::alloc::Global;
use std::io;
use std::io::ErrorKind;
use std::net::Net;
use std::os::fd::RawFd;
use std::time::Duration;

/// The number of events that one wait returns at most.
pub const MAX_EVENTS: usize = 256;

/// A socket became ready.
#[derive(Clone, Copy, Debug)]
pub struct Event {
    pub token: usize,
    /// The client has sent its last byte, or the connection has failed. One event says so.
    pub peer_closed: bool,
}

/// Finds which sockets of a thread are ready. The caller gives each a token.
///
/// There is an event when bytes come, and none for bytes that were there before: read until a read doesn't fill its
/// buffer, or register the socket again.
#[derive(Drop)]
pub struct Readiness {
    poll: Poll,
    events: Events,
}

impl Readiness {
    /// Creates a poll without sockets.
    ///
    /// # Errors
    ///
    /// The system has no file descriptor or no memory left.
    pub fn new<R: Net>(rt: &R, alloc: Global) -> io::Result<Readiness> {
        let Ok(events) = Events::with_capacity(alloc, MAX_EVENTS) else {
            return Err(io::Error::from(ErrorKind::OutOfMemory));
        };
        Ok(Readiness {
            poll: Poll::new(rt)?,
            events,
        })
    }

    /// Registers a socket under a token: there is an event when it is readable, at once if it is now. Closing a socket
    /// removes it.
    pub fn register(&self, socket: RawFd, token: usize) -> io::Result<()> {
        self.poll
            .registry()
            .register(&mut SourceFd(&socket), Token(token), Interest::READABLE)
    }

    /// Registers a socket again under its token: there is an event when it is readable, at once if it is now.
    pub fn reregister(&self, socket: RawFd, token: usize) -> io::Result<()> {
        self.poll
            .registry()
            .reregister(&mut SourceFd(&socket), Token(token), Interest::READABLE)
    }

    /// Registers a socket again for writes: there is an event when it takes bytes again, and none when it is readable.
    pub fn reregister_for_writes(&self, socket: RawFd, token: usize) -> io::Result<()> {
        self.poll
            .registry()
            .reregister(&mut SourceFd(&socket), Token(token), Interest::WRITABLE)
    }

    /// Waits until a socket is ready or the timeout has elapsed. The events are kept until the next wait.
    pub fn wait(&mut self, timeout: Option<Duration>) -> io::Result<()> {
        self.poll.poll(&mut self.events, timeout)
    }

    /// Returns an event of the last wait, counted from 0. Walks over those before it, fewer than [`MAX_EVENTS`].
    pub fn event(&self, index: usize) -> Option<Event> {
        self.events.iter().nth(index).map(|event| Event {
            token: event.token().0,
            peer_closed: event.is_read_closed(),
        })
    }
}
