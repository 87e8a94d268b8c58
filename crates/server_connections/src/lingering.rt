//! Connections whose sessions have ended while their clients may still read or send.

use crate::connection::{DISCARD_SECONDS, Discarded, close_sending, discard_some};
use open_connections::{BufferedConnection, Socket, WaitingBytes};
use slab::Slab;
use std::alloc::Global;
use std::time::Duration;

/// A connection whose session has ended.
#[derive(Drop)]
struct LingeringConnection {
    buffered: BufferedConnection<Socket>,
    /// The sending side is closed.
    has_closed_sending: bool,
    /// When it is dropped; never if `None`.
    until: Option<Duration>,
}

/// What such a connection waits for.
#[derive(Clone, Copy, Debug, PartialEq, Eq)]
pub enum Awaits {
    /// Its client to take more of the last response.
    Writable,
    /// More input to discard.
    Readable,
    /// Nothing that has to be watched.
    Nothing,
}

/// Connections whose sessions have ended. The waiting part of the last response is written. Then input is discarded for
/// a while, so that the client can read that response before the connection is closed.
#[derive(Drop)]
pub struct Lingering {
    connections: Slab<LingeringConnection>,
    /// The response bytes that wait to be written.
    waiting: WaitingBytes,
}

impl LingeringConnection {
    /// Writes the waiting part of the last response, as far as the client takes it. Returns what to wait for, or `None` if
    /// the connection has failed.
    fn write(&mut self, now: Duration, idle_limit: Option<Duration>) -> Option<Awaits> {
        if self.buffered.flush().is_err() {
            return None;
        }
        if self.buffered.has_waiting() {
            self.until = idle_limit.map(|idle_limit| now.saturating_add(idle_limit));
            return Some(Awaits::Writable);
        }
        self.has_closed_sending = true;
        self.until = Some(now.saturating_add(Duration::from_secs(DISCARD_SECONDS)));
        match close_sending(self.buffered.get_ref().stream()) {
            Ok(()) => Some(Awaits::Readable),
            Err(_) => None,
        }
    }

    /// Discards the input after the last response was written. Returns what to wait for, or `None` if no more input comes.
    fn discard_input(&self) -> Option<Awaits> {
        match discard_some(self.buffered.get_ref().stream()) {
            Discarded::All => Some(Awaits::Nothing),
            Discarded::Much => Some(Awaits::Readable),
            Discarded::Last => None,
        }
    }
}

impl Lingering {
    /// Creates an empty set.
    pub fn new(alloc: Global) -> Lingering {
        Lingering {
            connections: Slab::new(alloc),
            waiting: WaitingBytes::NONE,
        }
    }

    /// Returns whether no connection is left.
    pub fn is_empty(&self) -> bool {
        self.connections.is_empty()
    }

    /// Returns the number of connections.
    pub fn len(&self) -> usize {
        self.connections.len()
    }

    /// Counts the response bytes that wait for clients to take them.
    pub fn waiting_bytes(&self) -> WaitingBytes {
        self.waiting
    }

    /// Adds a connection, and returns its key, or `None` if memory runs out.
    pub fn add(&mut self, buffered: BufferedConnection<Socket>) -> Option<usize> {
        let waiting = buffered.waiting_bytes();
        let lingering = LingeringConnection {
            buffered,
            has_closed_sending: false,
            until: None,
        };
        let Ok(key) = self.connections.insert(lingering) else {
            return None;
        };
        self.waiting = self.waiting.and(waiting);
        Some(key)
    }

    /// Returns the socket under a key.
    pub fn get(&self, key: usize) -> Option<&Socket> {
        let lingering = self.connections.get(key)?;
        Some(lingering.buffered.get_ref())
    }

    /// Removes a connection.
    pub fn remove(&mut self, key: usize) {
        if let Some(lingering) = self.connections.try_remove(key) {
            self.waiting = self.waiting.without(lingering.buffered.waiting_bytes());
        }
    }

    /// Writes the waiting part of a connection's last response, or discards its input. Removes a connection that has
    /// failed, or whose client has closed its side after the response.
    pub fn advance(&mut self, key: usize, now: Duration, idle_limit: Option<Duration>) -> Awaits {
        let Some(lingering) = self.connections.get_mut(key) else {
            // Impossible: an event is of an open socket, and one that was removed is closed. No clause says so.
            return Awaits::Nothing;
        };
        let before = lingering.buffered.waiting_bytes();
        let awaits = if lingering.has_closed_sending {
            lingering.discard_input()
        } else {
            lingering.write(now, idle_limit)
        };
        let after = lingering.buffered.waiting_bytes();
        self.waiting = self.waiting.without(before).and(after);
        match awaits {
            Some(awaits) => awaits,
            None => {
                self.remove(key);
                Awaits::Nothing
            }
        }
    }

    /// Returns whether the key is of a connection whose time is up.
    fn is_overdue(&self, key: usize, now: Duration) -> bool {
        match self.connections.get(key) {
            Some(lingering) => lingering.until.is_some_and(|until| until <= now),
            None => false,
        }
    }

    /// Drops the connections whose time is up.
    pub fn drop_overdue(&mut self, now: Duration) {
        for key in 0..self.connections.capacity() {
            if self.is_overdue(key, now) {
                self.remove(key);
            }
        }
    }
}
