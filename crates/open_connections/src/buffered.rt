//! A connection that keeps the response that it can't take at once.

ghost use Rattle.std.specs.Prelude.{◌≡◌, ◌<◌, false, true, IfOk, OnOk, OnErr, is_some, length, None};
ghost use Rattle.std.specs.Io.KnownBytes.{Keeps};
ghost use Rattle.query_json.specs.Parts.{to_come};
ghost use Rattle.open_connections.specs.BufferedConnections.{bytes_waiting, handed_over};
ghost use Rattle.open_connections.specs.UnsentResponses.{TakesFirst};

use crate::nonblocking::TryConnection;
use crate::pending_response::PendingResponse;
use crate::waiting_bytes::WaitingBytes;
use http_session::{Respond, Response};
use session_devices::{Connection, Failed, Input, Output};
use std::alloc::Global;

/// The number of bytes from which on a turn writes no more: the other connections of its thread come first then, even
/// if the client takes all that it is given.
const MAX_WRITTEN_BYTES: usize = 4 << 20;

/// A connection, and the part of a response that it could not take at once. Contracts count the waiting bytes as
/// written.
#[derive(Drop)]
pub struct BufferedConnection<C> {
    connection: C,
    waiting: Option<PendingResponse>,
    failed: bool,
    alloc: Global,
}

/// Writes the waiting bytes, as far as the connection takes them now and a turn writes.
///
/// # Errors
///
/// The connection has failed.
fn write_some<C: TryConnection>(
    connection: &mut C,
    waiting: &mut PendingResponse,
) -> Result<(), Failed>
    ensures first { TakesFirst (C.contents connection.old) (C.contents connection.new)
        (to_come waiting.old) (to_come waiting.new) }
    ensures input { C.remaining connection.new ≡ C.remaining connection.old }
    ensures input_works { C.has_failed connection.new ≡ C.has_failed connection.old }
    ensures err { OnErr result (0 < length (to_come waiting.new)) }
{
    let mut written: usize = 0;
    while !waiting.is_empty() && written < MAX_WRITTEN_BYTES {
        let count = connection.try_write(waiting.chunk())?;
        if count == 0 {
            break;
        }
        waiting.consume(count);
        written = written.saturating_add(count);
    }
    Ok(())
}

/// Returns the response, if some of its bytes are still to be written.
fn unless_empty(waiting: PendingResponse) -> Option<PendingResponse>
    ensures { bytes_waiting result ≡ to_come waiting }
{
    if waiting.is_empty() {
        None
    } else {
        Some(waiting)
    }
}

impl<C: TryConnection> BufferedConnection<C> {
    /// Wraps a connection; no response waits.
    pub fn new(alloc: Global, connection: C) -> BufferedConnection<C>
        ensures connection { result.connection ≡ connection }
        ensures none { result.waiting ≡ None }
        ensures works { result.failed ≡ false }
    {
        BufferedConnection {
            connection,
            waiting: None,
            failed: false,
            alloc,
        }
    }

    /// Returns the connection.
    pub fn get_ref(&self) -> &C
        ensures { result.now ≡ self.now.connection }
    {
        &self.connection
    }

    /// Returns whether a response waits to be written.
    pub fn has_waiting(&self) -> bool
        ensures { result ≡ is_some self.now.waiting }
    {
        self.waiting.is_some()
    }

    /// Counts the bytes that wait to be written.
    pub fn waiting_bytes(&self) -> WaitingBytes {
        match &self.waiting {
            Some(waiting) => waiting.waiting_bytes(),
            None => WaitingBytes::NONE,
        }
    }

    /// Writes the waiting bytes, as far as the connection takes them now and a turn writes.
    ///
    /// # Errors
    ///
    /// The connection has failed. The bytes that were not written still wait.
    pub fn flush(&mut self) -> Result<(), Failed>
        ensures same { Keeps (handed_over C.contents self.old) (handed_over C.contents self.new) }
        ensures input { C.remaining self.new.connection ≡ C.remaining self.old.connection }
        ensures input_works { C.has_failed self.new.connection ≡ C.has_failed self.old.connection }
        ensures ok { OnOk result (self.new.failed ≡ self.old.failed) }
        ensures err { OnErr result (self.new.failed ≡ true) }
    {
        let Some(mut waiting) = self.waiting.take() else {
            return Ok(());
        };
        let written = write_some(&mut self.connection, &mut waiting);
        self.waiting = unless_empty(waiting);
        self.failed |= written.is_err();
        written
    }

    /// Keeps a copy of bytes that the connection can't take now. A lack of memory counts as a failed connection.
    fn keep(&mut self, bytes: &[u8]) -> Result<usize, Failed>
        requires { self.old.waiting ≡ None }
        ensures connection { self.new.connection ≡ self.old.connection }
        ensures ok { IfOk result (λ n. (n ≡ length bytes.now)
            × (bytes_waiting self.new.waiting ≡ bytes.now) × (self.new.failed ≡ self.old.failed)) }
        ensures err { OnErr result ((self.new.waiting ≡ None) × (self.new.failed ≡ true)) }
    {
        let Ok(copy) = Vec::from_slice(self.alloc, bytes) else {
            self.failed = true;
            return Err(Failed);
        };
        self.waiting = Some(PendingResponse::new(Response::whole(copy)));
        Ok(bytes.len())
    }
}

impl<C: TryConnection> Input for BufferedConnection<C> {
    ghost use Rattle.open_connections.specs.BufferedConnections.{buffered_gives};

    ghost remaining = { λ s. C.remaining s.connection };

    ghost gives = { buffered_gives C.gives };

    ghost has_failed = { λ s. C.has_failed s.connection };

    fn read(&mut self, buf: &mut [u8]) -> Result<usize, Failed> {
        self.connection.read(buf)
    }

    fn failed(&self) -> bool {
        Input::failed(&self.connection)
    }
}

impl<C: TryConnection> Output for BufferedConnection<C> {
    ghost use Rattle.std.proofs.Common.{refl, ◌∙◌};
    ghost use Rattle.std.proofs.KnownBytes.{Appends-nil, Appends-trans};
    ghost use Rattle.open_connections.specs.BufferedConnections.{buffered_takes, handed_over};

    ghost contents = { handed_over C.contents };

    ghost takes = { buffered_takes C.remaining C.has_failed C.contents };

    ghost has_failed = { λ s. s.failed };

    ghost takes_nothing = { λ s. (Appends-nil (handed_over C.contents s), refl, refl) };

    ghost takes_joined = { λ s t u front back one two. (
      Appends-trans (handed_over C.contents s) (handed_over C.contents t)
          (handed_over C.contents u) front back one.0 two.0,
      two.1 ∙ one.1,
      two.2 ∙ one.2,
    ) };

    /// Fails while a response waits: call [`BufferedConnection::flush`] first.
    fn write(&mut self, buf: &[u8]) -> Result<usize, Failed> {
        if self.waiting.is_some() {
            self.failed = true;
            return Err(Failed);
        }
        match self.connection.try_write(buf) {
            Ok(0) if !buf.is_empty() => self.keep(buf),
            Ok(count) => Ok(count),
            Err(_) => {
                self.failed = true;
                Err(Failed)
            }
        }
    }

    fn failed(&self) -> bool {
        self.failed
    }
}

impl<C: TryConnection> Connection for BufferedConnection<C> {
    ghost use Rattle.std.proofs.Common.{ap, ◌∙◌};
    ghost use Rattle.std.specs.Io.KnownBytes.{append_known};
    ghost use Rattle.open_connections.specs.BufferedConnections.{bytes_waiting};

    ghost reads_leave = { λ s t bytes given. (
      ap (λ x. append_known x (bytes_waiting t.waiting))
          (C.reads_leave s.connection t.connection bytes given.0)
          ∙ ap (λ w. append_known (C.contents s.connection) (bytes_waiting w)) given.1,
      given.2,
    ) };

    ghost writes_leave = { λ s t bytes taken. (taken.1, taken.2) };
}

impl<C: TryConnection> Respond for BufferedConnection<C> {
    /// Fails while a response waits: call [`BufferedConnection::flush`] first, as a turn does.
    fn send_response(&mut self, response: Response) -> Result<(), usize> {
        let mut waiting = PendingResponse::new(response);
        let all = waiting.len();
        if all == 0 {
            return Ok(());
        }
        if self.waiting.is_some() {
            self.failed = true;
            return Err(0);
        }
        let written = write_some(&mut self.connection, &mut waiting);
        let left = waiting.len();
        match written {
            Ok(()) => {
                self.waiting = unless_empty(waiting);
                Ok(())
            }
            Err(_) => {
                self.failed = true;
                Err(all - left)
            }
        }
    }
}
