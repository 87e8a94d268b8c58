//! A response that waits to be written.

ghost use Rattle.std.specs.Prelude.{◌≡◌, ◌≤◌, ◌<◌, ◌^◌, ◌==◌, [], drop, length};
ghost use Rattle.query_json.specs.Parts.{to_come};

use crate::waiting_bytes::WaitingBytes;
use http_session::Response;
use std::marker::Model;

/// A response that may have been written in part. Contracts see what is still to be written.
#[derive(Drop)]
pub(crate) struct PendingResponse {
    response: Response,
    /// The number of bytes of the current part that were written.
    sent: usize,
    /// Whether a part was written whole. The first part may be the head alone.
    has_advanced: bool,
}

impl Model for PendingResponse {
    ghost use Rattle.std.specs.Prelude.{◌≡◌, ◌<◌, ◌⊎◌, length};
    ghost use Rattle.query_json.specs.Parts.{Parted};
    ghost use Rattle.open_connections.specs.UnsentResponses.{unsent};

    ghost Value = { Parted };

    ghost view = { λ w. unsent w.response w.sent };

    ghost invariant = { λ w. (w.sent ≡ 0) ⊎ (w.sent < length w.response.part) };
}

impl PendingResponse {
    /// Wraps a response before any of it is written.
    pub(crate) fn new(response: Response) -> PendingResponse
        ensures { to_come result ≡ to_come response }
    {
        PendingResponse {
            response,
            sent: 0,
            has_advanced: false,
        }
    }

    /// Returns the number of bytes still to be written.
    pub(crate) fn len(&self) -> usize
        ensures length { result ≡ length (to_come self.now) }
        ensures bound { result < 2 ^ 63 }
    {
        self.response.remaining() - self.sent
    }

    /// Counts the bytes still to be written. Of these the pages of the answer are in memory; until the head was written,
    /// all bytes count so.
    pub(crate) fn waiting_bytes(&self) -> WaitingBytes
        ensures { result.all ≡ length (to_come self.now) }
    {
        let all = self.len();
        let made = if self.has_advanced {
            self.response.room()
        } else {
            all
        };
        WaitingBytes { all, made }
    }

    /// Returns whether everything was written.
    pub(crate) fn is_empty(&self) -> bool
        ensures { result ≡ (length (to_come self.now) == 0) }
    {
        self.len() == 0
    }

    /// Returns the next bytes, none only if nothing is left.
    pub(crate) fn chunk(&self) -> &[u8]
        ensures first { result.now ≡ self.now.part }
        ensures some { self.now.part ≡ [] → self.now.rest ≡ [] }
    {
        &self.response.part()[self.sent..]
    }

    /// Moves past `count` of the next bytes.
    pub(crate) fn consume(&mut self, count: usize)
        requires { count ≤ length self.old.part }
        ensures { to_come self.new ≡ drop count (to_come self.old) }
    {
        let size = self.response.part().len();
        if count < size - self.sent {
            self.sent += count;
        } else {
            self.response.advance();
            self.sent = 0;
            self.has_advanced = true;
        }
    }
}
