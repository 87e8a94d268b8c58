ghost use Rattle.std.specs.Prelude.{◌≡◌, ◌≤◌, ℕ, List, length, take, IfOk, IfErr};
ghost use Rattle.http_requests.specs.FramedHeads.{Frames};
ghost use Rattle.http_requests.specs.Heads.{AwaitsHead, NeverHasHead};
ghost use Rattle.http_requests.specs.Searches.{LooksFor, search_for};
ghost use Rattle.http_requests.specs.PartialRequests.{HasSeen, SeesAll};
ghost use Rattle.http_requests.specs.AwaitedReads.{source_of};
ghost use Rattle.http_requests.specs.ReceivedBytes.{KnowsItsEnd, StopsWhile, SameUnlessReading, read_moment, failed_call};
ghost use Rattle.http_requests.specs.HeadSearches.{Finds};

use crate::chunked::ParseStatus;
use crate::head::HeadSearch;
use crate::read_buffer::{ReadBuffer, ReadError};
use crate::request::{FoundHead, found_head};
use crate::searching::look_when_due;
use session_devices::Input;

/// What the bytes received start with, after reading as far as necessary. Only tests use it.
#[derive(Clone, Copy, Debug)]
pub enum Next {
    /// The head of a request.
    One(FoundHead),
    /// The input has ended between two requests.
    EndOfInput,
    /// They don't start with a head, and none can come.
    NoHead,
}

/// A head that is awaited: the first `seen` bytes received hold none.
#[derive(Clone, Copy, Debug)]
pub struct HeadWait {
    seen: usize,
}

impl HeadWait {
    /// Creates the state before the first search.
    pub fn new() -> Self
        ensures { result ≡ record { seen = 0 } }
    {
        HeadWait { seen: 0 }
    }

    /// Looks for the head of a request at the start of the bytes received. Bytes that were examined are not examined
    /// again before a line ends after them.
    pub fn look(&mut self, bytes: &[u8]) -> ParseStatus<FoundHead>
        requires seen { HasSeen self.old bytes.now }
        ensures found { LooksFor (search_for AwaitsHead Frames NeverHasHead) bytes.now result }
        ensures seen { SeesAll self.new bytes.now result }
    {
        let mut search = HeadSearch::new();
        match look_when_due(bytes, self.seen, &mut search) {
            ParseStatus::Complete(spans) => ParseStatus::Complete(found_head(
                bytes,
                &search.headers,
                spans,
            )),
            ParseStatus::Partial => {
                self.seen = bytes.len();
                ParseStatus::Partial
            }
            ParseStatus::Invalid => ParseStatus::Invalid,
        }
    }
}

/// Reads until the bytes received start with the head of a request, or can't: the input has ended, or no continuation
/// starts with one. Once the caller has taken the head, the body follows, for [`read_body`](crate::read_body). Nothing
/// is read after the end of the input, or if the bytes received decide: they start with a head, or no continuation of
/// the complete lines received does.
///
/// Only tests call it: a session looks once after each read, by [`HeadWait::look`].
///
/// # Errors
///
/// The input failed, or memory ran out for the buffer of a read, before the read.
pub fn next_head<R: Input>(input: &mut R, received: &mut ReadBuffer) -> Result<Next, ReadError>
    requires end { KnowsItsEnd received.old.ended (R.remaining input.old) }
    ensures found { IfOk result (Finds (source_of R.remaining R.gives)
        (read_moment input.old received.old) (read_moment input.new received.new)) }
    ensures err { IfErr result (λ why. StopsWhile (source_of R.remaining R.gives)
        AwaitsHead (read_moment input.old received.old)
        (failed_call input.new (R.has_failed input.new) why)) }
    ensures same { SameUnlessReading (R.has_failed input.old) (R.has_failed input.new) result }
{
    let mut wait = HeadWait::new();
    // For the prover: its proof names the loop by the label.
    'reads: loop {
        match wait.look(received.as_slice()) {
            ParseStatus::Complete(found) => return Ok(Next::One(found)),
            ParseStatus::Partial if !received.has_ended() => received.read_more(input)?,
            ParseStatus::Partial if received.as_slice().is_empty() => return Ok(Next::EndOfInput),
            ParseStatus::Partial | ParseStatus::Invalid => return Ok(Next::NoHead),
        }
    }
}
