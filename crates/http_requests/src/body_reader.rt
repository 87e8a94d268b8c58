//! A body that is read piece by piece: its state between two reads.

ghost use Rattle.std.specs.Prelude.{◌≡◌, ◌<◌, ℕ, List, [], length, take, drop, min, IfNone, Some};
ghost use Rattle.http_requests.specs.Chunks.{IsTrailer, HasNone, NeverHas};
ghost use Rattle.http_requests.specs.Searches.{LooksFor, search_for};
ghost use Rattle.http_requests.specs.Bodies.{AwaitsRest, IsLineEnd, Begins, begins_line_end, may_begin_line_end};
ghost use Rattle.http_requests.specs.PartialRequests.{IsPart, HasLooked, AwaitsIfMore, AwaitsAfterStep};
ghost use Rattle.http_requests.specs.PartialRequests.{ContinuesBody, ContinuesWithoutData, reader_moment, sinkless_moment};
ghost use Rattle.http_requests.specs.declared.body_reader.Stage.TheVariants as stage;

use crate::chunked::{MAX_TRAILER_BYTES, ParseStatus, look_for_size, look_for_trailer};
use crate::read_buffer::ReadBuffer;
use crate::request::{BodyLength, MAX_BODY_BYTES, RequestFault};
use crate::searching::{Search, look_when_due};
use crate::sink::Sink;

/// What became of a body with the bytes received so far.
#[derive(Clone, Copy, Debug, PartialEq, Eq)]
pub enum BodyStatus {
    /// It was taken completely.
    Complete,
    /// More of it is awaited.
    Partial,
    /// It can't be read, whatever follows.
    Invalid(RequestFault),
}

/// The next part of a body.
#[derive(Clone, Copy, Debug)]
enum Stage {
    /// This number of bytes, by the head.
    Length(u64),
    SizeLine,
    /// This number of bytes of a chunk's data, then CR LF.
    Data(u64),
    /// The trailer. This number of bytes received was examined, and they hold none.
    Trailer(usize),
    /// The body isn't read.
    Unreadable(RequestFault),
}

/// A body that was taken in part. It holds none of the bytes.
#[derive(Clone, Copy, Debug)]
pub struct BodyReader {
    stage: Stage,
    /// How many bytes of data may still come in chunks.
    data_left: u64,
}

/// The search for a trailer.
#[derive(Drop)]
struct Trailer;

impl Search for Trailer {
    ghost use Rattle.http_requests.specs.LineLaws.{no_trailer_yet, trailer_not_due};
    ghost use Rattle.http_requests.specs.declared.chunked.trailer.TheConstants.{MAX_TRAILER_BYTES};

    type Found = usize;

    const MAX_LENGTH: usize = MAX_TRAILER_BYTES;

    ghost MAX_LENGTH = { MAX_TRAILER_BYTES };

    ghost awaits = { HasNone IsTrailer };

    ghost finds = { λ sought bytes count. Begins IsTrailer bytes count };

    ghost never_has = { NeverHas IsTrailer };

    ghost awaited_first = { no_trailer_yet };

    ghost awaited_still = { trailer_not_due };

    fn look(&mut self, bytes: &[u8]) -> ParseStatus<usize> {
        look_for_trailer(bytes)
    }
}

/// Returns whether the bytes start with CR LF.
fn begins_line_end(bytes: &[u8]) -> bool
    ensures { result ≡ begins_line_end bytes.now }
{
    matches!(bytes, [b'\r', b'\n', ..])
}

/// Returns whether the bytes may become CR LF: they are CR alone, or none.
fn may_begin_line_end(bytes: &[u8]) -> bool
    ensures { result ≡ may_begin_line_end bytes.now }
{
    matches!(bytes, [] | [b'\r'])
}

/// Looks for CR LF at the start of the bytes.
fn look_for_line_end(bytes: &[u8]) -> ParseStatus<usize>
    ensures { LooksFor
        (search_for (AwaitsRest IsLineEnd) (Begins IsLineEnd) (NeverHas IsLineEnd))
        bytes.now result }
{
    if begins_line_end(bytes) {
        ParseStatus::Complete(2)
    } else if may_begin_line_end(bytes) {
        ParseStatus::Partial
    } else {
        ParseStatus::Invalid
    }
}

/// Moves the first bytes, at most `most`, into the sink, and returns how many there were.
fn push_some<S: Sink>(received: &mut ReadBuffer, sink: &mut S, most: u64) -> u64
    ensures count { result ≡ min (length received.old.held) most }
    ensures put { S.takes sink.old (take result received.old.held) sink.new }
    ensures rest { received.new ≡ record received.old { held = drop result received.old.held } }
{
    let bytes = received.as_slice();
    let count = (bytes.len() as u64).min(most);
    sink.put(&bytes[..count as usize]);
    received.take(count as usize);
    count
}

impl BodyReader {
    /// Creates a reader before the first byte of a body of this length.
    pub fn new(body_length: BodyLength) -> Self
        ensures part { IsPart body_length [] [] result }
        ensures looked { (held : List ℕ) → HasLooked result held }
    {
        let stage = match body_length {
            BodyLength::Bytes(count) => Stage::Length(count),
            BodyLength::Chunked => Stage::SizeLine,
            BodyLength::Unreadable => Stage::Unreadable(RequestFault::Body),
            BodyLength::TooLarge => Stage::Unreadable(RequestFault::TooLarge),
        };
        BodyReader {
            stage,
            data_left: MAX_BODY_BYTES,
        }
    }

    /// Takes a size line.
    fn take_size_line(&mut self, received: &mut ReadBuffer) -> Option<BodyStatus>
        requires stage { self.old.stage ≡ stage.SizeLine }
        ensures took { ContinuesWithoutData (sinkless_moment self.old received.old)
            (sinkless_moment self.new received.new) result }
        ensures awaits { AwaitsAfterStep self.new received.new.held result }
        ensures fewer { IfNone result (length received.new.held < length received.old.held) }
    {
        match look_for_size(received.as_slice()) {
            ParseStatus::Complete((length, size)) => {
                received.take(length);
                if size > self.data_left {
                    return Some(BodyStatus::Invalid(RequestFault::TooLarge));
                }
                if size == 0 {
                    self.stage = Stage::Trailer(0);
                } else {
                    self.stage = Stage::Data(size);
                    self.data_left -= size;
                }
                None
            }
            ParseStatus::Partial => Some(BodyStatus::Partial),
            ParseStatus::Invalid => Some(BodyStatus::Invalid(RequestFault::Body)),
        }
    }

    /// Takes the CR LF after the data of a chunk.
    fn take_line_end(&mut self, received: &mut ReadBuffer) -> Option<BodyStatus>
        requires stage { self.old.stage ≡ stage.Data 0 }
        ensures took { ContinuesWithoutData (sinkless_moment self.old received.old)
            (sinkless_moment self.new received.new) result }
        ensures awaits { AwaitsAfterStep self.new received.new.held result }
        ensures fewer { IfNone result (length received.new.held < length received.old.held) }
    {
        match look_for_line_end(received.as_slice()) {
            ParseStatus::Complete(length) => {
                received.take(length);
                self.stage = Stage::SizeLine;
                None
            }
            ParseStatus::Partial => Some(BodyStatus::Partial),
            ParseStatus::Invalid => Some(BodyStatus::Invalid(RequestFault::Body)),
        }
    }

    /// Takes the trailer. The first `seen` bytes received hold none.
    fn take_trailer(&mut self, received: &mut ReadBuffer, seen: usize) -> BodyStatus
        requires stage { self.old.stage ≡ stage.Trailer seen }
        requires looked { HasLooked self.old received.old.held }
        ensures took { ContinuesWithoutData (sinkless_moment self.old received.old)
            (sinkless_moment self.new received.new) (Some result) }
        ensures awaits { AwaitsIfMore self.new received.new.held result }
    {
        let bytes = received.as_slice();
        match look_when_due(bytes, seen, &mut Trailer) {
            ParseStatus::Complete(length) => {
                received.take(length);
                BodyStatus::Complete
            }
            ParseStatus::Partial => {
                self.stage = Stage::Trailer(bytes.len());
                BodyStatus::Partial
            }
            ParseStatus::Invalid => BodyStatus::Invalid(RequestFault::Body),
        }
    }

    /// Takes the next bytes of a body that has a Content-Length and `count` bytes left.
    fn take_length<S: Sink>(
        &mut self,
        received: &mut ReadBuffer,
        sink: &mut S,
        count: u64,
    ) -> BodyStatus
        requires stage { self.old.stage ≡ stage.Length count }
        ensures took { ContinuesBody S.takes (reader_moment self.old received.old sink.old)
            (reader_moment self.new received.new sink.new) (Some result) }
        ensures awaits { AwaitsIfMore self.new received.new.held result }
    {
        let put = push_some(received, sink, count);
        if put == count {
            return BodyStatus::Complete;
        }
        self.stage = Stage::Length(count - put);
        BodyStatus::Partial
    }

    /// Takes the next data of a chunk that has `count` bytes left.
    fn take_data<S: Sink>(
        &mut self,
        received: &mut ReadBuffer,
        sink: &mut S,
        count: u64,
    ) -> Option<BodyStatus>
        requires stage { self.old.stage ≡ stage.Data count }
        requires some { 0 < count }
        ensures took { ContinuesBody S.takes (reader_moment self.old received.old sink.old)
            (reader_moment self.new received.new sink.new) result }
        ensures awaits { AwaitsAfterStep self.new received.new.held result }
        ensures fewer { IfNone result (length received.new.held < length received.old.held) }
    {
        let put = push_some(received, sink, count);
        self.stage = Stage::Data(count - put);
        if put == count {
            None
        } else {
            Some(BodyStatus::Partial)
        }
    }

    /// Takes the next part of the body, as far as the bytes received go. Returns `None` if another part may follow at
    /// once.
    fn step<S: Sink>(&mut self, received: &mut ReadBuffer, sink: &mut S) -> Option<BodyStatus>
        requires looked { HasLooked self.old received.old.held }
        ensures took { ContinuesBody S.takes (reader_moment self.old received.old sink.old)
            (reader_moment self.new received.new sink.new) result }
        ensures awaits { AwaitsAfterStep self.new received.new.held result }
        ensures fewer { IfNone result (length received.new.held < length received.old.held) }
    {
        match self.stage {
            Stage::Length(count) => Some(self.take_length(received, sink, count)),
            Stage::SizeLine => self.take_size_line(received),
            Stage::Data(0) => self.take_line_end(received),
            Stage::Data(count) => self.take_data(received, sink, count),
            Stage::Trailer(seen) => Some(self.take_trailer(received, seen)),
            Stage::Unreadable(why) => Some(BodyStatus::Invalid(why)),
        }
    }

    /// Takes the received part of the body, and pushes its data into the sink. Nothing is read. If more is awaited, the
    /// bytes that were not taken are examined again together with the next ones.
    pub fn take_from<S: Sink>(&mut self, received: &mut ReadBuffer, sink: &mut S) -> BodyStatus
        requires looked { HasLooked self.old received.old.held }
        ensures took { ContinuesBody S.takes (reader_moment self.old received.old sink.old)
            (reader_moment self.new received.new sink.new) (Some result) }
        ensures awaits { AwaitsIfMore self.new received.new.held result }
    {
        // For the prover: its proof names the loop by the label.
        'steps: loop {
            if let Some(status) = self.step(received, sink) {
                return status;
            }
        }
    }
}
