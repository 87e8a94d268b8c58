//! No read is made that a request, or what is malformed, doesn't need.

use crate::tests::sessions::{AMPLE, Devices, End, closed_by_response, is_played, joined, unread};
use http_requests::{Next, ReadBuffer, Sink, next_head, read_body};
use session_devices::MemoryInput;
use std::alloc::Global;
use std::hash::RandomState;
use std::test::*;
use trace_samples::exchanges::{NO_SUCH_PATH, TOO_LARGE};

/// [`NO_SUCH_PATH`] to a request that asks to close the connection.
const NO_SUCH_PATH_AND_CLOSE: &[u8] =
    b"HTTP/1.1 404 Not Found\r\nContent-Type: application/json\r\nContent-Length: 89\r\nConnection: close\r\n\r\n\
        {\"data\":null,\"errors\":[{\"code\":404,\"msg\":\"no such path\"}],\"limit\":0,\"offset\":0,\"total\":0}";

const BAD_HEAD: &[u8] =
    b"HTTP/1.1 400 Bad Request\r\nContent-Type: application/json\r\nContent-Length: 93\r\nConnection: close\r\n\r\n\
        {\"data\":null,\"errors\":[{\"code\":400,\"msg\":\"bad request head\"}],\"limit\":0,\"offset\":0,\"total\":0}";

const BAD_BODY: &[u8] =
    b"HTTP/1.1 400 Bad Request\r\nContent-Type: application/json\r\nContent-Length: 93\r\nConnection: close\r\n\r\n\
        {\"data\":null,\"errors\":[{\"code\":400,\"msg\":\"bad request body\"}],\"limit\":0,\"offset\":0,\"total\":0}";

/// Bytes that are decided before the input ends, and the response to them.
type Row = (&'static [u8], &'static [u8]);

/// Requests after which the session stays open.
const OPEN: [&[u8]; 4] = [
    b"GET / HTTP/1.1\r\n\r\n",
    b"GET / HTTP/1.1\nContent-Length: 0\n\n",
    b"POST / HTTP/1.1\r\nContent-Length: 3\r\n\r\nabc",
    b"POST / HTTP/1.1\r\nTransfer-Encoding: chunked\r\n\r\n3\r\nabc\r\n0\r\n\r\n",
];

/// Bytes whose response closes the session.
const CLOSED: [Row; 33] = [
    (
        b"\r\n\r\nGET / HTTP/1.0\r\nconnection: x, Close\r\n\r\n",
        NO_SUCH_PATH_AND_CLOSE,
    ),
    (b"GET / HTTP/2\r\n", BAD_HEAD),
    (b"GET / HTTP/1.2\r\n\r\n", BAD_HEAD),
    (b"GET / HTTP/2.0\r\n\r\n", BAD_HEAD),
    (b"GET  / HTTP/1.1\r\n\r\n", BAD_HEAD),
    (b"GET / HTTP/1.1\r\na b\r\n", BAD_HEAD),
    (b"GET / HTTP/1.1\r\na: \x01\r\n\r\n", BAD_HEAD),
    (b"GET / HTTP/1.1\r\n: b\r\n\r\n", BAD_HEAD),
    (b"GET / HTTP/1.1\r\nA : b\r\n\r\n", BAD_HEAD),
    (
        b"POST / HTTP/1.1\r\nContent-Length: 4194305\r\n\r\n",
        TOO_LARGE,
    ),
    (b"POST / HTTP/1.1\r\nContent-Length: +3\r\n\r\n", BAD_BODY),
    (b"POST / HTTP/1.1\r\nContent-Length: +0\r\n\r\n", BAD_BODY),
    (b"POST / HTTP/1.1\r\nContent-Length: 0, 0\r\n\r\n", BAD_BODY),
    (b"POST / HTTP/1.1\r\nContent-Length:\r\n\r\n", BAD_BODY),
    (
        b"POST / HTTP/1.1\r\nContent-Length: 00000000000000000000\r\n\r\n",
        BAD_BODY,
    ),
    (b"POST / HTTP/1.1\r\nTransfer-Encoding:\r\n\r\n", BAD_BODY),
    (
        b"POST / HTTP/1.1\r\nTransfer-Encoding: identity\r\n\r\n",
        BAD_BODY,
    ),
    (
        b"POST / HTTP/1.1\r\nContent-Length: 0\r\nTransfer-Encoding: chunked\r\n\r\n",
        BAD_BODY,
    ),
    (
        b"POST / HTTP/1.1\r\nTransfer-Encoding: chunked\r\n\r\ng",
        BAD_BODY,
    ),
    (
        b"POST / HTTP/1.1\r\nTransfer-Encoding: chunked\r\n\r\n\r\n",
        BAD_BODY,
    ),
    (
        b"POST / HTTP/1.1\r\nTransfer-Encoding: chunked\r\n\r\n;x\r\n\r\n",
        BAD_BODY,
    ),
    (
        b"POST / HTTP/1.1\r\nTransfer-Encoding: chunked\r\n\r\n-1\r\n",
        BAD_BODY,
    ),
    (
        b"POST / HTTP/1.1\r\nTransfer-Encoding: chunked\r\n\r\n 1\r\n",
        BAD_BODY,
    ),
    (
        b"POST / HTTP/1.1\r\nTransfer-Encoding: chunked\r\n\r\n1\nx\r\n",
        BAD_BODY,
    ),
    (
        b"POST / HTTP/1.1\r\nTransfer-Encoding: chunked\r\n\r\n1;a\nb\r\n",
        BAD_BODY,
    ),
    (
        b"POST / HTTP/1.1\r\nTransfer-Encoding: chunked\r\n\r\n10000000000000000\r\n",
        BAD_BODY,
    ),
    (
        b"POST / HTTP/1.1\r\nTransfer-Encoding: chunked\r\n\r\n3\r\nabcd",
        BAD_BODY,
    ),
    (
        b"POST / HTTP/1.1\r\nTransfer-Encoding: chunked\r\n\r\n3\r\nabc\n",
        BAD_BODY,
    ),
    (
        b"POST / HTTP/1.1\r\nTransfer-Encoding: chunked\r\n\r\n0\r\nA b\r\n\r\n",
        BAD_BODY,
    ),
    (
        b"POST / HTTP/1.1\r\nTransfer-Encoding: chunked\r\n\r\n400001\r\n",
        TOO_LARGE,
    ),
    (
        b"POST / HTTP/1.1\r\nTransfer-Encoding: chunked\r\n\r\n1\r\nx\r\n400000\r\n",
        TOO_LARGE,
    ),
    (
        b"POST / HTTP/1.1\r\nTransfer-Encoding: chunked\r\n\r\nffffffffffffffff\r\n",
        TOO_LARGE,
    ),
    (
        b"POST / HTTP/1.1\r\nTransfer-Encoding: chunked\r\n\r\n2\r\nab\r\nfffffffffffffffe\r\n",
        TOO_LARGE,
    ),
];

/// Bytes that are malformed because the input ends after them.
const CUT_SHORT: [Row; 10] = [
    (b"\r\n", BAD_HEAD),
    (b"GET / HTTP/1.1\r\nContent-Len", BAD_HEAD),
    (b"POST / HTTP/1.1\r\nContent-Length: 3\r\n\r\nab", BAD_BODY),
    (
        b"POST / HTTP/1.1\r\nTransfer-Encoding: chunked\r\n\r\n",
        BAD_BODY,
    ),
    (
        b"POST / HTTP/1.1\r\nTransfer-Encoding: chunked\r\n\r\n3\r\nab",
        BAD_BODY,
    ),
    (
        b"POST / HTTP/1.1\r\nTransfer-Encoding: chunked\r\n\r\n3\r\nabc",
        BAD_BODY,
    ),
    (
        b"POST / HTTP/1.1\r\nTransfer-Encoding: chunked\r\n\r\n3\r\nabc\r",
        BAD_BODY,
    ),
    (
        b"POST / HTTP/1.1\r\nTransfer-Encoding: chunked\r\n\r\n3\r\nabc\r\n",
        BAD_BODY,
    ),
    (
        b"POST / HTTP/1.1\r\nTransfer-Encoding: chunked\r\n\r\n0\r\n",
        BAD_BODY,
    ),
    (
        b"POST / HTTP/1.1\r\nTransfer-Encoding: chunked\r\n\r\n0\r\nA: b\r\n",
        BAD_BODY,
    ),
];

/// Returns whether a session over these bytes writes this response and ends so. There is one read for each byte, and
/// `ends` that find the end. The next one fails.
fn is_decided(
    alloc: Global,
    keys: RandomState,
    (bytes, response): Row,
    ends: u64,
    ended: End,
) -> Result<bool, Fail> {
    let reads = (bytes.len() as u64).saturating_add(ends);
    let devices = Devices {
        step: 1,
        fails_at: reads.saturating_add(1),
        ..AMPLE
    };
    is_played(alloc, keys, bytes, devices, (ended, response))
}

#[test]
fn no_read_too_many(rt: HostRuntime) -> Result<(), Fail> {
    let (alloc, keys) = (rt.alloc(), RandomState::new(&rt)?);
    for bytes in OPEN {
        assert!(rt; is_decided(alloc, keys, (bytes, NO_SUCH_PATH), 0, unread(1))?);
    }
    for row in CLOSED {
        assert!(rt; is_decided(alloc, keys, row, 0, closed_by_response())?);
    }
    for row in CUT_SHORT {
        assert!(rt; is_decided(alloc, keys, row, 1, closed_by_response())?);
    }
    Ok(())
}

/// A sink that notes the largest piece that is put into it.
#[derive(Drop)]
struct LargestPiece {
    bytes: usize,
}

impl Sink for LargestPiece {
    ghost takes = { λ s w t. Unit {0} };

    fn put(&mut self, piece: &[u8]) {
        self.bytes = self.bytes.max(piece.len());
    }

    ghost takes_nothing = { λ s. tt };

    ghost takes_joined = { λ s t u front back one two. tt };
}

/// Returns the largest piece of the body of a request, read `step` bytes at a time, if it can be read.
fn largest_piece(alloc: Global, bytes: &[u8], step: usize) -> Option<usize> {
    let mut input = MemoryInput::new(bytes, step, 0);
    let mut received = ReadBuffer::new(alloc);
    let Ok(Next::One(found)) = next_head(&mut input, &mut received) else {
        return None;
    };
    received.take(found.len);
    let mut sink = LargestPiece { bytes: 0 };
    match read_body(&mut input, &mut received, &mut sink, found.body_length) {
        Ok(Ok(())) => Some(sink.bytes),
        _ => None,
    }
}

/// A body of one chunk of 100,000 bytes is put as it comes, in pieces of at most 16,384 bytes.
#[test]
fn a_body_is_put_as_it_comes(rt: HostRuntime) -> Result<(), Fail> {
    let alloc = rt.alloc();
    let body = b"0123456789".repeat(alloc, 10_000)?;
    let head = b"POST / HTTP/1.1\r\nTransfer-Encoding: chunked\r\n\r\n186a0\r\n";
    let bytes = joined(alloc, &[head, &body, b"\r\n0\r\n\r\n"])?;
    assert!(rt; largest_piece(alloc, &bytes, 7) == Some(7));
    assert!(rt; largest_piece(alloc, &bytes, 100_000) == Some(16_384));
    Ok(())
}
