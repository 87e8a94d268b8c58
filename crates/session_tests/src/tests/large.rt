//! Answers that are sent in several parts.

use crate::tests::sessions::{AMPLE, closed_by_client, joined, played_over, run, store_for};
use crate::tests::turns::Counter;
use pipe_session::Direct;
use session_devices::MemoryInput;
use std::alloc::{AllocError, Global};
use std::cell::Cell;
use std::hash::RandomState;
use std::mem::drop;
use std::test::*;
use trace_samples::exchanges::{ACCEPTED, BATCH, POST, SERVICES};

/// The length of the only service's name, so that the answer that lists it is sent in several parts.
const LETTERS: usize = 40_000;

/// The head of a batch of that service, and the bytes of the batch before the name.
const POST_LETTERS: &[u8] =
    b"POST /api/traces HTTP/1.1\r\nContent-Type: application/x-thrift\r\nContent-Length: 40103\r\n\r\n\x0c\x00\x01\x0b\x00\x01\x00\x00\x9c\x40";

/// The bytes before the name in the response that lists it, and those after it.
const HEAD: &[u8] =
    b"HTTP/1.1 200 OK\r\nContent-Type: application/json\r\nContent-Length: 40058\r\n\r\n{\"data\":[\"";

const TAIL: &[u8] = b"\"],\"errors\":null,\"limit\":0,\"offset\":0,\"total\":1}";

/// Returns the bytes with the letters between them.
fn round_letters(alloc: Global, front: &[&[u8]], back: &[&[u8]]) -> Result<Vec<u8>, Fail> {
    let (front, back) = (joined(alloc, front)?, joined(alloc, back)?);
    let letters = b"a".repeat(alloc, LETTERS)?;
    joined(alloc, &[&front, &letters, &back])
}

/// Returns the bytes of both requests, and of their responses.
pub(crate) fn two_requests(alloc: Global) -> Result<(Vec<u8>, Vec<u8>), Fail> {
    let bytes = round_letters(alloc, &[POST_LETTERS], &[&BATCH[11..], SERVICES])?;
    let wanted = round_letters(alloc, &[ACCEPTED, HEAD], &[TAIL])?;
    Ok((bytes, wanted))
}

/// The number of services and of operations that have long names, each of which ends in three digits.
const MANY: u32 = 120;

/// The number of letters before the digits.
const LONG: usize = 7_000;

/// The number of bytes at which the first part of an answer takes no further item, and that at which a later one takes
/// none.
const FIRST_PART_BYTES: usize = 262_144;

const PART_BYTES: usize = 16_384;

/// More than an item has.
const ITEM_BYTES: usize = 9_000;

/// The request that submits a batch of a service with a long name, up to the name.
const SERVICE: &[u8] =
    b"POST /api/traces HTTP/1.1\r\nContent-Type: application/x-thrift\r\nContent-Length: 7106\r\n\r\n\
    \x0c\x00\x01\x0b\x00\x01\x00\x00\x1b\x5b";

/// The batch after it: span 3 of trace 1, whose parent is span 2.
const CHILD: &[u8] = b"\
    \x00\x0f\x00\x02\x0c\x00\x00\x00\x01\
    \x0a\x00\x01\x00\x00\x00\x00\x00\x00\x00\x01\
    \x0a\x00\x02\x00\x00\x00\x00\x00\x00\x00\x00\
    \x0a\x00\x03\x00\x00\x00\x00\x00\x00\x00\x03\
    \x0a\x00\x04\x00\x00\x00\x00\x00\x00\x00\x02\
    \x0b\x00\x05\x00\x00\x00\x02op\
    \x08\x00\x07\x00\x00\x00\x01\
    \x0a\x00\x08\x00\x00\x00\x00\x00\x00\x03\xe8\
    \x0a\x00\x09\x00\x00\x00\x00\x00\x00\x002\x00\x00";

/// The request that submits a batch of service `a` with span 4 of trace 1, up to the long name of its operation.
const OPERATION: &[u8] =
    b"POST /api/traces HTTP/1.1\r\nContent-Type: application/x-thrift\r\nContent-Length: 7105\r\n\r\n\
    \x0c\x00\x01\
    \x0b\x00\x01\x00\x00\x00\x01a\x00\
    \x0f\x00\x02\x0c\x00\x00\x00\x01\
    \x0a\x00\x01\x00\x00\x00\x00\x00\x00\x00\x01\
    \x0a\x00\x02\x00\x00\x00\x00\x00\x00\x00\x00\
    \x0a\x00\x03\x00\x00\x00\x00\x00\x00\x00\x04\
    \x0a\x00\x04\x00\x00\x00\x00\x00\x00\x00\x02\
    \x0b\x00\x05\x00\x00\x1b\x5b";

/// The batch after it.
const OPERATION_END: &[u8] = b"\
    \x08\x00\x07\x00\x00\x00\x01\
    \x0a\x00\x08\x00\x00\x00\x00\x00\x00\x03\xe8\
    \x0a\x00\x09\x00\x00\x00\x00\x00\x00\x002\x00\x00";

/// Returns the requests that submit a span of a service, and a span of an operation, with this number in the name.
fn two_posts(alloc: Global, letters: &str, number: u32) -> Result<Vec<u8>, AllocError> {
    let name = format!(in alloc; "{letters}{number}")?;
    let name = name.as_bytes();
    let parts: [&[u8]; 6] = [SERVICE, name, CHILD, OPERATION, name, OPERATION_END];
    Ok(parts.concat(alloc)?)
}

/// Returns the requests that submit a batch of service `a`, whose span 2 calls many services, and then those of many
/// services and operations.
fn many_posts(alloc: Global) -> Result<Vec<u8>, AllocError> {
    let letters = "n".repeat(alloc, LONG)?;
    let mut bytes = [POST, BATCH].concat(alloc)?;
    for number in 100..100 + MANY {
        bytes.extend_from_slice(&two_posts(alloc, letters.as_str(), number)?)?;
    }
    Ok(bytes)
}

/// A query for each kind of answer that can be large.
const LARGE: [&[u8]; 6] = [
    SERVICES,
    b"GET /api/services/a/operations HTTP/1.1\r\n\r\n",
    b"GET /api/operations?service=a HTTP/1.1\r\n\r\n",
    b"GET /api/traces/1 HTTP/1.1\r\n\r\n",
    b"GET /api/traces?service=a HTTP/1.1\r\n\r\n",
    b"GET /api/dependencies?endTs=2&lookback=3 HTTP/1.1\r\n\r\n",
];

/// Returns whether the answer to a query is large, its first part has no more than its limit and an item, and each
/// later one no more than its lower limit and an item.
fn is_parted(alloc: Global, store: &mut Direct, query: &[u8]) -> bool {
    let written = Cell::new(0);
    let mut input = MemoryInput::new(query, 10_000, 0);
    let mut output = Counter {
        written: &written,
        longest: (0, 0),
    };
    let ended = run(alloc, &mut input, &mut output, store);
    let (first, later) = output.longest;
    ended == closed_by_client(1)
        && written.get() > MANY as usize * LONG
        && first < FIRST_PART_BYTES + ITEM_BYTES
        && later < PART_BYTES + ITEM_BYTES
}

/// Returns how many of the queries have such an answer.
fn count_parted(alloc: Global, store: &mut Direct) -> usize {
    let mut count = 0usize;
    for query in LARGE {
        if is_parted(alloc, store, query) {
            count = count.saturating_add(1);
        }
    }
    count
}

/// Returns whether a store takes these batches, and how many of the queries have such an answer then.
fn are_parted(alloc: Global, keys: RandomState) -> Result<(bool, usize), Fail> {
    let bytes = many_posts(alloc)?;
    let mut store = store_for(alloc, keys, 1_000, 1_000)?;
    let (ended, _) = played_over(alloc, &mut store, &bytes, AMPLE);
    let count = count_parted(alloc, &mut store);
    drop(store);
    Ok((ended == closed_by_client(2 * u64::from(MANY) + 1), count))
}

#[test]
fn large_answers_are_parted(rt: HostRuntime) -> Result<(), Fail> {
    let keys = RandomState::new(&rt)?;
    let (taken, count) = are_parted(rt.alloc(), keys)?;
    assert!(rt; taken && count == LARGE.len());
    Ok(())
}
