//! Complete sessions of three requests, with devices that return and take a few bytes at a time or fail, and one in
//! which memory runs out.

use crate::tests::refusals::NO_MEMORY;
use crate::tests::sessions::{
    AMPLE, Devices, Observed, closed_by_client, is_played, joined, played, unread, unwritten,
};
use http_session::SessionErrorKind;
use session_devices::Output;
use std::alloc::Global;
use std::hash::RandomState;
use std::test::*;
use trace_samples::exchanges::{
    ACCEPTED, BATCH, NO_SERVICES, ONE_SERVICE, ONE_SPAN, POST, SERVICES, TRACE,
};

const NO_TRACE: &[u8] =
    b"HTTP/1.1 404 Not Found\r\nContent-Type: application/json\r\nContent-Length: 92\r\n\r\n\
        {\"data\":null,\"errors\":[{\"code\":404,\"msg\":\"trace not found\"}],\"limit\":0,\"offset\":0,\"total\":0}";

/// The parts of three requests: the batch, the services, its trace.
const REQUESTS: [&[&[u8]]; 3] = [&[POST, BATCH], &[SERVICES], &[TRACE]];

/// The responses to them.
const ROW: [&[u8]; 3] = [ACCEPTED, ONE_SERVICE, ONE_SPAN];

/// The possible responses to them if memory runs out once.
const ROWS_SHORT_OF_MEMORY: [[&[u8]; 3]; 4] = [
    ROW,
    [NO_MEMORY, NO_SERVICES, NO_TRACE],
    [ACCEPTED, NO_MEMORY, ONE_SPAN],
    [ACCEPTED, ONE_SERVICE, NO_MEMORY],
];

/// Returns the bytes of the three requests.
fn three_requests(alloc: Global) -> Result<Vec<u8>, Fail> {
    Ok(REQUESTS.concat(alloc)?.concat(alloc)?)
}

/// Returns the first responses of a row.
fn first_of(alloc: Global, row: [&[u8]; 3], count: u64) -> Result<Vec<u8>, Fail> {
    joined(alloc, &row[..row.len().min(count as usize)])
}

/// Returns how many of the three requests are complete in this number of bytes.
fn whole_requests(bytes: usize) -> u64 {
    let mut end = 0usize;
    let mut count = 0u64;
    for request in REQUESTS {
        for part in request {
            end = end.saturating_add(part.len());
        }
        if end <= bytes {
            count = count.saturating_add(1);
        }
    }
    count
}

/// Returns how many of the three responses are complete in this number of bytes, and how many bytes of the next one
/// follow.
fn whole_responses(bytes: usize) -> (u64, u64) {
    let mut left = bytes;
    let mut count = 0u64;
    for response in ROW {
        if left < response.len() {
            break;
        }
        left -= response.len();
        count = count.saturating_add(1);
    }
    (count, left as u64)
}

/// Returns whether a session with the three requests answers them, with these numbers of bytes read and written at a
/// time.
fn is_answered(alloc: Global, keys: RandomState, step: usize, taken: usize) -> Result<bool, Fail> {
    let bytes = three_requests(alloc)?;
    let wanted = first_of(alloc, ROW, 3)?;
    let devices = Devices {
        step,
        taken,
        ..AMPLE
    };
    is_played(alloc, keys, &bytes, devices, (closed_by_client(3), &wanted))
}

/// The numbers of bytes that are read and written at a time.
const STEPS: [(usize, usize); 5] = [(1, 10_000), (10_000, 1), (1, 1), (7, 7), (10_000, 10_000)];

#[test]
fn one_byte_a_call(rt: HostRuntime) -> Result<(), Fail> {
    let keys = RandomState::new(&rt)?;
    for (step, taken) in STEPS {
        assert!(rt; is_answered(rt.alloc(), keys, step, taken)?);
    }
    Ok(())
}

/// Returns whether what was read is answered if the input fails after this number of reads.
fn is_read_before(
    alloc: Global,
    keys: RandomState,
    bytes: &[u8],
    step: usize,
    before: usize,
) -> Result<bool, Fail> {
    let answered = whole_requests(before.saturating_mul(step));
    let wanted = first_of(alloc, ROW, answered)?;
    let devices = Devices {
        step,
        fails_at: (before as u64).saturating_add(1),
        ..AMPLE
    };
    is_played(alloc, keys, bytes, devices, (unread(answered), &wanted))
}

/// Returns whether it is, at whichever call the input fails.
fn are_read_before(alloc: Global, keys: RandomState, step: usize) -> Result<bool, Fail> {
    let bytes = three_requests(alloc)?;
    let calls = bytes.len().div_ceil(step.max(1)).saturating_add(1);
    for before in 0..calls {
        if !is_read_before(alloc, keys, &bytes, step, before)? {
            return Ok(false);
        }
    }
    Ok(true)
}

/// The input fails at each of its calls, also at the one that would find the end. What was read before is answered.
#[test]
fn a_reader_that_fails_at_each_call(rt: HostRuntime) -> Result<(), Fail> {
    let keys = RandomState::new(&rt)?;
    for step in [1, 16] {
        assert!(rt; are_read_before(rt.alloc(), keys, step)?);
    }
    Ok(())
}

/// Returns whether a session with this room fills it and stops so, and the store has the batch.
fn is_written_up_to(
    alloc: Global,
    keys: RandomState,
    (bytes, wanted): (&[u8], &[u8]),
    room: usize,
) -> Result<bool, Fail> {
    let (answered, written) = whole_responses(room);
    let devices = Devices {
        taken: 5,
        room,
        ..AMPLE
    };
    let seen = played(alloc, keys, bytes, devices)?;
    Ok(
        seen.ended == unwritten(answered, written)
            && seen.output.as_slice().len() == room
            && wanted.starts_with(seen.output.as_slice())
            && seen.trace.as_slice() == ONE_SPAN,
    )
}

/// Returns whether that is so for each room that is too small.
fn are_written_up_to(alloc: Global, keys: RandomState) -> Result<bool, Fail> {
    let bytes = three_requests(alloc)?;
    let wanted = first_of(alloc, ROW, 3)?;
    for room in 0..wanted.len() {
        if !is_written_up_to(alloc, keys, (&bytes, &wanted), room)? {
            return Ok(false);
        }
    }
    Ok(true)
}

/// The output fails after each byte, and the store keeps the batch that was sent.
#[test]
fn a_writer_that_fails_after_each_byte(rt: HostRuntime) -> Result<(), Fail> {
    let keys = RandomState::new(&rt)?;
    assert!(rt; are_written_up_to(rt.alloc(), keys)?);
    Ok(())
}

/// Returns how many responses a session wrote completely, and how many bytes of the next one, if it ended as one may in
/// which memory ran out once.
fn written_in(seen: &Observed) -> Option<(u64, u64)> {
    let cause = if seen.output.failed() {
        SessionErrorKind::Writing
    } else {
        SessionErrorKind::Memory
    };
    match seen.ended {
        Ok(ended) if seen.ended == closed_by_client(3) => Some((ended.answered, 0)),
        Err(stopped) if stopped.cause == cause => Some((stopped.answered, stopped.written)),
        _ => None,
    }
}

/// Returns whether these bytes are the complete responses and this number of bytes of the next one.
fn is_between(bytes: &[u8], whole: &[u8], next: &[u8], written: u64) -> bool {
    next.starts_with(bytes)
        && bytes.starts_with(whole)
        && bytes.len().saturating_sub(whole.len()) as u64 == written
}

/// Returns whether a session in which memory ran out once may have ended so with these responses: all three, or the
/// first ones, complete unless the output itself ran out of memory.
fn may_write(alloc: Global, row: [&[u8]; 3], seen: &Observed) -> Result<bool, Fail> {
    let Some((answered, written)) = written_in(seen) else {
        return Ok(false);
    };
    let whole = first_of(alloc, row, answered)?;
    let next = first_of(alloc, row, answered.saturating_add(1))?;
    Ok(
        is_between(seen.output.as_slice(), &whole, &next, written)
            && (written == 0 || seen.output.failed()),
    )
}

/// Returns whether the session may have ended so with one of the rows.
fn may_write_any(alloc: Global, seen: &Observed) -> Result<bool, Fail> {
    for row in ROWS_SHORT_OF_MEMORY {
        if may_write(alloc, row, seen)? {
            return Ok(true);
        }
    }
    Ok(false)
}

/// Returns whether a session with the three requests, 50 bytes at a time, may have ended as it did, and whether it
/// answered all of them.
fn is_written(alloc: Global, keys: RandomState) -> Result<(bool, bool), Fail> {
    let bytes = three_requests(alloc)?;
    let devices = Devices {
        step: 50,
        taken: 50,
        ..AMPLE
    };
    let seen = played(alloc, keys, &bytes, devices)?;
    let wanted = first_of(alloc, ROW, 3)?;
    let all = seen.ended == closed_by_client(3) && seen.output.as_slice() == wanted.as_slice();
    Ok((all || may_write_any(alloc, &seen)?, all))
}

/// If memory runs out once, a response is a 500 and a batch answered so isn't kept, or the session ends after complete
/// responses. Another session then gets all three. The check of allocations refuses each allocation in turn.
#[test]
fn memory_for_a_session(rt: HostRuntime) -> Result<(), Fail> {
    let keys = RandomState::new(&rt)?;
    let (is_allowed, all) = is_written(rt.alloc(), keys)?;
    assert!(rt; is_allowed);
    assert!(rt; all || is_answered(rt.alloc(), keys, 50, 50)?);
    Ok(())
}
