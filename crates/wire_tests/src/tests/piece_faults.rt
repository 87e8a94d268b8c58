//! A fault is reported for the piece that has its last byte, and from then on.

use batch_codec::{DecodeError, StructName, decode};
use batch_feeder::Feeder;
use jaeger_model::Batch;
use std::alloc::{AllocError, Global};
use std::mem::drop;
use std::test::*;
use thrift_binary::{WireError, types};
use trace_samples::exchanges::BATCH;
use trace_samples::spellings::ALL;

/// A batch without spans.
const WHOLE: &[u8] =
    b"\x0c\x00\x01\x0b\x00\x01\x00\x00\x00\x01\x61\x00\x0f\x00\x02\x0c\x00\x00\x00\x00\x00";

/// The results of the first piece, the second, an empty one after them, and the end.
fn answers(alloc: Global, first: &[u8], second: &[u8]) -> [Result<(), DecodeError>; 4] {
    let mut feeder = Feeder::new(alloc);
    let one = feeder.feed(alloc, first);
    let two = feeder.feed(alloc, second);
    let three = feeder.feed(alloc, &[]);
    [one, two, three, feeder.finish().map(drop)]
}

#[test]
fn a_refusal_stays(rt: HostRuntime) {
    let alloc = rt.alloc();
    let trailing = Err(DecodeError::Trailing);
    let missing = Err(DecodeError::Missing(StructName::Batch, 1));
    assert!(rt; answers(alloc, WHOLE, &[]) == [Ok(()); 4]);
    assert!(rt; answers(alloc, WHOLE, &[0]) == [Ok(()), trailing, trailing, trailing]);
    assert!(rt; answers(alloc, &[0], WHOLE) == [missing; 4]);
}

/// Returns the fault of decoding.
fn fault_of(alloc: Global, bytes: &[u8]) -> Option<DecodeError> {
    decode(alloc, bytes).err()
}

/// Returns whether feeding the bytes succeeds, and the end reports too few bytes, as decoding does.
fn is_short(alloc: Global, bytes: &[u8]) -> bool {
    let truncated = DecodeError::Wire(WireError::Truncated);
    answers(alloc, bytes, &[]) == [Ok(()), Ok(()), Ok(()), Err(truncated)]
        && fault_of(alloc, bytes) == Some(truncated)
}

/// Returns the number of prefixes of the bytes, from the empty one on, that are too few bytes, before one that isn't.
fn short_beginnings(alloc: Global, bytes: &[u8]) -> usize {
    for size in 0..bytes.len() {
        let Some((front, _)) = bytes.split_at_checked(size) else {
            return size;
        };
        if !is_short(alloc, front) {
            return size;
        }
    }
    bytes.len()
}

#[test]
fn each_beginning_is_truncated(rt: HostRuntime) -> Result<(), Fail> {
    let alloc = rt.alloc();
    assert!(rt; short_beginnings(alloc, BATCH) == BATCH.len());
    assert!(rt; answers(alloc, BATCH, &[]) == [Ok(()); 4]);
    assert!(rt; fault_of(alloc, BATCH).is_none());
    Ok(())
}

/// The size of a map at level 64 of a skipped field. Around it are a struct, then 15 times a list, a set, a map and a
/// struct, then a list and a set, each inside the one before.
const AT_LEVEL_64: &[u8] = b"\x0c\x00\x09\
    \x0f\x00\x01\x0e\x00\x00\x00\x01\x0d\x00\x00\x00\x01\x02\x0c\x00\x00\x00\x01\x00\
    \x0f\x00\x01\x0e\x00\x00\x00\x01\x0d\x00\x00\x00\x01\x02\x0c\x00\x00\x00\x01\x00\
    \x0f\x00\x01\x0e\x00\x00\x00\x01\x0d\x00\x00\x00\x01\x02\x0c\x00\x00\x00\x01\x00\
    \x0f\x00\x01\x0e\x00\x00\x00\x01\x0d\x00\x00\x00\x01\x02\x0c\x00\x00\x00\x01\x00\
    \x0f\x00\x01\x0e\x00\x00\x00\x01\x0d\x00\x00\x00\x01\x02\x0c\x00\x00\x00\x01\x00\
    \x0f\x00\x01\x0e\x00\x00\x00\x01\x0d\x00\x00\x00\x01\x02\x0c\x00\x00\x00\x01\x00\
    \x0f\x00\x01\x0e\x00\x00\x00\x01\x0d\x00\x00\x00\x01\x02\x0c\x00\x00\x00\x01\x00\
    \x0f\x00\x01\x0e\x00\x00\x00\x01\x0d\x00\x00\x00\x01\x02\x0c\x00\x00\x00\x01\x00\
    \x0f\x00\x01\x0e\x00\x00\x00\x01\x0d\x00\x00\x00\x01\x02\x0c\x00\x00\x00\x01\x00\
    \x0f\x00\x01\x0e\x00\x00\x00\x01\x0d\x00\x00\x00\x01\x02\x0c\x00\x00\x00\x01\x00\
    \x0f\x00\x01\x0e\x00\x00\x00\x01\x0d\x00\x00\x00\x01\x02\x0c\x00\x00\x00\x01\x00\
    \x0f\x00\x01\x0e\x00\x00\x00\x01\x0d\x00\x00\x00\x01\x02\x0c\x00\x00\x00\x01\x00\
    \x0f\x00\x01\x0e\x00\x00\x00\x01\x0d\x00\x00\x00\x01\x02\x0c\x00\x00\x00\x01\x00\
    \x0f\x00\x01\x0e\x00\x00\x00\x01\x0d\x00\x00\x00\x01\x02\x0c\x00\x00\x00\x01\x00\
    \x0f\x00\x01\x0e\x00\x00\x00\x01\x0d\x00\x00\x00\x01\x02\x0c\x00\x00\x00\x01\x00\
    \x0f\x00\x01\x0e\x00\x00\x00\x01\x0d\x00\x00\x00\x01\x02\x02\x7f\xff\xff\xff";

/// Bytes that end with a size of 2,147,483,647 and nothing after it: of a text, of lists and of a binary that are
/// read, and of a string, lists, a set and maps that are skipped, at the levels 1 to 3 and 64.
const CLAIMS: [&[u8]; 13] = [
    b"\x0c\x00\x01\x0b\x00\x01\x7f\xff\xff\xff",
    b"\x0c\x00\x01\x0f\x00\x02\x0c\x7f\xff\xff\xff",
    b"\x0f\x00\x02\x0c\x7f\xff\xff\xff",
    b"\x0c\x00\x01\x0f\x00\x02\x0c\x00\x00\x00\x01\x0b\x00\x07\x7f\xff\xff\xff",
    b"\x0b\x00\x09\x7f\xff\xff\xff",
    b"\x0f\x00\x09\x08\x7f\xff\xff\xff",
    b"\x0e\x00\x09\x0b\x7f\xff\xff\xff",
    b"\x0d\x00\x09\x0b\x0b\x7f\xff\xff\xff",
    b"\x0d\x00\x09\x0f\x0c\x7f\xff\xff\xff\x08\x7f\xff\xff\xff",
    b"\x0f\x00\x09\x0c\x00\x00\x00\x01\x0d\x00\x01\x0b\x0b\x7f\xff\xff\xff",
    b"\x0c\x00\x09\x0e\x00\x01\x0f\x00\x00\x00\x01\x08\x7f\xff\xff\xff",
    b"\x0d\x00\x09\x02\x0c\x00\x00\x00\x01\x00\x0e\x00\x01\x0b\x00\x00\x00\x01\x7f\xff\xff\xff",
    AT_LEVEL_64,
];

/// No memory is needed: the check of allocations sees that all of it takes no allocation.
#[test]
fn sizes_beyond_the_bytes(rt: HostRuntime) {
    for bytes in CLAIMS {
        assert!(rt; is_short(rt.alloc(), bytes));
    }
}

/// Returns the bytes before the last four.
fn before_the_size(bytes: &[u8]) -> &[u8] {
    match bytes.split_at_checked(bytes.len().saturating_sub(4)) {
        Some((front, _)) => front,
        None => bytes,
    }
}

/// Returns whether the bytes with a size below 0 in place of theirs are too few before its last byte, and refused with
/// it.
fn is_refused_below_0(alloc: Global, claim: &[u8]) -> Result<bool, AllocError> {
    let fault = DecodeError::Wire(WireError::BadLength);
    let mut bytes = Vec::new(alloc);
    bytes.extend_from_slice(before_the_size(claim))?;
    bytes.extend_from_slice(b"\x80\x00\x00")?;
    let short = is_short(alloc, &bytes);
    bytes.push(0)?;
    let fed = answers(alloc, &bytes, &[]) == [Err(fault); 4];
    Ok(short && fed && fault_of(alloc, &bytes) == Some(fault))
}

/// A size is refused with the piece that has its last byte, and by decoding.
#[test]
fn sizes_below_0(rt: HostRuntime) -> Result<(), Fail> {
    for bytes in CLAIMS {
        assert!(rt; is_refused_below_0(rt.alloc(), bytes)?);
    }
    Ok(())
}

/// Returns the type of the container at a level: structs, maps, sets and lists in turn.
fn code_at(level: usize) -> u8 {
    match level % 4 {
        0 => types::STRUCT,
        1 => types::MAP,
        2 => types::SET,
        _ => types::LIST,
    }
}

/// Returns the bytes in a container of the type before the one inside it.
fn begin(bytes: &mut Vec<u8>, code: u8, within: u8) -> Result<(), AllocError> {
    match code {
        types::STRUCT => bytes.extend_from_slice(&[within, 0, 1]),
        types::MAP => bytes.extend_from_slice(&[types::BOOL, within, 0, 0, 0, 1, 0]),
        _ => bytes.extend_from_slice(&[within, 0, 0, 0, 1]),
    }
}

/// Returns an empty container of the type.
fn hold_none(bytes: &mut Vec<u8>, code: u8) -> Result<(), AllocError> {
    match code {
        types::STRUCT => bytes.extend_from_slice(&[types::STOP]),
        types::MAP => bytes.extend_from_slice(&[types::BOOL, types::BOOL, 0, 0, 0, 0]),
        _ => bytes.extend_from_slice(&[types::BOOL, 0, 0, 0, 0]),
    }
}

/// Returns a batch after an unknown field: nested containers from the one of this level on, one more than this number.
fn nested(alloc: Global, first: usize, below: usize) -> Result<Vec<u8>, AllocError> {
    let mut bytes = Vec::new(alloc);
    bytes.extend_from_slice(&[code_at(first), 0, 9])?;
    let last = first.saturating_add(below);
    for level in first..last {
        begin(&mut bytes, code_at(level), code_at(level.saturating_add(1)))?;
    }
    hold_none(&mut bytes, code_at(last))?;
    for level in first..last {
        if code_at(level) == types::STRUCT {
            bytes.push(0)?;
        }
    }
    bytes.extend_from_slice(WHOLE)?;
    Ok(bytes)
}

/// Returns the result of the end if each byte arrives alone.
fn ended_by_bytes(alloc: Global, bytes: &[u8]) -> Option<DecodeError> {
    let mut feeder = Feeder::new(alloc);
    for byte in bytes {
        let _ = feeder.feed(alloc, &[*byte]);
    }
    feeder.finish().err()
}

/// Returns whether decoding returns this, and a `Feeder` at its end, however the bytes arrive.
fn all_answer(alloc: Global, bytes: &[u8], fault: Option<DecodeError>) -> bool {
    let by_bytes = ended_by_bytes(alloc, bytes);
    let whole = answers(alloc, bytes, &[])[3].err();
    fault_of(alloc, bytes) == fault && whole == fault && by_bytes == fault
}

/// Returns whether 1 and 64 levels from this one on are skipped, and 65 are too deep.
fn are_levels(alloc: Global, first: usize) -> Result<bool, AllocError> {
    let too_deep = Some(DecodeError::Wire(WireError::TooDeep));
    Ok(
        all_answer(alloc, &nested(alloc, first, 0)?, None)
            && all_answer(alloc, &nested(alloc, first, 63)?, None)
            && all_answer(alloc, &nested(alloc, first, 64)?, too_deep),
    )
}

/// 64 levels are skipped, and one more is too deep, whichever container it is.
#[test]
fn levels_of_skipped_values(rt: HostRuntime) -> Result<(), Fail> {
    for first in 0..4 {
        assert!(rt; are_levels(rt.alloc(), first)?);
    }
    Ok(())
}

/// The outcome of a batch in pieces.
#[derive(Clone, Copy, PartialEq, Eq)]
enum Taken {
    /// It is the batch.
    Same,
    /// Memory ran out in a piece or at the end, and each call after it reported it.
    NoMemory,
    Other,
}

/// The bytes of a batch in pieces of a few bytes.
fn came_of(alloc: Global, bytes: &[u8], whole: &Batch) -> Taken {
    let mut feeder = Feeder::new(alloc);
    let had_memory = fed_in_pieces(alloc, &mut feeder, bytes);
    let end = feeder.finish();
    let taken = match (&end, had_memory) {
        (Ok(batch), Some(true)) if batch.is_same(whole) => Taken::Same,
        (Err(DecodeError::Memory), Some(_)) => Taken::NoMemory,
        _ => Taken::Other,
    };
    drop(end);
    taken
}

/// Returns whether there was memory for each of the pieces. `None` if there was another error, or a call succeeded
/// after one.
fn fed_in_pieces(alloc: Global, feeder: &mut Feeder, bytes: &[u8]) -> Option<bool> {
    let mut has_memory = true;
    for piece in bytes.chunks(11) {
        let answer = feeder.feed(alloc, piece);
        if answer == Err(DecodeError::Memory) {
            has_memory = false;
        } else if answer.is_err() || !has_memory {
            return None;
        }
    }
    Some(has_memory)
}

/// Returns the outcome of a batch in pieces, tried a second time if memory ran out.
fn came_at_last(alloc: Global, bytes: &[u8]) -> Result<Taken, DecodeError> {
    let whole = decode(alloc, bytes)?;
    let mut said = came_of(alloc, bytes, &whole);
    if said == Taken::NoMemory {
        said = came_of(alloc, bytes, &whole);
    }
    drop(whole);
    Ok(said)
}

/// If memory runs out once, every later call reports it, and a new `Feeder` takes the batch. The check of allocations
/// fails each allocation in turn.
#[test]
fn memory_for_pieces(rt: HostRuntime) -> Result<(), Fail> {
    let alloc = rt.alloc();
    let bytes = hex::decode(alloc, ALL)?;
    assert!(rt; came_at_last(alloc, &bytes)? == Taken::Same);
    Ok(())
}
