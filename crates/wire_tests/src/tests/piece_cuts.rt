//! However the bytes of a batch are cut, the result of a piece depends on the bytes so far, and that of the end on all.

use crate::tests::large::many_spans;
use crate::tests::piece_samples::CASES;
use batch_codec::{DecodeError, decode};
use batch_feeder::{Feeder, decode_pieces};
use jaeger_model::Batch;
use std::alloc::{AllocError, Global};
use std::mem::drop;
use std::test::*;
use thrift_binary::WireError;
use trace_samples::kept;
use trace_samples::spellings::{ALL, APACHE};

/// Returns whether the result of the pieces is that of decoding the joined bytes.
fn is_same(got: Result<Batch, DecodeError>, whole: &Result<Batch, DecodeError>) -> bool {
    let same = match (&got, whole) {
        (Ok(got), Ok(whole)) => got.is_same(whole),
        (Err(got), Err(whole)) => *got == *whole,
        _ => false,
    };
    drop(got);
    same
}

/// Returns the expected result of a call after which these bytes have arrived: their first fault, unless it is too
/// few bytes.
fn said_of(alloc: Global, bytes: &[u8]) -> Result<(), DecodeError> {
    match decode(alloc, bytes).map(drop) {
        Err(DecodeError::Wire(WireError::Truncated)) => Ok(()),
        said => said,
    }
}

/// Returns the expected result of each prefix, by its length.
fn said_of_each(alloc: Global, bytes: &[u8]) -> Result<Vec<Result<(), DecodeError>>, AllocError> {
    let mut said = Vec::new(alloc);
    for place in 0..bytes.len() {
        let Some((front, _)) = bytes.split_at_checked(place) else {
            break;
        };
        said.push(said_of(alloc, front))?;
    }
    said.push(said_of(alloc, bytes))?;
    Ok(said)
}

/// Feeds a piece that ends at the place, and compares the result.
fn is_fed(
    alloc: Global,
    feeder: &mut Feeder,
    piece: &[u8],
    said: &[Result<(), DecodeError>],
    place: usize,
) -> bool {
    let answer = feeder.feed(alloc, piece);
    match said.get(place) {
        Some(wanted) => answer == *wanted,
        None => false,
    }
}

/// Bytes, the expected result of each prefix of them, and the result of decoding them.
#[derive(Clone, Copy)]
struct Case<'a> {
    bytes: &'a [u8],
    said: &'a [Result<(), DecodeError>],
    whole: &'a Result<Batch, DecodeError>,
}

/// Feeds three pieces, the first with the bytes before one place and the last with those after another. Each call
/// returns the expected result, and the end that of decoding.
fn is_same_cut_at(alloc: Global, case: &Case<'_>, place: usize, other: usize) -> bool {
    let Some((front, last)) = case.bytes.split_at_checked(other) else {
        return false;
    };
    let Some((first, middle)) = front.split_at_checked(place) else {
        return false;
    };
    let mut feeder = Feeder::new(alloc);
    let fed = is_fed(alloc, &mut feeder, first, case.said, place)
        && is_fed(alloc, &mut feeder, middle, case.said, other)
        && is_fed(alloc, &mut feeder, last, case.said, case.bytes.len());
    let same = is_same(feeder.finish(), case.whole);
    fed && same
}

/// Feeds each byte alone.
fn is_same_by_bytes(alloc: Global, case: &Case<'_>) -> bool {
    let mut feeder = Feeder::new(alloc);
    let mut fed = true;
    for (place, byte) in case.bytes.iter().enumerate() {
        let place = place.saturating_add(1);
        fed = is_fed(alloc, &mut feeder, &[*byte], case.said, place) && fed;
    }
    let same = is_same(feeder.finish(), case.whole);
    fed && same
}

/// Bytes up to this length are cut at any two places, and longer ones at one.
const SHORT: usize = 64;

/// Cuts at each such pair of places, also before the first byte and after the last one, and feeds each byte alone.
fn is_same_however_cut(alloc: Global, case: &Case<'_>) -> bool {
    let count = case.bytes.len();
    for other in 0..count.saturating_add(1) {
        let first = if count > SHORT { other } else { 0 };
        for place in first..other.saturating_add(1) {
            if !is_same_cut_at(alloc, case, place, other) {
                return false;
            }
        }
    }
    is_same_by_bytes(alloc, case)
}

/// Returns the number of lines of bytes before one with another result in pieces.
fn same_lines(alloc: Global, lines: &str) -> Result<u64, Fail> {
    let mut count = 0u64;
    for line in lines.lines() {
        if !is_same_line(alloc, line)? {
            break;
        }
        count = count.saturating_add(1);
    }
    Ok(count)
}

/// Returns whether the bytes of the line have the same result in pieces as in one.
fn is_same_line(alloc: Global, line: &str) -> Result<bool, AllocError> {
    match hex::decode(alloc, line) {
        Ok(bytes) => are_same_bytes(alloc, &bytes),
        Err(_) => Ok(false),
    }
}

/// Returns whether these bytes have the same result in pieces as in one.
fn are_same_bytes(alloc: Global, bytes: &[u8]) -> Result<bool, AllocError> {
    let said = said_of_each(alloc, bytes)?;
    let whole = decode(alloc, bytes);
    let case = Case {
        bytes,
        said: &said,
        whole: &whole,
    };
    let same = is_same_however_cut(alloc, &case);
    drop(whole);
    Ok(same)
}

#[test]
fn any_cut(rt: HostRuntime) -> Result<(), Fail> {
    assert!(rt; same_lines(rt.alloc(), CASES)? == 28);
    Ok(())
}

#[test]
fn any_cut_of_each_sample(rt: HostRuntime) -> Result<(), Fail> {
    assert!(rt; is_same_line(rt.alloc(), ALL)?);
    for line in &APACHE {
        assert!(rt; is_same_line(rt.alloc(), line)?);
    }
    Ok(())
}

/// Adds the bytes in pieces of 1, 4, 13 and so on bytes, and starts from 1 again once they would be large.
fn add_odd_pieces(
    alloc: Global,
    pieces: &mut Vec<Vec<u8>>,
    bytes: &[u8],
) -> Result<(), AllocError> {
    let mut left = bytes;
    let mut size = 1usize;
    for _ in 0..bytes.len() {
        if left.is_empty() {
            break;
        }
        let (front, rest) = left.split_at(size.min(left.len()));
        pieces.push(front.to_vec(alloc)?)?;
        left = rest;
        size = if size > 10_000 { 1 } else { size * 3 + 1 };
    }
    Ok(())
}

/// Returns these pieces.
fn odd_pieces(alloc: Global, bytes: &[u8]) -> Result<Vec<Vec<u8>>, AllocError> {
    let mut pieces = Vec::new(alloc);
    let added = add_odd_pieces(alloc, &mut pieces, bytes);
    kept(pieces, added)
}

/// Returns whether these bytes have the same result in those pieces as in one.
fn is_same_in_odd_pieces(alloc: Global, bytes: &[u8]) -> Result<bool, AllocError> {
    let pieces = odd_pieces(alloc, bytes)?;
    let whole = decode(alloc, bytes);
    let same = is_same(decode_pieces(alloc, &pieces), &whole);
    drop(whole);
    Ok(same)
}

/// About a megabyte.
#[test]
fn a_large_batch_in_odd_pieces(rt: HostRuntime) -> Result<(), Fail> {
    let alloc = rt.alloc();
    let bytes = many_spans(alloc)?;
    assert!(rt; is_same_in_odd_pieces(alloc, &bytes)?);
    Ok(())
}
