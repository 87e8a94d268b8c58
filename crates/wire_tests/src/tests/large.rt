//! A body of more than two megabytes, and one of many spans.

use batch_codec::{DecodeError, decode, encode};
use jaeger_model::Batch;
use std::alloc::{AllocError, Global};
use std::mem::drop;
use std::test::*;

const MEGABYTE: usize = 1_000_000;

const MANY: usize = 5_000;

/// A batch of service `a` up to the number of its spans.
const HEAD: &[u8] = b"\x0c\x00\x01\x0b\x00\x01\x00\x00\x00\x01a\x00\x0f\x00\x02\x0c";

/// The required fields of a span.
const FIELDS: &[u8] = b"\
    \x0a\x00\x01\x00\x00\x00\x00\x00\x00\x00\x01\
    \x0a\x00\x02\x00\x00\x00\x00\x00\x00\x00\x00\
    \x0a\x00\x03\x00\x00\x00\x00\x00\x00\x00\x02\
    \x0a\x00\x04\x00\x00\x00\x00\x00\x00\x00\x00\
    \x0b\x00\x05\x00\x00\x00\x02op\
    \x08\x00\x07\x00\x00\x00\x01\
    \x0a\x00\x08\x00\x00\x00\x00\x00\x00\x03\xe8\
    \x0a\x00\x09\x00\x00\x00\x00\x00\x00\x002";

/// The tags of a span up to a text of a megabyte; 5,002 tags in all.
const TEXT: &[u8] = b"\
    \x0f\x00\x0a\x0c\x00\x00\x13\x8a\
    \x0b\x00\x01\x00\x00\x00\x04text\x08\x00\x02\x00\x00\x00\x00\x0b\x00\x03\x00\x0f\x42\x40";

/// What is between that text and a binary of a megabyte.
const BINARY: &[u8] =
    b"\x00\x0b\x00\x01\x00\x00\x00\x05bytes\x08\x00\x02\x00\x00\x00\x04\x0b\x00\x07\x00\x0f\x42\x40";

/// A tag of a number.
const NUMBER: &[u8] =
    b"\x0b\x00\x01\x00\x00\x00\x01n\x08\x00\x02\x00\x00\x00\x03\x0a\x00\x06\x00\x00\x00\x00\x00\x00\x00\x07\x00";

/// A log up to its 5,000 fields.
const LOG: &[u8] =
    b"\x0f\x00\x0b\x0c\x00\x00\x00\x01\x0a\x00\x01\x00\x00\x00\x00\x00\x00\x00\x00\x0f\x00\x02\x0c\x00\x00\x13\x88";

/// Returns a span with long values, many tags and a log with many fields.
fn long_span(alloc: Global) -> Result<Vec<u8>, AllocError> {
    let letters = b"a".repeat(alloc, MEGABYTE)?;
    let numbers = NUMBER.repeat(alloc, MANY)?;
    let parts: [&[u8]; 9] = [
        FIELDS, TEXT, &letters, BINARY, &letters, b"\x00", &numbers, LOG, &numbers,
    ];
    let span = parts.concat(alloc)?;
    Ok([span.as_slice(), b"\x00\x00"].concat(alloc)?)
}

/// Returns a batch of these bytes of a span, and `count` short spans after it. The number of all spans is given as
/// bytes.
fn batch_with(
    alloc: Global,
    spans: &[u8; 4],
    first: &[u8],
    count: usize,
) -> Result<Vec<u8>, AllocError> {
    let short = [FIELDS, b"\x00"].concat(alloc)?.repeat(alloc, count)?;
    let parts: [&[u8]; 5] = [HEAD, spans, first, &short, b"\x00"];
    Ok(parts.concat(alloc)?)
}

/// Returns a batch of 8,000 spans, of about a megabyte.
pub(crate) fn many_spans(alloc: Global) -> Result<Vec<u8>, AllocError> {
    batch_with(alloc, b"\x00\x00\x1f\x40", b"", 8_000)
}

/// Returns whether the bytes are those of a copy of the batch that they are decoded to.
fn is_kept(alloc: Global, bytes: &[u8]) -> Result<bool, DecodeError> {
    let batch = decode(alloc, bytes)?;
    let written = copy_bytes(alloc, &batch);
    drop(batch);
    Ok(written?.as_slice() == bytes)
}

/// Returns the bytes of a copy of the batch.
fn copy_bytes(alloc: Global, batch: &Batch) -> Result<Vec<u8>, DecodeError> {
    let copy = batch.clone()?;
    let written = encode(alloc, &copy);
    drop(copy);
    written
}

/// No function fails above some size: a body of more than two megabytes is read, copied and written.
#[test]
fn large_batches(rt: HostRuntime) -> Result<(), Fail> {
    let alloc = rt.alloc();
    let span = long_span(alloc)?;
    let bytes = batch_with(alloc, b"\x00\x00\x13\x89", &span, MANY)?;
    assert!(rt; bytes.len() > 2 * MEGABYTE);
    assert!(rt; is_kept(alloc, &bytes) == Ok(true));
    Ok(())
}
