//! Batches that are encoded, and running out of memory.

use batch_codec::{DecodeError, decode, encode};
use std::alloc::Global;
use std::mem::drop;
use std::test::*;
use trace_samples::retry;
use trace_samples::spellings::ALL;

/// Returns the bytes of hexadecimal text, without its spaces.
pub(crate) fn bytes_of(alloc: Global, text: &str) -> Result<Vec<u8>, Fail> {
    let mut bytes = Vec::new(alloc);
    for part in text.split(' ') {
        bytes.extend_from_slice(&hex::decode(alloc, part)?)?;
    }
    Ok(bytes)
}

/// Returns whether the bytes are decoded to a batch that is encoded to the same bytes.
fn is_kept_at_last(alloc: Global, bytes: &[u8]) -> bool {
    let Ok(batch) = retry(DecodeError::Memory, || decode(alloc, bytes)) else {
        return false;
    };
    let written = retry(DecodeError::Memory, || encode(alloc, &batch));
    drop(batch);
    written.is_ok_and(|written| written.as_slice() == bytes)
}

/// If memory runs out once, the call reports it, and the same call afterwards returns the batch and its one
/// spelling. The check of allocations fails each allocation in turn.
#[test]
fn memory_for_a_batch(rt: HostRuntime) -> Result<(), Fail> {
    let bytes = bytes_of(rt.alloc(), ALL)?;
    assert!(rt; is_kept_at_last(rt.alloc(), bytes.as_slice()));
    Ok(())
}

/// A batch up to its process's one tag, and what follows that.
const TAG: &str = "0c0001 0b0001 00000001 61 0f0002 0c 00000001 0b0001 00000001 65";

const TAG_END: &str = "00 00 0f0002 0c 00000000 00";

/// An encoded batch without spans, with the number 1.
const NUMBERED: &str = "0c0001 0b0001 00000001 61 00 0f0002 0c 00000000 0a0003 0000000000000001 00";

/// A batch is encoded to the bytes that it was decoded from, if they are its one spelling.
#[test]
fn one_spelling(rt: HostRuntime) -> Result<(), Fail> {
    for text in [NUMBERED, ALL] {
        let bytes = bytes_of(rt.alloc(), text)?;
        assert!(rt; is_kept_at_last(rt.alloc(), bytes.as_slice()));
    }
    Ok(())
}

/// The fields of a tag as they are read, and the one spelling of it.
const SPELLINGS: [(&str, &str); 9] = [
    ("080002 00000000", "080002 00000000 0b0003 00000000"),
    ("080002 00000001", "080002 00000001 040004 0000000000000000"),
    (
        "080002 00000001 040004 7ff8000000000001",
        "080002 00000001 040004 7ff8000000000001",
    ),
    ("080002 00000002", "080002 00000002 020005 00"),
    ("020005 01 080002 00000002", "080002 00000002 020005 01"),
    ("080002 00000003", "080002 00000003 0a0006 0000000000000000"),
    (
        "0b0003 00000001 76 0a0006 ffffffffffffffff 080002 00000000 080002 00000003",
        "080002 00000003 0a0006 ffffffffffffffff",
    ),
    ("080002 00000004", "080002 00000004 0b0007 00000000"),
    (
        "080002 00000004 0b0003 00000001 76 0b0007 00000001 ff 0b0007 00000002 00fe",
        "080002 00000004 0b0007 00000002 00fe",
    ),
];

/// The bytes of a batch with a tag of these fields.
fn with_tag(alloc: Global, fields: &str) -> Result<Vec<u8>, Fail> {
    bytes_of(alloc, &[TAG, fields, TAG_END].join(alloc, " ")?)
}

/// The one spelling of the batch with that tag.
fn respelled(alloc: Global, fields: &str) -> Result<Vec<u8>, Fail> {
    let batch = decode(alloc, &with_tag(alloc, fields)?)?;
    let written = encode(alloc, &batch);
    drop(batch);
    Ok(written?)
}

/// Returns whether the decoded tag is encoded in its one spelling.
fn is_respelled(alloc: Global, read: &str, written: &str) -> Result<bool, Fail> {
    let want = with_tag(alloc, written)?;
    let bytes = respelled(alloc, read)?;
    Ok(bytes.as_slice() == want.as_slice())
}

#[test]
fn one_value_of_a_tag(rt: HostRuntime) -> Result<(), Fail> {
    for (read, written) in &SPELLINGS {
        assert!(rt; is_respelled(rt.alloc(), read, written)?);
    }
    Ok(())
}
