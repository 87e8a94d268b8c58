//! The numbers of batches as Apache Thrift encodes them, which no command prints. `cases/apache` tests the rest of
//! these batches.

use crate::tests::batch_bytes::bytes_of;
use batch_codec::decode;
use std::alloc::Global;
use std::mem::drop;
use std::test::*;
use trace_samples::spellings::{EVERY_FIELD, NO_SPANS, STATISTICS};

/// Returns the number of the encoded batch.
fn number_of(alloc: Global, hex: &str) -> Result<Option<i64>, Fail> {
    let batch = decode(alloc, &bytes_of(alloc, hex)?)?;
    let number = batch.seq_no;
    drop(batch);
    Ok(number)
}

#[test]
fn numbers_of_batches(rt: HostRuntime) -> Result<(), Fail> {
    for (hex, want) in [(NO_SPANS, 1), (EVERY_FIELD, -9), (STATISTICS, 2)] {
        assert!(rt; number_of(rt.alloc(), hex)? == Some(want));
    }
    Ok(())
}
