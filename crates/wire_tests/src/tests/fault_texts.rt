//! The texts of faults that no command prints.

use batch_codec::DecodeError;
use std::alloc::{AllocError, Global};
use std::fmt::Display;
use std::test::*;
use thrift_binary::{WireError, WriteError};

/// The faults of reading, and their names.
const READ_FAULTS: [(WireError, &str); 6] = [
    (WireError::Truncated, "Truncated"),
    (WireError::BadLength, "BadLength"),
    (WireError::BadType, "BadType"),
    (WireError::TooDeep, "TooDeep"),
    (WireError::BadBool, "BadBool"),
    (WireError::BadText, "BadText"),
];

/// The faults of writing, and their names.
const WRITE_FAULTS: [(WriteError, &str); 2] = [
    (WriteError::BadLength, "BadLength"),
    (WriteError::Memory, "NoMemory"),
];

/// Returns whether it prints this text.
fn is_printed(alloc: Global, fault: &impl Display, name: &str) -> Result<bool, AllocError> {
    Ok(format!(in alloc; "{fault}")?.as_str() == name)
}

/// Each fault prints its name: a body of `fmt` that always fails would meet its contract.
#[test]
fn printed_faults(rt: HostRuntime) -> Result<(), Fail> {
    for (fault, name) in &READ_FAULTS {
        assert!(rt; is_printed(rt.alloc(), fault, *name)?);
    }
    for (fault, name) in &WRITE_FAULTS {
        assert!(rt; is_printed(rt.alloc(), fault, *name)?);
    }
    Ok(())
}

/// The one fault that no bytes have; the texts of the others are in `cases/batches`.
#[test]
fn text_of_no_memory(rt: HostRuntime) -> Result<(), Fail> {
    let text = DecodeError::Memory.text(rt.alloc())?;
    assert!(rt; text.as_str() == "22 NoMemory");
    Ok(())
}
