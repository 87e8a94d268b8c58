ghost use Rattle.std.specs.Prelude.{◌≡◌, ◌++◌, Some, false, []};

use crate::{Failed, Input, Output};
use std::alloc::Global;

/// An input over memory. Each read returns at most `step` bytes, and one read can be made to fail.
#[derive(Drop)]
pub struct MemoryInput<'a> {
    bytes: &'a [u8],
    step: usize,
    calls: u64,
    fails_at: u64,
    failed: bool,
}

impl<'a> MemoryInput<'a> {
    /// Creates an input that returns the bytes, at most `step` a call (one if that is 0), and fails at call `fails_at`,
    /// counted from 1. With 0 it never fails.
    pub fn new(bytes: &'a [u8], step: usize, fails_at: u64) -> Self
        ensures bytes { result.bytes.now ≡ bytes.now }
        ensures failed { result.failed ≡ false }
    {
        MemoryInput {
            bytes,
            step,
            calls: 0,
            fails_at,
            failed: false,
        }
    }
}

impl<'a> Input for MemoryInput<'a> {
    ghost remaining = { λ s. Some s.bytes.now };

    ghost gives = { λ s given t. s.bytes.now ≡ given ++ t.bytes.now };

    ghost has_failed = { λ s. s.failed };

    fn read(&mut self, buf: &mut [u8]) -> Result<usize, Failed> {
        self.calls = self.calls.saturating_add(1);
        if self.calls == self.fails_at {
            self.failed = true;
            return Err(Failed);
        }
        let count = buf.len().min(self.step.max(1)).min(self.bytes.len());
        buf[..count].copy_from_slice(&self.bytes[..count]);
        self.bytes = &self.bytes[count..];
        Ok(count)
    }

    fn failed(&self) -> bool {
        self.failed
    }
}

/// An output over memory. Each write takes at most `step` bytes, and it fails once `room` bytes were written.
#[derive(Drop)]
pub struct MemoryOutput {
    bytes: Vec<u8>,
    room: usize,
    step: usize,
    failed: bool,
}

impl MemoryOutput {
    /// Creates an output that takes at most `step` bytes a call (one if that is 0) and `room` bytes in all.
    pub fn new(alloc: Global, room: usize, step: usize) -> Self
        ensures bytes { result.bytes.items ≡ [] }
        ensures failed { result.failed ≡ false }
    {
        MemoryOutput {
            bytes: Vec::new(alloc),
            room,
            step,
            failed: false,
        }
    }

    /// Returns the bytes that were written.
    pub fn as_slice(&self) -> &[u8]
        ensures { result.now ≡ self.now.bytes.items }
    {
        self.bytes.as_slice()
    }
}

impl Output for MemoryOutput {
    ghost use Rattle.std.proofs.Common.{sym, ap, ◌∙◌, append_assoc, append-nil};

    ghost contents = { λ s. Some s.bytes.items };

    ghost takes = { λ s bytes t. t.bytes.items ≡ s.bytes.items ++ bytes };

    ghost has_failed = { λ s. s.failed };

    ghost takes_nothing = { λ s. sym (append-nil s.bytes.items) };

    ghost takes_joined = { λ s t u front back one two. two ∙ ap (λ l. l ++ back) one ∙ append_assoc s.bytes.items front back };

    fn write(&mut self, buf: &[u8]) -> Result<usize, Failed> {
        let count = buf.len().min(self.step.max(1)).min(self.room);
        let taken = self.bytes.extend_from_slice(&buf[..count]).is_ok();
        if !taken || (count == 0 && !buf.is_empty()) {
            self.failed = true;
            return Err(Failed);
        }
        self.room -= count;
        Ok(count)
    }

    fn failed(&self) -> bool {
        self.failed
    }
}
