//! A growable buffer of bytes.
ghost use Rattle.std.specs.Prelude.{◌≡◌, ◌+◌, ◌-◌, ◌<◌, ◌≤◌, ◌++◌, [], true, false, IfOk, length, take};

use std::alloc::{AllocError, Global};
use std::marker::Model;

/// The number of bytes of room that a buffer gets beyond those that it needs, each time that it grows.
const SPARE: usize = 1_024;

/// A growable buffer: the first `len` bytes of an initialized block. If there is room, appending is one copy.
#[derive(Drop)]
pub(crate) struct Buffer {
    block: Vec<u8>,
    /// The number of bytes in use. The bytes of the block after them are the room for more.
    len: usize,
}

impl Model for Buffer {
    ghost use Rattle.std.specs.Prelude.{◌≤◌, length, take};
    ghost use Rattle.json_page.specs.Buffers.{Buffered};

    ghost Value = { Buffered };

    ghost view = { λ b. record { items = take b.len b.block.items; room = length b.block.items } };

    ghost invariant = { λ b. b.len ≤ length b.block.items };
}

impl Buffer {
    /// Returns an empty buffer with room for this number of bytes.
    pub(crate) fn with_room(alloc: Global, room: usize) -> Result<Buffer, AllocError>
        ensures items { IfOk result (λ b. b.items ≡ []) }
        ensures room { IfOk result (λ b. b.room ≡ room) }
    {
        Ok(Buffer {
            block: vec![in alloc; 0; room]?,
            len: 0,
        })
    }

    /// Returns a buffer of these bytes, without room for more.
    pub(crate) fn of_bytes(bytes: Vec<u8>) -> Buffer
        ensures items { result.items ≡ bytes.items }
    {
        Buffer {
            len: bytes.len(),
            block: bytes,
        }
    }

    /// Returns the number of bytes.
    #[inline]
    pub(crate) fn len(&self) -> usize
        ensures { result ≡ length self.now.items }
    {
        self.len
    }

    /// Returns the number of bytes that fit without growing.
    pub(crate) fn room(&self) -> usize
        ensures { result ≡ self.now.room }
    {
        self.block.len()
    }

    /// Returns the bytes.
    pub(crate) fn as_slice(&self) -> &[u8]
        ensures { result.now ≡ self.now.items }
    {
        &self.block[..self.len]
    }

    /// Removes all bytes and keeps the room.
    pub(crate) fn clear(&mut self)
        ensures items { self.new.items ≡ [] }
        ensures room { self.new.room ≡ self.old.room }
    {
        self.len = 0;
    }

    /// Returns the bytes.
    pub(crate) fn into_bytes(self) -> Vec<u8>
        ensures { result.items ≡ self.items }
    {
        let mut bytes = self.block;
        bytes.truncate(self.len);
        bytes
    }

    /// Makes room for more bytes. Returns whether there was memory for them. At most [`SPARE`] bytes beyond them are
    /// initialized, so that memory isn't touched long before it is used.
    #[inline(never)]
    fn grow(&mut self, more: usize) -> bool
        ensures items { self.new.items ≡ self.old.items }
        ensures room { self.old.room ≤ self.new.room }
        ensures grown { result ≡ true → length self.old.items + more ≤ self.new.room }
    {
        let Some(needed) = self.len.checked_add(more) else {
            return false;
        };
        let size = needed.saturating_add(SPARE).max(self.block.len());
        self.block.resize(size, 0).is_ok()
    }

    /// Copies bytes into the room.
    #[inline]
    fn copy(&mut self, bytes: &[u8])
        requires { length self.old.items + length bytes.now ≤ self.old.room }
        ensures items { self.new.items ≡ self.old.items ++ bytes.now }
        ensures room { self.new.room ≡ self.old.room }
    {
        let end = self.len + bytes.len();
        self.block.slice_mut(self.len..end).copy_from_slice(bytes);
        self.len = end;
    }

    /// Appends bytes. Returns whether there was room or memory for them; if not, the bytes are unchanged.
    #[inline]
    pub(crate) fn append(&mut self, bytes: &[u8]) -> bool
        ensures appended { result ≡ true → self.new.items ≡ self.old.items ++ bytes.now }
        ensures kept { result ≡ false → self.new.items ≡ self.old.items }
        ensures room { self.old.room ≤ self.new.room }
        ensures refused { result ≡ false →
            self.old.room - length self.old.items < length bytes.now }
    {
        if bytes.len() > self.block.len() - self.len && !self.grow(bytes.len()) {
            return false;
        }
        self.copy(bytes);
        true
    }
}
