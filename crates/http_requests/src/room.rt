ghost use Rattle.std.specs.Prelude.{◌≡◌, ◌≤◌, ◌+◌, [], vec_len, length, drop, true, IfOk, OnOk, OnErr};
ghost use Rattle.std.specs.Io.KnownBytes.{Keeps};
ghost use Rattle.http_requests.specs.AwaitedReads.{source_of, input_moment};
ghost use Rattle.http_requests.specs.Pieces.{GetsPiece};

use session_devices::{Failed, Input};
use std::alloc::{AllocError, Global};
use std::mem;

/// The number of bytes that one read asks for.
pub const READ_BYTES: usize = 16_384;

/// An empty buffer that the sessions of one thread use in turn.
#[derive(Drop)]
pub struct SpareRoom {
    bytes: Vec<u8>,
    alloc: Global,
}

impl SpareRoom {
    /// Creates a spare without room.
    pub fn new(alloc: Global) -> Self {
        SpareRoom {
            bytes: Vec::new(alloc),
            alloc,
        }
    }

    /// Takes the room out.
    fn take(&mut self) -> Vec<u8> {
        mem::replace(&mut self.bytes, Vec::new(self.alloc))
    }

    /// Keeps this room, unless it has some already.
    fn keep(&mut self, bytes: Vec<u8>) {
        if self.bytes.is_empty() {
            self.bytes = bytes;
        }
    }
}

/// A buffer, all of it initialized, and the bytes held in it: those from `start` to `end`.
#[derive(Drop)]
pub(crate) struct Room {
    bytes: Vec<u8>,
    start: usize,
    end: usize,
    ghost ordered: { start ≤ end },
    ghost within: { end ≤ vec_len bytes },
}

impl Room {
    ghost use Rattle.http_requests.specs.Rooms.{held};

    /// Creates a buffer without room.
    pub(crate) fn new(alloc: Global) -> Self
        ensures { held result ≡ [] }
    {
        Room {
            bytes: Vec::new(alloc),
            start: 0,
            end: 0,
        }
    }

    /// Returns the bytes held.
    pub(crate) fn as_slice(&self) -> &[u8]
        ensures { result.now ≡ held self.now }
    {
        &self.bytes.as_slice()[self.start..self.end]
    }

    /// Removes `count` bytes from the start.
    pub(crate) fn take(&mut self, count: usize)
        requires { count ≤ length (held self.old) }
        ensures { held self.new ≡ drop count (held self.old) }
    {
        self.start += count;
    }

    /// Moves the bytes held to the start of the buffer, if bytes before them were removed.
    fn move_to_start(&mut self)
        ensures { held self.new ≡ held self.old }
    {
        if self.start > 0 {
            let (start, end) = (self.start, self.end);
            self.bytes.copy_within(start..end, 0);
            self.start = 0;
            self.end = end - start;
        }
    }

    /// Takes the spare room, unless it has room of its own.
    pub(crate) fn borrow_from(&mut self, spare: &mut SpareRoom)
        ensures { held self.new ≡ held self.old }
    {
        if self.bytes.is_empty() {
            self.bytes = spare.take();
        }
    }

    /// Returns its room to `spare` if no bytes are held.
    pub(crate) fn return_to(&mut self, spare: &mut SpareRoom)
        ensures same { held self.new ≡ held self.old }
        ensures none { held self.old ≡ [] → vec_len self.new.bytes ≡ 0 }
    {
        if self.start < self.end {
            return;
        }
        self.start = 0;
        self.end = 0;
        let bytes = mem::replace(&mut self.bytes, Vec::new(spare.alloc));
        spare.keep(bytes);
    }

    /// Makes room for a piece after the bytes held. If there is too little, they are moved to the start. If that isn't
    /// enough, the buffer grows to those bytes and a piece.
    ///
    /// The bytes moved don't start with a complete text, or nothing would be read. The next text that is taken covers
    /// them, so no byte is moved twice.
    pub(crate) fn make_room(&mut self) -> Result<(), AllocError>
        ensures same { held self.new ≡ held self.old }
        ensures room { OnOk result (self.new.end + READ_BYTES ≤ vec_len self.new.bytes) }
    {
        if self.bytes.len() - self.end >= READ_BYTES {
            return Ok(());
        }
        self.move_to_start();
        if self.bytes.len() - self.end >= READ_BYTES {
            return Ok(());
        }
        self.bytes.resize(self.end + READ_BYTES, 0)
    }

    /// Reads once, at most a piece, after the bytes held. Returns the number of bytes read.
    pub(crate) fn read_from<R: Input>(&mut self, input: &mut R) -> Result<usize, Failed>
        requires room { self.old.end + READ_BYTES ≤ vec_len self.old.bytes }
        ensures ok { IfOk result (GetsPiece (source_of R.remaining R.gives)
            (input_moment input.old (held self.old)) (input_moment input.new (held self.new))) }
        ensures works { OnOk result (R.has_failed input.new ≡ R.has_failed input.old) }
        ensures same { OnErr result (held self.new ≡ held self.old) }
        ensures err { OnErr result (Keeps (R.remaining input.old) (R.remaining input.new)
            × (R.has_failed input.new ≡ true) × R.gives input.old [] input.new) }
    {
        let end = self.end;
        let count = input.read(&mut self.bytes.as_mut_slice()[end..end + READ_BYTES])?;
        self.end = end + count;
        Ok(count)
    }
}
