ghost use Rattle.std.specs.Prelude.{◌≡◌, ◌≤◌, ◌+◌, [], false, IfErr, OnOk, OnErr, length, drop};
ghost use Rattle.http_requests.specs.AwaitedReads.{source_of};
ghost use Rattle.http_requests.specs.ReceivedBytes.{ReadsOn, IsRead, ReadFails, SameUnlessReading, read_moment, failed_call};

use crate::room::{Room, SpareRoom};
use session_devices::{Input, MAX_READS};
use std::alloc::{AllocError, Global};
use std::marker::Model;

/// Why no more bytes could be read.
#[derive(Clone, Copy, Debug, PartialEq, Eq)]
pub enum ReadError {
    /// The input failed, or the limit of reads was reached.
    Reading,
    Memory,
}

impl From<AllocError> for ReadError {
    ghost use Rattle.std.specs.Prelude.{◌≡◌};
    ghost use Rattle.http_requests.specs.declared.read_buffer.ReadError.TheVariants.{Memory};

    ghost from_gives = { λ _ why. why ≡ Memory };

    fn from(_: AllocError) -> Self {
        ReadError::Memory
    }
}

/// The bytes that were read from an input and not yet taken, the number of reads left, and whether the input has ended.
#[derive(Drop)]
pub struct ReadBuffer {
    room: Room,
    reads_left: u64,
    ended: bool,
}

impl Model for ReadBuffer {
    ghost use Rattle.http_requests.specs.ReceivedBytes.{ReadBuffer as ReadBufferValue};
    ghost use Rattle.http_requests.specs.Rooms.{held};

    ghost Value = { ReadBufferValue };

    ghost view = { λ s. record { held = held s.room; reads_left = s.reads_left; ended = s.ended } };
}

impl ReadBuffer {
    /// Creates a buffer before the first read.
    pub fn new(alloc: Global) -> Self
        ensures { result ≡ record { held = []; reads_left = MAX_READS; ended = false } }
    {
        ReadBuffer {
            room: Room::new(alloc),
            reads_left: MAX_READS,
            ended: false,
        }
    }

    /// Returns the bytes that are not yet taken.
    pub fn as_slice(&self) -> &[u8]
        ensures { result.now ≡ self.now.held }
    {
        self.room.as_slice()
    }

    /// Returns whether a read has found the end of the input.
    pub fn has_ended(&self) -> bool
        ensures { result ≡ self.now.ended }
    {
        self.ended
    }

    /// Removes `count` bytes from the start.
    pub fn take(&mut self, count: usize)
        requires { count ≤ length self.old.held }
        ensures { self.new ≡ record self.old { held = drop count self.old.held } }
    {
        self.room.take(count);
    }

    /// Takes the spare room, unless it has room of its own.
    pub fn borrow_room(&mut self, spare: &mut SpareRoom)
        ensures { self.new ≡ self.old }
    {
        self.room.borrow_from(spare);
    }

    /// Returns its room to `spare` if no bytes are held. It keeps none then.
    pub fn return_room(&mut self, spare: &mut SpareRoom)
        ensures { self.new ≡ self.old }
    {
        self.room.return_to(spare);
    }

    /// Makes one read of an input that has not ended. Memory is allocated before it, so the bytes of a read always have
    /// room.
    pub fn read_more<R: Input>(&mut self, input: &mut R) -> Result<(), ReadError>
        requires { self.old.ended ≡ false }
        ensures ok { OnOk result (ReadsOn (R.remaining input.old) (R.remaining input.new)
            self.old self.new) }
        ensures read { OnOk result (IsRead R.gives (read_moment input.old self.old)
            (read_moment input.new self.new)) }
        ensures err { IfErr result (λ why. ReadFails (source_of R.remaining R.gives)
            (read_moment input.old self.old)
            (failed_call input.new (R.has_failed input.new) why)) }
        ensures unchanged { OnErr result (self.new ≡ self.old) }
        ensures same { SameUnlessReading (R.has_failed input.old) (R.has_failed input.new) result }
        ensures fewer { OnOk result (self.new.reads_left + 1 ≡ self.old.reads_left) }
    {
        if self.reads_left == 0 {
            return Err(ReadError::Reading);
        }
        self.room.make_room()?;
        let Ok(count) = self.room.read_from(input) else {
            return Err(ReadError::Reading);
        };
        self.reads_left -= 1;
        self.ended = count == 0;
        Ok(())
    }
}
