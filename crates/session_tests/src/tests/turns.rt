//! No read before the responses to the requests read are written.

ghost use Rattle.std.specs.Prelude.{None, false};

use crate::tests::sessions::{closed_by_client, empty_store, run};
use session_devices::{Failed, Input, Output};
use std::alloc::Global;
use std::cell::Cell;
use std::hash::RandomState;
use std::mem::drop;
use std::test::*;
use trace_samples::exchanges::{ACCEPTED, BATCH, ONE_SERVICE, POST, SERVICES};

/// A sender that sends the next part only once a number of bytes in all were written to it, and fails if it is read
/// before.
#[derive(Drop)]
struct Sender<'a> {
    /// The number of bytes that must be written before a part is sent, and the part.
    parts: &'a [(usize, &'a [u8])],
    sent: usize,
    written: &'a Cell<usize>,
    failed: bool,
}

impl<'a> Input for Sender<'a> {
    ghost remaining = { λ s. None };

    ghost gives = { λ s given t. Unit {0} };

    ghost has_failed = { λ s. s.failed };

    fn read(&mut self, buf: &mut [u8]) -> Result<usize, Failed> {
        let due = self.parts.get(self.sent);
        let Some((before, part)) = due else {
            self.failed = true;
            return Err(Failed);
        };
        if self.written.get() != *before || part.len() > buf.len() {
            self.failed = true;
            return Err(Failed);
        }
        buf[..part.len()].copy_from_slice(part);
        self.sent = self.sent.saturating_add(1);
        Ok(part.len())
    }

    fn failed(&self) -> bool {
        self.failed
    }
}

/// An output that takes everything and counts it.
#[derive(Drop)]
pub(crate) struct Counter<'a> {
    /// The number of bytes.
    pub(crate) written: &'a Cell<usize>,
    /// The number of bytes of the longest write, and of the longest of the others.
    pub(crate) longest: (usize, usize),
}

impl<'a> Output for Counter<'a> {
    ghost contents = { λ s. None };

    ghost takes = { λ s bytes t. Unit {0} };

    ghost has_failed = { λ s. false };

    ghost takes_nothing = { λ s. tt };

    ghost takes_joined = { λ s t u front back one two. tt };

    fn write(&mut self, buf: &[u8]) -> Result<usize, Failed> {
        let count = buf.len();
        self.written.set(self.written.get().saturating_add(count));
        let (first, second) = self.longest;
        self.longest = (first.max(count), second.max(first.min(count)));
        Ok(count)
    }

    fn failed(&self) -> bool {
        false
    }
}

/// The number of bytes of the first one, two and three responses.
const ONE: usize = ACCEPTED.len();

const TWO: usize = ONE + ONE_SERVICE.len();

const THREE: usize = TWO + ONE_SERVICE.len();

/// Returns whether three requests are answered of which the last two come once the response before is written. One of
/// them comes in two parts.
fn is_answered_in_turn(alloc: Global, keys: RandomState) -> Result<bool, Fail> {
    let parts: [(usize, &[u8]); 6] = [
        (0, POST),
        (0, BATCH),
        (ONE, &SERVICES[..9]),
        (ONE, &SERVICES[9..]),
        (TWO, SERVICES),
        (THREE, b""),
    ];
    let written = Cell::new(0);
    let mut input = Sender {
        parts: &parts,
        sent: 0,
        written: &written,
        failed: false,
    };
    let mut output = Counter {
        written: &written,
        longest: (0, 0),
    };
    let mut store = empty_store(alloc, keys)?;
    let ended = run(alloc, &mut input, &mut output, &mut store);
    drop(store);
    Ok(ended == closed_by_client(3) && written.get() == THREE)
}

#[test]
fn answers_before_it_reads_on(rt: HostRuntime) -> Result<(), Fail> {
    let keys = RandomState::new(&rt)?;
    assert!(rt; is_answered_in_turn(rt.alloc(), keys)?);
    Ok(())
}
