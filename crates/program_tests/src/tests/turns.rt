//! Runs over an input that waits for the replies to its lines.
ghost use Rattle.std.specs.Prelude.{None, false};

use crate::tests::machine::Machine;
use crate::tests::runs::{HEAD, SPAN, TAIL};
use commands::run;
use session_devices::{Failed, Input, Output};
use std::alloc::Global;
use std::cell::Cell;
use std::net::{Net, TcpListener, TcpStream};
use std::test::Fail;

/// An input that fails if a part is read before the replies that are due by then were written, or after more was.
#[derive(Drop)]
struct Waiting<'a> {
    /// The replies that are due before a part is read, beside those before earlier ones, and the part. An empty part is
    /// the end.
    parts: &'a [(&'a str, &'a str)],
    read: usize,
    /// The number of bytes that were due by the last read.
    due: usize,
    written: &'a Cell<usize>,
    failed: bool,
}

impl<'a> Input for Waiting<'a> {
    ghost remaining = { λ s. None };

    ghost gives = { λ s given t. Unit {0} };

    ghost has_failed = { λ s. s.failed };

    fn read(&mut self, buf: &mut [u8]) -> Result<usize, Failed> {
        let next = self.parts.get(self.read);
        let Some((replies, part)) = next else {
            self.failed = true;
            return Err(Failed);
        };
        self.due = self.due.saturating_add(replies.len());
        if self.written.get() != self.due || part.len() > buf.len() {
            self.failed = true;
            return Err(Failed);
        }
        buf[..part.len()].copy_from_slice(part.as_bytes());
        self.read = self.read.saturating_add(1);
        Ok(part.len())
    }

    fn failed(&self) -> bool {
        self.failed
    }
}

/// The output to that input. It counts its bytes.
#[derive(Drop)]
struct Counter<'a> {
    written: &'a Cell<usize>,
}

impl<'a> Output for Counter<'a> {
    ghost contents = { λ s. None };

    ghost takes = { λ s bytes t. Unit {0} };

    ghost has_failed = { λ s. false };

    ghost takes_nothing = { λ s. tt };

    ghost takes_joined = { λ s t u front back one two. tt };

    fn write(&mut self, buf: &[u8]) -> Result<usize, Failed> {
        self.written
            .set(self.written.get().saturating_add(buf.len()));
        Ok(buf.len())
    }

    fn failed(&self) -> bool {
        false
    }
}

/// Runs the arguments over the parts. Checks the status, that all parts were read, and how much follows at the end.
fn check_turns<H: Machine + Net<Stream = TcpStream, Listener = TcpListener>>(
    rt: &H,
    alloc: Global,
    arguments: &[&str],
    parts: &[(&str, &str)],
    status: u8,
    last: &str,
) -> Result<(), Fail> {
    let written = Cell::new(0);
    let mut input = Waiting {
        parts,
        read: 0,
        due: 0,
        written: &written,
        failed: false,
    };
    let mut output = Counter { written: &written };
    let got = run(rt, alloc, arguments, &mut input, &mut output);
    assert_eq!(rt; got.code(), status);
    assert_eq!(rt; input.read, parts.len());
    assert_eq!(rt; written.get(), input.due.saturating_add(last.len()));
    Ok(())
}

/// The fault of a line is written before `get` reads on, also where the next line came in pieces.
#[test]
fn get_replies_before_it_reads_on(rt: HostRuntime) -> Result<(), Fail> {
    let parts = [
        ("", "z"),
        ("", "z\n"),
        ("line 1: bad hex\n", HEAD),
        ("", TAIL),
        ("", "\n0\nzz"),
        ("line 3: bad hex\n", "\n"),
        ("line 4: bad hex\n", ""),
    ];
    let arguments = ["jaeger_one", "get", "1"];
    check_turns(&rt, rt.alloc(), &arguments, &parts, 3, SPAN)
}

/// The outcome of a step is written before `play` reads on.
#[test]
fn play_replies_before_it_reads_on(rt: HostRuntime) -> Result<(), Fail> {
    let parts = [
        ("", "ta"),
        ("", "ke\nenter 0\nlea"),
        ("idle\nentered 0\n", "ve 0\nbad\n"),
        ("left\nline 4: bad step\n", "\n"),
        ("", "take"),
        ("", ""),
    ];
    let arguments = ["jaeger_one", "play"];
    check_turns(&rt, rt.alloc(), &arguments, &parts, 3, "idle\n")
}
