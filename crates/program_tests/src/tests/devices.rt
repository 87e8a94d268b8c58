//! Devices that fail.
use crate::tests::machine::Machine;
use crate::tests::runs::{HEAD, SPAN, TAIL};
use commands::run;
use session_devices::{Input, MemoryInput, Watched};
use std::alloc::Global;
use std::io;
use std::io::{Error, ErrorKind, Read, Write};
use std::net::{Net, TcpListener, TcpStream};
use std::test::Fail;

/// An input over memory as a reader of std.
#[derive(Drop)]
struct Breaking<'a>(MemoryInput<'a>);

impl Read for Breaking<'_> {
    fn read(&mut self, buf: &mut [u8]) -> io::Result<usize> {
        self.0.read(buf).map_err(|_| Error::from(ErrorKind::Other))
    }
}

/// A writer with limited room.
#[derive(Drop)]
struct Full {
    taken: usize,
    room: usize,
}

impl Write for Full {
    fn write(&mut self, buf: &[u8]) -> io::Result<usize> {
        let count = buf.len().min(self.room);
        self.room -= count;
        self.taken = self.taken.saturating_add(count);
        Ok(count)
    }

    fn flush(&mut self) -> io::Result<()> {
        Ok(())
    }
}

/// Runs the arguments over the input with a reader that fails at each of its calls, and with a writer of each room
/// below the output's size. Each run ends with 4 after a prefix of the output.
fn check_failures<H: Machine + Net<Stream = TcpStream, Listener = TcpListener>>(
    rt: &H,
    alloc: Global,
    arguments: &[&str],
    input: &[u8],
    status: u8,
    output: &[u8],
) -> Result<(), Fail> {
    let calls = input.len() as u64 / 16 + 2;
    for fails_at in 1..calls + 2 {
        let mut reader = Breaking(MemoryInput::new(input, 16, fails_at));
        let mut written = Vec::new(alloc);
        let got = run(
            rt,
            alloc,
            arguments,
            &mut Watched::new(&mut reader),
            &mut Watched::new(&mut written),
        );
        assert_eq!(rt; got.code(), if fails_at <= calls { 4 } else { status });
        assert!(rt; output.starts_with(written.as_slice()));
    }
    for room in 0..output.len() {
        let mut writer = Full { taken: 0, room };
        let got = run(
            rt,
            alloc,
            arguments,
            &mut Watched::new(input),
            &mut Watched::new(&mut writer),
        );
        assert_eq!(rt; got.code(), 4);
        assert_eq!(rt; writer.taken, room);
    }
    Ok(())
}

#[test]
fn of_get(rt: HostRuntime) -> Result<(), Fail> {
    let alloc = rt.alloc();
    let input = ["zz\n", HEAD, TAIL].concat(alloc)?;
    let wanted = ["line 1: bad hex\n", SPAN].concat(alloc)?;
    let arguments = ["jaeger_one", "get", "1"];
    check_failures(
        &rt,
        alloc,
        &arguments,
        input.as_bytes(),
        3,
        wanted.as_bytes(),
    )
}

#[test]
fn of_play(rt: HostRuntime) -> Result<(), Fail> {
    let input = "take\nbad\n\nenter 1\nread 1 /api/services\nleave 1";
    let wanted =
        "idle\nline 2: bad step\nentered 0\nread 0 {\"data\":[],\"errors\":null,\"limit\":0,\"offset\":0,\"total\":0}\nleft\n";
    let arguments = ["jaeger_one", "play"];
    check_failures(
        &rt,
        rt.alloc(),
        &arguments,
        input.as_bytes(),
        3,
        wanted.as_bytes(),
    )
}
