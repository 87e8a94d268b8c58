//! Runs a server in a thread of its own beside its clients.

use crate::tests::clients::Clients;
use serve_options::{Host, RequestedOptions, ServeOptions};
use session_devices::MemoryOutput;
use std::alloc::Global;
use std::hash::RandomState;
use std::io;
use std::io::{Read, Write};
use std::net::{
    Ipv4Addr, Net, OpenStream, Shutdown, SocketAddr, SocketAddrV4, TcpListener, TcpStream,
};
use std::process::Abort;
use std::random::RandomSource;
use std::sync::Wait;
use std::test::*;
use std::thread::{Threads, join};
use std::time::Clock;
use trace_model::Limits;
use trace_server::{CallObserver, ServerConfig, serve_with};

/// Returns the configuration of a server with this number of workers, sessions and batches.
pub fn config<R: Abort + RandomSource>(
    rt: &R,
    workers: u16,
    sessions: u32,
    idle: u32,
    batches: u32,
) -> ServerConfig {
    let limits = Limits::new(batches, 1000, 0, 0).expect(rt, "limits");
    let options = ServeOptions::new(RequestedOptions {
        limits,
        host: Host::LoopbackIpv4,
        port: 0,
        workers,
        queue: 4,
        sessions,
        connections: 1024,
        idle,
        report: 0,
    });
    ServerConfig {
        options: options.expect(rt, "options"),
        keys: RandomState::new(rt).expect(rt, "keys"),
    }
}

/// The result of a server and its clients.
#[derive(Drop)]
pub struct Outcome {
    pub status: u8,
    /// The server's output.
    pub output: MemoryOutput,
    /// The clients got the expected answers, and the first line was right.
    pub as_expected: bool,
}

impl Outcome {
    /// Returns whether all was well, and these were the server's last lines.
    pub fn is_well(&self, last_lines: &[u8]) -> bool {
        self.status == 0 && self.as_expected && self.output.as_slice().ends_with(last_lines)
    }
}

/// Serves until all sessions have ended, and returns the status and the output.
fn serve<
    G: CallObserver + Sync,
    R: Threads + Wait + Clock + Eprint + Net<Stream = TcpStream, Listener = TcpListener> + Sync,
>(
    rt: &R,
    alloc: Global,
    listener: &TcpListener,
    config: &ServerConfig,
    observer: &G,
) -> (u8, MemoryOutput) {
    let mut output = MemoryOutput::new(alloc, 1000, 1000);
    let status = serve_with(rt, alloc, listener, config, observer, &mut output);
    (status.code(), output)
}

/// Returns whether the server's first line names the port on which it listens.
fn names_port(alloc: Global, output: &MemoryOutput, port: u16) -> bool {
    let mut line = Vec::new(alloc);
    writeln!(line, "listening 127.0.0.1:{port}").is_ok()
        && output.as_slice().starts_with(line.as_slice())
}

/// Runs a server on a port of its own beside its clients.
pub fn run_with_clients<
    G: CallObserver + Sync,
    R: Threads
        + Wait
        + Clock
        + Eprint
        + Net<Stream = TcpStream, Listener = TcpListener>
        + Abort
        + Sync,
>(
    rt: &R,
    alloc: Global,
    config: &ServerConfig,
    observer: &G,
    clients: Clients,
) -> Result<Outcome, Fail> {
    let any = SocketAddr::V4(SocketAddrV4::new(Ipv4Addr::LOCALHOST, 0));
    let listener = TcpListener::bind(rt, any).expect(rt, "bind");
    let address = listener.local_addr().expect(rt, "address");
    let ((status, output), as_expected) = join(
        rt,
        || serve(rt, alloc, &listener, config, observer),
        || clients.run(rt, alloc, address),
    );
    let as_expected = matches!(as_expected, Ok(true)) && names_port(alloc, &output, address.port());
    Ok(Outcome {
        status,
        output,
        as_expected,
    })
}

/// Sends the bytes, and reads as many as `wanted` has. Returns whether they are equal.
pub fn ask<S: Read + Write>(
    alloc: Global,
    stream: &mut S,
    sent: &[u8],
    wanted: &[u8],
) -> io::Result<bool> {
    stream.write_all(sent)?;
    reads(alloc, stream, wanted)
}

/// Reads as many bytes as `wanted` has. Returns whether they are equal.
pub fn reads<S: Read>(alloc: Global, stream: &mut S, wanted: &[u8]) -> io::Result<bool> {
    let mut heard = Vec::new(alloc);
    stream.take(wanted.len() as u64).read_to_end(&mut heard)?;
    Ok(heard.as_slice() == wanted)
}

/// Closes the sending side, and reads to the end. Returns whether that was `wanted`.
pub fn close_and_read<S: OpenStream + Read>(
    alloc: Global,
    stream: &mut S,
    wanted: &[u8],
) -> io::Result<bool> {
    stream.shutdown(Shutdown::Write)?;
    let mut heard = Vec::new(alloc);
    stream.read_to_end(&mut heard)?;
    Ok(heard.as_slice() == wanted)
}
