//! `serve`: a server on an address of this machine.
ghost use Rattle.std.specs.Prelude.{◌≡◌, false};
ghost use Rattle.session_devices.specs.Traffic.{traffic_of};
ghost use Rattle.commands.specs.ServeRuns.{CannotListen, ServesOrNot};

use serve_options::ServeOptions;
use session_devices::Output;
use std::alloc::Global;
use std::hash::RandomState;
use std::io;
use std::net::{Net, SocketAddr, TcpListener, TcpStream};
use std::sync::Wait;
use std::thread::Threads;
use std::time::Clock;
use text_lines::{ExitStatus, write_text};
use trace_server::{NoObserver, ServerConfig, serve_with};

/// Writes why the server can't listen on an address, and returns the exit status.
fn write_cannot_listen<W: Output>(
    alloc: Global,
    output: &mut W,
    address: SocketAddr,
    error: &io::Error,
) -> ExitStatus
    requires { W.has_failed output.old ≡ false }
    ensures { CannotListen (traffic_of W.contents W.has_failed output.old output.new)
        result }
{
    let Ok(line) = format!(in alloc; "cannot listen on {address}: {error}\n") else {
        return ExitStatus::OutOfMemory;
    };
    match write_text(alloc, output, line.as_bytes()) {
        Ok(()) => ExitStatus::DeviceFailed,
        Err(error) => error.status(),
    }
}

/// Serves connections on a host's port over an empty store, until the requested number has ended. Returns the exit
/// status: `DeviceFailed` if the address can't be used, otherwise that of [`serve_with`](trace_server::serve_with).
pub(crate) fn run_serve<H, W>(
    rt: &H,
    alloc: Global,
    keys: RandomState,
    output: &mut W,
    options: ServeOptions,
) -> ExitStatus
where
    H: Threads + Wait + Clock + Eprint + Net<Stream = TcpStream, Listener = TcpListener> + Sync,
    W: Output,
    requires output_works { W.has_failed output.old ≡ false }
    ensures { ServesOrNot options
        (traffic_of W.contents W.has_failed output.old output.new) result }
{
    let address = SocketAddr::new(options.host.address(), options.port);
    let listener = match TcpListener::bind(rt, address) {
        Ok(listener) => listener,
        Err(error) => return write_cannot_listen(alloc, output, address, &error),
    };
    let config = ServerConfig { options, keys };
    serve_with(rt, alloc, &listener, &config, &NoObserver, output)
}
