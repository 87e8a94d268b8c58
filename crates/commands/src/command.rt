//! Runs the command of the program's arguments over an input and an output.
ghost use Rattle.std.specs.Prelude.{◌≡◌, false, map};
ghost use Rattle.session_devices.specs.Traffic.{traffic_of};
ghost use Rattle.commands.specs.ProgramRuns.{Runs};

use crate::arguments::{Command, read_words};
use crate::get::run_get;
use crate::pipe::run_pipe;
use crate::play::run_play;
use crate::serve::run_serve;
use session_devices::{Input, Output};
use std::alloc::Global;
use std::convert::AsStr;
use std::hash::RandomState;
use std::net::{Net, TcpListener, TcpStream};
use std::random::RandomSource;
use std::sync::Wait;
use std::thread::Threads;
use std::time::Clock;
use text_lines::ExitStatus;

/// Runs the command of the arguments, and returns the exit status: `DeviceFailed` if a device failed or the limit of
/// reads was reached, and for `serve` also if a socket failed. The clauses exclude other causes for `get`, `play` and
/// `pipe` alone (`limit` of [`run_get`], [`run_play`] and [`run_pipe`]). Arguments that name no command, and a trace's
/// id that can't be read, are answered on the output, and nothing is read then. `serve` doesn't read the input either.
///
/// To add a subcommand, add a line here, and one in `Does` of `specs/ProgramRuns.antt`.
pub fn run<H, S: AsStr, R: Input, W: Output>(
    rt: &H,
    alloc: Global,
    arguments: &[S],
    input: &mut R,
    output: &mut W,
) -> ExitStatus
where
    H: Threads
        + Wait
        + Clock
        + Eprint
        + RandomSource
        + Net<Stream = TcpStream, Listener = TcpListener>
        + Sync,
    requires input_works { R.has_failed input.old ≡ false }
    requires output_works { W.has_failed output.old ≡ false }
    ensures { Runs (map S.text arguments.now)
        (traffic_of R.remaining R.has_failed input.old input.new)
        (traffic_of W.contents W.has_failed output.old output.new) result }
{
    let Ok(keys) = RandomState::new(rt) else {
        return ExitStatus::OutOfMemory;
    };
    match read_words(alloc, arguments, output) {
        Ok(Command::Get { limits, trace }) => run_get(alloc, keys, input, output, limits, trace),
        Ok(Command::Pipe { limits }) => run_pipe(alloc, keys, input, output, limits),
        Ok(Command::Play { limits }) => run_play(alloc, keys, input, output, limits),
        Ok(Command::Serve { options }) => run_serve(rt, alloc, keys, output, options),
        Err(status) => status,
    }
}
