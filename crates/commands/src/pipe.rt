//! `pipe`: a session over standard input and output.
ghost use Rattle.std.specs.Prelude.{◌≡◌};
ghost use Rattle.session_devices.specs.Traffic.{traffic_of};
ghost use Rattle.text_lines.specs.ReadCounts.{StatusIsReads, reads_of};
ghost use Rattle.text_lines.specs.RunErrors.{BothWork};
ghost use Rattle.commands.specs.PipeRuns.{Pipes, cause_status};

use http_session::SessionErrorKind;
use pipe_session::{Direct, pipe};
use session_devices::{Input, Output};
use span_store::SpanStore;
use std::alloc::Global;
use std::hash::RandomState;
use text_lines::ExitStatus;
use trace_model::Limits;

fn status_of(cause: SessionErrorKind) -> ExitStatus
    ensures { result ≡ cause_status cause }
{
    match cause {
        SessionErrorKind::Reading | SessionErrorKind::Writing => ExitStatus::DeviceFailed,
        SessionErrorKind::Memory => ExitStatus::OutOfMemory,
    }
}

/// Answers the HTTP requests of the input on the output, from a store that is empty at first. Returns the exit status:
/// `Success` if the session ended, by the end of the input or by a response that closes it, `DeviceFailed` if a read or
/// a write failed or the limit of reads was reached, and `OutOfMemory` if memory ran out.
pub fn run_pipe<R: Input, W: Output>(
    alloc: Global,
    keys: RandomState,
    input: &mut R,
    output: &mut W,
    limits: Limits,
) -> ExitStatus
    requires { BothWork (R.has_failed input.old) (W.has_failed output.old) }
    ensures pipes { Pipes (traffic_of R.remaining R.has_failed input.old input.new)
        (traffic_of W.contents W.has_failed output.old output.new) limits result }
    ensures limit { StatusIsReads (reads_of R.gives input.old input.new)
        (BothWork (R.has_failed input.new) (W.has_failed output.new)) result }
{
    let Ok(opened) = SpanStore::open(alloc, keys, limits) else {
        return ExitStatus::OutOfMemory;
    };
    let mut store = Direct::new(opened);
    // For the prover: explicit drops are cheaper than one at the end of the block.
    match pipe(alloc, input, output, &mut store) {
        Ok(_) => {
            drop(store);
            ExitStatus::Success
        }
        Err(error) => {
            drop(store);
            status_of(error.cause)
        }
    }
}
