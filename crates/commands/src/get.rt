//! The subcommand `get`: reads batches on lines of hexadecimal text, then prints the spans of one trace.
//!
//! [`run_get`] runs over any input and any output. Its output is proved to be a function of its input. If it stops
//! before the end, it wrote a prefix of that.
//!
//! * `batches`: a store that reads a batch from each line.
//! * `line_fault`: why a line can't be used.
//! * `trace_lines`: the lines of a trace's spans.

ghost use Rattle.std.specs.Prelude.{◌≡◌, false, IfErr};
ghost use Rattle.text_lines.specs.ReadCounts.{LimitIsReads, StatusIsReads, reads_of};
ghost use Rattle.session_devices.specs.Traffic.{traffic_of};
ghost use Rattle.text_lines.specs.RunErrors.{BothWork, RunsAs, RunsOrStops, expected_of};
ghost use Rattle.commands.specs.GetRuns.{nothing_held, output_of, status_at, status_for};

mod batches;
mod line_fault;
mod trace_lines;

use crate::get::batches::Batches;
use crate::get::trace_lines::write_trace;
use jaeger_model::TraceId;
use session_devices::{Input, Output};
use std::alloc::Global;
use std::hash::RandomState;
use text_lines::{ExitStatus, RunError, answer_lines};
use trace_model::Limits;

fn status_of(faulty: bool, found: bool) -> ExitStatus
    ensures { result ≡ status_at faulty found }
{
    match (faulty, found) {
        (true, _) => ExitStatus::FaultyLine,
        (false, true) => ExitStatus::Success,
        (false, false) => ExitStatus::NotFound,
    }
}

/// Runs to the end of the input, over an empty store, and returns the exit status. For the prover: only clauses name
/// `limits`, those of the store.
fn take_all<R: Input, W: Output>(
    alloc: Global,
    batches: &mut Batches,
    input: &mut R,
    output: &mut W,
    limits: Limits,
    trace: TraceId,
) -> Result<ExitStatus, RunError>
    requires nothing { batches.old ≡ nothing_held limits }
    requires input_works { R.has_failed input.old ≡ false }
    requires output_works { W.has_failed output.old ≡ false }
    ensures runs { RunsOrStops (traffic_of R.remaining R.has_failed input.old input.new)
        (traffic_of W.contents W.has_failed output.old output.new)
        (expected_of (output_of limits trace) (status_for limits trace)) result }
    ensures limit { IfErr result (LimitIsReads (reads_of R.gives input.old input.new)
        (BothWork (R.has_failed input.new) (W.has_failed output.new))) }
{
    let faulty = answer_lines(alloc, input, output, batches)?;
    let found = write_trace(alloc, output, batches.store(), trace)?;
    Ok(status_of(faulty, found))
}

/// Runs to the end of the input, and returns the exit status.
fn finish<R: Input, W: Output>(
    alloc: Global,
    keys: RandomState,
    input: &mut R,
    output: &mut W,
    limits: Limits,
    trace: TraceId,
) -> Result<ExitStatus, RunError>
    requires input_works { R.has_failed input.old ≡ false }
    requires output_works { W.has_failed output.old ≡ false }
    ensures runs { RunsOrStops (traffic_of R.remaining R.has_failed input.old input.new)
        (traffic_of W.contents W.has_failed output.old output.new)
        (expected_of (output_of limits trace) (status_for limits trace)) result }
    ensures limit { IfErr result (LimitIsReads (reads_of R.gives input.old input.new)
        (BothWork (R.has_failed input.new) (W.has_failed output.new))) }
{
    let mut batches = Batches::new(alloc, keys, limits)?;
    let status = take_all(alloc, &mut batches, input, output, limits, trace);
    // For the prover: an explicit drop is cheaper than one at the end of the block.
    drop(batches);
    status
}

/// Reads batches, one line of hexadecimal text each, and writes the spans of the trace.
///
/// The reply to a line that can't be used is a line of its own, written while the lines are read. It changes nothing in
/// the store. A batch that was sent before, with the same number, process and spans, changes nothing either, but is no
/// fault. Spaces and tabs are ignored, and so are lines of nothing else. At the end of the input follow the spans of
/// the trace, or `trace not found`.
///
/// The exit status is `Success`; `FaultyLine` if a line couldn't be used, otherwise `NotFound` if the trace isn't
/// found; `DeviceFailed` if a read or a write failed or the limit of reads was reached; `OutOfMemory` if memory ran out.
pub fn run_get<R: Input, W: Output>(
    alloc: Global,
    keys: RandomState,
    input: &mut R,
    output: &mut W,
    limits: Limits,
    trace: TraceId,
) -> ExitStatus
    requires input_works { R.has_failed input.old ≡ false }
    requires output_works { W.has_failed output.old ≡ false }
    ensures runs { RunsAs (traffic_of R.remaining R.has_failed input.old input.new)
        (traffic_of W.contents W.has_failed output.old output.new)
        (expected_of (output_of limits trace) (status_for limits trace)) result }
    ensures limit { StatusIsReads (reads_of R.gives input.old input.new)
        (BothWork (R.has_failed input.new) (W.has_failed output.new)) result }
{
    match finish(alloc, keys, input, output, limits, trace) {
        Ok(status) => status,
        Err(error) => error.status(),
    }
}
