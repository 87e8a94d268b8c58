//! The subcommand `play`: runs the steps of the stepped machine, one line each.
//!
//! [`run_play`] runs over any input and any output. Its output is proved to be a function of its input. If it stops
//! before the end, it wrote a prefix of that.
//!
//! * `script`: a machine that reads a step from each line.

ghost use Rattle.std.specs.Prelude.{◌≡◌, false};
ghost use Rattle.text_lines.specs.ReadCounts.{StatusIsReads, reads_of};
ghost use Rattle.session_devices.specs.Traffic.{traffic_of};
ghost use Rattle.text_lines.specs.RunErrors.{BothWork, RunsAs, expected_of};
ghost use Rattle.trace_model.specs.declared.limits.Limits.{Limits as LimitsValue};
ghost use Rattle.schedule_core.specs.Machine.{new_machine};
ghost use Rattle.commands.specs.PlayRuns.{IsMachineAt, output_of, status_at, status_for};

mod script;

use crate::play::script::Script;
use session_devices::{Input, Output};
use std::alloc::Global;
use std::hash::RandomState;
use text_lines::{ExitStatus, answer_lines};
use trace_model::Limits;

fn status_of(faulty: bool) -> ExitStatus
    ensures { result ≡ status_at faulty }
{
    if faulty {
        ExitStatus::FaultyLine
    } else {
        ExitStatus::Success
    }
}

/// Runs the lines of the input as steps of the script, and returns the exit status.
fn play_lines<R: Input, W: Output>(
    alloc: Global,
    input: &mut R,
    output: &mut W,
    script: &mut Script,
) -> ExitStatus
    requires input_works { R.has_failed input.old ≡ false }
    requires output_works { W.has_failed output.old ≡ false }
    ensures runs { (limits : LimitsValue) → IsMachineAt script.old (new_machine limits) →
        RunsAs (traffic_of R.remaining R.has_failed input.old input.new)
        (traffic_of W.contents W.has_failed output.old output.new)
        (expected_of (output_of limits) (status_for limits)) result }
    ensures limit { StatusIsReads (reads_of R.gives input.old input.new)
        (BothWork (R.has_failed input.new) (W.has_failed output.new)) result }
{
    match answer_lines(alloc, input, output, script) {
        Ok(faulty) => status_of(faulty),
        Err(error) => error.status(),
    }
}

/// Reads steps of the machine, one line each, and writes the outcome of each as a line while they are read.
///
/// The reply to a line that is no step is a line of its own, and the machine doesn't change. Empty lines are skipped.
/// The machine starts in its initial state.
///
/// The exit status is `Success`; `FaultyLine` if a line was no step; `DeviceFailed` if a read or a write failed or the
/// limit of reads was reached; `OutOfMemory` if memory ran out.
pub fn run_play<R: Input, W: Output>(
    alloc: Global,
    keys: RandomState,
    input: &mut R,
    output: &mut W,
    limits: Limits,
) -> ExitStatus
    requires input_works { R.has_failed input.old ≡ false }
    requires output_works { W.has_failed output.old ≡ false }
    ensures runs { RunsAs (traffic_of R.remaining R.has_failed input.old input.new)
        (traffic_of W.contents W.has_failed output.old output.new)
        (expected_of (output_of limits) (status_for limits)) result }
    ensures limit { StatusIsReads (reads_of R.gives input.old input.new)
        (BothWork (R.has_failed input.new) (W.has_failed output.new)) result }
{
    let Ok(mut script) = Script::new(alloc, keys, limits) else {
        return ExitStatus::OutOfMemory;
    };
    let status = play_lines(alloc, input, output, &mut script);
    // For the prover: an explicit drop is cheaper than one at the end of the block.
    drop(script);
    status
}
