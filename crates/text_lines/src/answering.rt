ghost use Rattle.std.specs.Prelude.{◌≡◌, [], false, IfErr, IfOk, OnOk};
ghost use Rattle.session_devices.specs.Traffic.{traffic_of};
ghost use Rattle.text_lines.specs.ReadCounts.{LimitIsReads, reads_of};
ghost use Rattle.text_lines.specs.RunErrors.{BothWork};
ghost use Rattle.text_lines.specs.HandledLines.{AnswersAll, AnswersSome, TookAll, TookSome, handling_of, run_of};

use crate::handler::LineHandler;
use crate::line_buffer::LineBuffer;
use crate::output_buffer::OutputBuffer;
use crate::run_error::RunError;
use session_devices::{Input, Output};
use std::alloc::Global;

/// Handles all lines and returns whether one was a fault. Some of the replies may still be in the buffer at the end.
fn take_lines<R: Input, W: Output, T: LineHandler>(
    alloc: Global,
    input: &mut R,
    output: &mut W,
    buffer: &mut OutputBuffer,
    handler: &mut T,
) -> Result<bool, RunError>
    requires input_works { R.has_failed input.old ≡ false }
    requires output_works { W.has_failed output.old ≡ false }
    requires empty { buffer.old ≡ [] }
    ensures all { IfOk result (TookAll (run_of (handling_of T.takes handler.old handler.new)
        (traffic_of R.remaining R.has_failed input.old input.new)
        (traffic_of W.contents W.has_failed output.old output.new)) buffer.new) }
    ensures works { OnOk result (BothWork (R.has_failed input.new) (W.has_failed output.new)) }
    ensures some { IfErr result (TookSome (run_of (handling_of T.takes handler.old handler.new)
        (traffic_of R.remaining R.has_failed input.old input.new)
        (traffic_of W.contents W.has_failed output.old output.new)) buffer.new) }
    ensures limit { IfErr result (LimitIsReads (reads_of R.gives input.old input.new)
        (BothWork (R.has_failed input.new) (W.has_failed output.new))) }
{
    let mut lines = LineBuffer::new(alloc)?;
    let mut line = Vec::new(alloc);
    let mut reply = Vec::new(alloc);
    let mut number = 0u64;
    let mut faulty = false;
    // For the prover: its proof names the loop by the label.
    'lines: while lines.next(input, output, buffer, &mut line)? {
        number += 1;
        reply.clear();
        faulty |= handler.handle_line(alloc, number, &mut line, &mut reply)?;
        buffer.push(reply.as_slice())?;
        buffer.flush_if_large(output)?;
    }
    Ok(faulty)
}

/// Passes the lines of the input to the handler one by one, writes its replies, and returns whether a line was a
/// fault. All replies so far are written before each read.
///
/// # Errors
///
/// A device failed, the limit of reads was reached, or memory ran out.
pub fn answer_lines<R: Input, W: Output, T: LineHandler>(
    alloc: Global,
    input: &mut R,
    output: &mut W,
    handler: &mut T,
) -> Result<bool, RunError>
    requires input_works { R.has_failed input.old ≡ false }
    requires output_works { W.has_failed output.old ≡ false }
    ensures all { IfOk result (AnswersAll (run_of (handling_of T.takes handler.old handler.new)
        (traffic_of R.remaining R.has_failed input.old input.new)
        (traffic_of W.contents W.has_failed output.old output.new))) }
    ensures works { OnOk result (BothWork (R.has_failed input.new) (W.has_failed output.new)) }
    ensures some { IfErr result (AnswersSome (run_of (handling_of T.takes handler.old handler.new)
        (traffic_of R.remaining R.has_failed input.old input.new)
        (traffic_of W.contents W.has_failed output.old output.new))) }
    ensures limit { IfErr result (LimitIsReads (reads_of R.gives input.old input.new)
        (BothWork (R.has_failed input.new) (W.has_failed output.new))) }
{
    let mut buffer = OutputBuffer::new(alloc);
    match take_lines(alloc, input, output, &mut buffer, handler) {
        Ok(faulty) => {
            buffer.flush(output)?;
            Ok(faulty)
        }
        Err(RunError::Memory) => {
            buffer.flush(output)?;
            Err(RunError::Memory)
        }
        Err(RunError::Device) => Err(RunError::Device),
    }
}
