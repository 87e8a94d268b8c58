//! The lines of a trace's spans.
ghost use Rattle.std.specs.Prelude.{◌≡◌, ◌++◌, None, IfOk, OnOk, false, flat_map, is_some, map, option_map};
ghost use Rattle.session_devices.specs.Traffic.{traffic_of};
ghost use Rattle.text_lines.specs.RunErrors.{WritesText};
ghost use Rattle.trace_model.specs.Adjusting.{unadjusted};
ghost use Rattle.commands.specs.GetRuns.{trace_by_id, shown_line, span_line, trace_lines};

use jaeger_model::{Placed, TraceId};
use session_devices::Output;
use span_store::SpanStore;
use std::alloc::{AllocError, Global};
use std::io::Write;
use text_lines::{OutputBuffer, RunError, write_text};
use trace_adjust::show_answered;
use trace_model::{Answer, Query, Shown, ShownTrace};

/// Writes the line of a span.
fn write_span(reply: &mut Vec<u8>, placed: &Placed) -> Result<(), AllocError>
    ensures { OnOk result (reply.new.items ≡ reply.old.items ++ span_line placed.now) }
{
    let Placed { process, span } = placed;
    let service = process.get().service.as_str();
    let operation = span.operation.as_str();
    let (trace, id, start, duration) = (span.trace, span.id, span.start, span.duration);
    writeln!(
        reply,
        "{trace} {id} {start} {duration} {service} {operation}"
    )
    .map_err(|_| AllocError)
}

/// Writes the lines of the spans.
fn write_spans<W: Output>(alloc: Global, output: &mut W, spans: &[Shown]) -> Result<(), RunError>
    requires { W.has_failed output.old ≡ false }
    ensures { WritesText (traffic_of W.contents W.has_failed output.old output.new)
        (flat_map shown_line spans.now) result }
{
    let mut buffer = OutputBuffer::new(alloc);
    let mut reply = Vec::new(alloc);
    for shown in spans {
        reply.clear();
        write_span(&mut reply, &shown.placed)?;
        buffer.push(reply.as_slice())?;
        buffer.flush_if_large(output)?;
    }
    buffer.flush(output)
}

/// Returns the shown spans of the trace, or `None` if there are none.
fn find_trace(
    alloc: Global,
    store: &SpanStore,
    trace: TraceId,
) -> Result<Option<ShownTrace>, AllocError>
    ensures { IfOk result (λ found. found ≡
        option_map (map unadjusted) (trace_by_id store.now trace)) }
{
    let query = Query::Trace {
        id: trace,
        raw: true,
    };
    match store.answer(&query) {
        Ok(Answer::Trace(Some(found))) => Ok(Some(show_answered(alloc, found)?)),
        Ok(Answer::Trace(None)) => Ok(None),
        Ok(_) => unreachable!(),
        Err(_) => Err(AllocError),
    }
}

/// Writes that the trace isn't found.
fn write_not_found<W: Output>(alloc: Global, output: &mut W) -> Result<(), RunError>
    requires { W.has_failed output.old ≡ false }
    ensures { WritesText (traffic_of W.contents W.has_failed output.old output.new)
        (trace_lines None) result }
{
    write_text(alloc, output, b"trace not found\n")
}

/// Writes the spans of the trace, or that it isn't found. Returns whether it is found.
pub(crate) fn write_trace<W: Output>(
    alloc: Global,
    output: &mut W,
    store: &SpanStore,
    trace: TraceId,
) -> Result<bool, RunError>
    requires { W.has_failed output.old ≡ false }
    ensures found { IfOk result (λ found. found ≡ is_some (trace_by_id store.now trace)) }
    ensures lines { WritesText (traffic_of W.contents W.has_failed output.old output.new)
        (trace_lines (trace_by_id store.now trace)) result }
{
    match find_trace(alloc, store, trace)? {
        Some(spans) => {
            write_spans(alloc, output, spans.as_slice())?;
            Ok(true)
        }
        None => {
            write_not_found(alloc, output)?;
            Ok(false)
        }
    }
}
