//! The host that a process names, and a span moved by the delta of its host's clock.

ghost use Rattle.std.specs.Prelude.{◌≡◌, IfOk, OnOk, OnErr, IsTrue, map, codes, string_bytes, ◌+ℤ◌};
ghost use Rattle.std.specs.List.{list_all};
ghost use Rattle.jaeger_model.specs.declared.span.Log.{Log as LogValue};
ghost use Rattle.jaeger_model.specs.Tags.{first_text};
ghost use Rattle.trace_model.specs.Adjusting.{fits, all_fit, is_applied, start_at, moved, move_log, said_after, shifted, unadjusted};

use crate::skew::{can_move, is_within, moved_by};
use crate::warning::Warning;
use jaeger_model::{Log, Placed, Process, Seq, Span, Text, first_text};
use std::alloc::{AllocError, Global};
use std::mem;
use trace_model::Shown;

/// Returns the host that a process names: the text of its first tag `ip`, or an empty text.
///
/// # Errors
///
/// Out of memory, and nothing else.
pub fn host_named(alloc: Global, process: &Process) -> Result<Text, AllocError>
    ensures { IfOk result (λ t. t ≡ first_text (codes "ip") process.now.tags) }
{
    let host = first_text(alloc, process.tags.as_slice(), "ip")?;
    Ok(Text::from_string(host))
}

/// Returns whether each log time, moved by the delta, is a time.
fn all_logs_fit(delta: i128, logs: &[Log]) -> bool
    ensures { result ≡ list_all (λ (l : LogValue). fits (l.at +ℤ delta)) logs.now }
{
    logs.iter().all(|l| can_move(l.at, delta))
}

/// Returns whether start and log times, moved by the delta in microseconds, are all times.
pub(crate) fn all_fit(delta: i128, span: &Span) -> bool
    ensures { result ≡ all_fit delta span.now }
{
    can_move(span.start, delta) && all_logs_fit(delta, span.logs.as_slice())
}

/// Returns whether the delta moves the span: it is within the limit, and each moved time is a time.
fn is_applied(max_skew: u64, delta: i128, span: &Span) -> bool
    ensures { result ≡ is_applied max_skew delta span.now }
{
    is_within(delta, max_skew) && all_fit(delta, span)
}

/// Returns the shown start of a span, in microseconds since 1970: moved by the delta of its clock, if the delta is
/// within the limit and each moved time of the span is a time. `max_skew` and `delta` are in microseconds.
pub fn start_at(max_skew: u64, delta: i128, span: &Span) -> i64
    ensures { result ≡ start_at max_skew delta span.now }
{
    if is_applied(max_skew, delta, span) {
        moved_by(span.start, delta)
    } else {
        span.start
    }
}

/// Moves the log by the delta.
fn move_log(delta: i128, log: &mut Log)
    requires { IsTrue (fits (log.old.at +ℤ delta)) }
    ensures { log.new ≡ move_log delta log.old }
{
    log.at = moved_by(log.at, delta);
}

/// Moves the logs by the delta.
fn move_logs(delta: i128, logs: &mut [Log])
    requires { IsTrue (list_all (λ (l : LogValue). fits (l.at +ℤ delta)) logs.old) }
    ensures { logs.new ≡ map (move_log delta) logs.old }
{
    for log in logs.iter_mut() {
        move_log(delta, log);
    }
}

fn moved_logs(delta: i128, logs: Seq<Log>) -> Seq<Log>
    requires { IsTrue (list_all (λ (l : LogValue). fits (l.at +ℤ delta)) logs) }
    ensures { result ≡ map (move_log delta) logs }
{
    let mut logs = logs.into_vec();
    move_logs(delta, &mut logs);
    Seq::from_vec(logs)
}

/// Moves the span by the delta.
fn move_span(alloc: Global, delta: i128, span: &mut Span)
    requires { IsTrue (all_fit delta span.old) }
    ensures { span.new ≡ moved delta span.old }
{
    let logs = mem::replace(&mut span.logs, Seq::new(alloc));
    span.start = moved_by(span.start, delta);
    span.logs = moved_logs(delta, logs);
}

/// Returns the span as it was reported.
pub fn unadjusted(alloc: Global, placed: Placed) -> Shown
    ensures { result ≡ unadjusted placed }
{
    Shown {
        placed,
        warnings: Seq::new(alloc),
    }
}

/// Returns the spans as they were reported.
///
/// # Errors
///
/// Out of memory, and nothing else.
#[tactic(auto, using(std::proofs::lemmas::List::map_push))]
pub fn all_unadjusted(alloc: Global, spans: Vec<Placed>) -> Result<Seq<Shown>, AllocError>
    ensures { IfOk result (λ s. s ≡ map unadjusted spans.items) }
{
    let mut shown = Vec::new(alloc);
    for placed in spans {
        shown.push(unadjusted(alloc, placed))?;
    }
    Ok(Seq::from_vec(shown))
}

/// Moves the span by the delta of its host's clock, and appends a warning that says so. If the delta is above the
/// limit, or a time would leave the range of times, the span is not moved and the warning says why. A delta of 0
/// changes nothing and adds no warning.
///
/// `delta` and `max_skew` are in microseconds.
///
/// # Errors
///
/// Running out of memory alone; the span is then unchanged.
pub fn shift(alloc: Global, shown: &mut Shown, delta: i128, max_skew: u64) -> Result<(), AllocError>
    ensures ok { OnOk result (shown.new ≡
        said_after shown.old (shifted max_skew delta shown.old.placed)) }
    ensures err { OnErr result (shown.new ≡ shown.old) }
{
    let Some(warning) = Warning::of_delta(max_skew, delta, &shown.placed.span) else {
        return Ok(());
    };
    shown.warnings.push(warning.text(alloc)?)?;
    if let Warning::Adjusted(delta) = warning {
        move_span(alloc, delta, &mut shown.placed.span);
    }
    Ok(())
}
