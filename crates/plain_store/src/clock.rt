//! The clock of a span by that of its parent, and the span as it is shown by its own clock.

ghost use Rattle.std.specs.Prelude.{◌≡◌, IfOk, pos, [], not, ◌||◌};
ghost use Rattle.jaeger_model.specs.Texts.{same_text};
ghost use Rattle.trace_model.specs.Adjusting.{host_of, new_delta, clock_at, is_elsewhere, clock_below, shifted};

use jaeger_model::{Placed, Span, Text};
use span_steps::{delta_between, host_named, shift, start_at, unadjusted};
use std::alloc::{AllocError, Global};
use trace_model::{Clock, Shown};

/// Returns the host of a span: the one that its process names.
///
/// # Errors
///
/// Out of memory, and nothing else.
fn host_of(alloc: Global, placed: &Placed) -> Result<Text, AllocError>
    ensures { IfOk result (λ t. t ≡ host_of placed.now) }
{
    host_named(alloc, placed.process.get())
}

fn clock_at(max_skew: u64, host: Text, delta: i128, span: &Span) -> Clock
    ensures { result ≡ clock_at max_skew host delta span.now }
{
    Clock {
        host,
        delta,
        start: start_at(max_skew, delta, span),
        duration: span.duration,
    }
}

/// Returns the clock of a span whose parent is not in its trace: its own host's, with no delta.
///
/// # Errors
///
/// Out of memory, and nothing else.
pub(crate) fn root_clock(alloc: Global, placed: &Placed, max_skew: u64) -> Result<Clock, AllocError>
    ensures { IfOk result (λ c. c ≡ clock_at max_skew (host_of placed.now) (pos 0)
        placed.now.span) }
{
    let host = host_of(alloc, placed)?;
    Ok(clock_at(max_skew, host, 0, &placed.span))
}

/// Returns whether the host is empty, or isn't the host of this clock.
fn is_elsewhere(above: &Clock, host: &Text) -> bool
    ensures { result ≡ (same_text host.now [] || not (same_text host.now above.now.host)) }
{
    host.as_str().is_empty() || *host != above.host
}

/// Returns the delta that moves the span into the time of its parent, which has this clock.
fn new_delta(above: &Clock, span: &Span) -> i128
    ensures { result ≡ new_delta above.now span.now }
{
    delta_between(above.start, above.duration, span.start, span.duration)
}

/// Returns the clock of a span whose parent has this one: the parent's if the span is of the same host, else its
/// own host's, with a delta that moves the span inside its parent if it fits there.
///
/// # Errors
///
/// Out of memory, and nothing else.
pub(crate) fn clock_below(
    alloc: Global,
    above: &Clock,
    placed: &Placed,
    max_skew: u64,
) -> Result<Clock, AllocError>
    ensures { IfOk result (λ c. c ≡ clock_below max_skew above.now placed.now) }
{
    let host = host_of(alloc, placed)?;
    if is_elsewhere(above, &host) {
        let delta = new_delta(above, &placed.span);
        return Ok(clock_at(max_skew, host, delta, &placed.span));
    }
    let host = above.host.clone()?;
    Ok(clock_at(max_skew, host, above.delta, &placed.span))
}

/// Returns the span as it was reported, moved by [`shift`].
///
/// # Errors
///
/// Out of memory, and nothing else.
pub(crate) fn shifted(
    alloc: Global,
    placed: Placed,
    delta: i128,
    max_skew: u64,
) -> Result<Shown, AllocError>
    ensures { IfOk result (λ s. s ≡ shifted max_skew delta placed) }
{
    let mut shown = unadjusted(alloc, placed);
    shift(alloc, &mut shown, delta, max_skew)?;
    Ok(shown)
}
