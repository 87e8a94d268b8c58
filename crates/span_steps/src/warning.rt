//! The warnings about a span's clock skew.

ghost use Rattle.std.specs.Prelude.{◌≡◌, IfOk};
ghost use Rattle.trace_model.specs.Adjusting.{past_limit, past_times, adjusted_by};
ghost use Rattle.span_steps.specs.Warnings.{warning_of, warning_text, CanMove};

use crate::clock::all_fit;
use crate::skew::is_within;
use jaeger_model::{Span, Text};
use std::alloc::{AllocError, Global};

/// A warning: the span's clock skew was adjusted, or why it was not.
#[derive(Clone, Copy, Debug)]
pub enum Warning {
    /// Its times were moved by this number of microseconds.
    Adjusted(i128),
    /// The delta, in microseconds, is above the limit.
    PastLimit { delta: i128, max_skew: u64 },
    /// Moved by this number of microseconds, a time would not fit into 64 bits.
    PastTimes(i128),
}

fn past_limit(alloc: Global, delta: i128, max_skew: u64) -> Result<Text, AllocError>
    ensures { IfOk result (λ t. t ≡ past_limit delta max_skew) }
{
    let text = format!(in alloc;
        "clock skew of {delta} us not applied: the limit is {max_skew} us"
    )?;
    Ok(Text::from_string(text))
}

fn past_times(alloc: Global, delta: i128) -> Result<Text, AllocError>
    ensures { IfOk result (λ t. t ≡ past_times delta) }
{
    let text = format!(in alloc; "clock skew of {delta} us not applied: a time would not fit")?;
    Ok(Text::from_string(text))
}

fn adjusted_by(alloc: Global, delta: i128) -> Result<Text, AllocError>
    ensures { IfOk result (λ t. t ≡ adjusted_by delta) }
{
    let text = format!(in alloc; "clock skew adjusted by {delta} us")?;
    Ok(Text::from_string(text))
}

impl Warning {
    /// Returns the warning for a span and the delta of its clock, or `None` if the delta is 0. Both numbers are in
    /// microseconds.
    pub fn of_delta(max_skew: u64, delta: i128, span: &Span) -> Option<Warning>
        ensures warning { result ≡ warning_of max_skew delta span.now }
        ensures can_move { CanMove result span.now }
    {
        if delta == 0 {
            None
        } else if !is_within(delta, max_skew) {
            Some(Warning::PastLimit { delta, max_skew })
        } else if !all_fit(delta, span) {
            Some(Warning::PastTimes(delta))
        } else {
            Some(Warning::Adjusted(delta))
        }
    }

    /// Returns the text of the warning.
    ///
    /// # Errors
    ///
    /// Out of memory, and nothing else.
    pub fn text(self, alloc: Global) -> Result<Text, AllocError>
        ensures { IfOk result (λ t. t ≡ warning_text self) }
    {
        match self {
            Warning::Adjusted(delta) => adjusted_by(alloc, delta),
            Warning::PastLimit { delta, max_skew } => past_limit(alloc, delta, max_skew),
            Warning::PastTimes(delta) => past_times(alloc, delta),
        }
    }
}
