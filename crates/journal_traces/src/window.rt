//! Windows of time in microseconds.

ghost use Rattle.std.specs.Prelude.{◌≡◌, Some, pos, ◌+ℤ◌, ◌-ℤ◌, ◌*ℤ◌, option_map};
ghost use Rattle.journal_traces.specs.TraceRanges.{search_window};

use span_steps::{micros, wide};
use trace_model::Find;
use trace_ring::Window;

/// Returns the window strictly between `end_ms - lookback_ms` and `end_ms`, both in milliseconds. No bound
/// overflows.
pub(crate) fn window_of(end_ms: i64, lookback_ms: i64) -> Window
    ensures { result ≡ record {
      after = Some (pos 1000 *ℤ (end_ms -ℤ lookback_ms));
      before = Some (pos 1000 *ℤ end_ms);
    } }
{
    Window {
        after: Some(micros(wide(end_ms) - wide(lookback_ms))),
        before: Some(micros(wide(end_ms))),
    }
}

/// Returns the last time before this one, if there is one.
fn just_before(time: Option<i64>) -> Option<i128>
    ensures { result ≡ option_map (λ t. t -ℤ pos 1) time }
{
    match time {
        Some(time) => Some(wide(time) - 1),
        None => None,
    }
}

/// Returns the first time after this one, if there is one.
fn just_after(time: Option<i64>) -> Option<i128>
    ensures { result ≡ option_map (λ t. t +ℤ pos 1) time }
{
    match time {
        Some(time) => Some(wide(time) + 1),
        None => None,
    }
}

/// Returns the window of a search's starts.
pub fn search_window(query: &Find) -> Window
    ensures { result ≡ search_window query.now }
{
    Window {
        after: just_before(query.start_min),
        before: just_after(query.start_max),
    }
}
