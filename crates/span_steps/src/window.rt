//! Whether a time is in a window of time.

ghost use Rattle.std.specs.Prelude.{◌≡◌, ◌&&◌, pos, ◌-ℤ◌, ◌*ℤ◌, ◌≤ℤ◌, ◌^◌, int_lt};
ghost use Rattle.trace_model.specs.ServiceLinks.{is_between};

use crate::skew::{difference, wide};

/// Converts milliseconds to microseconds.
pub fn micros(ms: i128) -> i128
    requires low { (pos 0 -ℤ pos (2 ^ 64)) ≤ℤ ms }
    requires high { ms ≤ℤ pos (2 ^ 64) }
    ensures { result ≡ pos 1000 *ℤ ms }
{
    1000 * ms
}

fn is_after(time: i64, bound: i128) -> bool
    ensures { result ≡ int_lt bound time }
{
    bound < wide(time)
}

fn is_before(time: i64, bound: i128) -> bool
    ensures { result ≡ int_lt time bound }
{
    wide(time) < bound
}

/// Returns whether the time, in microseconds, is after the start of the window.
fn is_after_begin(time: i64, end_ms: i64, lookback_ms: i64) -> bool
    ensures { result ≡ int_lt (pos 1000 *ℤ (end_ms -ℤ lookback_ms)) time }
{
    is_after(time, micros(difference(end_ms, lookback_ms)))
}

/// Returns whether it is before the end of the window.
fn is_before_end(time: i64, end_ms: i64) -> bool
    ensures { result ≡ int_lt time (pos 1000 *ℤ end_ms) }
{
    is_before(time, micros(wide(end_ms)))
}

/// Returns whether the start of a span, in microseconds, is strictly between `end_ms - lookback_ms` and `end_ms`, both
/// in milliseconds. No bound overflows.
pub fn is_in_window(start: i64, end_ms: i64, lookback_ms: i64) -> bool
    ensures { result ≡ is_between end_ms lookback_ms start }
{
    is_after_begin(start, end_ms, lookback_ms) && is_before_end(start, end_ms)
}

/// Returns whether some start from `least` to `greatest`, both in microseconds, may be strictly between `end_ms -
/// lookback_ms` and `end_ms`, both in milliseconds. If none may be, spans whose starts have these bounds can be
/// skipped. Only the store with indexes calls it.
pub fn may_be_in_window(least: i64, greatest: i64, end_ms: i64, lookback_ms: i64) -> bool
    ensures { result ≡ (int_lt (pos 1000 *ℤ (end_ms -ℤ lookback_ms)) greatest
        && int_lt least (pos 1000 *ℤ end_ms)) }
{
    is_after_begin(greatest, end_ms, lookback_ms) && is_before_end(least, end_ms)
}
