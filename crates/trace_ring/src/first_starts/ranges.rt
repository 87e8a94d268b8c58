//! The ranges of the starts of spans, one for each block of traces.

ghost use Rattle.std.specs.Prelude.{◌≡◌, ◌+◌, ◌<◌, ◌≤◌, ◌==◌, ◌&&◌, ℕ, int_lt, length, get_or, vec_capacity, if◌then◌else◌};
ghost use Rattle.trace_ring.specs.StartRanges.{no_range, IsIn, IsWider, ends_after, begins_before, overlaps};

/// Times in microseconds since 1970, from the earliest to the latest.
#[derive(Clone, Copy)]
pub(crate) struct Range {
    pub(crate) earliest: i64,
    pub(crate) latest: i64,
}

/// The times strictly between two bounds, in microseconds since 1970. A bound that is `None` excludes no time.
#[derive(Clone, Copy)]
pub struct Window {
    pub after: Option<i128>,
    pub before: Option<i128>,
}

/// Returns whether a time of the range is after the bound.
fn ends_after(range: Range, bound: Option<i128>) -> bool
    ensures { result ≡ ends_after range bound }
{
    match bound {
        Some(bound) => bound < range.latest as i128,
        None => true,
    }
}

/// Returns whether a time of the range is before the bound.
fn begins_before(range: Range, bound: Option<i128>) -> bool
    ensures { result ≡ begins_before range bound }
{
    match bound {
        Some(bound) => (range.earliest as i128) < bound,
        None => true,
    }
}

/// Returns whether a time of the range may be in the window.
pub(crate) fn overlaps(range: Range, window: Window) -> bool
    ensures { result ≡ overlaps window range }
{
    ends_after(range, window.after) && begins_before(range, window.before)
}

/// Widens the range to one more time.
fn with_time(range: Range, time: i64) -> Range
    ensures wider { IsWider range result }
    ensures own { IsIn result time }
{
    Range {
        earliest: range.earliest.min(time),
        latest: range.latest.max(time),
    }
}

/// Widens the range of a block to a start. The block is one of those with a range, or the next one.
pub(crate) fn widen(ranges: &mut Vec<Range>, block: usize, start: i64)
    requires known { block ≤ length ranges.old.items }
    requires room { length ranges.old.items < vec_capacity ranges.old }
    ensures capacity { vec_capacity ranges.new ≡ vec_capacity ranges.old }
    ensures count { length ranges.new.items ≡
        (if block == length ranges.old.items then length ranges.old.items + 1
        else length ranges.old.items) }
    ensures own { IsIn (get_or ranges.new.items block no_range) start }
    ensures none_narrows { (k : ℕ) → k < length ranges.old.items →
        IsWider (get_or ranges.old.items k no_range) (get_or ranges.new.items k no_range) }
{
    if block == ranges.len() {
        ranges.push_reserved(Range {
            earliest: start,
            latest: start,
        });
    } else {
        ranges[block] = with_time(ranges[block], start);
    }
}
