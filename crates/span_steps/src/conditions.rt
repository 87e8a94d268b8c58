//! The conditions of a search on a span's service, operation, duration and start.

ghost use Rattle.std.specs.Prelude.{◌≡◌};
ghost use Rattle.trace_model.specs.Searching.{at_least, at_most, bound, has_service_and_operation, is_timed};
ghost use Rattle.trace_model.specs.BorrowedSpans.{seen};
ghost use Rattle.span_steps.specs.SpanConditions.{has_operation, meets_span_conditions};

use jaeger_model::Seen;
use trace_model::Find;

/// Returns whether the operation is that of the search; an empty one matches every one.
fn has_operation(at: Seen, query: &Find) -> bool
    ensures { result ≡ has_operation query.now (seen at.entry) }
{
    query.operation.as_str() == "" || query.operation == at.span.operation
}

/// Returns whether the value is at or above the bound, if there is one.
pub fn is_at_least(low: Option<i64>, value: i64) -> bool
    ensures { result ≡ at_least low value }
{
    match low {
        None => true,
        Some(low) => low <= value,
    }
}

/// Returns whether the value is at or below the bound, if there is one.
pub fn is_at_most(high: Option<i64>, value: i64) -> bool
    ensures { result ≡ at_most high value }
{
    match high {
        None => true,
        Some(high) => value <= high,
    }
}

/// Returns the bound of a search on durations, in microseconds; 0 is none.
pub fn duration_bound(duration: i64) -> Option<i64>
    ensures { result ≡ bound duration }
{
    if duration == 0 { None } else { Some(duration) }
}

/// Returns whether service and operation are those of the search; an empty operation matches every one. Only the plain
/// store calls it.
pub fn has_service_and_operation(at: Seen, query: &Find) -> bool
    ensures { result ≡ has_service_and_operation query.now (seen at.entry) }
{
    query.service == at.process.service && has_operation(at, query)
}

/// Returns whether duration and start are within the bounds of the search, in microseconds; a duration's bound of 0 is
/// none.
pub fn is_timed(at: Seen, query: &Find) -> bool
    ensures { result ≡ is_timed query.now (seen at.entry) }
{
    // Each field is named, so that the compiler stops here when a search has a new condition.
    let Find {
        service: _,
        operation: _,
        tags: _,
        start_min,
        start_max,
        duration_min,
        duration_max,
        limit: _,
    } = query;
    is_at_least(duration_bound(*duration_min), at.span.duration)
        && is_at_most(duration_bound(*duration_max), at.span.duration)
        && is_at_least(*start_min, at.span.start)
        && is_at_most(*start_max, at.span.start)
}

/// Returns whether the span meets the conditions of the search that need neither its process nor its tags: operation,
/// duration and start. An empty operation matches every one. Only the store with indexes calls it.
pub fn meets_span_conditions(at: Seen, query: &Find) -> bool
    ensures { result ≡ meets_span_conditions query.now (seen at.entry) }
{
    has_operation(at, query) && is_timed(at, query)
}
