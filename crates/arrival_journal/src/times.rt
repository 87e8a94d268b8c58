//! Bounds of the starts and durations of an entry's spans, so that they needn't be read.

ghost use Rattle.std.specs.Prelude.{◌≡◌, []};
ghost use Rattle.arrival_journal.specs.Times.{times_of, times_with};

use jaeger_model::Span;

/// Bounds of the starts and durations of an entry's spans, in microseconds. If it has no span, each lower bound is
/// above its upper bound.
#[derive(Clone, Copy, Debug, PartialEq, Eq)]
pub struct Times {
    /// The earliest start.
    pub start_min: i64,
    /// The latest start.
    pub start_max: i64,
    /// The shortest duration.
    pub duration_min: i64,
    /// The longest duration.
    pub duration_max: i64,
}

impl Times {
    /// Returns the bounds of no span.
    fn none() -> Self
        ensures { result ≡ times_of [] }
    {
        Times {
            start_min: i64::MAX,
            start_max: i64::MIN,
            duration_min: i64::MAX,
            duration_max: i64::MIN,
        }
    }

    /// Widens the bounds to one more span.
    fn with(self, span: &Span) -> Self
        ensures { result ≡ times_with self span.now }
    {
        Times {
            start_min: self.start_min.min(span.start),
            start_max: self.start_max.max(span.start),
            duration_min: self.duration_min.min(span.duration),
            duration_max: self.duration_max.max(span.duration),
        }
    }

    /// Returns the bounds of the spans.
    pub(crate) fn of(spans: &[Span]) -> Self
        ensures { result ≡ times_of spans.now }
    {
        let mut times = Times::none();
        for span in spans {
            times = times.with(span);
        }
        times
    }
}
