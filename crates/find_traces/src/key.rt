//! The sort key of a trace in a search.

ghost use Rattle.std.specs.Prelude.{◌≡◌};
ghost use Rattle.find_traces.specs.FoundIndices.{trace_at};
ghost use Rattle.find_traces.specs.Keys.{key_of};

use crate::searched::Searched;

/// The sort key of a trace that may match. The one with the latest first start is the greatest; of equal starts,
/// the one at the later index, which was opened later.
#[derive(Clone, Copy, Debug, PartialEq, Eq, PartialOrd, Ord)]
pub(crate) struct Key {
    pub(crate) start: i64,
    pub(crate) index: usize,
}

pub(crate) fn key_at<T: Searched>(traces: &T, index: usize) -> Key
    ensures { result ≡ key_of (index, trace_at (T.traces traces.now) index) }
{
    Key {
        start: traces.start_at(index),
        index,
    }
}
