//! The items of several traces in one list, with the number of items before each trace.

ghost use Rattle.std.specs.Prelude.{◌≡◌, ◌+◌, ◌<◌, ◌≤◌, [], length, slice_index_or, slice_range};
ghost use Rattle.collected_traces.specs.TraceParts.{cut_at, AreStarts};

/// Returns the start of the trace after the one at an index, or the end.
fn next_start(starts: &[usize], index: usize, end: usize) -> usize
    requires { index < length starts.now }
    ensures { result ≡ slice_index_or starts.now (index + 1) end }
{
    match starts.get(index + 1) {
        Some(next) => *next,
        None => end,
    }
}

fn part<T>(items: &[T], start: usize, end: usize) -> &[T]
    requires ordered { start ≤ end }
    requires within { end ≤ length items.now }
    ensures { result.now ≡ slice_range items.now start end }
{
    &items[start..end]
}

/// Returns the items of the trace at an index, which counts from 0; none if there is no such trace. `starts` has for
/// each trace the number of items before its first one.
pub fn trace_part<'a, T>(items: &'a [T], starts: &[usize], index: usize) -> &'a [T]
    requires { AreStarts (length items.now) starts.now }
    ensures { result.now ≡ slice_index_or (cut_at items.now starts.now) index [] }
{
    if index >= starts.len() {
        return &[];
    }
    let start = starts[index];
    let end = next_start(starts, index, items.len());
    part(items, start, end)
}
