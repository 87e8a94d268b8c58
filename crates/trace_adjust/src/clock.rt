//! The delta of the clock of one span, by the numbers of hosts.

ghost use Rattle.std.specs.Prelude.{◌≡◌, ◌==◌, ◌||◌, ◌+ℤ◌, not, true, IsTrue};
ghost use Rattle.trace_model.specs.Adjusting.{delta_between, fits};
ghost use Rattle.trace_adjust.specs.Hosts.{delta_by};
ghost use Rattle.trace_adjust.specs.KnownClocks.{start_with};

use crate::known_deltas::KnownDelta;
use crate::lent_placed::LentPlaced;
use span_steps::{delta_between, moved_by};

/// The number of the empty host: that of a span whose process names none.
pub(crate) const NO_HOST: u32 = 0;

/// A span, and the number of its host.
#[derive(Clone, Copy)]
pub(crate) struct HostedSpan<'t, 's> {
    pub(crate) placed: &'t LentPlaced<'s>,
    pub(crate) host_number: u32,
}

/// Returns whether the host is empty, or isn't the one above.
fn is_elsewhere(above: u32, host: u32) -> bool
    ensures { result ≡ ((host == 0) || not (host == above)) }
{
    host == NO_HOST || host != above
}

/// Returns the shown start of a span by the delta of its clock. It reads no log: the delta has a mark that says whether
/// it moves the span.
fn shown_start(placed: &LentPlaced, known: KnownDelta) -> i64
    requires { known.moves ≡ true → IsTrue (fits (placed.now.span.start +ℤ known.delta)) }
    ensures { result ≡ start_with known placed.now.span }
{
    if known.moves {
        moved_by(placed.start(), known.delta)
    } else {
        placed.start()
    }
}

/// Returns the delta that moves the span into the time of its parent, whose clock has this delta.
fn new_delta(above: &LentPlaced, known: KnownDelta, placed: &LentPlaced) -> i128
    requires { known.moves ≡ true → IsTrue (fits (above.now.span.start +ℤ known.delta)) }
    ensures { result ≡ delta_between (start_with known above.now.span)
        above.now.span.duration placed.now.span.start placed.now.span.duration }
{
    delta_between(
        shown_start(above, known),
        above.duration(),
        placed.start(),
        placed.duration(),
    )
}

/// Returns the delta of a span by that of its parent: the parent's if the span is of the same host, else one that
/// moves the span into its parent's time.
pub(crate) fn delta_below(above: HostedSpan, known: KnownDelta, below: HostedSpan) -> i128
    requires { known.moves ≡ true → IsTrue (fits (above.placed.now.span.start +ℤ known.delta)) }
    ensures { result ≡ delta_by above.entry known below.entry }
{
    if is_elsewhere(above.host_number, below.host_number) {
        return new_delta(above.placed, known, below.placed);
    }
    known.delta
}
