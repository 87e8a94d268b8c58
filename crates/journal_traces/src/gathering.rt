//! The spans at spots, in their entries: the entries are shared, and no span is copied.

ghost use Rattle.std.specs.Prelude.{◌≡◌, ◌<◌, ◌^◌, length, IfOk};
ghost use Rattle.trace_model.specs.TakenSpans.{placed_taken, numbers_taken};
ghost use Rattle.collected_traces.specs.EntriesAtPlaces.{spans_named};
ghost use Rattle.journal_traces.specs.SpansAtSpots.{AreReportedAt};

use crate::taking::taken_at;
use arrival_journal::Journal;
use std::alloc::{AllocError, Global};
use trace_assembly::Spots;
use trace_model::KeptTrace;

/// Counts the spots, to allocate exactly.
fn spot_count(spots: Spots<'_>) -> usize {
    let mut count = 0usize;
    for _spot in spots {
        count = count.saturating_add(1);
    }
    count
}

/// Returns the trace of the spans at the spots, in their order. It is to be shown as reported if `raw` is set, else
/// with clock skews of up to `max_skew` microseconds adjusted. The key of a span's process is the place of its entry.
/// The spots are read twice, so that no more memory is allocated than they need.
///
/// # Errors
///
/// Out of memory, and nothing else.
pub fn gather(
    alloc: Global,
    journal: &Journal,
    spots: Spots<'_>,
    max_skew: u64,
    raw: bool,
) -> Result<KeptTrace, AllocError>
    requires few { length journal.now.held.entries < 2 ^ 32 }
    ensures spans { IfOk result (λ g. placed_taken g.spans.items ≡
        spans_named journal.now.held.entries spots.entry) }
    ensures places { IfOk result (λ g. AreReportedAt journal.now.held.entries
        (placed_taken g.spans.items) (numbers_taken g.spans.items)) }
    ensures form { IfOk result (λ g. (g.max_skew ≡ max_skew) × (g.raw ≡ raw)) }
{
    let count = spot_count(spots.duplicate());
    let mut spans = Vec::with_capacity(alloc, count)?;
    for spot in spots {
        // Impossible in a store: a spot of no span. No clause says so.
        if let Some(span) = taken_at(journal, spot)? {
            // For the prover: `reported`'s clause says that there is a span.
            let _seen = span.reported();
            spans.push(span)?;
        }
    }
    Ok(KeptTrace {
        spans,
        max_skew,
        raw,
    })
}
