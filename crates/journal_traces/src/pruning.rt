//! Entries that a search, or a query for a window of time, skips by their outlines.

ghost use Rattle.std.specs.Prelude.{◌≡◌, ◌==◌, ℕ, List};
ghost use Rattle.std.specs.Int.Bits.{bit_or};
ghost use Rattle.std.specs.List.{list_all};
ghost use Rattle.journal_traces.specs.SkippedEntries.{may_meet_durations, may_meet_starts, is_marked, requested_bits, may_meet, may_reach};

use arrival_journal::{Outline, TagBits, Times, no_bits, set_bit, tag_place};
use jaeger_model::Text;
use span_steps::{duration_bound, is_at_least, is_at_most, may_be_in_window};
use std::marker::Model;
use trace_model::Find;

/// Returns whether spans with durations in these bounds may meet the search's bounds of durations.
fn may_meet_durations(times: Times, query: &Find) -> bool
    ensures { result ≡ may_meet_durations query.now times }
{
    is_at_least(duration_bound(query.duration_min), times.duration_max)
        && is_at_most(duration_bound(query.duration_max), times.duration_min)
}

/// Returns whether spans with starts in these bounds may meet the search's bounds of starts.
fn may_meet_starts(times: Times, query: &Find) -> bool
    ensures { result ≡ may_meet_starts query.now times }
{
    is_at_least(query.start_min, times.start_max) && is_at_most(query.start_max, times.start_min)
}

/// Returns the bits of the requested tags.
fn requested_bits(asked: &[(Text, Text)]) -> TagBits
    ensures { result ≡ requested_bits asked.now }
{
    let mut bits = no_bits();
    for pair in asked {
        set_bit(&mut bits, tag_place(pair.0.as_str(), pair.1.as_str()));
    }
    bits
}

/// Returns whether each bit of the mask is among these.
fn covers(bits: u64, mask: u64) -> bool
    ensures { result ≡ (bit_or bits mask == bits) }
{
    bits | mask == bits
}

/// Returns whether spans with these bits may have all requested tags, whose bits are the mask.
fn may_meet_tags(bits: &TagBits, mask: &TagBits) -> bool
    ensures { (asked : List (List ℕ × List ℕ)) → mask.now ≡ requested_bits asked →
        result ≡ list_all (is_marked bits.now) asked }
{
    for word in 0..8usize {
        if !covers(bits[word], mask[word]) {
            return false;
        }
    }
    true
}

/// A search, which skips entries by their outlines. The bits of its requested tags are computed once. Contracts see
/// the search.
#[derive(Drop)]
pub(crate) struct EntryFilter<'q> {
    query: &'q Find,
    /// The bits of the requested tags.
    mask: TagBits,
}

impl<'q> Model for EntryFilter<'q> {
    ghost use Rattle.std.specs.Prelude.{◌≡◌};
    ghost use Rattle.trace_model.specs.declared.query.Find.{Find};
    ghost use Rattle.journal_traces.specs.SkippedEntries.{requested_bits as bits_of_asked};

    ghost Value = { Find };

    ghost view = { λ f. f.query.now };

    ghost invariant = { λ f. f.mask ≡ bits_of_asked f.query.now.tags };
}

impl<'q> EntryFilter<'q> {
    pub(crate) fn new(query: &'q Find) -> Self
        ensures { result ≡ query.now }
    {
        EntryFilter {
            query,
            mask: requested_bits(query.tags.as_slice()),
        }
    }

    /// Returns whether spans of an entry with this outline may meet the search. If not, the entry's spans can be
    /// skipped.
    pub(crate) fn may_meet(&self, outline: Outline) -> bool
        ensures { result ≡ may_meet self.now outline }
    {
        // Each field is named, so that the compiler stops here when a search has a new condition. An outline has no
        // service and no operation.
        let Find {
            service: _,
            operation: _,
            tags: _,
            start_min: _,
            start_max: _,
            duration_min: _,
            duration_max: _,
            limit: _,
        } = self.query;
        may_meet_durations(outline.times, self.query)
            && may_meet_starts(outline.times, self.query)
            && may_meet_tags(&outline.tags, &self.mask)
    }
}

/// Returns whether spans with starts in these bounds may start strictly within the window. If not, the entry's spans
/// can be skipped.
pub(crate) fn may_reach(times: Times, end_ms: i64, lookback_ms: i64) -> bool
    ensures { result ≡ may_reach end_ms lookback_ms times }
{
    may_be_in_window(times.start_min, times.start_max, end_ms, lookback_ms)
}
