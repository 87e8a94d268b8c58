//! Updates what is shown by one more entry.

ghost use Rattle.std.specs.Prelude.{◌≡◌, ℕ, ℤ, ◌+◌, ◌^◌, ◌<◌, ◌≤◌, List, [], ◌∷◌, ◌++◌, Some, length, map, drop, position, is_some, if◌then◌else◌};
ghost use Rattle.jaeger_model.specs.Parents.{same_trace};
ghost use Rattle.jaeger_model.specs.declared.ids.TraceId.{TraceId as TraceIdValue};
ghost use Rattle.jaeger_model.specs.declared.placed.Placed.{Placed as PlacedValue};
ghost use Rattle.trace_model.specs.declared.entry.Entry.{Entry as EntryValue};
ghost use Rattle.trace_model.specs.Events.{Event, came};
ghost use Rattle.trace_model.specs.Rings.{newest};
ghost use Rattle.trace_model.specs.ShownSpans.{trace_of};
ghost use Rattle.trace_model.specs.EntryWork.{spans_brought};
ghost use Rattle.trace_assembly.specs.declared.spot.Spot.{Spot as SpotValue};
ghost use Rattle.trace_assembly.specs.AssembledRows.{spots_of};
ghost use Rattle.trace_assembly.specs.LocatedSpans.{located_events, located_upto, without_evicted};
ghost use Rattle.trace_ring.specs.StartRanges.{IsWider, range_at};
ghost use Rattle.journal_traces.specs.TraceRanges.{AreRanged};
ghost use Rattle.span_store.specs.StoreIndexes.{FollowsEvents, IsRingWithin};
ghost use Rattle.span_store.specs.ShownStarts.{AreFirst, IsCounted, IsRanged, first_with};

use jaeger_model::{Batch, Span};
use trace_assembly::{Assembly, Spot};
use trace_model::{Entry, Work};
use trace_ring::{Evicted, FirstStarts};

/// Appends the start of the span that opened a trace, if it did.
fn add_opened(starts: &mut FirstStarts, opened: bool, start: i64)
    requires { starts.old.used < starts.old.room }
    ensures starts { starts.new.starts ≡
        (if opened then starts.old.starts ++ start ∷ [] else starts.old.starts) }
    ensures used { starts.new.used ≤ starts.old.used + 1 }
    ensures room { starts.new.room ≡ starts.old.room }
    ensures none_narrows { (k : ℕ) → k < length starts.old.starts →
        IsWider (range_at starts.old k) (range_at starts.new k) }
{
    if opened {
        starts.push(start);
    }
}

/// Drops the start of the evicted trace, if there is one.
fn drop_evicted(starts: &mut FirstStarts, evicted: Option<Evicted>)
    ensures starts { starts.new.starts ≡
        (if is_some evicted then drop 1 starts.old.starts else starts.old.starts) }
    ensures used { starts.new.used ≡ starts.old.used }
    ensures room { starts.new.room ≡ starts.old.room }
    ensures ranges { 0 < length starts.old.starts → (k : ℕ) → range_at starts.new k ≡
        range_at starts.old (if is_some evicted then k + 1 else k) }
{
    if evicted.is_some() {
        starts.evict_oldest();
    }
}

/// Adds one span, for which there is room: its trace may be opened, and another one may leave for it. The given row
/// is a guess of the row of its trace, which is the result.
#[tactic(auto, using(crate::proofs::RingFollowsEvents::arrived_within))]
fn add_span(
    shown: &mut Assembly,
    starts: &mut FirstStarts,
    row: u32,
    span: &Span,
    spot: Spot,
) -> u32
    requires within { IsRingWithin shown.old.newest }
    requires room { shown.old.used < shown.old.room }
    requires counted { IsCounted shown.old starts.old }
    ensures within { IsRingWithin shown.new.newest }
    ensures follows { (n : ℕ) (es : List (Event (SpotValue × PlacedValue))) (p : PlacedValue) →
        FollowsEvents n es shown.old.newest (spots_of shown.old) → trace_of p ≡ span.now.trace →
        FollowsEvents n (es ++ came (spot, p) ∷ []) shown.new.newest (spots_of shown.new) }
    ensures room { shown.new.room ≡ shown.old.room }
    ensures used { shown.new.used ≡ shown.old.used + 1 }
    ensures row { position (same_trace span.now.trace) shown.new.newest.seen ≡ Some result }
    ensures starts { (first : TraceIdValue → ℤ) →
        starts.old.starts ≡ map first shown.old.newest.ids →
        starts.new.starts ≡ map (first_with shown.old.newest.ids span.now.start first)
        shown.new.newest.ids }
    ensures counted { IsCounted shown.new starts.new }
    ensures ranged { (n : ℕ) (es : List (Event (SpotValue × PlacedValue))) (p : PlacedValue) →
        FollowsEvents n es shown.old.newest (spots_of shown.old) →
        IsRanged n es shown.old starts.old →
        trace_of p ≡ span.now.trace → p.span.start ≡ span.now.start →
        IsRanged n (es ++ came (spot, p) ∷ []) shown.new starts.new }
{
    let arrived = shown.arrive_with_guess(row, span.trace, spot);
    add_opened(starts, arrived.opened, span.start);
    drop_evicted(starts, arrived.evicted);
    // For the prover: `len`'s clause `once` is used below.
    let _once = shown.ring().len();
    starts.widen(arrived.position, span.start);
    arrived.row
}

/// Adds the spans of the batch of the entry at the place, for which there is room. A span of the same trace as the
/// one before it needs no lookup.
fn add_batch(batch: &Batch, place: u64, shown: &mut Assembly, starts: &mut FirstStarts)
    requires within { IsRingWithin shown.old.newest }
    requires fits { length batch.now.spans < 2 ^ 32 }
    requires room { shown.old.used + length batch.now.spans ≤ shown.old.room }
    requires counted { IsCounted shown.old starts.old }
    ensures follows { (n : ℕ) (h : List EntryValue) → place ≡ length h + 1 →
        FollowsEvents n (located_events h) shown.old.newest (spots_of shown.old) →
        FollowsEvents n (located_upto h batch.now (length batch.now.spans)) shown.new.newest
        (spots_of shown.new) }
    ensures room { shown.new.room ≡ shown.old.room }
    ensures used { shown.new.used ≡ shown.old.used + length batch.now.spans }
    ensures first { (n : ℕ) (h : List EntryValue) → place ≡ length h + 1 →
        FollowsEvents n (located_events h) shown.old.newest (spots_of shown.old) →
        AreFirst n (located_events h) starts.old.starts →
        AreFirst n (located_upto h batch.now (length batch.now.spans)) starts.new.starts }
    ensures counted { IsCounted shown.new starts.new }
    ensures ranged { (n : ℕ) (h : List EntryValue) → place ≡ length h + 1 →
        FollowsEvents n (located_events h) shown.old.newest (spots_of shown.old) →
        IsRanged n (located_events h) shown.old starts.old →
        IsRanged n (located_upto h batch.now (length batch.now.spans)) shown.new starts.new }
{
    let mut index: u32 = 0;
    let mut row = 0;
    for span in batch.spans.as_slice() {
        row = add_span(shown, starts, row, span, Spot { place, index });
        index += 1;
    }
}

/// Sets the limit of traces; 0 is none. The oldest traces beyond it leave, and their spots are removed. Allocates
/// nothing.
fn apply_limit(shown: &mut Assembly, starts: &mut FirstStarts, limit: u32)
    requires { length starts.old.starts ≡ length shown.old.newest.ids }
    ensures limit { shown.new.newest.limit ≡ limit }
    ensures ids { shown.new.newest.ids ≡ newest limit shown.old.newest.ids }
    ensures spots { (t : TraceIdValue) → spots_of shown.new t ≡
        without_evicted shown.old.newest.ids shown.new.newest.ids (spots_of shown.old) t }
    ensures used { shown.new.used ≡ shown.old.used }
    ensures room { shown.new.room ≡ shown.old.room }
    ensures starts { (first : TraceIdValue → ℤ) →
        starts.old.starts ≡ map first shown.old.newest.ids →
        starts.new.starts ≡ map first shown.new.newest.ids }
    ensures starts_used { starts.new.used ≡ starts.old.used }
    ensures starts_room { starts.new.room ≡ starts.old.room }
    ensures as_many { length starts.new.starts ≡ length shown.new.newest.ids }
    ensures ranged { (spans : TraceIdValue → List PlacedValue) →
        AreRanged starts.old shown.old.newest.ids spans →
        AreRanged starts.new shown.new.newest.ids spans }
{
    shown.set_limit(limit);
    // A trace is dropped only while there are more than the limit.
    while let Some(_evicted) = shown.drop_oldest() {
        starts.evict_oldest();
    }
}

/// Applies the entry at the place: the spans of a batch, for which there is room, or a limit.
pub(crate) fn apply_entry(entry: &Entry, place: u64, shown: &mut Assembly, starts: &mut FirstStarts)
    requires within { IsRingWithin shown.old.newest }
    requires fits { length (spans_brought entry.now.work) < 2 ^ 32 }
    requires room { shown.old.used + length (spans_brought entry.now.work) ≤ shown.old.room }
    requires counted { IsCounted shown.old starts.old }
    ensures follows { (n : ℕ) (h : List EntryValue) → place ≡ length h + 1 →
        FollowsEvents n (located_events h) shown.old.newest (spots_of shown.old) →
        FollowsEvents n (located_events (h ++ entry.now ∷ [])) shown.new.newest
        (spots_of shown.new) }
    ensures room { shown.new.room ≡ shown.old.room }
    ensures used { shown.new.used ≡ shown.old.used + length (spans_brought entry.now.work) }
    ensures first { (n : ℕ) (h : List EntryValue) → place ≡ length h + 1 →
        FollowsEvents n (located_events h) shown.old.newest (spots_of shown.old) →
        AreFirst n (located_events h) starts.old.starts →
        AreFirst n (located_events (h ++ entry.now ∷ [])) starts.new.starts }
    ensures counted { IsCounted shown.new starts.new }
    ensures ranged { (n : ℕ) (h : List EntryValue) → place ≡ length h + 1 →
        FollowsEvents n (located_events h) shown.old.newest (spots_of shown.old) →
        IsRanged n (located_events h) shown.old starts.old →
        IsRanged n (located_events (h ++ entry.now ∷ [])) shown.new starts.new }
{
    match &entry.work {
        Work::Batch(batch) => add_batch(batch, place, shown, starts),
        Work::TraceLimit(limit) => apply_limit(shown, starts, limit.get()),
    }
}
