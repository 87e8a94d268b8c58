//! Collects the traces in a window of time from the journal, with the numbers of their services: no span is copied.

ghost use Rattle.std.specs.Prelude.{◌≡◌, ◌<◌, ◌^◌, ◌++◌, ◌∷◌, [], IfOk, OnOk, Some, map, filter, length, slice_get};
ghost use Rattle.std.specs.Arc.{arc_value};
ghost use Rattle.std.specs.List.{list_any};
ghost use Rattle.trace_model.specs.ServiceLinks.{in_window};
ghost use Rattle.trace_model.specs.Places.{entry_at};
ghost use Rattle.trace_assembly.specs.LocatedSpans.{span_at};
ghost use Rattle.trace_assembly.specs.AssembledRows.{spots_of};
ghost use Rattle.service_index.specs.ServicePlaces.{AreServiceNumbers};
ghost use Rattle.journal_traces.specs.TraceRanges.{AreRanged};
ghost use Rattle.collected_traces.specs.EntriesAtPlaces.{spans_named};
ghost use Rattle.journal_traces.specs.SpansAtSpots.{trace_named, AreNumberedByService, AddsSpan};
ghost use Rattle.trace_model.specs.TakenSpans.{placed_taken};
ghost use Rattle.journal_traces.specs.WindowTraces.{entries_in, entries_seen, traces_reported, AreWindowSpots};

use crate::entry_numbers::EntryNumbers;
use crate::spotted_spans::reaches_window;
use crate::store_view::StoreView;
use crate::window::window_of;
use crate::window_traces::{WindowSpots, WindowTraces};
use collected_traces::TakenSpot;
use std::alloc::{AllocError, Global};
use std::sync::Arc;
use trace_assembly::{Spot, Spots};
use trace_model::{Entry, push_tightly};

/// Returns the number of the entry at a place, which is collected unless it was before, with the number of its
/// service.
fn number_of(
    taken: &mut WindowSpots,
    numbers: &mut EntryNumbers,
    store: StoreView<'_>,
    entry: &Arc<Entry>,
    place: u64,
) -> Result<u32, AllocError>
    requires few { length store.journal.now.held.entries < 2 ^ 32 }
    requires service_numbers { AreServiceNumbers store.journal.now.held.entries
        store.by_service.now.service_numbers }
    requires there { Some (arc_value entry.now) ≡ entry_at store.journal.now.held.entries place }
    requires taken { AreWindowSpots store.journal.now.held.entries taken.old numbers.old }
    ensures number { IfOk result (λ n.
        slice_get (entries_in (entries_seen taken.new.entries.items)) n ≡
        Some (arc_value entry.now)) }
    ensures taken { OnOk result
        (AreWindowSpots store.entry.journal.now.held.entries taken.new numbers.new) }
    ensures traces { OnOk result (traces_reported taken.new ≡ traces_reported taken.old) }
{
    if let Some(number) = numbers.at(place) {
        return Ok(number);
    }
    taken.add_entry(
        entry,
        store.by_service.service_number_at((place - 1) as u32),
    )?;
    Ok(numbers.add(place))
}

/// Appends a spot to the last trace.
fn push_spot(taken: &mut WindowSpots, spot: TakenSpot) -> Result<(), AllocError>
    ensures entries { taken.new.entries ≡ taken.old.entries }
    ensures spots { OnOk result (taken.new.spots.items ≡ taken.old.spots.items ++ spot ∷ []) }
    ensures starts { taken.new.starts ≡ taken.old.starts }
{
    push_tightly(&mut taken.spots, spot)?;
    Ok(())
}

/// Appends a trace with no spots.
fn begin(taken: &mut WindowSpots) -> Result<(), AllocError>
    ensures entries { taken.new.entries ≡ taken.old.entries }
    ensures spots { taken.new.spots ≡ taken.old.spots }
    ensures starts { OnOk result (taken.new.starts.items ≡
        taken.old.starts.items ++ length taken.old.spots.items ∷ []) }
{
    let start = taken.spots.len();
    push_tightly(&mut taken.starts, start)?;
    Ok(())
}

/// Appends the span at a spot to the last trace.
fn take_spot(
    taken: &mut WindowSpots,
    numbers: &mut EntryNumbers,
    store: StoreView<'_>,
    spot: Spot,
) -> Result<(), AllocError>
    requires few { length store.journal.now.held.entries < 2 ^ 32 }
    requires service_numbers { AreServiceNumbers store.journal.now.held.entries
        store.by_service.now.service_numbers }
    requires taken { AreWindowSpots store.journal.now.held.entries taken.old numbers.old }
    ensures taken { OnOk result
        (AreWindowSpots store.entry.journal.now.held.entries taken.new numbers.new) }
    ensures traces { OnOk result (AddsSpan (span_at store.entry.journal.now.held.entries spot)
        (traces_reported taken.old) (traces_reported taken.new)) }
{
    // Impossible in a store: a spot of no entry. No clause says so.
    if let Some(entry) = store.journal.entry(spot.place) {
        let number = number_of(taken, numbers, store, entry, spot.place)?;
        let index = spot.index;
        push_spot(taken, TakenSpot { number, index })?;
    }
    Ok(())
}

/// Collects the trace of the spans at these spots, in their order.
fn take_spots(
    taken: &mut WindowSpots,
    numbers: &mut EntryNumbers,
    store: StoreView<'_>,
    spots: Spots<'_>,
) -> Result<(), AllocError>
    requires few { length store.journal.now.held.entries < 2 ^ 32 }
    requires service_numbers { AreServiceNumbers store.journal.now.held.entries
        store.by_service.now.service_numbers }
    requires taken { AreWindowSpots store.journal.now.held.entries taken.old numbers.old }
    ensures taken { OnOk result
        (AreWindowSpots store.entry.journal.now.held.entries taken.new numbers.new) }
    ensures spans { OnOk result (map placed_taken (traces_reported taken.new) ≡
        map placed_taken (traces_reported taken.old)
        ++ spans_named store.entry.journal.now.held.entries spots.entry ∷ []) }
{
    begin(taken)?;
    for spot in spots {
        take_spot(taken, numbers, store, spot)?;
    }
    Ok(())
}

/// Collects the traces of the ring that have a span that starts strictly after `end_ms - lookback_ms` and strictly
/// before `end_ms`, both in milliseconds since 1970; the one opened first is at the front. The number of each span
/// is that of its service. Blocks of traces whose range doesn't reach into the window are skipped; of the other
/// traces only the starts of their spans are read.
///
/// # Errors
///
/// Out of memory, and nothing else.
pub fn take_within(
    alloc: Global,
    store: StoreView<'_>,
    end_ms: i64,
    lookback_ms: i64,
) -> Result<WindowTraces, AllocError>
    requires few { length store.journal.now.held.entries < 2 ^ 32 }
    requires numbers { AreServiceNumbers store.journal.now.held.entries
        store.by_service.now.service_numbers }
    requires as_many { length store.starts.now.starts ≡ length store.assembly.now.newest.ids }
    requires ranged { AreRanged store.starts.now store.assembly.now.newest.ids
        (trace_named store.journal.now.held.entries (spots_of store.assembly.now)) }
    ensures within { IfOk result (λ traces. map placed_taken traces ≡
        filter (list_any (in_window end_ms lookback_ms))
        (map (trace_named store.entry.journal.now.held.entries (spots_of store.entry.assembly.now))
        store.entry.assembly.now.newest.ids)) }
    ensures numbered { IfOk result (AreNumberedByService store.entry.journal.now.held.entries) }
{
    let window = window_of(end_ms, lookback_ms);
    let mut taken = WindowSpots::new(alloc);
    let mut numbers = EntryNumbers::new(alloc, store.journal.entries().len())?;
    let mut index = store.starts.next_within(0, window);
    while index < store.starts.len() {
        let spots = store.assembly.spots_at(index);
        if reaches_window(store.journal, spots.duplicate(), end_ms, lookback_ms) {
            take_spots(&mut taken, &mut numbers, store, spots)?;
        }
        index = store.starts.next_within(index + 1, window);
    }
    Ok(WindowTraces::new(taken))
}
