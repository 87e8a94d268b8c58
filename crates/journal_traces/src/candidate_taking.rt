//! Collects the traces that a search considers from the journal, by numbers alone: no span is read.

ghost use Rattle.std.specs.Prelude.{◌≡◌, ◌<◌, ◌++◌, ◌∷◌, [], length, map, slice_get, IfOk, IsSome, OnOk, Some};
ghost use Rattle.std.specs.Arc.{arc_value};
ghost use Rattle.std.proofs.Props.{props};
ghost use Rattle.trace_model.specs.declared.entry.Entry.{Entry as EntryValue};
ghost use Rattle.trace_model.specs.Places.{entry_at};
ghost use Rattle.trace_assembly.specs.LocatedSpans.{span_at};
ghost use Rattle.journal_traces.specs.Told.{AreTold};
ghost use Rattle.journal_traces.specs.Numbered.{AreNumbers};
ghost use Rattle.collected_traces.specs.CollectedCandidates.{traces_spotted, IsMatchFlag};
ghost use Rattle.collected_traces.specs.EntriesAtPlaces.{spans_named};
ghost use Rattle.journal_traces.specs.SpansAtSpots.{traces_named, AddsSpan};

use crate::entry_numbers::EntryNumbers;
use crate::entry_services::is_of_service;
use crate::pruning::EntryFilter;
use crate::store_view::StoreView;
use arrival_journal::Journal;
use collected_traces::{CollectedCandidates, TakenSpot};
use service_index::ServicePlaces;
use std::alloc::{AllocError, Global};
use std::sync::Arc;
use trace_assembly::{Spot, Spots};
use trace_model::{Entry, Find};

/// A search, and the numbers that tell which entries of the journal may have a span that meets it.
#[derive(Drop)]
struct EntryMatcher<'a> {
    journal: &'a Journal,
    /// The numbers of the services of the journal's entries.
    by_service: &'a ServicePlaces,
    /// The number of the search's service; none if no entry is of it.
    service_number: Option<u32>,
    filter: EntryFilter<'a>,
    ghost correct: { AreTold filter journal.now.held.entries
        by_service.now.service_numbers service_number } by { Prim.hlevel props },
}

/// Returns whether the outline of the entry at a place meets the search.
fn is_outlined(matcher: &EntryMatcher<'_>, place: u64) -> bool
    requires { IsSome (entry_at matcher.now.journal.now.held.entries place) }
    ensures { (e : EntryValue) → Some e ≡ entry_at matcher.now.journal.now.held.entries place →
        IsMatchFlag matcher.now.filter e result }
{
    match matcher.journal.outline(place) {
        Some(outline) => matcher.filter.may_meet(outline),
        None => unreachable!(),
    }
}

/// Returns whether a span of the entry at a place may meet the search.
fn may_meet(matcher: &EntryMatcher<'_>, place: u64) -> bool
    requires { IsSome (entry_at matcher.now.journal.now.held.entries place) }
    ensures { (e : EntryValue) → Some e ≡ entry_at matcher.now.journal.now.held.entries place →
        IsMatchFlag matcher.now.filter e result }
{
    is_of_service(matcher.by_service, matcher.service_number, place) && is_outlined(matcher, place)
}

/// Returns the number of the entry at a place, which is collected unless it was before.
fn number_of(
    taken: &mut CollectedCandidates<'_>,
    numbers: &mut EntryNumbers,
    matcher: &EntryMatcher<'_>,
    entry: &Arc<Entry>,
    place: u64,
) -> Result<u32, AllocError>
    requires there { Some (arc_value entry.now) ≡
        entry_at matcher.now.journal.now.held.entries place }
    requires query { taken.old.query ≡ matcher.now.filter }
    requires numbers { AreNumbers matcher.now.journal.now.held.entries
        taken.old.entries numbers.old }
    ensures number { IfOk result (λ n. slice_get taken.new.entries n ≡ Some (arc_value entry.now)) }
    ensures numbers { OnOk result
        (AreNumbers matcher.now.journal.now.held.entries taken.new.entries numbers.new) }
    ensures query { taken.new.query ≡ taken.old.query }
    ensures traces { taken.new.traces ≡ taken.old.traces }
{
    if let Some(number) = numbers.at(place) {
        return Ok(number);
    }
    taken.add_entry(entry, may_meet(matcher, place))?;
    Ok(numbers.add(place))
}

/// Adds the span at a spot to the last trace.
fn take_spot(
    taken: &mut CollectedCandidates<'_>,
    numbers: &mut EntryNumbers,
    matcher: &EntryMatcher<'_>,
    spot: Spot,
) -> Result<(), AllocError>
    requires query { taken.old.query ≡ matcher.now.filter }
    requires numbers { AreNumbers matcher.now.journal.now.held.entries
        taken.old.entries numbers.old }
    ensures numbers { OnOk result
        (AreNumbers matcher.now.journal.now.held.entries taken.new.entries numbers.new) }
    ensures query { taken.new.query ≡ taken.old.query }
    ensures traces { OnOk result (AddsSpan (span_at matcher.now.journal.now.held.entries spot)
        taken.old.traces taken.new.traces) }
{
    // Impossible in a store: a spot of no entry. No clause says so.
    if let Some(entry) = matcher.journal.entry(spot.place) {
        let number = number_of(taken, numbers, matcher, entry, spot.place)?;
        taken.push(TakenSpot {
            number,
            index: spot.index,
        })?;
    }
    Ok(())
}

/// Collects the trace of the spans at these spots, in their order.
fn take_spots(
    taken: &mut CollectedCandidates<'_>,
    numbers: &mut EntryNumbers,
    matcher: &EntryMatcher<'_>,
    spots: Spots<'_>,
) -> Result<(), AllocError>
    requires query { taken.old.query ≡ matcher.now.filter }
    requires numbers { AreNumbers matcher.now.journal.now.held.entries
        taken.old.entries numbers.old }
    ensures numbers { OnOk result
        (AreNumbers matcher.now.journal.now.held.entries taken.new.entries numbers.new) }
    ensures query { taken.new.query ≡ taken.old.query }
    ensures spans { OnOk result (traces_spotted taken.new ≡ traces_spotted taken.old
        ++ spans_named matcher.now.journal.now.held.entries spots.entry ∷ []) }
{
    taken.begin()?;
    for spot in spots {
        take_spot(taken, numbers, matcher, spot)?;
    }
    Ok(())
}

/// Collects the trace of each of these lists of spots, in their order, for a search. Each entry is collected once. The
/// number of its service tells whether it is of the search's service.
///
/// # Errors
///
/// Out of memory, and nothing else.
pub fn take_candidates<'q>(
    alloc: Global,
    store: StoreView<'_>,
    service_number: Option<u32>,
    query: &'q Find,
    spots: &[Spots<'_>],
) -> Result<CollectedCandidates<'q>, AllocError>
    requires { AreTold query.now store.journal.now.held.entries
        store.by_service.now.service_numbers service_number }
    ensures query { IfOk result (λ taken. taken.query ≡ query.now) }
    ensures spans { IfOk result (λ taken. traces_spotted taken ≡
        traces_named store.entry.journal.now.held.entries spots.now) }
{
    let mut taken = CollectedCandidates::with_capacity(alloc, query, spots.len())?;
    let mut numbers = EntryNumbers::new(alloc, store.journal.entries().len())?;
    let matcher = EntryMatcher {
        journal: store.journal,
        by_service: store.by_service,
        service_number,
        filter: EntryFilter::new(query),
    };
    for trace in spots {
        take_spots(&mut taken, &mut numbers, &matcher, trace.duplicate())?;
    }
    Ok(taken)
}
