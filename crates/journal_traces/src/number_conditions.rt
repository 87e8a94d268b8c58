//! Judges the conditions of a search other than those on tags by numbers: no text is read.

ghost use Rattle.std.specs.Prelude.{◌≡◌, ◌+◌, ◌-◌, ◌<◌, ◌^◌, true, Some, IsSome, slice_get};
ghost use Rattle.jaeger_model.specs.declared.batch.Process.{Process as ProcessValue};
ghost use Rattle.jaeger_model.specs.declared.placed.Placed.{Placed as PlacedValue};
ghost use Rattle.jaeger_model.specs.Texts.{same_text};
ghost use Rattle.trace_model.specs.BorrowedSpans.{seen, placed_by_its_entry};
ghost use Rattle.trace_assembly.specs.LocatedSpans.{span_at};
ghost use Rattle.span_steps.specs.SpanConditions.{has_operation, meets_span_conditions};
ghost use Rattle.journal_traces.specs.Told.{AreTold, AreOperationsTold, row_at, is_requested_row};
ghost use Rattle.collected_traces.specs.EntriesAtPlaces.{process_at};

use crate::entry_services::is_of_service;
use crate::requested_numbers::RequestedNumbers;
use crate::store_view::StoreView;
use jaeger_model::Seen;
use service_index::OperationRows;
use span_steps::is_timed;
use std::marker::Model;
use trace_model::Find;

/// Returns the number at an index, if there is one.
fn number_at(numbers: &[u32], index: usize) -> Option<u32>
    ensures { result ≡ slice_get numbers.now index }
{
    numbers.get(index).copied()
}

/// Returns the number of arrivals before the first span of the entry at a place, which counts from 1, if there is
/// such an entry. Nobody asks for place 0, which has the answer of place 1.
pub(crate) fn first_of(store: StoreView<'_>, place: u64) -> Option<u32>
    ensures { result ≡ slice_get store.entry.names.now.numbers.firsts (place - 1) }
{
    number_at(store.names.firsts(), place.saturating_sub(1) as usize)
}

/// Returns the row of the operation of the span at an index of the entry at a place, if there is such a span.
fn row_at(store: StoreView<'_>, place: u64, index: usize) -> Option<u32>
    requires { index < 2 ^ 63 }
    ensures { result ≡ row_at store.entry.names.now.numbers.firsts
        store.entry.names.now.operation_rows place index }
{
    let first = first_of(store, place)?;
    number_at(store.names.operation_rows(), first as usize + index)
}

/// Returns whether the row of a span is requested; a missing row isn't. Without requested rows, every span's row is.
fn is_requested_row(requested: Option<OperationRows>, row: Option<u32>) -> bool
    ensures { result ≡ is_requested_row requested row }
{
    match (requested, row) {
        (None, _) => true,
        // Impossible in a store: each span of an entry has a row. No clause says so.
        (Some(_), None) => false,
        (Some(rows), Some(row)) => rows.contains(row),
    }
}

/// A search, and the store whose spans it judges. Numbers tell which entries are of the requested service, and which of
/// their spans have the requested operation. Contracts see the search and the entries.
#[derive(Drop)]
pub(crate) struct NumberConditions<'a> {
    store: StoreView<'a>,
    query: &'a Find,
    requested: RequestedNumbers,
}

impl<'a> Model for NumberConditions<'a> {
    ghost use Rattle.std.specs.Prelude.{List};
    ghost use Rattle.trace_model.specs.declared.entry.Entry.{Entry};
    ghost use Rattle.trace_model.specs.declared.query.Find.{Find};
    ghost use Rattle.journal_traces.specs.Told.{AreTold, AreOperationsTold};

    ghost Value = { Find × List Entry };

    ghost view = { λ n. (n.query.now, n.store.journal.now.held.entries) };

    ghost invariant = { λ n. AreTold n.query.now n.store.journal.now.held.entries
        n.store.by_service.now.service_numbers n.requested.service
        × AreOperationsTold n.query.now n.store.journal.now.held.entries
        n.store.names.now.numbers.firsts n.store.names.now.operation_rows n.requested.operation };
}

impl<'a> NumberConditions<'a> {
    pub(crate) fn new(store: StoreView<'a>, query: &'a Find, requested: RequestedNumbers) -> Self
        requires service { AreTold query.now store.journal.now.held.entries
            store.by_service.now.service_numbers requested.service }
        requires operation { AreOperationsTold query.now store.journal.now.held.entries
            store.names.now.numbers.firsts store.names.now.operation_rows requested.operation }
        ensures { result ≡ (query.now, store.entry.journal.now.held.entries) }
    {
        NumberConditions {
            store,
            query,
            requested,
        }
    }

    /// Returns whether the entry at a place is of the requested service.
    pub(crate) fn is_requested(&self, place: u64) -> bool
        requires { IsSome (process_at self.now.1 place) }
        ensures { (process : ProcessValue) → Some process ≡ process_at self.now.1 place →
            result ≡ same_text self.now.0.service process.service }
    {
        is_of_service(self.store.by_service, self.requested.service, place)
    }

    /// Returns whether the span at an index of the entry at a place has the requested operation. No clause says so if
    /// the entry is of another service.
    fn has_operation(&self, place: u64, index: usize) -> bool
        requires { index < 2 ^ 63 }
        ensures { (p : PlacedValue) →
            Some p ≡ span_at self.now.1 (record { place = place; index = index }) →
            same_text self.now.0.service p.process.service ≡ true →
            result ≡ has_operation self.now.0 p }
    {
        is_requested_row(self.requested.operation, row_at(self.store, place, index))
    }

    /// Returns whether the span at an index of the entry at a place has the requested operation, duration and start.
    /// The entry is of the requested service.
    pub(crate) fn is_met(&self, place: u64, index: usize, at: Seen<'_>) -> bool
        requires small { index < 2 ^ 63 }
        requires there { Some (placed_by_its_entry at) ≡
            span_at self.now.1 (record { place = place; index = index }) }
        requires service { same_text self.now.0.service at.process.now.service ≡ true }
        ensures { result ≡ meets_span_conditions self.now.0 (seen at.entry) }
    {
        self.has_operation(place, index) && is_timed(at, self.query)
    }
}
