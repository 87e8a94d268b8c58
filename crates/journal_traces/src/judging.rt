//! Spans of the journal, judged by a search one after the other.

ghost use Rattle.std.specs.Prelude.{◌≡◌, Some, [], ◌∷◌, IfOk};
ghost use Rattle.std.specs.List.{list_any};
ghost use Rattle.trace_model.specs.Searching.{matches};
ghost use Rattle.trace_model.specs.BorrowedSpans.{seen, placed_by_its_entry};
ghost use Rattle.trace_assembly.specs.LocatedSpans.{span_at};
ghost use Rattle.journal_traces.specs.Told.{AreTold, AreOperationsTold};
ghost use Rattle.collected_traces.specs.EntriesAtPlaces.{spans_named};

use crate::number_conditions::NumberConditions;
use crate::requested_numbers::RequestedNumbers;
use crate::spotted_spans::seen_at;
use crate::store_view::StoreView;
use arrival_journal::Journal;
use find_traces::{JudgedProcess, PreparedSearch};
use jaeger_model::Seen;
use std::alloc::{AllocError, Global};
use std::marker::Model;
use trace_assembly::Spot;

/// A search, and the entries whose spans it judges. Contracts see the search and the entries.
#[derive(Drop)]
pub(crate) struct Judging<'a> {
    journal: &'a Journal,
    prepared: &'a PreparedSearch<'a>,
    conditions: NumberConditions<'a>,
}

impl<'a> Model for Judging<'a> {
    ghost use Rattle.std.specs.Prelude.{◌≡◌, List};
    ghost use Rattle.trace_model.specs.declared.entry.Entry.{Entry};
    ghost use Rattle.trace_model.specs.declared.query.Find.{Find};

    ghost Value = { Find × List Entry };

    ghost view = { λ j. (j.prepared.now, j.journal.now.held.entries) };

    ghost invariant = { λ j. j.conditions ≡ (j.prepared.now, j.journal.now.held.entries) };
}

impl<'a> Judging<'a> {
    pub(crate) fn new(
        store: StoreView<'a>,
        prepared: &'a PreparedSearch<'a>,
        requested: RequestedNumbers,
    ) -> Self
        requires service { AreTold prepared.now store.journal.now.held.entries
            store.by_service.now.service_numbers requested.service }
        requires operation { AreOperationsTold prepared.now store.journal.now.held.entries
            store.names.now.numbers.firsts store.names.now.operation_rows requested.operation }
        ensures { result ≡ (prepared.now, store.entry.journal.now.held.entries) }
    {
        Judging {
            journal: store.journal,
            prepared,
            conditions: NumberConditions::new(store, prepared.query(), requested),
        }
    }

    /// Returns whether the span at a spot meets every condition of the search. The process is judged only if the span
    /// has the requested service, operation, duration and start. A search without tags judges no tag of it.
    fn is_match(&self, alloc: Global, spot: Spot, at: Seen<'_>) -> Result<bool, AllocError>
        requires { Some (placed_by_its_entry at) ≡ span_at self.now.1 spot }
        ensures { IfOk result (λ b. b ≡ matches self.now.0 (seen at.entry)) }
    {
        if !self.conditions.is_requested(spot.place) {
            return Ok(false);
        }
        if !self.conditions.is_met(spot.place, spot.index as usize, at) {
            return Ok(false);
        }
        // For the prover: a search with tags is judged after the store is left, so these calls judge no tag here. A search
        // with tags would have each process judged once for each span.
        let process = JudgedProcess::new(alloc, self.prepared, at.process)?;
        process.has_all_tags(alloc, at.span)
    }

    /// Returns whether the span at a spot meets every condition of the search.
    pub(crate) fn is_match_at(&self, alloc: Global, spot: Spot) -> Result<bool, AllocError>
        ensures { IfOk result (λ b. b ≡
            list_any (matches self.now.0) (spans_named self.now.1 (spot ∷ []))) }
    {
        match seen_at(self.journal, spot) {
            Some(seen) => self.is_match(alloc, spot, seen),
            // Impossible in a store: a spot of no span. No clause says so.
            None => Ok(false),
        }
    }
}
