//! A search of a store: what it reads of the store, what it looks up before it tries any trace, and what it collects.

ghost use Rattle.std.specs.Prelude.{◌≡◌, ◌<◌, ◌^◌, IfOk, if◌then◌else◌, length};
ghost use Rattle.trace_model.specs.declared.query.Query.TheVariants as ask;
ghost use Rattle.trace_model.specs.Answers.{answer};
ghost use Rattle.service_index.specs.ServicePlaces.{places_of};
ghost use Rattle.span_store.specs.CollectedAnswers.{form_answer};
ghost use Rattle.span_store.specs.FoundAnswers.{FindsTheSame};
ghost use Rattle.span_store.specs.StoreIndexes.{IsStoreKept};
ghost use Rattle.span_store.specs.StoreSearches.{IsKnown};

use crate::collected::Form;
use crate::collected_search::CollectedSearch;
use crate::finding;
use crate::found_traces::FoundTraces;
use crate::store::search_plan::is_judged_outside;
use find_traces::PreparedSearch;
use jaeger_model::Seq;
use journal_traces::{CandidateSearch, RequestedNumbers, StoreView, take_candidates};
use service_index::Places;
use std::alloc::{AllocError, Global};
use std::marker::Model;
use trace_assembly::Spots;
use trace_model::{Answer, Find};

/// A search, and the parts of a store that it reads. The service and the operation that it requests are looked up when
/// it is made; from then on it uses their numbers. Contracts see the limits and the entries of the store, and the
/// search.
#[derive(Drop)]
pub(super) struct StoreSearch<'s, 'q> {
    pub(super) alloc: Global,
    pub(super) store: StoreView<'s>,
    pub(super) query: &'q Find,
    /// The numbers of the requested service and operation.
    pub(super) requested: RequestedNumbers,
    /// Whether an arrival has the requested service, and the requested operation if there is one. If none has, the
    /// search finds nothing.
    pub(super) may_find: bool,
}

impl<'s, 'q> Model for StoreSearch<'s, 'q> {
    ghost use Rattle.span_store.specs.StoreSearches.{StoreSearchValue, IsLookedUp};

    ghost Value = { StoreSearchValue };

    ghost view = { λ s. record { held = s.store.journal.now.held; query = s.query.now } };

    ghost invariant = { λ s. IsLookedUp record {
      held = s.store.journal.now.held;
      shown = s.store.assembly.now;
      starts = s.store.starts.now;
      names = s.store.names.now;
      by_service = s.store.by_service.now;
      query = s.query.now;
      service = s.requested.service;
      rows = s.requested.operation;
      may_find = s.may_find;
    } };
}

/// Returns whether an arrival is of the search's service, and of its operation if it has one. If none is, the search
/// finds nothing.
fn may_find(store: StoreView<'_>, query: &Find) -> bool
    requires { IsStoreKept store.journal.now.held store.assembly.now store.starts.now
        store.names.now store.by_service.now }
    ensures { IsKnown store.entry.journal.now.held query.now result }
{
    let entries = store.journal.entries();
    let service = query.service.as_str();
    let operation = query.operation.as_str();
    if operation == "" {
        return store
            .names
            .knows_service(entries, store.by_service, service);
    }
    store
        .names
        .knows_operation(entries, store.by_service, service, operation)
}

impl<'s, 'q> StoreSearch<'s, 'q> {
    /// Makes a search of a store: looks up the service and the operation that it requests.
    pub(super) fn new(alloc: Global, store: StoreView<'s>, query: &'q Find) -> Self
        requires kept { IsStoreKept store.journal.now.held store.assembly.now store.starts.now
            store.names.now store.by_service.now }
        requires few { length store.journal.now.held.entries < 2 ^ 32 }
        ensures { result ≡ record {
          held = store.entry.journal.now.held;
          query = query.now;
        } }
    {
        StoreSearch {
            alloc,
            store,
            query,
            requested: RequestedNumbers::of(query, store),
            may_find: may_find(store, query),
        }
    }

    /// Returns the places of the entries of the search's service, the newest first.
    pub(super) fn places(&self) -> Places<'s>
        ensures { result ≡ places_of self.now.held.entries self.now.query.service }
    {
        let store = self.store;
        store
            .by_service
            .places_of(store.journal.entries(), self.query.service.as_str())
    }

    /// Returns a search of the traces with these spots.
    pub(super) fn among<'a>(
        &'a self,
        prepared: &'a PreparedSearch<'a>,
        spots: &'a [Spots<'a>],
    ) -> CandidateSearch<'a>
        requires { prepared.now ≡ self.now.query }
        ensures query { result.prepared.now ≡ prepared.now }
        ensures entries { result.store.journal.now.held.entries ≡ self.now.held.entries }
        ensures spots { result.spots.now ≡ spots.now }
    {
        CandidateSearch {
            store: self.store,
            requested: self.requested,
            prepared,
            spots,
        }
    }

    /// Collects the traces with these spots for a search that judges them after the store is left.
    fn collected(
        &self,
        ids_alone: bool,
        spots: &[Spots<'_>],
    ) -> Result<CollectedSearch<'q>, AllocError>
        requires { FindsTheSame self.now.held self.now.query spots.now }
        ensures { IfOk result (λ s. s ≡ answer self.now.held.limits self.now.held.entries
            (if ids_alone then ask.FindIds self.now.query else ask.Find self.now.query)) }
    {
        let service = self.requested.service;
        let traces = take_candidates(self.alloc, self.store, service, self.query, spots)?;
        Ok(CollectedSearch::new(ids_alone, self.store.journal.limits(), traces))
    }

    /// Returns the ids of the traces that a search without tags finds among those with these spots.
    fn found_ids(&self, spots: &[Spots<'_>]) -> Result<Answer, AllocError>
        requires { FindsTheSame self.now.held self.now.query spots.now }
        ensures { IfOk result (λ a. a ≡ answer self.now.held.limits self.now.held.entries
            (ask.FindIds self.now.query)) }
    {
        let prepared = PreparedSearch::new(self.alloc, self.query)?;
        let mut traces = self.among(&prepared, spots);
        let ids = finding::find_ids(self.alloc, &mut traces)?;
        Ok(Answer::Ids(Seq::from_vec(ids)))
    }

    /// Collects the traces that a search without tags finds among those with these spots, in the order of the answer.
    fn found_traces(&self, spots: &[Spots<'_>]) -> Result<FoundTraces, AllocError>
        requires { FindsTheSame self.now.held self.now.query spots.now }
        ensures { IfOk result (λ t. t ≡ answer self.now.held.limits self.now.held.entries
            (ask.Find self.now.query)) }
    {
        let prepared = PreparedSearch::new(self.alloc, self.query)?;
        let found = finding::take_found(self.alloc, self.among(&prepared, spots))?;
        // For the prover: the binding lets the clauses of `new` be used for the result.
        let traces = FoundTraces::new(self.store.journal.limits(), found);
        Ok(traces)
    }

    /// Collects what the search finds: the traces as they are shown, or only their ids. Inside the store numbers alone
    /// decide it. A search that has to read tags is judged after the store is left.
    pub(super) fn collect(&self, ids_alone: bool) -> Result<Form<'q>, AllocError>
        ensures { IfOk result (λ f. form_answer f ≡
            answer self.now.held.limits self.now.held.entries
            (if ids_alone then ask.FindIds self.now.query else ask.Find self.now.query)) }
    {
        let spots = self.considered()?;
        if is_judged_outside(self.query, spots.len()) {
            let search = self.collected(ids_alone, &spots)?;
            return Ok(Form::Search(search));
        }
        if ids_alone {
            return Ok(Form::Ready(self.found_ids(&spots)?));
        }
        Ok(Form::Found(self.found_traces(&spots)?))
    }
}
