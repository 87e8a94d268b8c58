ghost use Rattle.std.specs.Prelude.{◌≡◌, ◌+◌, ◌<◌, ◌^◌, ◌==◌, [], map, length, Ok, IfOk, IfErr, if◌then◌else◌};
ghost use Rattle.std.specs.Arc.{arc_value};
ghost use Rattle.trace_model.specs.declared.query.Query.TheVariants as ask;
ghost use Rattle.trace_model.specs.declared.refusal.Refusal.TheVariants.{NoMemory};
ghost use Rattle.trace_model.specs.Answers.{answer};
ghost use Rattle.trace_model.specs.Histories.{IsLegal, events};
ghost use Rattle.trace_model.specs.ServiceLinks.{links};
ghost use Rattle.trace_model.specs.Searching.{traces};
ghost use Rattle.trace_model.specs.ShownSpans.{ring};
ghost use Rattle.trace_model.specs.declared.admission.Admission.TheVariants.{Added};
ghost use Rattle.trace_model.specs.Refusals.{followed_by, with_admitted};
ghost use Rattle.arrival_journal.specs.Journals.{admission_by, place_by};
ghost use Rattle.trace_assembly.specs.LocatedSpans.{located_events, shown_spots};
ghost use Rattle.call_links.specs.NumberedCalls.{links_in, AreServicesNumbered};
ghost use Rattle.trace_model.specs.TakenSpans.{placed_taken};
ghost use Rattle.span_store.specs.CollectedAnswers.{form_answer};
ghost use Rattle.span_store.specs.StoreIndexes.{AreNamesOf, ArePlacesOf, IsStoreKept};
ghost use Rattle.span_store.specs.NextEntry.{next_entry};

mod search_plan;
mod store_search;

use crate::arrange::apply_entry;
use crate::collected::{Collected, Form};
use crate::store::store_search::StoreSearch;
use crate::window_links::WindowLinks;
use arrival_journal::{Journal, Record};
use jaeger_model::{Batch, Text, TraceId};
use journal_traces::{StoreView, WindowTraces, gather, take_within};
use service_index::{ArrivalNames, ServicePlaces};
use std::alloc::{AllocError, Global};
use std::hash::RandomState;
use std::marker::Model;
use std::sync::Arc;
use trace_assembly::{Assembly, Spots};
use trace_model::{Admission, Answer, AnsweredTrace, Entry, Find, Limits, Query, Refusal, Work};
use trace_ring::{FirstStarts, Ring};

/// The accepted entries of one store, and fast answers from them.
///
/// A trace by its id costs its own spans, and names cost what is listed. A search reads the entries of its service and a
/// flag for each trace of the ring, or, if it requests only a service that many entries are of, the numbers of the
/// services of each trace; and the first span of each trace that is left. With a limit and without tags it tries the traces that start last first,
/// and stops if enough of them match. Of the traces that are left it judges those that start last, as many as its
/// limit, and others only if some of these don't match. It copies no span: the answer shares the entries.
#[derive(Drop)]
pub struct SpanStore {
    alloc: Global,
    journal: Journal,
    /// The shown traces, with the spots of their spans.
    shown: Assembly,
    /// The start of each shown trace's first span, and the ranges of the starts of all its spans.
    starts: FirstStarts,
    /// The names of services and operations.
    names: ArrivalNames,
    /// For each entry the number of its service, and where the entries of each service are.
    by_service: ServicePlaces,
}

impl Model for SpanStore {
    ghost use Rattle.trace_model.specs.LimitedHistories.{LimitedHistory};
    ghost use Rattle.service_index.specs.ServicePlaces.{service_number_of};
    ghost use Rattle.span_store.specs.StoreIndexes.{IsStoreKept};

    ghost Value = { LimitedHistory };

    ghost view = { λ s. s.journal.held };

    ghost invariant = { λ s. IsStoreKept s.journal.held s.shown s.starts s.names s.by_service };
}

/// Allocates the room for the names, and for the places of services.
fn room_for_names(
    alloc: Global,
    keys: RandomState,
    limits: Limits,
) -> Result<(ArrivalNames, ServicePlaces), AllocError>
    ensures named { IfOk result (λ r. AreNamesOf (record { limits = limits; entries = [] }) r.0) }
    ensures placed { IfOk result (λ r. ArePlacesOf (record { limits = limits; entries = [] }) r.1) }
{
    let names = ArrivalNames::with_room(alloc, keys, limits.batches, limits.spans)?;
    let by_service = ServicePlaces::with_room(alloc, keys, limits.batches)?;
    Ok((names, by_service))
}

/// Returns the traces of the ring, the one opened first at the front.
fn ring_ids(alloc: Global, ring: &Ring) -> Result<Vec<TraceId>, AllocError>
    ensures { IfOk result (λ v. v.items ≡ ring.now.ids) }
{
    let mut ids = Vec::new(alloc);
    for id in ring.iter() {
        ids.push(id)?;
    }
    Ok(ids)
}

impl SpanStore {
    /// Opens a store with no entry, and with all the room that its limits need. The keys are those of the hashes by
    /// which traces and names are found; no client knows them.
    ///
    /// # Errors
    ///
    /// Out of memory, and nothing else.
    pub fn open(alloc: Global, keys: RandomState, limits: Limits) -> Result<Self, AllocError>
        ensures { IfOk result (λ store. store ≡ record { limits = limits; entries = [] }) }
    {
        let journal = Journal::new(alloc, keys, limits)?;
        let shown = Assembly::with_room(alloc, keys, limits.traces, limits.spans)?;
        let starts = FirstStarts::with_room(alloc, limits.spans)?;
        let named = room_for_names(alloc, keys, limits)?;
        // For the prover: the pair is taken apart here alone, after the last call that may fail.
        Ok(SpanStore {
            alloc,
            journal,
            shown,
            starts,
            names: named.0,
            by_service: named.1,
        })
    }

    /// Returns the limits with which it was opened.
    pub fn limits(&self) -> Limits
        ensures { result ≡ self.now.limits }
    {
        self.journal.limits()
    }

    /// Returns the entries, oldest first.
    pub fn entries(&self) -> &[Arc<Entry>]
        ensures { map arc_value result.now ≡ self.now.entries }
    {
        self.journal.entries()
    }

    /// Returns the number of entries. They are legal.
    pub fn len(&self) -> u64
        ensures length { result ≡ length self.now.entries }
        ensures legal { IsLegal self.now.limits self.now.entries }
    {
        self.journal.len()
    }

    /// Returns whether no entry was accepted.
    pub fn is_empty(&self) -> bool
        ensures { result ≡ (length self.now.entries == 0) }
    {
        self.journal.is_empty()
    }

    /// Returns the next entry of a batch, if all entries come from seat 0, numbered in their order.
    pub fn next_entry(&self, batch: Batch) -> Entry
        ensures { result ≡ next_entry self.now batch }
    {
        Entry {
            seat: 0,
            number: self.len() + 1,
            work: Work::Batch(batch),
        }
    }

    /// Adds an entry at the end and returns its place; the first one is 1. If its batch was sent before with the
    /// same spans, nothing is added, and the place is that of the entry that has it. Allocates nothing.
    ///
    /// # Errors
    ///
    /// An entry is refused if its batch was sent before with other spans ([`Refusal::Conflict`], with the place of
    /// the entry that has it), then if its number is not above the last one of its seat ([`Refusal::Stale`]), then
    /// if it or its spans would pass a limit ([`Refusal::JournalFull`], with the current counts), and for no other
    /// reason. A refusal leaves the store unchanged.
    pub fn apply(&mut self, entry: Arc<Entry>) -> Result<u64, Refusal>
        ensures place { result ≡ place_by self.old (arc_value entry) }
        ensures applied { self.new ≡ with_admitted self.old (arc_value entry)
            (admission_by self.old (arc_value entry)) }
        ensures legal { IsLegal self.new.limits self.new.entries }
    {
        let recorded = self.journal.recorded(entry);
        match self.journal.judge(&recorded)? {
            Admission::Added => Ok(self.append(recorded)),
            Admission::Resent { place } => Ok(place),
        }
    }

    /// Judges an entry: it may be appended, or was sent before.
    ///
    /// # Errors
    ///
    /// Those of [`apply`](Self::apply).
    pub fn judge(&self, recorded: &Record) -> Result<Admission, Refusal>
        ensures { result ≡ admission_by self.now recorded.now }
    {
        self.journal.judge(recorded)
    }

    /// Appends an entry that was judged to be added, and returns its place. Judges nothing, can't be refused and
    /// allocates nothing.
    pub fn append(&mut self, recorded: Record) -> u64
        requires { admission_by self.old recorded ≡ Ok Added }
        ensures appended { self.new ≡ followed_by self.old recorded }
        ensures place { result ≡ length self.old.entries + 1 }
        ensures legal { IsLegal self.new.limits self.new.entries }
    {
        let place = self.journal.len() + 1;
        apply_entry(recorded.entry(), place, &mut self.shown, &mut self.starts);
        let kinds = recorded.kinds().duplicate();
        self.journal.append(recorded);
        let entries = self.journal.entries();
        self.by_service.add(entries);
        self.names.add(entries, &self.by_service, &kinds);
        place
    }

    /// Returns the traces that are shown, the one opened first at the front. Only tests call it: its clause says that
    /// the ring is that of the history.
    ///
    /// # Errors
    ///
    /// Out of memory, and nothing else.
    pub fn trace_ids(&self) -> Result<Vec<TraceId>, AllocError>
        ensures { IfOk result (λ v. v.items ≡
            ring self.now.limits.traces (events self.now.entries)) }
    {
        ring_ids(self.alloc, self.shown.ring())
    }

    /// Returns the spots of the shown spans of a trace, in the order of their arrival; none if the trace isn't
    /// shown. Only tests call it: its clause says that the assembly is that of the history.
    pub fn spots(&self, id: TraceId) -> Spots<'_>
        ensures { result ≡ shown_spots self.now.limits.traces (located_events self.now.entries) id }
    {
        self.shown.spots(id)
    }

    /// Returns the answer, which is that of the plain store for the entries.
    ///
    /// # Errors
    ///
    /// Out of memory, and nothing else.
    pub fn answer(&self, query: &Query) -> Result<Answer, Refusal>
        ensures answer { IfOk result (λ a. a ≡ answer self.now.limits self.now.entries query.now) }
        ensures reason { IfErr result (λ why. why ≡ NoMemory) }
    {
        self.collect(query)?.answer()
    }

    /// Collects what the answer needs from the store. A reader that should leave the store soon collects here, and
    /// reads tags, logs, processes and names after leaving it.
    ///
    /// # Errors
    ///
    /// Out of memory, and nothing else.
    pub fn collect<'q>(&self, query: &'q Query) -> Result<Collected<'q>, Refusal>
        ensures answer { IfOk result (λ c. c ≡ answer self.now.limits self.now.entries query.now) }
        ensures reason { IfErr result (λ why. why ≡ NoMemory) }
    {
        let form = match query {
            Query::Trace { id, raw } => Form::Ready(self.trace(*id, *raw)?),
            Query::Services => self.services()?,
            Query::OperationNames { service } => self.operation_names(service)?,
            Query::Operations { service, kind } => self.operations(service, kind)?,
            Query::Find(find) => self.search(find, false)?,
            // No endpoint asks for ids alone.
            Query::FindIds(find) => self.search(find, true)?,
            Query::Links {
                end_ms,
                lookback_ms,
            } => Form::Links(self.links(*end_ms, *lookback_ms)?),
        };
        Ok(Collected::new(self.alloc, form))
    }

    /// Collects the services of all arrivals.
    fn services(&self) -> Result<Form<'static>, AllocError>
        ensures { IfOk result (λ f. form_answer f ≡
            answer self.now.limits self.now.entries ask.Services) }
    {
        let names = self
            .names
            .known_services(self.alloc, self.journal.entries(), &self.by_service)?;
        Ok(Form::Services(names))
    }

    /// Collects the operations of a service, for a query of their names.
    fn operation_names(&self, service: &Text) -> Result<Form<'static>, AllocError>
        ensures { IfOk result (λ f. form_answer f ≡ answer self.now.limits self.now.entries
            (ask.OperationNames service.now)) }
    {
        let entries = self.journal.entries();
        let found = self
            .names
            .known_operations(self.alloc, entries, &self.by_service, service)?;
        Ok(Form::OperationNames(found))
    }

    /// Collects the operations of a service, for a query of this kind.
    fn operations<'q>(&self, service: &Text, kind: &'q Text) -> Result<Form<'q>, AllocError>
        ensures { IfOk result (λ f. form_answer f ≡ answer self.now.limits self.now.entries
            (ask.Operations service.now kind.now)) }
    {
        let entries = self.journal.entries();
        let found = self
            .names
            .known_operations(self.alloc, entries, &self.by_service, service)?;
        Ok(Form::Operations(found, kind))
    }

    /// Returns what queries read of the store.
    fn view(&self) -> StoreView<'_>
        ensures held { result.journal.now.held ≡ self.now }
        ensures kept { IsStoreKept result.journal.now.held result.assembly.now result.starts.now
            result.names.now result.by_service.now }
        ensures few { length result.journal.now.held.entries < 2 ^ 32 }
    {
        // For the prover: `len`'s clause `legal` is used below.
        let _legal = self.journal.len();
        StoreView {
            journal: &self.journal,
            assembly: &self.shown,
            starts: &self.starts,
            by_service: &self.by_service,
            names: &self.names,
        }
    }

    /// Collects what a search finds: the traces as they are shown, or only their ids.
    fn search<'q>(&self, query: &'q Find, ids_alone: bool) -> Result<Form<'q>, AllocError>
        ensures { IfOk result (λ f. form_answer f ≡ answer self.now.limits self.now.entries
            (if ids_alone then ask.FindIds query.now else ask.Find query.now)) }
    {
        StoreSearch::new(self.alloc, self.view(), query).collect(ids_alone)
    }

    /// Collects the shown traces that have a span in a window of time, the one opened first at the front: those
    /// whose calls between services count. The numbers of their spans are those of their services.
    fn traces_within(&self, end_ms: i64, lookback_ms: i64) -> Result<WindowTraces, AllocError>
        ensures links { IfOk result (λ taken. links_in (map placed_taken taken) ≡
            links end_ms lookback_ms (traces self.now.limits.traces (events self.now.entries))) }
        ensures numbered { IfOk result (λ taken. AreServicesNumbered taken) }
    {
        // For the prover: the binding lets the clauses of `take_within` be used for the result.
        let taken = take_within(self.alloc, self.view(), end_ms, lookback_ms)?;
        Ok(taken)
    }

    /// Collects the links between services in a window of time.
    fn links(&self, end_ms: i64, lookback_ms: i64) -> Result<WindowLinks, AllocError>
        ensures { IfOk result (λ c. c ≡ answer self.now.limits self.now.entries
            (ask.Links end_ms lookback_ms)) }
    {
        let taken = self.traces_within(end_ms, lookback_ms)?;
        Ok(WindowLinks::new(taken))
    }

    /// Returns a trace by its id.
    fn trace(&self, id: TraceId, raw: bool) -> Result<Answer, AllocError>
        ensures { IfOk result (λ a. a ≡ answer self.now.limits self.now.entries
            (ask.Trace id raw)) }
    {
        let spots = self.shown.spots(id);
        if spots.is_empty() {
            return Ok(Answer::Trace(None));
        }
        // For the prover: `len`'s clause `legal` is used below.
        let _legal = self.journal.len();
        let max_skew = self.limits().max_skew;
        let trace = gather(self.alloc, &self.journal, spots, max_skew, raw)?;
        let kept = AnsweredTrace::kept(self.alloc, trace)?;
        Ok(Answer::Trace(Some(kept)))
    }
}
