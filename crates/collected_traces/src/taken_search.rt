//! A search over candidates that were collected from a store.

ghost use Rattle.std.specs.Prelude.{◌≡◌, ◌∷◌, [], ℕ, Option, Some, IfOk, map};
ghost use Rattle.std.specs.List.{list_any};
ghost use Rattle.jaeger_model.specs.declared.batch.Process.{Process as ProcessValue};
ghost use Rattle.trace_model.specs.Searching.{matches, found_in};
ghost use Rattle.trace_model.specs.BorrowedSpans.{seen};
ghost use Rattle.trace_model.specs.TakenSpans.{placed_taken};
ghost use Rattle.find_traces.specs.FoundIndices.{trace_at};
ghost use Rattle.collected_traces.specs.CollectedCandidates.{trace_spotted, traces_spotted, traces_picked, entries_shared};
ghost use Rattle.collected_traces.specs.CollectedCandidates.{IsSearchingBy};
ghost use Rattle.collected_traces.specs.ProcessClasses.{Leads};
ghost use Rattle.collected_traces.specs.ProcessConditions.{of_service_with_tags};
ghost use Rattle.collected_traces.specs.TakenSearch.{AreJudged, traces_taken, query_taken};
ghost use Rattle.collected_traces.specs.TakenTraces.{ShareByNumber};

use crate::collected_candidates::{CollectedCandidates, TakenEntry};
use crate::collected_spans::{first_id, first_start, seen_at};
use crate::judged_entries::{JudgedEntries, JudgedProcesses};
use crate::picked_candidates::{spots_picked, take_picked};
use crate::process_classes::ProcessClasses;
use crate::process_conditions::{has_tags, judge};
use crate::taken::TakenTraces;
use crate::taken_spot::TakenSpot;
use find_traces::{PreparedSearch, Searched};
use jaeger_model::{Process, Seen, TraceId};
use span_steps::meets_span_conditions;
use std::alloc::{AllocError, Global};
use std::marker::Model;

/// A search over collected candidates, after some of their entries were judged. Of the other entries it judges each
/// process at most once, also if several have equal ones; only then is its service compared. It reads the spans where
/// they are, and makes nothing for a span. Contracts see the search, and the traces among which it searches.
#[derive(Drop)]
pub struct TakenSearch<'t, 'a> {
    candidates: &'t CollectedCandidates<'t>,
    /// The indices of the candidates that may meet the search.
    picked: Vec<usize>,
    prepared: &'a PreparedSearch<'a>,
    judged: JudgedEntries<'a>,
    /// The other entries by their processes, so that what was judged is kept once for equal ones.
    classes: ProcessClasses<'t>,
}

impl<'t, 'a> Model for TakenSearch<'t, 'a> {
    ghost use Rattle.std.specs.Prelude.{List};
    ghost use Rattle.jaeger_model.specs.declared.placed.Placed.{Placed};
    ghost use Rattle.trace_model.specs.declared.query.Find.{Find};
    ghost use Rattle.collected_traces.specs.CollectedCandidates.{traces_picked, IsSearchingBy};

    ghost Value = { Find × List (List Placed) };

    ghost view = { λ s. (s.prepared.now, traces_picked s.candidates.now s.picked.items) };

    ghost invariant = { λ s.
        IsSearchingBy s.prepared.now s.candidates.now.entries s.judged s.classes };
}

/// Returns whether a span is of the service of the search and has its tags. A process that was judged under the number
/// is its own; if none was, its own is judged now.
fn has_judged_tags<'a>(
    alloc: Global,
    prepared: &'a PreparedSearch<'a>,
    processes: &mut JudgedProcesses<'a>,
    number: usize,
    at: Seen<'_>,
) -> Result<bool, AllocError>
    ensures found { (process_of : ℕ → Option ProcessValue) →
        AreJudged prepared.now process_of processes.old →
        Some at.entry.process.now ≡ process_of number →
        IfOk result (λ b. b ≡ of_service_with_tags prepared.now (seen at.entry)) }
    ensures judged { (process_of : ℕ → Option ProcessValue) →
        AreJudged prepared.now process_of processes.old →
        Some at.entry.process.now ≡ process_of number →
        AreJudged prepared.now process_of processes.new }
{
    if let Some(process) = processes.get(&number) {
        return has_tags(alloc, process, at.span);
    }
    let process = judge(alloc, prepared, at.process)?;
    let has_tags = has_tags(alloc, &process, at.span)?;
    processes.insert(number, process)?;
    Ok(has_tags)
}

/// Returns the number under which the process of the entry with a number is judged: the entry's own if it was judged
/// ahead, else that of the first entry with an equal process.
fn number_judged<'t>(
    processes: &JudgedProcesses<'_>,
    classes: &mut ProcessClasses<'t>,
    number: u32,
    process: &'t Process,
) -> Result<usize, AllocError>
    ensures same { (process_of : ℕ → Option ProcessValue) →
        process_of number ≡ Some process.now → Leads process_of classes.old →
        IfOk result (λ n. process_of n ≡ process_of number) }
    ensures leads { (process_of : ℕ → Option ProcessValue) →
        process_of number ≡ Some process.now → Leads process_of classes.old →
        Leads process_of classes.new }
{
    let own = number as usize;
    if processes.contains_key(&own) {
        return Ok(own);
    }
    Ok(classes.class_of(process, number)? as usize)
}

/// Returns whether the span at a spot meets every condition of the search. Its process is judged unless it was before,
/// and only if the span has the requested operation, duration and start. The span isn't read if its entry has none that
/// may meet the search.
fn is_match<'t, 'a>(
    alloc: Global,
    prepared: &'a PreparedSearch<'a>,
    judged: &mut JudgedEntries<'a>,
    classes: &mut ProcessClasses<'t>,
    entries: &'t [TakenEntry],
    spot: TakenSpot,
) -> Result<bool, AllocError>
    requires { IsSearchingBy prepared.now (entries_shared entries.now) judged.old classes.old }
    ensures found { IfOk result (λ b. b ≡ list_any (matches prepared.now)
        (placed_taken (trace_spotted (entries_shared entries.now) (spot ∷ [])))) }
    ensures searching { IsSearchingBy prepared.now (entries_shared entries.now)
        judged.new classes.new }
{
    if !judged.may_meet(spot.number as usize) {
        return Ok(false);
    }
    // Impossible in a store: a spot of no span. No clause says so.
    let Some(at) = seen_at(entries, spot) else {
        return Ok(false);
    };
    if !meets_span_conditions(at, prepared.query()) {
        return Ok(false);
    }
    let number = number_judged(&judged.processes, classes, spot.number, at.process)?;
    has_judged_tags(alloc, prepared, &mut judged.processes, number, at)
}

/// Returns whether one of the spans at the spots meets every condition of the search. No span is judged after that one.
fn is_found<'t, 'a>(
    alloc: Global,
    prepared: &'a PreparedSearch<'a>,
    judged: &mut JudgedEntries<'a>,
    classes: &mut ProcessClasses<'t>,
    entries: &'t [TakenEntry],
    spots: &[TakenSpot],
) -> Result<bool, AllocError>
    requires { IsSearchingBy prepared.now (entries_shared entries.now) judged.old classes.old }
    ensures found { IfOk result (λ b. b ≡ list_any (matches prepared.now)
        (placed_taken (trace_spotted (entries_shared entries.now) spots.now))) }
    ensures searching { IsSearchingBy prepared.now (entries_shared entries.now)
        judged.new classes.new }
{
    for spot in spots {
        let is_match = is_match(alloc, prepared, judged, classes, entries, *spot)?;
        if is_match {
            return Ok(true);
        }
    }
    Ok(false)
}

impl<'t, 'a> TakenSearch<'t, 'a> {
    /// Makes a search over candidates. Judges some of their entries, and picks the traces that may meet it: it finds
    /// the same among these as among all.
    ///
    /// # Errors
    ///
    /// Out of memory, and nothing else.
    pub fn new(
        alloc: Global,
        candidates: &'t CollectedCandidates<'t>,
        prepared: &'a PreparedSearch<'a>,
    ) -> Result<Self, AllocError>
        requires { prepared.now ≡ candidates.now.query }
        ensures query { IfOk result (λ s. query_taken s ≡ prepared.now) }
        ensures found { IfOk result (λ s. found_in prepared.now (traces_taken s) ≡
            found_in prepared.now (traces_spotted candidates.now)) }
    {
        let judged = candidates.judge_entries(alloc, prepared)?;
        let picked = candidates.indices_that_may_meet(alloc, prepared, &judged)?;
        Ok(TakenSearch {
            candidates,
            picked,
            prepared,
            judged,
            classes: ProcessClasses::of_all(alloc),
        })
    }

    /// Takes the traces at the indices.
    pub(crate) fn take(&self, alloc: Global, indices: &[usize]) -> Result<TakenTraces, AllocError>
        ensures spans { IfOk result (λ ts. map placed_taken ts ≡
            map (trace_at (traces_taken self.now)) indices.now) }
        ensures shared { IfOk result ShareByNumber }
    {
        // For the prover: the binding lets the clauses of `take_picked` be used for the result.
        let traces = take_picked(alloc, self.candidates, &self.picked, indices)?;
        Ok(traces)
    }
}

impl<'t, 'a> Searched for TakenSearch<'t, 'a> {
    ghost traces = { traces_taken };

    ghost query = { query_taken };

    fn limit(&self) -> u64 {
        self.prepared.query().limit
    }

    fn count(&self) -> usize {
        self.picked.len()
    }

    fn start_at(&self, index: usize) -> i64 {
        let spots = spots_picked(self.candidates, &self.picked, index);
        first_start(self.candidates.entries(), spots)
    }

    fn id_at(&self, index: usize) -> Option<TraceId> {
        let spots = spots_picked(self.candidates, &self.picked, index);
        first_id(self.candidates.entries(), spots)
    }

    fn is_found_at(&mut self, alloc: Global, index: usize) -> Result<bool, AllocError> {
        let candidates = self.candidates;
        let spots = spots_picked(candidates, &self.picked, index);
        is_found(
            alloc,
            self.prepared,
            &mut self.judged,
            &mut self.classes,
            candidates.entries(),
            spots,
        )
    }
}
