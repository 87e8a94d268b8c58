//! The traces that a search considers, collected with each of their entries once.

ghost use Rattle.std.specs.Prelude.{◌≡◌, ◌<◌, ℕ, Option, List, [], ◌∷◌, ◌++◌, length, slice_index_or, IfOk, OnOk};
ghost use Rattle.std.specs.Arc.{arc_value};
ghost use Rattle.std.specs.List.{list_any, All};
ghost use Rattle.jaeger_model.specs.declared.batch.Process.{Process as ProcessValue};
ghost use Rattle.jaeger_model.specs.Parents.{domain};
ghost use Rattle.trace_model.specs.Searching.{found_in, matches};
ghost use Rattle.trace_model.specs.BorrowedSpans.{seen};
ghost use Rattle.trace_model.specs.TakenSpans.{Taken};
ghost use Rattle.collected_traces.specs.ProcessConditions.{IsJudgedAs};
ghost use Rattle.collected_traces.specs.CollectedCandidates.{taken_spotted, trace_spotted, traces_spotted, traces_picked};
ghost use Rattle.collected_traces.specs.CollectedCandidates.{is_entry_met, may_spot_meet, may_spots_meet, IsMatchFlag, HasMatchFlag};
ghost use Rattle.collected_traces.specs.CollectedCandidates.{entry_process, entry_shared, entries_shared, AreJudgedEntries};
ghost use Rattle.collected_traces.specs.TakenSearch.{AreJudged};

use crate::judged_entries::JudgedEntries;
use crate::process_conditions::{has_tags, judge};
use crate::taken_spot::TakenSpot;
use crate::trace_parts::trace_part;
use find_traces::{JudgedProcess, PreparedSearch};
use jaeger_model::{Batch, Seen};
use span_steps::meets_span_conditions;
use std::alloc::{AllocError, Global};
use std::marker::Model;
use std::sync::Arc;
use trace_model::{Entry, Find, push_tightly};

/// From this number of entries with a span that meets the search, no more entries are judged beforehand.
const ENOUGH_ENTRIES: usize = 16;

/// An entry that is shared with the store.
#[derive(Drop)]
pub(crate) struct TakenEntry {
    pub(crate) entry: Arc<Entry>,
    /// Whether one of its spans may meet the search.
    may_meet: bool,
}

/// The traces that a search considers, by the spots of their spans, and their entries. They hold 8 bytes for each span,
/// and each entry is shared once. Contracts see the search, the entries, and the traces with their taken spans.
#[derive(Drop)]
pub struct CollectedCandidates<'q> {
    query: &'q Find,
    /// Each entry once, by its number.
    entries: Vec<TakenEntry>,
    /// The spots of all traces, one trace after the other.
    spots: Vec<TakenSpot>,
    /// For each trace the number of spots before its first one.
    starts: Vec<usize>,
}

impl<'q> Model for CollectedCandidates<'q> {
    ghost use Rattle.std.specs.Prelude.{map};
    ghost use Rattle.collected_traces.specs.TraceParts.{cut_at};
    ghost use Rattle.collected_traces.specs.CollectedCandidates.{CandidatesValue, AreCandidates, entries_shared, trace_spotted};

    ghost Value = { CandidatesValue };

    ghost view = { λ c. record {
      query = c.query.now;
      entries = entries_shared c.entries.items;
      traces = cut_at (trace_spotted (entries_shared c.entries.items) c.spots.items)
          c.starts.items;
    } };

    ghost invariant = { λ c.
        AreCandidates c.query.now c.entries.items c.spots.items c.starts.items };
}

/// Returns whether a span of a judged process meets every condition of the search.
fn is_span_met(
    alloc: Global,
    prepared: &PreparedSearch<'_>,
    judged: &Option<JudgedProcess<'_>>,
    at: Seen<'_>,
) -> Result<bool, AllocError>
    requires { IsJudgedAs prepared.now at.process.now judged.now }
    ensures { IfOk result (λ b. b ≡ matches prepared.now (seen at.entry)) }
{
    if !meets_span_conditions(at, prepared.query()) {
        return Ok(false);
    }
    has_tags(alloc, judged, at.span)
}

/// Returns whether one of the spans of a batch, whose process was judged, meets the search. No span is judged after one
/// that meets it.
fn is_batch_met(
    alloc: Global,
    prepared: &PreparedSearch<'_>,
    judged: &Option<JudgedProcess<'_>>,
    batch: &Batch,
) -> Result<bool, AllocError>
    requires { IsJudgedAs prepared.now batch.now.process judged.now }
    ensures { IfOk result (λ b. b ≡ list_any (matches prepared.now) (domain batch.now)) }
{
    let process = batch.process.get();
    let spans = batch.spans.as_slice();
    for span in spans {
        let is_met = is_span_met(alloc, prepared, judged, Seen { process, span })?;
        if is_met {
            return Ok(true);
        }
    }
    Ok(false)
}

/// Returns whether one of the spans of an entry meets the search. Its process is judged once, and kept if one does.
fn is_entry_met<'a>(
    alloc: Global,
    prepared: &'a PreparedSearch<'a>,
    taken: &TakenEntry,
    number: usize,
    judged: &mut JudgedEntries<'a>,
) -> Result<bool, AllocError>
    requires flag { HasMatchFlag prepared.now taken.now }
    ensures met { IfOk result (λ b. b ≡ is_entry_met prepared.now (entry_shared taken.now)) }
    ensures flags { judged.new.flags ≡ judged.old.flags }
    ensures processes { (process_of : ℕ → Option ProcessValue) →
        entry_process (entry_shared taken.now) ≡ process_of number →
        AreJudged prepared.now process_of judged.old.processes →
        AreJudged prepared.now process_of judged.new.processes }
{
    if !taken.may_meet {
        return Ok(false);
    }
    let Some(batch) = taken.entry.work.batch() else {
        return Ok(false);
    };
    let process = judge(alloc, prepared, batch.process.get())?;
    let is_met = is_batch_met(alloc, prepared, &process, batch)?;
    if is_met {
        judged.processes.insert(number, process)?;
    }
    Ok(is_met)
}

/// Returns whether one of the spans of an entry may meet the search. The entry is judged if that is requested; else its
/// own flag is returned.
fn may_entry_meet<'a>(
    alloc: Global,
    prepared: &'a PreparedSearch<'a>,
    taken: &TakenEntry,
    number: usize,
    judged: &mut JudgedEntries<'a>,
    is_judged: bool,
) -> Result<bool, AllocError>
    requires flag { HasMatchFlag prepared.now taken.now }
    ensures flag { IfOk result (IsMatchFlag prepared.now (entry_shared taken.now)) }
    ensures flags { judged.new.flags ≡ judged.old.flags }
    ensures processes { (process_of : ℕ → Option ProcessValue) →
        entry_process (entry_shared taken.now) ≡ process_of number →
        AreJudged prepared.now process_of judged.old.processes →
        AreJudged prepared.now process_of judged.new.processes }
{
    if is_judged {
        is_entry_met(alloc, prepared, taken, number, judged)
    } else {
        Ok(taken.may_meet)
    }
}

/// Judges entries: whether one of the spans of each may meet the search. After [`ENOUGH_ENTRIES`] of them do, no more
/// entries are judged: a search that finds many traces then judges only what it needs for its answer.
fn judge_ahead<'a>(
    alloc: Global,
    prepared: &'a PreparedSearch<'a>,
    entries: &[TakenEntry],
) -> Result<JudgedEntries<'a>, AllocError>
    requires { All (HasMatchFlag prepared.now) entries.now }
    ensures { IfOk result (AreJudgedEntries prepared.now (entries_shared entries.now)) }
{
    let mut found: usize = 0;
    let mut judged = JudgedEntries::with_capacity(alloc, entries.len())?;
    for (number, entry) in entries.iter().enumerate() {
        let is_judged = found < ENOUGH_ENTRIES;
        let may_meet = may_entry_meet(alloc, prepared, entry, number, &mut judged, is_judged)?;
        if may_meet {
            found = found.saturating_add(1);
        }
        judged.flags.push(may_meet)?;
    }
    Ok(judged)
}

/// Returns whether an entry may have a span that meets the search.
fn may_any_meet(flags: &[bool]) -> bool
    ensures { result ≡ list_any (λ b. b) flags.now }
{
    flags.iter().any(|may_meet| *may_meet)
}

/// Returns whether the entry of a spot may have a span that meets the search.
fn may_spot_meet(flags: &[bool], spot: TakenSpot) -> bool
    ensures { result ≡ may_spot_meet flags.now spot }
{
    match flags.get(spot.number as usize) {
        Some(may_meet) => *may_meet,
        // Impossible: the number is that of a collected entry. No clause says so.
        None => false,
    }
}

/// Returns whether the entry of one of the spots may have a span that meets the search.
fn may_spots_meet(flags: &[bool], spots: &[TakenSpot]) -> bool
    ensures { result ≡ may_spots_meet flags.now spots.now }
{
    spots.iter().any(|spot| may_spot_meet(flags, *spot))
}

impl<'q> CollectedCandidates<'q> {
    /// Makes candidates with no traces and no entries, with room for this number of traces of one span each.
    ///
    /// # Errors
    ///
    /// Out of memory, and nothing else.
    pub fn with_capacity(alloc: Global, query: &'q Find, traces: usize) -> Result<Self, AllocError>
        ensures { IfOk result (λ c. c ≡ record { query = query.now; entries = []; traces = [] }) }
    {
        let starts = Vec::with_capacity(alloc, traces)?;
        let spots = Vec::with_capacity(alloc, traces)?;
        Ok(CollectedCandidates {
            query,
            entries: Vec::new(alloc),
            spots,
            starts,
        })
    }

    /// Returns the search.
    pub fn query(&self) -> &'q Find
        ensures { result.now ≡ self.now.query }
    {
        self.query
    }

    /// Returns the entries, by their numbers.
    pub(crate) fn entries(&self) -> &[TakenEntry]
        ensures { entries_shared result.now ≡ self.now.entries }
    {
        &self.entries
    }

    /// Returns the spots of the trace at an index, which counts from 0; none if there is no such trace.
    pub(crate) fn spots(&self, index: usize) -> &[TakenSpot]
        ensures { trace_spotted self.now.entries result.now ≡
            slice_index_or self.now.traces index [] }
    {
        trace_part(&self.spots, &self.starts, index)
    }

    /// Adds an entry, whose number is the count of the entries before it. If `may_meet` is false, none of its spans
    /// meets the search.
    ///
    /// # Errors
    ///
    /// Out of memory, and nothing else.
    pub fn add_entry(&mut self, entry: &Arc<Entry>, may_meet: bool) -> Result<(), AllocError>
        requires { IsMatchFlag self.old.query (arc_value entry.now) may_meet }
        ensures query { self.new.query ≡ self.old.query }
        ensures entries { OnOk result (self.new.entries ≡
            self.old.entries ++ arc_value entry.now ∷ []) }
        ensures traces { self.new.traces ≡ self.old.traces }
    {
        let entry = Arc::try_clone(entry)?;
        push_tightly(&mut self.entries, TakenEntry { entry, may_meet })?;
        Ok(())
    }

    /// Appends a trace with no spans.
    ///
    /// # Errors
    ///
    /// Out of memory, and nothing else.
    pub fn begin(&mut self) -> Result<(), AllocError>
        ensures query { self.new.query ≡ self.old.query }
        ensures entries { self.new.entries ≡ self.old.entries }
        ensures traces { OnOk result (self.new.traces ≡ self.old.traces ++ [] ∷ []) }
    {
        let start = self.spots.len();
        self.starts.push(start)?;
        Ok(())
    }

    /// Appends a span of one of the entries to the last trace.
    ///
    /// # Errors
    ///
    /// Out of memory, and nothing else.
    pub fn push(&mut self, spot: TakenSpot) -> Result<(), AllocError>
        requires { spot.number < length self.old.entries }
        ensures query { self.new.query ≡ self.old.query }
        ensures entries { self.new.entries ≡ self.old.entries }
        ensures traces { OnOk result ((ts : List (List Taken)) (t : List Taken) →
            self.old.traces ≡ ts ++ t ∷ [] → self.new.traces ≡
            ts ++ (t ++ taken_spotted self.old.entries spot ∷ []) ∷ []) }
    {
        push_tightly(&mut self.spots, spot)?;
        Ok(())
    }

    /// Judges some of the entries: whether one of their spans may meet the search.
    ///
    /// # Errors
    ///
    /// Out of memory, and nothing else.
    pub(crate) fn judge_entries<'a>(
        &self,
        alloc: Global,
        prepared: &'a PreparedSearch<'a>,
    ) -> Result<JudgedEntries<'a>, AllocError>
        requires { prepared.now ≡ self.now.query }
        ensures { IfOk result (AreJudgedEntries prepared.now self.now.entries) }
    {
        // For the prover: the binding lets the clause of `judge_ahead` be used for the result.
        let judged = judge_ahead(alloc, prepared, &self.entries)?;
        Ok(judged)
    }

    /// Counts the traces that have a span of an entry that may meet the search, to allocate exactly.
    fn count_that_may_meet(&self, flags: &[bool]) -> usize {
        let mut count = 0usize;
        for index in 0..self.starts.len() {
            let spots = self.spots(index);
            if may_spots_meet(flags, spots) {
                count = count.saturating_add(1);
            }
        }
        count
    }

    // For the prover: no code reads `prepared`. The clauses name its search.
    /// Returns the indices of the traces that have a span of an entry that may meet the search, by what was judged of
    /// the entries. The search finds the same among these as among all. No trace is looked at if no entry has such a
    /// span.
    ///
    /// # Errors
    ///
    /// Out of memory, and nothing else.
    pub(crate) fn indices_that_may_meet(
        &self,
        alloc: Global,
        prepared: &PreparedSearch<'_>,
        judged: &JudgedEntries<'_>,
    ) -> Result<Vec<usize>, AllocError>
        requires { AreJudgedEntries prepared.now self.now.entries judged.now }
        ensures { IfOk result (λ picked. found_in prepared.now (traces_picked self.now picked.items)
            ≡ found_in prepared.now (traces_spotted self.now)) }
    {
        let count = self.starts.len();
        let flags = judged.flags.as_slice();
        if !may_any_meet(flags) {
            return Ok(Vec::new(alloc));
        }
        let mut picked = Vec::with_capacity(alloc, self.count_that_may_meet(flags))?;
        for index in 0..count {
            if may_spots_meet(flags, self.spots(index)) {
                picked.push(index)?;
            }
        }
        Ok(picked)
    }
}
