//! The distinct processes of a trace, the place of each span's process among them, and their names.
ghost use Rattle.std.specs.Prelude.{◌≡◌, ◌+◌, ◌<◌, ◌^◌, ℕ, List, [], All, IfOk, OnOk, length, map, slice_get, string_bytes};
ghost use Rattle.std.specs.Bool.{OnFalse, OnTrue};
ghost use Rattle.trace_model.specs.declared.answer.Shown.{Shown as ShownValue};
ghost use Rattle.trace_model.specs.Adjusting.{spans_of};
ghost use Rattle.trace_model.specs.SharedProcesses.{ShareProcesses};
ghost use Rattle.answer_trees.specs.ProcessNames.{added, place, process_name};
ghost use Rattle.answer_trees.specs.ProcessNumbers.{IsByPlace, IsFirst, first_process, placed_processes};
ghost use Rattle.answer_trees.specs.Trees.{processes_of};
ghost use Rattle.answer_trees.specs.TraceProcesses.{process_names, process_place};

use jaeger_model::{ByContent, Process};
use std::alloc::{AllocError, Global};
use std::collections::BTreeMap;
use trace_adjust::LentSpans;
use trace_model::{ShownTrace, place_by_key, place_u32, store_by_key};

/// A process, and the index of the first span that has it.
#[derive(Clone, Copy)]
pub struct FirstSpan<'a> {
    pub process: &'a Process,
    pub span: usize,
}

/// Distinct processes, each with its place among them.
#[derive(Drop)]
struct ProcessTable<'a> {
    processes: Vec<FirstSpan<'a>>,
    places: BTreeMap<ByContent<'a>, usize>,
}

impl<'a> ProcessTable<'a> {
    /// Returns a table without processes.
    fn new(alloc: Global) -> Self
        ensures empty { placed_processes result ≡ [] }
        ensures by_place { IsByPlace result }
    {
        ProcessTable {
            processes: Vec::new(alloc),
            places: BTreeMap::new(alloc),
        }
    }

    /// Returns the place of a span's process, from 0. A new process gets the next place.
    fn place_of(&mut self, first: FirstSpan<'a>) -> Result<usize, AllocError>
        requires { IsByPlace self.old }
        ensures by_place { OnOk result (IsByPlace self.new) }
        ensures processes { OnOk result
            (placed_processes self.new ≡
            added first.entry.process.now (placed_processes self.old)) }
        ensures place { IfOk result
            (λ k. k ≡ place first.entry.process.now (placed_processes self.new)) }
        ensures within { IfOk result (λ k. k + 1 < 2 ^ 64) }
        ensures firsts { (spans : List ShownValue) → IsFirst spans first.entry →
            All (IsFirst spans) self.old.processes.items →
            OnOk result (All (IsFirst spans) self.new.processes.items) }
    {
        let key = ByContent(first.process);
        let next = self.processes.len();
        if let Some(place) = self.places.get(&key).copied() {
            return Ok(place);
        }
        self.processes.push(first)?;
        self.places.insert(key, next)?;
        Ok(next)
    }
}

/// Returns the name of the process at a place: `p1` for the first.
pub(crate) fn process_name(alloc: Global, place: usize) -> Result<String, AllocError>
    requires { place + 1 < 2 ^ 64 }
    ensures { IfOk result (λ s. string_bytes s ≡ process_name place) }
{
    format!(in alloc; "p{}", place + 1)
}

/// Returns the key of the span at the index, if it has one.
fn key_at(keys: &[u64], index: usize) -> Option<u64>
    ensures { result ≡ slice_get keys.now index }
{
    keys.get(index).copied()
}

/// The distinct processes of the spans so far, in the order of their first spans, and for each span the place of
/// its process among them.
#[derive(Drop)]
struct Placing<'a> {
    table: ProcessTable<'a>,
    places: Vec<u32>,
    /// Maps the key of a process to its place.
    known: BTreeMap<u64, u32>,
}

impl<'a> Placing<'a> {
    ghost use Rattle.trace_model.specs.declared.answer.Shown.{Shown};
    ghost use Rattle.answer_trees.specs.ProcessPlaces.{ComesNext, HasPlaces, HasProcesses};
    ghost use Rattle.answer_trees.specs.Trees.{process_of};

    /// Reserves memory for the places of this number of spans.
    fn new(alloc: Global, count: usize) -> Result<Self, AllocError>
        ensures empty { IfOk result (λ p. p.places.items ≡ []) }
        ensures placed { (spans : List Shown) (keys : List ℕ) →
            IfOk result (HasPlaces spans keys 0) }
    {
        Ok(Placing {
            table: ProcessTable::new(alloc),
            places: Vec::with_capacity(alloc, count)?,
            known: BTreeMap::new(alloc),
        })
    }

    /// Looks up the place of the next span's process, and stores it for the span's key.
    fn place_of(&mut self, process: &'a Process, key: Option<u64>) -> Result<u32, AllocError>
        requires { IsByPlace self.old.table }
        ensures places { self.new.places ≡ self.old.places }
        ensures placed { (spans : List Shown) (keys : List ℕ) (i : ℕ) (s : Shown) →
            process.now ≡ process_of s →
            ComesNext spans keys i s key →
            HasPlaces spans keys i self.old →
            IfOk result (λ n. HasProcesses spans keys (i + 1) self.new
            × (n ≡ process_place (processes_of spans) s)) }
    {
        let span = self.places.len();
        let place = place_u32(self.table.place_of(FirstSpan { process, span })?)?;
        store_by_key(&mut self.known, key, place)?;
        Ok(place)
    }

    /// Adds a span by its key. Returns whether the process with this key is known; if it isn't, nothing is added.
    fn add_known(&mut self, key: Option<u64>) -> Result<bool, AllocError>
        ensures added { (spans : List Shown) (keys : List ℕ) (i : ℕ) (s : Shown) →
            ComesNext spans keys i s key →
            HasPlaces spans keys i self.old →
            IfOk result (λ b. OnTrue b (HasPlaces spans keys (i + 1) self.new)) }
        ensures kept { IfOk result (λ b. OnFalse b (self.new ≡ self.old)) }
    {
        let Some(place) = place_by_key(&self.known, key) else {
            return Ok(false);
        };
        self.places.push(place)?;
        Ok(true)
    }

    /// Adds a span by its process, and stores the place of that for the span's key.
    fn add_new(&mut self, process: &'a Process, key: Option<u64>) -> Result<(), AllocError>
        requires { IsByPlace self.old.table }
        ensures { (spans : List Shown) (keys : List ℕ) (i : ℕ) (s : Shown) →
            process.now ≡ process_of s →
            ComesNext spans keys i s key →
            HasPlaces spans keys i self.old →
            OnOk result (HasPlaces spans keys (i + 1) self.new) }
    {
        let place = self.place_of(process, key)?;
        self.places.push(place)?;
        Ok(())
    }

    /// Returns the places and the processes.
    fn into_parts(self) -> (Vec<u32>, Vec<FirstSpan<'a>>)
        ensures places { result.0.items ≡ self.entry.places.items }
        ensures processes { result.1.items ≡ self.entry.table.processes.items }
    {
        (self.places, self.table.processes)
    }
}

/// Returns the distinct processes in the order of their first spans, and for each span the place of its process.
pub(crate) fn places(
    alloc: Global,
    trace: &ShownTrace,
) -> Result<(Vec<u32>, Vec<FirstSpan<'_>>), AllocError>
    ensures places { IfOk result (λ r.
        r.0.items ≡ map (process_place (processes_of trace.now)) trace.now) }
    ensures processes { IfOk result (λ r. map first_process r.1.items ≡ processes_of trace.now) }
{
    let keys = trace.process_keys();
    let mut placing = Placing::new(alloc, trace.len())?;
    for (index, shown) in trace.as_slice().iter().enumerate() {
        let key = key_at(keys, index);
        if !placing.add_known(key)? {
            placing.add_new(shown.placed.process.get(), key)?;
        }
    }
    Ok(placing.into_parts())
}

/// Returns the distinct processes of borrowed spans in the order of their first spans, and for each span the place of
/// its process. `keys` has the process keys of the first spans; the spans after these have none.
///
/// # Errors
///
/// Out of memory, and nothing else.
pub fn lent_places<'a>(
    alloc: Global,
    spans: &'a LentSpans,
    keys: &[u64],
) -> Result<(Vec<u32>, Vec<FirstSpan<'a>>), AllocError>
    requires { ShareProcesses (spans_of spans.now) keys.now }
    ensures places { IfOk result (λ r.
        r.0.items ≡ map (process_place (processes_of spans.now)) spans.now) }
    ensures processes { IfOk result (λ r. map first_process r.1.items ≡ processes_of spans.now) }
    ensures firsts { IfOk result (λ r. All (IsFirst spans.now) r.1.items) }
{
    let mut placing = Placing::new(alloc, spans.len())?;
    for index in 0..spans.len() {
        let key = key_at(keys, index);
        if !placing.add_known(key)? {
            placing.add_new(spans.at(index).process(), key)?;
        }
    }
    Ok(placing.into_parts())
}

/// Returns the names of this number of processes, in the order of their places.
///
/// # Errors
///
/// Out of memory, and nothing else.
pub fn names(alloc: Global, count: usize) -> Result<Vec<String>, AllocError>
    ensures names { IfOk result (λ v. map string_bytes v.items ≡ process_names count) }
    ensures count { IfOk result (λ v. length v.items ≡ count) }
{
    let mut names = Vec::with_capacity(alloc, count)?;
    for place in 0..count {
        names.push(process_name(alloc, place)?)?;
    }
    Ok(names)
}
