//! A trace as it is shown, after both adjusters. The clock of each span is followed up to its root and down
//! again, so the work is quadratic in the length of the trace.

ghost use Rattle.std.specs.Prelude.{◌≡◌, ◌<◌, ℕ, None, IfOk, map, length, get_or, option_map, if◌then◌else◌};
ghost use Rattle.std.specs.List.{list_any, position, AllByRecursion};
ghost use Rattle.jaeger_model.specs.declared.placed.Placed.{Placed as PlacedValue};
ghost use Rattle.trace_model.specs.ServiceLinks.{has_id, place_of_parent};
ghost use Rattle.trace_model.specs.Adjusting.{with_parent_first, clock_of, unadjusted, shifted_by, skew_adjusted, adjusted};
ghost use Rattle.plain_store.specs.RootPaths.{path, next_clock, clock_down};

use crate::clock::{clock_below, root_clock, shifted};
use jaeger_model::{Placed, Seq, SpanId, parent_of};
use span_steps::{unadjusted, with_parent_first};
use std::alloc::{AllocError, Global};
use trace_model::{Clock, Shown};

/// Moves the references to parents to the front.
#[tactic(auto, using(std::proofs::lemmas::List::map_push))]
fn with_parents_first(alloc: Global, trace: Seq<Placed>) -> Result<Vec<Placed>, AllocError>
    ensures { IfOk result (λ v. v.items ≡ map with_parent_first trace) }
{
    let mut spans = Vec::new(alloc);
    for placed in trace.into_vec() {
        spans.push(with_parent_first(alloc, placed)?)?;
    }
    Ok(spans)
}

/// Returns the place of the first span with the id.
fn place_of(trace: &[Placed], id: SpanId) -> Option<usize>
    ensures { result ≡ position (has_id id) trace.now }
{
    trace.iter().position(|p| has_id(id, p))
}

/// Returns the place of the span's parent in its trace.
fn parent_at(trace: &[Placed], placed: &Placed) -> Option<usize>
    ensures { result ≡ place_of_parent trace.now placed.now }
{
    let parent = parent_of(&placed.span);
    if parent.0 == 0 {
        return None;
    }
    place_of(trace, parent)
}

/// Returns the places of the parents of the spans.
#[tactic(auto, using(std::proofs::lemmas::List::map_more))]
fn parent_places(alloc: Global, trace: &[Placed]) -> Result<Vec<Option<usize>>, AllocError>
    ensures { IfOk result (λ v. v.items ≡ map (place_of_parent trace.now) trace.now) }
{
    let mut parents = Vec::new(alloc);
    for placed in trace {
        parents.push(parent_at(trace, placed))?;
    }
    Ok(parents)
}

fn place_above(parents: &[Option<usize>], place: usize) -> Option<usize>
    ensures { result ≡ get_or parents.now place None }
{
    match parents.get(place) {
        Some(parent) => *parent,
        None => None,
    }
}

/// Returns the places from one up to its root, or None if it reaches no root.
fn path_up(
    alloc: Global,
    parents: &[Option<usize>],
    start: usize,
) -> Result<Option<Vec<usize>>, AllocError>
    ensures { IfOk result (λ o. option_map (λ v. v.items) o ≡
        path (length parents.now) parents.now start) }
{
    let mut path = Vec::new(alloc);
    let mut at = start;
    for _step in 0..parents.len() {
        path.push(at)?;
        match place_above(parents, at) {
            Some(parent) => at = parent,
            None => return Ok(Some(path)),
        }
    }
    Ok(None)
}

/// Returns the clock of a span below the one with this clock, or of a root.
fn next_clock(
    alloc: Global,
    above: &Option<Clock>,
    placed: &Placed,
    max_skew: u64,
) -> Result<Option<Clock>, AllocError>
    ensures { IfOk result (λ c. c ≡ next_clock max_skew above.now placed.now) }
{
    match above {
        Some(above) => Ok(Some(clock_below(alloc, above, placed, max_skew)?)),
        None => Ok(Some(root_clock(alloc, placed, max_skew)?)),
    }
}

/// Returns the clock of the first place; each place is followed by its parent's.
fn clock_down(
    alloc: Global,
    trace: &[Placed],
    mut path: Vec<usize>,
    max_skew: u64,
) -> Result<Option<Clock>, AllocError>
    requires { AllByRecursion (λ k. k < length trace.now) path.items }
    ensures { IfOk result (λ c. (d : PlacedValue) →
        c ≡ clock_down max_skew trace.now path.items d) }
{
    let mut clock = None;
    while let Some(place) = path.pop() {
        clock = next_clock(alloc, &clock, &trace[place], max_skew)?;
    }
    Ok(clock)
}

/// Returns the clock of the span at the place, or None if it reaches no root.
fn clock_of(
    alloc: Global,
    trace: &[Placed],
    parents: &[Option<usize>],
    place: usize,
    max_skew: u64,
) -> Result<Option<Clock>, AllocError>
    requires parents { parents.now ≡ map (place_of_parent trace.now) trace.now }
    requires within { place < length trace.now }
    ensures { IfOk result (λ c. (d : PlacedValue) →
        c ≡ clock_of max_skew trace.now (get_or trace.now place d)) }
{
    match path_up(alloc, parents, place)? {
        Some(path) => clock_down(alloc, trace, path, max_skew),
        None => Ok(None),
    }
}

fn has_id(id: SpanId, placed: &Placed) -> bool
    ensures { result ≡ has_id id placed.now }
{
    placed.span.id.0 == id.0
}

/// Returns whether one of the spans has the id.
fn is_taken(spans: &[Placed], id: SpanId) -> bool
    ensures { result ≡ list_any (has_id id) spans.now }
{
    spans.iter().any(|p| has_id(id, p))
}

/// Returns a span as it is shown, by its clock and by the spans before it.
fn shown_after(
    alloc: Global,
    before: &[Placed],
    placed: &Placed,
    clock: Option<Clock>,
    max_skew: u64,
) -> Result<Shown, AllocError>
    ensures { IfOk result (λ s. s ≡ (if list_any (has_id placed.now.span.id) before.now
        then unadjusted placed.now else shifted_by max_skew placed.now clock)) }
{
    if is_taken(before, placed.span.id) {
        return Ok(unadjusted(alloc, placed.clone()?));
    }
    match clock {
        Some(clock) => shifted(alloc, placed.clone()?, clock.delta, max_skew),
        None => Ok(unadjusted(alloc, placed.clone()?)),
    }
}

fn without_skew(alloc: Global, trace: &[Placed], max_skew: u64) -> Result<Vec<Shown>, AllocError>
    ensures { IfOk result (λ v. v.items ≡ skew_adjusted max_skew trace.now) }
{
    let parents = parent_places(alloc, trace)?;
    let mut shown = Vec::new(alloc);
    for (i, placed) in trace.iter().enumerate() {
        let clock = clock_of(alloc, trace, &parents, i, max_skew)?;
        shown.push(shown_after(alloc, &trace[..i], placed, clock, max_skew)?)?;
    }
    Ok(shown)
}

/// Returns the trace as it is shown: in each span the reference to its parent is the first one, and its times are
/// moved into those of the root's host, if that is at most `max_skew` microseconds.
///
/// # Errors
///
/// Out of memory, and nothing else.
pub fn adjusted_trace(
    alloc: Global,
    trace: Seq<Placed>,
    max_skew: u64,
) -> Result<Seq<Shown>, AllocError>
    ensures { IfOk result (λ s. s ≡ adjusted max_skew trace) }
{
    let trace = with_parents_first(alloc, trace)?;
    let shown = without_skew(alloc, &trace, max_skew)?;
    Ok(Seq::from_vec(shown))
}
