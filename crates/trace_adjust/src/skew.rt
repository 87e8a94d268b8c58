//! The spans of a trace, moved by their deltas.

ghost use Rattle.std.specs.Prelude.{◌≡◌, IfOk, OnOk, OnErr, map};
ghost use Rattle.trace_model.specs.Adjusting.{with_parent_first, unadjusted, spans_of, shown_adjusted, adjusted};
ghost use Rattle.trace_model.specs.SharedProcesses.{ShareProcesses};
ghost use Rattle.trace_adjust.specs.SpanDeltas.{AreDeltas};

use crate::hosts::host_numbers;
use crate::lent_placed::LentPlaced;
use crate::span_deltas::all_deltas;
use jaeger_model::Placed;
use span_steps::{shift, unadjusted, with_parent_first};
use std::alloc::{AllocError, Global};
use trace_model::Shown;

/// Borrows the spans unchanged.
#[tactic(auto, using(std::proofs::lemmas::List::map_more))]
fn all_unchanged<'a>(alloc: Global, trace: &'a [Shown]) -> Result<Vec<LentPlaced<'a>>, AllocError>
    ensures { IfOk result (λ v. v.items ≡ spans_of trace.now) }
{
    let mut lent = Vec::with_capacity(alloc, trace.len())?;
    for shown in trace {
        lent.push(LentPlaced::unchanged(&shown.placed))?;
    }
    Ok(lent)
}

/// Returns the deltas of spans that are copied. Spans with one key have one process.
fn deltas_of_shown(
    alloc: Global,
    trace: &[Shown],
    process_keys: &[u64],
    max_skew: u64,
) -> Result<Vec<i128>, AllocError>
    requires { ShareProcesses (spans_of trace.now) process_keys.now }
    ensures { IfOk result (λ v. AreDeltas max_skew (spans_of trace.now) v.items) }
{
    let lent = all_unchanged(alloc, trace)?;
    let hosts = host_numbers(alloc, &lent, process_keys)?;
    all_deltas(alloc, &lent, &hosts, max_skew)
}

/// Moves the spans by their deltas. If memory runs out, the first of them are moved already.
fn shift_all(
    alloc: Global,
    trace: &mut [Shown],
    deltas: &[i128],
    max_skew: u64,
) -> Result<(), AllocError>
    requires { AreDeltas max_skew (spans_of trace.old) deltas.now }
    ensures { OnOk result (trace.new ≡ shown_adjusted max_skew trace.old) }
{
    for place in 0..trace.len() {
        let shown = &mut trace[place];
        shift(alloc, shown, deltas[place], max_skew)?;
    }
    Ok(())
}

/// Returns the spans moved by their deltas.
fn all_shifted(
    alloc: Global,
    mut spans: Vec<Shown>,
    process_keys: &[u64],
    max_skew: u64,
) -> Result<Vec<Shown>, AllocError>
    requires { ShareProcesses (spans_of spans.items) process_keys.now }
    ensures { IfOk result (λ v. v.items ≡ shown_adjusted max_skew spans.items) }
{
    let deltas = deltas_of_shown(alloc, &spans, process_keys, max_skew)?;
    shift_all(alloc, &mut spans, &deltas, max_skew)?;
    Ok(spans)
}

fn copy_of(shown: &Shown) -> Result<Shown, AllocError>
    ensures { IfOk result (λ copy. copy ≡ shown.now) }
{
    Ok(Shown {
        placed: shown.placed.clone()?,
        warnings: shown.warnings.clone()?,
    })
}

fn copies_of(alloc: Global, trace: &[Shown]) -> Result<Vec<Shown>, AllocError>
    ensures { IfOk result (λ v. v.items ≡ trace.now) }
{
    let mut copies = Vec::with_capacity(alloc, trace.len())?;
    for shown in trace {
        copies.push(copy_of(shown)?)?;
    }
    Ok(copies)
}

/// Adjusts the clock skew of a trace: the times of each span move into those of its root's host, and a warning is
/// appended that says by how much, or why not. A span on a cycle of parents or below one stays unchanged, and so
/// does each later one of several spans with one id.
///
/// `process_keys` has a key for each of the first spans: the process of spans that have one key is read once.
/// `max_skew` is the largest difference of clocks, in microseconds, that is adjusted.
///
/// No crate here calls it, since [`adjusted`] makes what is shown: it is for users who have the spans in a list.
///
/// # Errors
///
/// Running out of memory alone; the trace is then unchanged. So copies of the spans are adjusted, and replace them
/// when no more memory is needed.
pub fn adjust_skew(
    alloc: Global,
    trace: &mut [Shown],
    process_keys: &[u64],
    max_skew: u64,
) -> Result<(), AllocError>
    requires { ShareProcesses (spans_of trace.old) process_keys.now }
    ensures ok { OnOk result (trace.new ≡ shown_adjusted max_skew trace.old) }
    ensures err { OnErr result (trace.new ≡ trace.old) }
{
    let mut shifted = all_shifted(alloc, copies_of(alloc, trace)?, process_keys, max_skew)?;
    trace.swap_with_slice(&mut shifted);
    Ok(())
}

/// Moves the reference to the parent to the front in each of the spans.
#[tactic(auto, using(std::proofs::lemmas::List::map_push))]
fn with_parents_first(alloc: Global, trace: Vec<Placed>) -> Result<Vec<Shown>, AllocError>
    ensures { IfOk result (λ v. v.items ≡ map unadjusted (map with_parent_first trace.items)) }
{
    let mut shown = Vec::new(alloc);
    for placed in trace {
        shown.push(unadjusted(alloc, with_parent_first(alloc, placed)?))?;
    }
    Ok(shown)
}

/// Returns the trace as it is shown: in each span the reference to its parent is the first one, made of its parent
/// id if it is missing, and its clock skew is adjusted as by [`adjust_skew`].
///
/// `process_keys` and `max_skew` are those of [`adjust_skew`].
///
/// # Errors
///
/// Out of memory, and nothing else.
pub fn adjusted(
    alloc: Global,
    trace: Vec<Placed>,
    process_keys: &[u64],
    max_skew: u64,
) -> Result<Vec<Shown>, AllocError>
    requires { ShareProcesses trace.items process_keys.now }
    ensures { IfOk result (λ v. v.items ≡ adjusted max_skew trace.items) }
{
    let spans = with_parents_first(alloc, trace)?;
    all_shifted(alloc, spans, process_keys, max_skew)
}
