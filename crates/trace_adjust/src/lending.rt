//! Traces of an answer as they are shown: spans are borrowed from their entries, and none is copied.

ghost use Rattle.std.specs.Prelude.{◌≡◌, ℕ, List, pos, false, IfOk, map};
ghost use Rattle.std.specs.List.{list_all};
ghost use Rattle.std.specs.Ordering.{int_eq};
ghost use Rattle.jaeger_model.specs.declared.placed.Placed.{Placed as PlacedValue};
ghost use Rattle.trace_model.specs.Adjusting.{with_parent_first, adjusted};
ghost use Rattle.trace_model.specs.KeptTraces.{kept_value, KeptShares};
ghost use Rattle.trace_model.specs.TakenSpans.{placed_taken};
ghost use Rattle.trace_adjust.specs.LentSpans.{AreThere, shifted_all, shown_by_deltas};
ghost use Rattle.trace_adjust.specs.Hosts.{AreHostNumbers, hosts_of};

use crate::hosts::host_numbers;
use crate::lent_placed::LentPlaced;
use crate::lent_spans::LentSpans;
use crate::process_keys::process_keys_of;
use crate::span_deltas::all_deltas;
use std::alloc::{AllocError, Global};
use trace_model::{KeptTrace, TakenSpan};

/// Borrows the spans, before their clock skew is adjusted.
fn all_lent<'a>(alloc: Global, spans: &'a [TakenSpan]) -> Result<Vec<LentPlaced<'a>>, AllocError>
    ensures { IfOk result (λ v. v.items ≡ map with_parent_first (placed_taken spans.now)) }
{
    let mut lent = Vec::with_capacity(alloc, spans.len())?;
    for span in spans {
        lent.push(LentPlaced::with_parent_first(span.reported()))?;
    }
    Ok(lent)
}

/// Returns whether no span moves.
fn are_zero(deltas: &[i128]) -> bool
    ensures { result ≡ list_all (λ d. int_eq d (pos 0)) deltas.now }
{
    deltas.iter().all(|delta| *delta == 0)
}

/// Returns these deltas, or none if each is 0.
fn needed(alloc: Global, deltas: Vec<i128>) -> Vec<i128>
    ensures { (max_skew : ℕ) (ps : List PlacedValue) →
        shifted_all max_skew result.items ps ≡ shifted_all max_skew deltas.items ps }
{
    if are_zero(&deltas) {
        return Vec::new(alloc);
    }
    deltas
}

/// Returns the numbers of the hosts of these spans of a trace. The keys of their processes are dropped.
fn hosts_of_trace(
    alloc: Global,
    trace: &KeptTrace,
    lent: &[LentPlaced],
) -> Result<Vec<u32>, AllocError>
    requires shares { KeptShares trace.now }
    requires lent { lent.now ≡ map with_parent_first (placed_taken trace.now.spans.items) }
    ensures { IfOk result (λ v. AreHostNumbers (hosts_of lent.now) lent.now v.items) }
{
    let keys = process_keys_of(alloc, &trace.spans)?;
    host_numbers(alloc, lent, &keys)
}

/// Returns the deltas of these spans of a trace, or none if no span moves.
fn deltas_of(alloc: Global, trace: &KeptTrace, lent: &[LentPlaced]) -> Result<Vec<i128>, AllocError>
    requires shares { KeptShares trace.now }
    requires lent { lent.now ≡ map with_parent_first (placed_taken trace.now.spans.items) }
    ensures { IfOk result (λ v. shifted_all trace.now.max_skew v.items lent.now
        ≡ adjusted trace.now.max_skew (placed_taken trace.now.spans.items)) }
{
    let hosts = hosts_of_trace(alloc, trace, lent)?;
    let deltas = all_deltas(alloc, lent, &hosts, trace.max_skew)?;
    Ok(needed(alloc, deltas))
}

/// Returns the deltas of the spans of a trace as it is to be shown.
fn shown_deltas(alloc: Global, trace: &KeptTrace) -> Result<Vec<i128>, AllocError>
    requires { KeptShares trace.now }
    ensures { IfOk result (λ v. shown_by_deltas trace.now v.items ≡ kept_value trace.now) }
{
    if trace.raw {
        return Ok(Vec::new(alloc));
    }
    let lent = all_lent(alloc, &trace.spans)?;
    deltas_of(alloc, trace, &lent)
}

/// Reads each span once. For the prover: its clause says that each of the spans exists.
fn see_each(spans: &[TakenSpan])
    ensures { AreThere spans.now }
{
    for span in spans {
        // For the prover: the clause of `reported` says that the span exists.
        let _reported = span.reported();
    }
}

/// Returns the spans of a trace as they are shown, each borrowed from its entry. The box of the trace is kept.
///
/// # Errors
///
/// Out of memory, and nothing else.
pub fn lend(alloc: Global, trace: Box<KeptTrace>) -> Result<LentSpans, AllocError>
    requires { KeptShares trace.value }
    ensures { IfOk result (λ r. r ≡ kept_value trace.value) }
{
    see_each(&trace.spans);
    let deltas = shown_deltas(alloc, &trace)?;
    LentSpans::of(alloc, trace, deltas)
}
