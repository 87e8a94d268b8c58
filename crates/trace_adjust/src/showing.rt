//! Traces of an answer as they are shown: spans are copied from their entries.

ghost use Rattle.std.specs.Prelude.{◌≡◌, IfOk};
ghost use Rattle.trace_model.specs.Adjusting.{shown_as};
ghost use Rattle.trace_model.specs.KeptTraces.{lone_value, kept_value, KeptShares};
ghost use Rattle.trace_model.specs.SharedProcesses.{ShareProcesses};
ghost use Rattle.trace_model.specs.TakenSpans.{placed_taken};

use crate::process_keys::process_keys_of;
use crate::skew::adjusted;
use jaeger_model::{Placed, Seq};
use span_steps::{all_unadjusted, unadjusted, with_parent_first};
use std::alloc::{AllocError, Global};
use trace_model::{AnsweredTrace, KeptTrace, ShownTrace, TakenSpan, TraceForm};

/// Copies the spans.
fn copied(alloc: Global, taken: &[TakenSpan]) -> Result<Vec<Placed>, AllocError>
    ensures { IfOk result (λ v. v.items ≡ placed_taken taken.now) }
{
    let mut spans = Vec::with_capacity(alloc, taken.len())?;
    for span in taken {
        let placed = span.copy(alloc)?;
        spans.push(placed)?;
    }
    Ok(spans)
}

/// Returns the spans of a trace as they are shown: as reported if `raw` is set, else adjusted. Spans with one
/// of the `process_keys` have one process.
fn shown_as(
    alloc: Global,
    spans: Vec<Placed>,
    process_keys: Vec<u64>,
    max_skew: u64,
    raw: bool,
) -> Result<ShownTrace, AllocError>
    requires { ShareProcesses spans.items process_keys.items }
    ensures { IfOk result (λ s. s ≡ shown_as max_skew raw spans.items) }
{
    if raw {
        let shown = all_unadjusted(alloc, spans)?;
        return Ok(ShownTrace::new(shown, process_keys));
    }
    let shown = adjusted(alloc, spans, &process_keys, max_skew)?;
    Ok(ShownTrace::new(Seq::from_vec(shown), process_keys))
}

/// Returns a trace as it is shown. Its spans are copied from their entries, and their processes are shared.
///
/// # Errors
///
/// Out of memory, and nothing else.
pub fn show(alloc: Global, trace: &KeptTrace) -> Result<ShownTrace, AllocError>
    requires { KeptShares trace.now }
    ensures { IfOk result (λ t. t ≡ kept_value trace.now) }
{
    let spans = copied(alloc, &trace.spans)?;
    let process_keys = process_keys_of(alloc, &trace.spans)?;
    shown_as(alloc, spans, process_keys, trace.max_skew, trace.raw)
}

/// Returns the trace of one span as it is shown. The span is copied from its entry, and its process is shared.
///
/// # Errors
///
/// Out of memory, and nothing else.
pub fn show_lone(alloc: Global, span: &TakenSpan) -> Result<ShownTrace, AllocError>
    ensures { IfOk result (λ t. t ≡ lone_value span.now) }
{
    let placed = with_parent_first(alloc, span.copy(alloc)?)?;
    let mut shown = Vec::with_capacity(alloc, 1)?;
    shown.push(unadjusted(alloc, placed))?;
    Ok(ShownTrace::without_keys(alloc, Seq::from_vec(shown)))
}

/// Returns a trace of an answer as it is shown.
///
/// # Errors
///
/// Out of memory, and nothing else.
pub fn show_answered(alloc: Global, trace: AnsweredTrace) -> Result<ShownTrace, AllocError>
    ensures { IfOk result (λ t. t ≡ trace) }
{
    match trace.into_form() {
        TraceForm::Copied(copied) => Ok(Box::into_inner(copied)),
        TraceForm::Lone(span) => show_lone(alloc, &span),
        TraceForm::Kept(kept) => show(alloc, &kept),
    }
}
