//! Traces that were collected from a store, as they are to be shown.

ghost use Rattle.std.specs.Prelude.{◌≡◌, false, ℕ, Option, [], IfOk, OnOk, map, slice_index_or};
ghost use Rattle.jaeger_model.specs.declared.batch.Process.{Process as ProcessValue};
ghost use Rattle.trace_model.specs.Adjusting.{adjusted};
ghost use Rattle.trace_model.specs.KeptTraces.{KeptShares};
ghost use Rattle.collected_traces.specs.ProcessClasses.{Leads, ShareByClass};
ghost use Rattle.collected_traces.specs.TakenTraces.{HasProcess, HaveProcesses, ShareByNumber};
ghost use Rattle.trace_model.specs.TakenSpans.{placed_taken};

use crate::process_classes::ProcessClasses;
use crate::recurring::{Recurring, have_one_key};
use crate::taken::TakenTraces;
use std::alloc::{AllocError, Global};
use trace_model::{AnsweredTrace, KeptTrace, TakenSpan};

/// Returns the key under which a span is shown: the class of the key of its process, or this key itself if the trace
/// has no other.
fn key_of<'a>(
    classes: &mut ProcessClasses<'a>,
    span: &'a TakenSpan,
    alone: bool,
) -> Result<u32, AllocError>
    ensures key { (process_of : ℕ → Option ProcessValue) →
        HasProcess process_of span.now → Leads process_of classes.old →
        IfOk result (λ key. process_of key ≡ process_of span.now.number) }
    ensures leads { (process_of : ℕ → Option ProcessValue) →
        HasProcess process_of span.now → Leads process_of classes.old →
        OnOk result (Leads process_of classes.new) }
{
    let key = span.process_key();
    if alone {
        return Ok(key);
    }
    // For the prover: the binding lets the clauses of `class_of` be used for the result.
    let class = classes.class_of(span.reported().process, key)?;
    Ok(class)
}

/// Returns the trace of these spans, which are in their entries, to be shown adjusted. Spans whose processes are
/// equal get one key, that of the first entry of the answer with that process. So a reader of the answer compares
/// a process once for each trace, however many entries brought it.
fn kept_trace<'a>(
    alloc: Global,
    spans: &'a [TakenSpan],
    max_skew: u64,
    classes: &mut ProcessClasses<'a>,
) -> Result<KeptTrace, AllocError>
    ensures spans { IfOk result (λ t. placed_taken t.spans.items ≡ placed_taken spans.now) }
    ensures shared { (process_of : ℕ → Option ProcessValue) → HaveProcesses process_of spans.now →
        Leads process_of classes.old → IfOk result KeptShares }
    ensures leads { (process_of : ℕ → Option ProcessValue) → HaveProcesses process_of spans.now →
        Leads process_of classes.old → OnOk result (Leads process_of classes.new) }
    ensures form { IfOk result (λ t. (t.max_skew ≡ max_skew) × (t.raw ≡ false)) }
{
    let mut kept = Vec::with_capacity(alloc, spans.len())?;
    let alone = have_one_key(spans);
    for span in spans {
        // For the prover: `reported`'s clause says that there is a span.
        let _seen = span.reported();
        let key = key_of(classes, span, alone)?;
        let one = span.with_key(key)?;
        kept.push(one)?;
    }
    Ok(KeptTrace {
        spans: kept,
        max_skew,
        raw: false,
    })
}

/// Returns the trace at an index as it is to be shown, without spans if there is none. A lone span keeps its key: a
/// trace with one span has no other process to compare.
fn kept_at<'a>(
    alloc: Global,
    traces: &'a TakenTraces,
    index: usize,
    max_skew: u64,
    classes: &mut ProcessClasses<'a>,
) -> Result<AnsweredTrace, AllocError>
    requires { ShareByClass traces.now classes.old }
    ensures trace { IfOk result (λ s. s ≡ adjusted max_skew
        (slice_index_or (map placed_taken traces.now) index [])) }
    ensures classes { OnOk result (ShareByClass traces.now classes.new) }
{
    let spans = traces.trace(index);
    if let [span] = spans {
        let one = span.with_key(span.process_key())?;
        return Ok(AnsweredTrace::lone(one));
    }
    let trace = kept_trace(alloc, spans, max_skew, classes)?;
    // For the prover: the binding lets the clause of `kept` be used for the result.
    let kept = AnsweredTrace::kept(alloc, trace)?;
    Ok(kept)
}

/// Returns the keys that are in several of the traces.
fn recurring_in(alloc: Global, traces: &TakenTraces) -> Result<Recurring, AllocError> {
    let mut recurring = Recurring::new(alloc);
    for index in 0..traces.count() {
        recurring.add(traces.trace(index), index)?;
    }
    Ok(recurring)
}

/// Returns all of the traces as they are to be shown, in their order: clock skews of up to `max_skew` microseconds are
/// adjusted. Their spans stay in the entries.
///
/// # Errors
///
/// Out of memory, and nothing else.
pub fn keep_all(
    alloc: Global,
    traces: &TakenTraces,
    max_skew: u64,
) -> Result<Vec<AnsweredTrace>, AllocError>
    requires { ShareByNumber traces.now }
    ensures { IfOk result (λ v. v.items ≡
        map (adjusted max_skew) (map placed_taken traces.now)) }
{
    let recurring = recurring_in(alloc, traces)?;
    let mut classes = ProcessClasses::of_recurring(alloc, recurring);
    let mut kept = Vec::with_capacity(alloc, traces.count())?;
    for index in 0..traces.count() {
        kept.push(kept_at(alloc, traces, index, max_skew, &mut classes)?)?;
    }
    Ok(kept)
}
