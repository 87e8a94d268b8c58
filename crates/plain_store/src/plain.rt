//! The plain store: each answer is computed from the list of all entries.

ghost use Rattle.std.specs.Prelude.{◌≡◌, List, [], ◌∷◌, map, IfOk, option_map};
ghost use Rattle.std.specs.Arc.{arc_value};
ghost use Rattle.trace_model.specs.Adjusting.{adjusted, shown_as};
ghost use Rattle.trace_model.specs.Answers.{answer};
ghost use Rattle.trace_model.specs.Histories.{events};
ghost use Rattle.trace_model.specs.Events.{came, without_limits};
ghost use Rattle.trace_model.specs.EntryWork.{events_brought};
ghost use Rattle.plain_store.specs.Events.{event_of};
ghost use Rattle.trace_model.specs.Searching.{traces};
ghost use Rattle.trace_model.specs.ShownSpans.{trace_found};

use crate::adjust::adjusted_trace;
use crate::links::service_links;
use crate::names::{operation_names, operations, services};
use crate::search::{find_traces, trace_ids};
use crate::showing::{StoreEvent, all_shown, keep_trace, shown_traces};
use jaeger_model::{Placed, Seq, TraceId, domain};
use span_steps::all_unadjusted;
use std::alloc::{AllocError, Global};
use std::sync::Arc;
use trace_model::{Answer, AnsweredTrace, Entry, Limits, Query, Shown, ShownTrace, Work};

/// Returns the events of these spans.
#[tactic(auto, using(std::proofs::lemmas::List::map_push))]
fn arrival_events(alloc: Global, spans: Vec<Placed>) -> Result<Vec<StoreEvent>, AllocError>
    ensures { IfOk result (λ v. map event_of v.items ≡ map came spans.items) }
{
    let mut happened = Vec::new(alloc);
    for placed in spans {
        happened.push(StoreEvent::Came(placed))?;
    }
    Ok(happened)
}

fn one(alloc: Global, event: StoreEvent) -> Result<Vec<StoreEvent>, AllocError>
    ensures { IfOk result (λ v. v.items ≡ event ∷ []) }
{
    let mut all = Vec::new(alloc);
    all.push(event)?;
    Ok(all)
}

/// Returns the events of an entry.
fn events_of(alloc: Global, work: &Work) -> Result<Vec<StoreEvent>, AllocError>
    ensures { IfOk result (λ v. map event_of v.items ≡ events_brought work.now) }
{
    match work {
        Work::Batch(batch) => arrival_events(alloc, domain(alloc, batch)?),
        Work::TraceLimit(limit) => one(alloc, StoreEvent::Limited(limit.get())),
    }
}

/// Returns the events of all entries, in order.
fn all_events(alloc: Global, entries: &[Arc<Entry>]) -> Result<Vec<StoreEvent>, AllocError>
    ensures { IfOk result (λ v. map event_of v.items ≡ events (map arc_value entries.now)) }
{
    let mut all = Vec::new(alloc);
    for entry in entries {
        let mut happened = events_of(alloc, &entry.work)?;
        all.append(&mut happened)?;
    }
    Ok(all)
}

/// Returns the spans of all entries, in order.
fn all_arrivals(alloc: Global, entries: &[Arc<Entry>]) -> Result<Vec<Placed>, AllocError>
    ensures { IfOk result (λ v. v.items ≡ without_limits (events (map arc_value entries.now))) }
{
    let mut spans = Vec::new(alloc);
    for event in all_events(alloc, entries)? {
        match event {
            StoreEvent::Came(placed) => spans.push(placed)?,
            StoreEvent::Limited(_) => {}
        }
    }
    Ok(spans)
}

/// Returns the traces that are shown, the one opened first at the front.
fn all_traces(
    alloc: Global,
    entries: &[Arc<Entry>],
    limits: Limits,
) -> Result<Vec<Seq<Placed>>, AllocError>
    ensures { IfOk result (λ v. v.items ≡
        traces limits.traces (events (map arc_value entries.now))) }
{
    let happened = all_events(alloc, entries)?;
    shown_traces(alloc, happened, limits.traces)
}

/// Returns the shown spans of a trace in the order of their arrival, or None if there are none.
///
/// # Errors
///
/// Out of memory, and nothing else.
pub fn get_trace(
    alloc: Global,
    entries: &[Arc<Entry>],
    limits: Limits,
    id: TraceId,
) -> Result<Option<Vec<Placed>>, AllocError>
    ensures { IfOk result (λ found. option_map (λ v. v.items) found ≡
        trace_found limits.traces (events (map arc_value entries.now)) id) }
{
    let happened = all_events(alloc, entries)?;
    let spans = keep_trace(all_shown(alloc, happened, limits.traces)?.spans, id);
    if spans.is_empty() {
        return Ok(None);
    }
    Ok(Some(spans))
}

/// Makes a trace of an answer of these spans.
fn made(alloc: Global, spans: Seq<Shown>) -> Result<AnsweredTrace, AllocError>
    ensures { IfOk result (λ t. t ≡ spans) }
{
    AnsweredTrace::copied(alloc, ShownTrace::without_keys(alloc, spans))
}

/// Returns the spans of a trace as they are shown: as reported if `raw` is set, else adjusted.
///
/// # Errors
///
/// Out of memory, and nothing else.
pub fn trace_shown(
    alloc: Global,
    spans: Vec<Placed>,
    limits: Limits,
    raw: bool,
) -> Result<AnsweredTrace, AllocError>
    ensures { IfOk result (λ s. s ≡ shown_as limits.max_skew raw spans.items) }
{
    let shown = if raw {
        all_unadjusted(alloc, spans)?
    } else {
        adjusted_trace(alloc, Seq::from_vec(spans), limits.max_skew)?
    };
    made(alloc, shown)
}

/// Adjusts each of the traces.
#[tactic(auto, using(std::proofs::lemmas::List::map_push))]
fn all_adjusted(
    alloc: Global,
    traces: Vec<Seq<Placed>>,
    limits: Limits,
) -> Result<Vec<AnsweredTrace>, AllocError>
    ensures { IfOk result (λ v. v.items ≡ map (adjusted limits.max_skew) traces.items) }
{
    let mut shown = Vec::new(alloc);
    for trace in traces {
        let adjusted = adjusted_trace(alloc, trace, limits.max_skew)?;
        let trace = made(alloc, adjusted)?;
        shown.push(trace)?;
    }
    Ok(shown)
}

/// Returns the answer of the plain store.
///
/// # Errors
///
/// Out of memory, and nothing else.
pub fn plain_answer(
    alloc: Global,
    entries: &[Arc<Entry>],
    limits: Limits,
    query: &Query,
) -> Result<Answer, AllocError>
    ensures { IfOk result (λ a. a ≡ answer limits (map arc_value entries.now) query.now) }
{
    match query {
        Query::Trace { id, raw } => match get_trace(alloc, entries, limits, *id)? {
            None => Ok(Answer::Trace(None)),
            Some(spans) => Ok(Answer::Trace(Some(trace_shown(alloc, spans, limits, *raw)?))),
        },
        Query::Services => {
            let arrived = all_arrivals(alloc, entries)?;
            Ok(Answer::Names(Seq::from_vec(services(alloc, &arrived)?)))
        }
        Query::OperationNames { service } => {
            let arrived = all_arrivals(alloc, entries)?;
            let names = operation_names(alloc, &arrived, service)?;
            Ok(Answer::Names(Seq::from_vec(names)))
        }
        Query::Operations { service, kind } => {
            let arrived = all_arrivals(alloc, entries)?;
            let found = operations(alloc, &arrived, service, kind)?;
            Ok(Answer::Operations(Seq::from_vec(found)))
        }
        Query::Find(find) => {
            let traces = all_traces(alloc, entries, limits)?;
            let found = find_traces(alloc, traces, find)?;
            let shown = all_adjusted(alloc, found, limits)?;
            Ok(Answer::Traces(Seq::from_vec(shown)))
        }
        Query::FindIds(find) => {
            let traces = all_traces(alloc, entries, limits)?;
            let found = find_traces(alloc, traces, find)?;
            Ok(Answer::Ids(Seq::from_vec(trace_ids(alloc, &found)?)))
        }
        Query::Links {
            end_ms,
            lookback_ms,
        } => {
            let traces = all_traces(alloc, entries, limits)?;
            let links = service_links(alloc, &traces, *end_ms, *lookback_ms)?;
            Ok(Answer::Links(Seq::from_vec(links)))
        }
    }
}
