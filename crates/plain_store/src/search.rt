//! Searches over the traces that are shown.

ghost use Rattle.std.specs.Prelude.{◌≡◌, IfOk, List, filter, flat_map};
ghost use Rattle.std.specs.List.{list_any, list_all};
ghost use Rattle.jaeger_model.specs.declared.span.Log.{Log as LogValue};
ghost use Rattle.jaeger_model.specs.Tags.{tag_text};
ghost use Rattle.jaeger_model.specs.Texts.{same_text};
ghost use Rattle.trace_model.specs.Searching.{matches, tag_matches, has_tag, found_in, first_id, ids_of, cut};

use crate::ranks::rank;
use jaeger_model::{Log, Placed, Seen, Seq, Tag, TagValue, Text, TraceId, tag_text};
use span_steps::{has_service_and_operation, is_timed};
use std::alloc::{AllocError, Global};
use trace_model::Find;

/// Returns whether the text of the tag's value is the requested one.
fn is_text_of(alloc: Global, value: &TagValue, asked: &Text) -> Result<bool, AllocError>
    ensures { IfOk result (λ b. b ≡ same_text asked.now (tag_text value.now)) }
{
    let text = tag_text(alloc, value)?;
    Ok(asked.as_str() == text.as_str())
}

/// Returns whether one of the tags has the requested key and text.
fn is_among(alloc: Global, tags: &[Tag], asked: &(Text, Text)) -> Result<bool, AllocError>
    ensures { IfOk result (λ b. b ≡ list_any (tag_matches asked.now) tags.now) }
{
    for tag in tags {
        if asked.0 == tag.key && is_text_of(alloc, &tag.value, &asked.1)? {
            return Ok(true);
        }
    }
    Ok(false)
}

/// Returns whether one of the logs has a field with the requested key and text.
fn is_logged(alloc: Global, logs: &[Log], asked: &(Text, Text)) -> Result<bool, AllocError>
    ensures { IfOk result (λ b. b ≡ list_any (tag_matches asked.now)
        (flat_map (λ (l : LogValue). l.fields) logs.now)) }
{
    for log in logs {
        if is_among(alloc, log.fields.as_slice(), asked)? {
            return Ok(true);
        }
    }
    Ok(false)
}

/// Returns whether a tag of the span, of its process or of one of its logs has the requested key and text.
#[tactic(auto, using(crate::proofs::HintNames::any_append))]
fn has_tag(alloc: Global, placed: &Placed, asked: &(Text, Text)) -> Result<bool, AllocError>
    ensures { IfOk result (λ b. b ≡ has_tag placed.now asked.now) }
{
    Ok(
        is_among(alloc, placed.span.tags.as_slice(), asked)?
            || is_among(alloc, placed.process.get().tags.as_slice(), asked)?
            || is_logged(alloc, placed.span.logs.as_slice(), asked)?,
    )
}

fn has_all_tags(alloc: Global, placed: &Placed, tags: &[(Text, Text)]) -> Result<bool, AllocError>
    ensures { IfOk result (λ b. b ≡ list_all (has_tag placed.now) tags.now) }
{
    for asked in tags {
        if !has_tag(alloc, placed, asked)? {
            return Ok(false);
        }
    }
    Ok(true)
}

/// Returns whether the span meets every condition of the search.
fn is_match(alloc: Global, query: &Find, placed: &Placed) -> Result<bool, AllocError>
    ensures { IfOk result (λ b. b ≡ matches query.now placed.now) }
{
    let at = Seen {
        process: placed.process.get(),
        span: &placed.span,
    };
    Ok(
        has_service_and_operation(at, query)
            && is_timed(at, query)
            && has_all_tags(alloc, placed, query.tags.as_slice())?,
    )
}

/// Returns whether one span of the trace meets every condition of the search.
fn is_found(alloc: Global, query: &Find, trace: &[Placed]) -> Result<bool, AllocError>
    ensures { IfOk result (λ b. b ≡ list_any (matches query.now) trace.now) }
{
    for placed in trace {
        if is_match(alloc, query, placed)? {
            return Ok(true);
        }
    }
    Ok(false)
}

/// Returns the traces in which one span meets every condition of the search.
fn all_found(
    alloc: Global,
    query: &Find,
    traces: Vec<Seq<Placed>>,
) -> Result<Vec<Seq<Placed>>, AllocError>
    ensures { IfOk result (λ v. v.items ≡ filter (list_any (matches query.now)) traces.items) }
{
    let mut found = Vec::new(alloc);
    for trace in traces {
        if is_found(alloc, query, trace.as_slice())? {
            found.push(trace)?;
        }
    }
    Ok(found)
}

/// Truncates the list to the limit, unless that is 0.
fn cut(limit: u64, traces: &mut Vec<Seq<Placed>>)
    ensures { traces.new.items ≡ cut limit traces.old.items }
{
    if limit != 0 {
        traces.truncate(limit as usize);
    }
}

/// Returns the traces that a search finds, of traces that are given oldest first: latest first start first, of
/// equal starts the one opened later, and no more than the limit.
///
/// # Errors
///
/// Out of memory, and nothing else.
pub fn find_traces(
    alloc: Global,
    traces: Vec<Seq<Placed>>,
    query: &Find,
) -> Result<Vec<Seq<Placed>>, AllocError>
    ensures { IfOk result (λ v. v.items ≡ found_in query.now traces.items) }
{
    let found = all_found(alloc, query, traces)?;
    let mut ranked = rank(alloc, found)?;
    cut(query.limit, &mut ranked);
    Ok(ranked)
}

fn first_id(trace: &Seq<Placed>) -> Option<TraceId>
    ensures { result ≡ first_id trace.now }
{
    match trace.as_slice().first() {
        Some(placed) => Some(placed.span.trace),
        None => None,
    }
}

/// Returns the ids of the traces.
///
/// # Errors
///
/// Out of memory, and nothing else.
pub fn trace_ids(alloc: Global, traces: &[Seq<Placed>]) -> Result<Vec<TraceId>, AllocError>
    ensures { IfOk result (λ v. v.items ≡ ids_of traces.now) }
{
    let mut ids = Vec::new(alloc);
    for trace in traces {
        if let Some(id) = first_id(trace) {
            ids.push(id)?;
        }
    }
    Ok(ids)
}
