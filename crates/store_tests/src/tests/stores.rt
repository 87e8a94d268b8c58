use crate::tests::entries::{entry, id};
use crate::tests::queries::{operation_names, operations};
use crate::tests::sameness::same_answer;
use jaeger_model::{Seq, Span, SpanId, Tag, Text};
use span_store::SpanStore;
use std::alloc::{AllocError, Global};
use std::hash::RandomState;
use std::mem::drop;
use std::sync::Arc;
use std::test::*;
use trace_model::{Entry, Find, Limits, Query, Refusal};
use trace_samples::{beside, kept, list_of, span, text_tag};

/// A number that looks random and is the same in every run.
fn after(seed: u64) -> u64 {
    seed.wrapping_mul(6_364_136_223_846_793_005)
        .wrapping_add(1_442_695_040_888_963_407)
}

fn service(number: u64) -> &'static str {
    match number % 3 {
        0 => "a",
        1 => "b",
        _ => "ab",
    }
}

fn add_tags(alloc: Global, tags: &mut Vec<Tag>, seed: u64) -> Result<(), AllocError> {
    if seed % 2 == 0 {
        tags.push(text_tag(alloc, "k", "v")?)?;
    }
    if seed % 3 == 0 {
        tags.push(text_tag(alloc, "span.kind", "client")?)?;
    }
    Ok(())
}

fn tags_by(alloc: Global, seed: u64) -> Result<Seq<Tag>, AllocError> {
    let mut tags = Vec::new(alloc);
    let added = add_tags(alloc, &mut tags, seed);
    Ok(Seq::from_vec(kept(tags, added)?))
}

/// Sets what the span has by the seed.
fn set_by(alloc: Global, span: &mut Span, seed: u64) -> Result<(), AllocError> {
    let operation = if seed % 7 < 3 { "get" } else { "put" };
    span.parent = SpanId(seed / 5 % 5);
    span.operation = Text::from_str(alloc, operation)?;
    span.start = if seed % 11 < 5 { 1000 } else { 1500 };
    span.tags = tags_by(alloc, seed)?;
    Ok(())
}

/// Makes a span of the trace, with other contents by the seed.
fn span_by(alloc: Global, trace: u64, seed: u64) -> Result<Span, AllocError> {
    let seed = after(seed) >> 20;
    let mut span = span(alloc, trace, seed % 5)?;
    let set = set_by(alloc, &mut span, seed);
    kept(span, set)
}

/// Adds a span of each of these traces, and returns the next seed.
fn add_spans(
    alloc: Global,
    spans: &mut Vec<Span>,
    traces: &[u64],
    mut seed: u64,
) -> Result<u64, AllocError> {
    for trace in traces {
        seed = after(seed);
        spans.push(span_by(alloc, *trace, seed)?)?;
    }
    Ok(seed)
}

/// An entry of seat 0 with a span of each of these traces.
fn entry_of(alloc: Global, number: u64, traces: &[u64]) -> Result<Arc<Entry>, AllocError> {
    let mut spans = Vec::new(alloc);
    let added = add_spans(alloc, &mut spans, traces, after(number));
    let (spans, seed) = beside(spans, added)?;
    entry(alloc, 0, number, service(seed >> 40), spans)
}

/// The pairs of a tag that a search requests.
fn asked_tags(alloc: Global, seed: u64) -> Result<Seq<(Text, Text)>, AllocError> {
    if seed % 5 != 0 {
        return Ok(Seq::new(alloc));
    }
    let key = Text::from_str(alloc, "k")?;
    list_of(alloc, (key, Text::from_str(alloc, "v")?))
}

fn find(alloc: Global, seed: u64) -> Result<Find, AllocError> {
    let seed = seed >> 24;
    Ok(Find {
        service: Text::from_str(alloc, service(seed))?,
        operation: Text::from_str(alloc, if seed % 7 < 5 { "" } else { "put" })?,
        tags: asked_tags(alloc, seed)?,
        start_min: if seed % 11 < 7 { None } else { Some(1001) },
        start_max: None,
        duration_min: 0,
        duration_max: 60,
        limit: seed % 4,
    })
}

fn links(seed: u64) -> Query {
    Query::Links {
        end_ms: 2,
        lookback_ms: if seed >> 50 & 1 == 0 { 1 } else { 2 },
    }
}

fn same_names(alloc: Global, store: &SpanStore, seed: u64) -> Result<bool, AllocError> {
    let kind = if seed >> 34 & 1 == 0 { "" } else { "client" };
    Ok(
        same_answer(alloc, store, Query::Services)?
            && same_answer(alloc, store, operation_names(alloc, service(seed >> 30))?)?
            && same_answer(alloc, store, operations(alloc, service(seed >> 32), kind)?)?,
    )
}

fn same_searches(alloc: Global, store: &SpanStore, seed: u64) -> Result<bool, AllocError> {
    Ok(
        same_answer(alloc, store, Query::Find(find(alloc, seed)?))?
            && same_answer(alloc, store, Query::FindIds(find(alloc, after(seed))?))?
            && same_answer(alloc, store, links(seed))?,
    )
}

fn same_trace(alloc: Global, store: &SpanStore, trace: u64, raw: bool) -> Result<bool, AllocError> {
    same_answer(alloc, store, Query::Trace { id: id(trace), raw })
}

/// Returns whether four traces are answered as in the plain store, as reported and adjusted.
fn same_four_traces(alloc: Global, store: &SpanStore) -> Result<bool, AllocError> {
    let mut same = true;
    for trace in 0..4 {
        same = same
            && same_trace(alloc, store, trace, true)?
            && same_trace(alloc, store, trace, false)?;
    }
    Ok(same)
}

/// Returns whether each trace of the ring has the spot of a span.
fn each_has_a_spot(store: &SpanStore) -> Result<bool, AllocError> {
    let ids = store.trace_ids()?;
    for id in &ids {
        if store.spots(*id).is_empty() {
            return Ok(false);
        }
    }
    Ok(true)
}

/// Returns whether the store answers every query as the plain store of its entries.
fn same_answers(alloc: Global, store: &SpanStore, seed: u64) -> Result<bool, AllocError> {
    Ok(
        each_has_a_spot(store)?
            && same_four_traces(alloc, store)?
            && same_names(alloc, store, seed)?
            && same_searches(alloc, store, seed)?
            && same_searches(alloc, store, after(after(seed)))?,
    )
}

/// Adds 51 entries, each with spans of four traces.
fn add_entries(alloc: Global, entries: &mut Vec<Arc<Entry>>) -> Result<(), AllocError> {
    for number in 1..52 {
        entries.push(entry_of(alloc, number, &[number, number << 32, 7, number / 2])?)?;
    }
    Ok(())
}

/// Makes these entries.
fn entries_of(alloc: Global) -> Result<Vec<Arc<Entry>>, AllocError> {
    let mut entries = Vec::new(alloc);
    let added = add_entries(alloc, &mut entries);
    kept(entries, added)
}

/// Opens a store for 50 of them, and tries once more if memory ran out.
fn opened(alloc: Global, keys: RandomState) -> Result<SpanStore, Fail> {
    let limits = Limits::new(50, 200, 3, 0).ok_or("limits")?;
    match SpanStore::open(alloc, keys, limits) {
        Ok(store) => Ok(store),
        Err(_) => Ok(SpanStore::open(alloc, keys, limits)?),
    }
}

/// Applies the entries to the store. Returns the number that is accepted, and why the next one isn't.
fn taken(store: &mut SpanStore, entries: Vec<Arc<Entry>>) -> (u64, Option<Refusal>) {
    for entry in entries {
        if let Err(refusal) = store.apply(entry) {
            return (store.len(), Some(refusal));
        }
    }
    (store.len(), None)
}

/// Like [`taken`], for all entries.
fn taken_of_all(
    alloc: Global,
    store: &mut SpanStore,
) -> Result<(u64, Option<Refusal>), AllocError> {
    let entries = entries_of(alloc)?;
    Ok(taken(store, entries))
}

/// Returns the number of entries that a store which is opened for 50 accepts, and why it refuses the next one.
fn filled(alloc: Global, keys: RandomState) -> Result<(u64, Option<Refusal>), Fail> {
    let mut store = opened(alloc, keys)?;
    let got = taken_of_all(alloc, &mut store);
    drop(store);
    Ok(got?)
}

/// 50 entries are accepted, and the next one is refused since the store is full, not for memory. The check of
/// allocations sees that a store which is filled this way makes as many as one that is only opened, and refuses
/// each.
#[test]
fn apply_without_memory(rt: HostRuntime) -> Result<(), Fail> {
    let got = filled(rt.alloc(), RandomState::new(&rt)?)?;
    let (batches, spans) = (50, 200);
    assert!(rt; got == (50, Some(Refusal::JournalFull { batches, spans })));
    Ok(())
}

/// Returns the number of entries.
fn count_of_all(alloc: Global) -> Result<usize, AllocError> {
    let entries = entries_of(alloc)?;
    let count = entries.len();
    drop(entries);
    Ok(count)
}

/// Returns the number of entries of a store, and whether it is empty.
fn beside_a_store(alloc: Global, keys: RandomState) -> Result<(usize, bool), Fail> {
    let store = opened(alloc, keys)?;
    let count = count_of_all(alloc);
    let is_empty = store.is_empty();
    drop(store);
    Ok((count?, is_empty))
}

#[test]
fn a_store_is_opened(rt: HostRuntime) -> Result<(), Fail> {
    let beside = beside_a_store(rt.alloc(), RandomState::new(&rt)?)?;
    assert!(rt; beside == (51, true));
    Ok(())
}

const FIRST: &[u64] = &[1, 2, 3];

/// Applies three entries, and asks for everything.
fn answers_after_three(alloc: Global, store: &mut SpanStore) -> Result<bool, AllocError> {
    let mut same = true;
    for number in 1..4u64 {
        same = same && store.apply(entry_of(alloc, number, FIRST)?) == Ok(number);
    }
    Ok(same && same_answers(alloc, store, 1)?)
}

/// If memory runs out for an answer, the store answers the same query when it is asked again. The check of allocations
/// fails each allocation in turn.
#[test]
fn memory_for_answers(rt: HostRuntime) -> Result<(), Fail> {
    let alloc = rt.alloc();
    let mut store = opened(alloc, RandomState::new(&rt)?)?;
    let same = answers_after_three(alloc, &mut store);
    drop(store);
    assert!(rt; same?);
    Ok(())
}
