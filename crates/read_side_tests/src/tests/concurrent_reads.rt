//! Three threads read while another one writes: no front falls, and each answer is the plain store's for the list that it
//! names.

use crate::tests::answers::shown;
use crate::tests::fixture::{Row, plays};
use crate::tests::holding::count_admitted;
use jaeger_model::{Batch, Seq, Span, SpanId, Tag, Text, TraceId};
use plain_store::plain_answer;
use read_side::{Keeper, Pass, Reading, StoreName};
use std::alloc::{AllocError, Global};
use std::mem::{drop, replace};
use std::sync::{Arc, Wait};
use std::test::*;
use std::thread::{Threads, join, map_vec};
use trace_model::{Entry, Find, Limits, Query, Refusal, TraceLimit, Work};
use trace_samples::{batch, kept, list_of, service_find, span, submitted, text_tag};

/// The number of entries that are admitted.
const ENTRIES: u64 = 100;

/// The number of queries of each pass meanwhile.
const QUERIES: u64 = 100;

/// The trace limits that are submitted.
const LIMITS: [u32; 5] = [0, 1, 7, 20, 35];

/// Draws a number that looks random and is the same in every run (SplitMix64).
fn drawn(number: u64) -> u64 {
    let sum = number.wrapping_mul(0x9e37_79b9_7f4a_7c15);
    let mixed = (sum ^ (sum >> 30)).wrapping_mul(0xbf58_476d_1ce4_e5b9);
    let mixed = (mixed ^ (mixed >> 27)).wrapping_mul(0x94d0_49bb_1331_11eb);
    mixed ^ (mixed >> 31)
}

fn drawn_trace(draw: u64) -> u64 {
    1 + draw % 40
}

fn drawn_service(draw: u64) -> &'static str {
    ["a", "b", "ab"][draw as usize % 3]
}

fn drawn_value(draw: u64) -> &'static str {
    ["x", "y", "z"][draw as usize % 3]
}

fn drawn_operation(draw: u64) -> &'static str {
    ["op", "other"][draw as usize % 2]
}

fn drawn_kind(draw: u64) -> &'static str {
    ["", "client", "server"][draw as usize % 3]
}

fn drawn_tags(alloc: Global, draw: u64) -> Result<Seq<Tag>, AllocError> {
    let mut tags = list_of(alloc, text_tag(alloc, "k", drawn_value(draw))?)?;
    let kind = text_tag(alloc, "span.kind", drawn_kind(draw >> 8))?;
    let added = tags.push(kind);
    kept(tags, added)
}

/// Makes a span of one of 40 traces. Another one of the trace may be its parent, and starts don't rise. Its operation is
/// `op` or `other`, and its duration 0 to 99.
fn drawn_span(alloc: Global, draw: u64) -> Result<Span, AllocError> {
    let tags = drawn_tags(alloc, draw >> 40)?;
    let mut span = span(alloc, drawn_trace(draw), 1 + (draw >> 8) % 6)?;
    span.parent = SpanId((draw >> 16) % 6);
    span.start = i64::try_from((draw >> 24) % 1009).unwrap_or(0);
    span.duration = i64::try_from((draw >> 32) % 100).unwrap_or(0);
    span.operation = Text::from_str(alloc, drawn_operation(draw >> 48))?;
    span.tags = tags;
    Ok(span)
}

/// Makes a batch of one span.
fn drawn_batch(alloc: Global, draw: u64) -> Result<Batch, AllocError> {
    let spans = list_of(alloc, drawn_span(alloc, drawn(draw))?)?;
    batch(alloc, drawn_service(draw >> 8), spans.into_vec())
}

/// The work that is submitted with the number: for one in eight numbers a trace limit, for the others a batch.
fn work_along(alloc: Global, number: u64) -> Result<Work, Fail> {
    let draw = drawn(number);
    if draw % 8 == 0 {
        let limit = LIMITS[(draw >> 8) as usize % 5];
        Ok(Work::TraceLimit(TraceLimit::new(limit).ok_or("limit")?))
    } else {
        Ok(Work::Batch(drawn_batch(alloc, draw)?))
    }
}

fn add_entries(alloc: Global, entries: &mut Vec<Arc<Entry>>) -> Result<(), Fail> {
    for before in 0..ENTRIES {
        let number = before + 1;
        let work = work_along(alloc, number)?;
        entries.push(submitted(alloc, 0, number, work)?)?;
    }
    Ok(())
}

fn entries_along(alloc: Global) -> Result<Vec<Arc<Entry>>, Fail> {
    let mut entries = Vec::new(alloc);
    let added = add_entries(alloc, &mut entries);
    kept(entries, added)
}

/// Makes a search by a service, and with some draws by a tag, a window of starts, an operation or durations as well. The
/// limit is 0 to 3.
fn drawn_search(alloc: Global, draw: u64) -> Result<Find, AllocError> {
    let mut find = service_find(alloc, drawn_service(draw))?;
    find.limit = (draw >> 8) % 4;
    if (draw >> 16) % 3 == 0 {
        let value = Text::from_str(alloc, drawn_value(draw >> 24))?;
        find.tags = list_of(alloc, (Text::from_str(alloc, "k")?, value))?;
    }
    if (draw >> 32) % 3 == 0 {
        find.start_min = Some(200);
        find.start_max = Some(900);
    }
    if (draw >> 40) % 3 == 0 {
        find.operation = Text::from_str(alloc, drawn_operation(draw >> 48))?;
    }
    if (draw >> 56) % 3 == 0 {
        find.duration_min = 20;
        find.duration_max = 80;
    }
    Ok(find)
}

/// The query with this number: all kinds of queries take turns.
fn query_along(alloc: Global, number: u64) -> Result<Query, AllocError> {
    let draw = drawn(number.wrapping_add(ENTRIES + 1));
    let id = TraceId {
        high: 0,
        low: drawn_trace(draw),
    };
    match number % 8 {
        0 => Ok(Query::Services),
        1 => Ok(Query::OperationNames {
            service: Text::from_str(alloc, drawn_service(draw))?,
        }),
        2 => Ok(Query::Operations {
            service: Text::from_str(alloc, drawn_service(draw))?,
            kind: Text::from_str(alloc, drawn_kind(draw >> 8))?,
        }),
        3 => Ok(Query::Trace { id, raw: true }),
        4 => Ok(Query::Trace { id, raw: false }),
        5 => Ok(Query::Links {
            end_ms: 2,
            lookback_ms: 3,
        }),
        6 => Ok(Query::FindIds(drawn_search(alloc, draw)?)),
        _ => Ok(Query::Find(drawn_search(alloc, draw)?)),
    }
}

/// What a pass read for the query with a number, as text, and its front.
#[derive(Drop)]
struct Told {
    number: u64,
    front: u64,
    text: Vec<u8>,
}

/// Holds the list and reads for the query. It needs no handle, so it can't wait.
fn read_held<N: StoreName>(pass: &mut Pass<N>, query: &Query) -> Result<Reading, Refusal> {
    let held = pass.hold()?;
    let reading = held.read(query);
    held.leave();
    reading
}

/// Reads for the query with the number: after eight queries by `read`, eight inside a list that is held.
fn read_for<N: StoreName>(alloc: Global, pass: &mut Pass<N>, number: u64) -> Result<Told, Refusal> {
    let query = query_along(alloc, number)?;
    let reading = if number / 8 % 2 == 0 {
        pass.read(&query)
    } else {
        read_held(pass, &query)
    };
    drop(query);
    let Reading { front, answer } = reading?;
    let text = shown(alloc, answer)?;
    Ok(Told {
        number,
        front,
        text,
    })
}

/// A pass, and what it read for each query.
type Asked<N> = (Pass<N>, Vec<Told>);

/// Makes all queries. A query without an answer is left out.
fn ask_all<N: StoreName>(alloc: Global, mut pass: Pass<N>) -> Asked<N> {
    let mut all = Vec::new(alloc);
    for number in 0..QUERIES {
        let Ok(told) = read_for(alloc, &mut pass, number) else {
            break;
        };
        if all.push(told).is_err() {
            break;
        }
    }
    (pass, all)
}

/// Returns the number of entries that were accepted, and what the passes read meanwhile.
fn beside<N: StoreName + Send + Sync, R: Threads + Wait + Sync>(
    rt: &R,
    alloc: Global,
    keeper: &mut Keeper<N>,
    passes: Vec<Pass<N>>,
    entries: Vec<Arc<Entry>>,
) -> (u64, Result<Vec<Asked<N>>, AllocError>) {
    join(
        rt,
        || -> u64 { count_admitted(rt, keeper, entries) },
        move || -> Result<Vec<Asked<N>>, AllocError> {
            map_vec(rt, passes, &|pass| ask_all(alloc, pass))
        },
    )
}

/// The plain store's answer to the query with the number, as text.
fn plainly(
    alloc: Global,
    entries: &[Arc<Entry>],
    limits: Limits,
    number: u64,
) -> Result<Vec<u8>, AllocError> {
    let query = query_along(alloc, number)?;
    let answer = plain_answer(alloc, entries, limits, &query);
    drop(query);
    shown(alloc, answer?)
}

/// Returns whether an answer is the plain store's for the first entries, as many as its front says.
fn is_of_its_front(
    alloc: Global,
    entries: &[Arc<Entry>],
    limits: Limits,
    told: &Told,
) -> Result<bool, Fail> {
    match entries.get(..told.front as usize) {
        Some(first) => Ok(plainly(alloc, first, limits, told.number)? == told.text),
        None => Ok(false),
    }
}

/// Returns whether a pass answered all queries, each as the plain store of its front does, and no front fell.
fn are_of_their_fronts(
    alloc: Global,
    entries: &[Arc<Entry>],
    limits: Limits,
    all: &[Told],
) -> Result<bool, Fail> {
    let mut front = 0;
    for told in all {
        if told.front < front || !is_of_its_front(alloc, entries, limits, told)? {
            return Ok(false);
        }
        front = told.front;
    }
    Ok(all.len() as u64 == QUERIES)
}

/// Returns whether a pass settles on all that the keeper has published.
fn is_settled<N: StoreName>(keeper: &mut Keeper<N>, pass: &mut Pass<N>) -> bool {
    let last = keeper.receipt();
    let settled = pass.settle(&last);
    drop(last);
    settled == Ok(()) && pass.front() == ENTRIES
}

#[test]
fn three_passes(rt: HostRuntime) -> Result<(), Fail> {
    assert!(rt; plays(&rt, rt.alloc(), 100, 3, Row::AskedAlong)?.as_wanted);
    Ok(())
}

/// The row of `three_passes`: 100 entries, trace limits among them, are admitted while three threads read 100 times each.
/// No front falls, each answer is that of its front, and after all were joined each pass settles on the last entry.
pub fn asked_along<N: StoreName + Send + Sync, R: Threads + Wait + Sync>(
    rt: &R,
    alloc: Global,
    keeper: &mut Keeper<N>,
    passes: &mut Vec<Pass<N>>,
    limits: Limits,
) -> Result<bool, Fail> {
    let entries = entries_along(alloc)?;
    let same = entries.clone()?;
    let passes = replace(passes, Vec::new(alloc));
    let (taken, readers) = beside(rt, alloc, keeper, passes, entries);
    let mut as_wanted = taken == ENTRIES;
    for (mut pass, all) in readers? {
        let settled = is_settled(keeper, &mut pass);
        as_wanted = as_wanted && settled && are_of_their_fronts(alloc, &same, limits, &all)?;
    }
    Ok(as_wanted)
}
