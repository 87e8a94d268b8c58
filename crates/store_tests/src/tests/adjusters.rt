//! A trace whose spans are a long chain.

use jaeger_model::{Placed, SharedProcess, SpanId};
use std::alloc::{AllocError, Global};
use std::mem::drop;
use std::test::*;
use trace_adjust::adjusted;
use trace_model::Shown;
use trace_samples::{beside, host_process, kept, span};

/// Host, id, parent, start and duration of a span.
type Row = (&'static str, u64, u64, i64, i64);

/// Makes a span, as a process on the host reported it.
fn placed(alloc: Global, row: Row) -> Result<Placed, AllocError> {
    let (host, id, parent, start, duration) = row;
    let process = SharedProcess::new(alloc, host_process(alloc, "", host)?)?;
    let (process, mut span) = beside(process, span(alloc, 1, id))?;
    span.parent = SpanId(parent);
    span.start = start;
    span.duration = duration;
    Ok(Placed { process, span })
}

const ROOT: Row = ("h1", 1, 0, 1000, 101);

/// Adds a chain of ten thousand spans, each before its parent.
fn add_chain(alloc: Global, trace: &mut Vec<Placed>) -> Result<(), AllocError> {
    for steps in 0..9_999u64 {
        let id = 10_000 - steps;
        trace.push(placed(alloc, ("h2", id, id - 1, 900, 50))?)?;
    }
    trace.push(placed(alloc, ROOT)?)?;
    Ok(())
}

/// Returns the number of spans of the chain that are shown, and of those that are moved.
fn chain_moved(alloc: Global) -> Result<(usize, usize), AllocError> {
    let mut trace = Vec::new(alloc);
    let added = add_chain(alloc, &mut trace);
    let shown = adjusted(alloc, kept(trace, added)?, &[], 200)?;
    let moved = moved_among(&shown);
    drop(shown);
    Ok(moved)
}

/// A chain of ten thousand spans, each before its parent. No clause says how much stack it takes to follow them.
#[test]
fn deep_chain(rt: HostRuntime) -> Result<(), Fail> {
    assert!(rt; chain_moved(rt.alloc())? == (10_000, 9_999));
    Ok(())
}

/// Returns the number of spans, and of those that start at 1025.
fn moved_among(shown: &[Shown]) -> (usize, usize) {
    let moved = shown.iter().filter(|s| s.placed.span.start == 1025).count();
    (shown.len(), moved)
}
