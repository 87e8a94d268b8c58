//! Calls between services.

ghost use Rattle.std.specs.Prelude.{◌≡◌, ◌++◌, IfOk, OnOk};
ghost use Rattle.std.specs.Option.{option_copied};
ghost use Rattle.std.specs.List.{list_any};
ghost use Rattle.trace_model.specs.ServiceLinks.{parent_in, call_from, calls_of, in_window, calls_within, calls, counted, same_call, links};

use crate::sets::insert_once;
use jaeger_model::{Placed, Seq, Text, parent_of};
use span_steps::is_in_window;
use std::alloc::{AllocError, Global};
use trace_model::{Link, Name};

/// Returns the first span of the trace with the id of the span's parent.
fn parent_in<'a>(trace: &'a [Placed], placed: &Placed) -> Option<&'a Placed>
    ensures { option_copied result ≡ parent_in trace.now placed.now }
{
    let parent = parent_of(&placed.span);
    if parent.0 == 0 {
        return None;
    }
    trace.iter().find(|p| p.span.id.0 == parent.0)
}

/// Returns the services of a span's parent and of the span, unless they are equal.
fn call_of(trace: &[Placed], placed: &Placed) -> Result<Option<(Text, Text)>, AllocError>
    ensures { IfOk result (λ c. c ≡ call_from placed.now (parent_in trace.now placed.now)) }
{
    let Some(above) = parent_in(trace, placed) else {
        return Ok(None);
    };
    if above.process.get().service == placed.process.get().service {
        return Ok(None);
    }
    let caller = above.process.get().service.clone()?;
    let callee = placed.process.get().service.clone()?;
    Ok(Some((caller, callee)))
}

/// Appends the calls of a trace.
fn add_calls(calls: &mut Vec<(Text, Text)>, trace: &[Placed]) -> Result<(), AllocError>
    ensures { OnOk result (calls.new.items ≡ calls.old.items ++ calls_of trace.now) }
{
    for placed in trace {
        if let Some(call) = call_of(trace, placed)? {
            calls.push(call)?;
        }
    }
    Ok(())
}

/// Returns whether some span of the trace starts strictly between the bounds.
fn reaches_window(trace: &[Placed], end_ms: i64, lookback_ms: i64) -> bool
    ensures { result ≡ list_any (in_window end_ms lookback_ms) trace.now }
{
    trace
        .iter()
        .any(|p| is_in_window(p.span.start, end_ms, lookback_ms))
}

/// Appends the calls of a trace if it has a span in the window.
fn add_calls_within(
    calls: &mut Vec<(Text, Text)>,
    trace: &[Placed],
    end_ms: i64,
    lookback_ms: i64,
) -> Result<(), AllocError>
    ensures { OnOk result (calls.new.items ≡
        calls.old.items ++ calls_within end_ms lookback_ms trace.now) }
{
    if reaches_window(trace, end_ms, lookback_ms) {
        add_calls(calls, trace)?;
    }
    Ok(())
}

/// Returns the calls of the traces that have a span in the window.
fn all_calls(
    alloc: Global,
    traces: &[Seq<Placed>],
    end_ms: i64,
    lookback_ms: i64,
) -> Result<Vec<(Text, Text)>, AllocError>
    ensures { IfOk result (λ v. v.items ≡ calls end_ms lookback_ms traces.now) }
{
    let mut calls = Vec::new(alloc);
    for trace in traces {
        add_calls_within(&mut calls, trace.as_slice(), end_ms, lookback_ms)?;
    }
    Ok(calls)
}

fn is_same_call(a: &(Text, Text), b: &(Text, Text)) -> bool
    ensures { result ≡ same_call a.now b.now }
{
    a.0 == b.0 && a.1 == b.1
}

/// Returns each pair of services with its number of calls, in order.
fn counted(alloc: Global, calls: &[(Text, Text)]) -> Result<Vec<Link>, AllocError>
    ensures { IfOk result (λ v. v.items ≡ counted calls.now) }
{
    let mut pairs = Vec::new(alloc);
    for (caller, callee) in calls {
        insert_once(&mut pairs, (caller.clone()?, callee.clone()?))?;
    }
    let mut links = Vec::new(alloc);
    for pair in pairs {
        let number = calls.iter().filter(|c| is_same_call(&pair, c)).count();
        let (parent, child) = pair;
        links.push(Link {
            parent: Name::own(alloc, parent)?,
            child: Name::own(alloc, child)?,
            calls: number as u64,
        })?;
    }
    Ok(links)
}

/// Counts how often each service called each other one in the traces of a window of time, in order of caller and
/// then of callee.
///
/// A trace counts if one of its spans starts strictly after `end_ms - lookback_ms` and strictly before `end_ms`,
/// both in milliseconds since 1970. Then each of its spans whose parent is a span of the trace adds one call,
/// unless both are of one service.
///
/// # Errors
///
/// Out of memory, and nothing else.
pub fn service_links(
    alloc: Global,
    traces: &[Seq<Placed>],
    end_ms: i64,
    lookback_ms: i64,
) -> Result<Vec<Link>, AllocError>
    ensures { IfOk result (λ v. v.items ≡ links end_ms lookback_ms traces.now) }
{
    let calls = all_calls(alloc, traces, end_ms, lookback_ms)?;
    counted(alloc, &calls)
}
