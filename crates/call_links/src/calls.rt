//! The calls of a trace.

ghost use Rattle.std.specs.Prelude.{◌≡◌, ℕ, IfOk, option_map};
ghost use Rattle.std.specs.Ordering.{nat_cmp};
ghost use Rattle.std.specs.BTreeMap.{get};
ghost use Rattle.call_links.specs.NumberedCalls.{service_seen, service_of, numbered_call, call_by};

use crate::numbered_span::NumberedSpan;
use std::alloc::{AllocError, Global};
use std::collections::BTreeMap;

/// A span of a service, and a span of another service that it calls.
pub(crate) type Call<'t, 'a> = (&'t NumberedSpan<'a>, &'t NumberedSpan<'a>);

/// Returns the first span of the trace with each id.
pub(crate) fn first_spans<'t, 'a>(
    alloc: Global,
    trace: &'t [NumberedSpan<'a>],
) -> Result<BTreeMap<u64, &'t NumberedSpan<'a>>, AllocError>
    ensures { IfOk result (λ m. (id : ℕ) →
        option_map service_seen (get nat_cmp m id) ≡ service_of id trace.now) }
{
    let mut first = BTreeMap::new(alloc);
    for span in trace {
        let id = span.id();
        // The first one is put back. Ids rarely recur, so this costs less than a lookup before each insert.
        if let Some(before) = first.insert(id, span)? {
            first.insert(id, before)?;
        }
    }
    Ok(first)
}

/// Returns the call that a span represents, if its parent is in the table and of another service. Reads no text.
pub(crate) fn call_to<'t, 'a>(
    first: &BTreeMap<u64, &'t NumberedSpan<'a>>,
    span: &'t NumberedSpan<'a>,
) -> Option<Call<'t, 'a>>
    ensures { option_map numbered_call result ≡
        call_by (λ id. option_map service_seen (get nat_cmp first.now id)) span.now }
{
    let parent = span.parent();
    if parent == 0 {
        return None;
    }
    let caller = *first.get(&parent)?;
    if caller.service_number() == span.service_number() {
        return None;
    }
    Some((caller, span))
}
