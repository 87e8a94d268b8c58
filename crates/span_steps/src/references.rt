//! Which reference of a span names its parent, and moving it to the front.

ghost use Rattle.std.specs.Prelude.{◌≡◌, ◌<◌, IfOk, IfSome, length};
ghost use Rattle.std.specs.List.{position};
ghost use Rattle.jaeger_model.specs.Parents.{own_child, own_other};
ghost use Rattle.trace_model.specs.Adjusting.{parent_place, parent_first, with_parent_first};

use jaeger_model::{Placed, Span, SpanRef, TraceId, is_own_child, is_own_other, refer_to_parent};
use std::alloc::{AllocError, Global};

fn child_place(references: &[SpanRef], trace: TraceId) -> Option<usize>
    ensures { result ≡ position (own_child trace) references.now }
{
    references.iter().position(|r| is_own_child(*r, trace))
}

fn other_place(references: &[SpanRef], trace: TraceId) -> Option<usize>
    ensures { result ≡ position (own_other trace) references.now }
{
    references.iter().position(|r| is_own_other(*r, trace))
}

/// Returns the place of the first child-of reference to the trace, else of the first other reference to it.
#[tactic(auto, using(crate::proofs::FirstPlacesAreWithin::place_within))]
pub fn parent_place(references: &[SpanRef], trace: TraceId) -> Option<usize>
    ensures place { result ≡ parent_place trace references.now }
    ensures within { IfSome result (λ i. i < length references.now) }
{
    match child_place(references, trace) {
        Some(place) => Some(place),
        None => other_place(references, trace),
    }
}

/// Moves the reference to the span's parent to the front: swaps the first child-of reference to its own trace, else
/// the first other reference to it, with the first of all. Allocates nothing.
pub fn parent_first(span: &mut Span)
    ensures { span.new ≡ parent_first span.old }
{
    if let Some(place) = parent_place(span.references.as_slice(), span.trace) {
        span.references.swap(0, place);
    }
}

/// Makes the reference to its parent the first of the span's references; adds it if it is missing.
///
/// # Errors
///
/// Out of memory, and nothing else.
pub fn with_parent_first(alloc: Global, mut placed: Placed) -> Result<Placed, AllocError>
    ensures { IfOk result (λ p. p ≡ with_parent_first placed) }
{
    refer_to_parent(alloc, &mut placed.span)?;
    parent_first(&mut placed.span);
    Ok(placed)
}
