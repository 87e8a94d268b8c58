ghost use Rattle.std.specs.Prelude.{◌≡◌, ◌↔◌, ◌∷◌, IfOk, OnOk, OnErr, IsTrue};
ghost use Rattle.std.specs.Cmp.{decided, partial_equiv_from_equiv};
ghost use Rattle.jaeger_model.specs.Sameness.{same_placed};
ghost use Rattle.jaeger_model.specs.SameLaws.{same_placed-decides};
ghost use Rattle.jaeger_model.specs.Parents.{with_parent, parent_reference, domain};

use crate::batch::{Batch, Process};
use crate::parent::needs_no_reference;
use crate::seq::Seq;
use crate::shared_process::SharedProcess;
use crate::span::{RefKind, Span, SpanRef};
use std::alloc::{AllocError, Global};

/// A span with the process that reported it. As [`place_span`] returns it, its references include
/// its parent.
#[derive(Debug, Drop)]
pub struct Placed {
    pub process: SharedProcess,
    pub span: Span,
}

/// A borrowed [`Placed`].
#[derive(Clone, Copy)]
pub struct Seen<'a> {
    pub process: &'a Process,
    pub span: &'a Span,
}

impl Clone for Placed {
    ghost is_clone = { λ s t. t ≡ s };

    fn clone(&self) -> Result<Self, AllocError> {
        Ok(Placed {
            process: self.process.clone()?,
            span: self.span.clone()?,
        })
    }
}

impl PartialEq for Placed {
    ghost eq = { same_placed };

    ghost laws = { partial_equiv_from_equiv (decided same_placed same_placed-decides) };

    fn eq(&self, other: &Placed) -> bool {
        self.span == other.span && self.process == other.process
    }
}

impl Eq for Placed {
    ghost laws = { decided same_placed same_placed-decides };
}

/// Returns the reference that replaces the parent's id: child-of, to the span's own trace.
pub fn parent_reference(span: &Span) -> SpanRef
    ensures { result ≡ parent_reference span.now }
{
    SpanRef {
        kind: RefKind::ChildOf,
        trace: span.trace,
        id: span.parent,
    }
}

/// Returns the references of a span after one to its parent.
fn with_parent_first(alloc: Global, span: &Span) -> Result<Seq<SpanRef>, AllocError>
    ensures { IfOk result (λ s. s ≡ parent_reference span.now ∷ span.now.references) }
{
    let mut references = Vec::new(alloc);
    references.push(parent_reference(span))?;
    references.extend_from_slice(span.references.as_slice())?;
    Ok(Seq::from_vec(references))
}

/// Inserts a reference to the span's parent before the others, unless one of them names the parent
/// or the parent's id is 0.
///
/// # Errors
///
/// Only out of memory; the span is then unchanged.
pub fn refer_to_parent(alloc: Global, span: &mut Span) -> Result<(), AllocError>
    ensures ok { OnOk result (span.new ≡ with_parent span.old) }
    ensures err { OnErr result (span.new ≡ span.old) }
{
    if !needs_no_reference(span) {
        span.references = with_parent_first(alloc, span)?;
    }
    Ok(())
}

/// Returns a copy of the span whose references include its parent.
fn with_reference(alloc: Global, span: &Span) -> Result<Span, AllocError>
    ensures { IfOk result (λ s. s ≡ with_parent span.now) }
{
    let mut copy = span.clone()?;
    refer_to_parent(alloc, &mut copy)?;
    Ok(copy)
}

/// Returns a copy of the span with its process. Its references include its parent, as in [`domain`].
///
/// # Errors
///
/// Out of memory, and nothing else.
pub fn place_span(alloc: Global, process: &SharedProcess, span: &Span) -> Result<Placed, AllocError>
    ensures { IfOk result (λ p. p ≡ record { process = process.now; span = with_parent span.now }) }
{
    Ok(Placed {
        process: process.clone()?,
        span: with_reference(alloc, span)?,
    })
}

/// Returns the spans of a batch in order, each with the batch's process. Only the plain store calls it.
///
/// A parent's id other than 0 becomes a child-of reference to the span's own trace, before the other
/// references, unless the span already has a reference to that span of that trace.
///
/// # Errors
///
/// Out of memory, and nothing else.
#[tactic(auto, using(std::proofs::lemmas::List::map_more))]
pub fn domain(alloc: Global, batch: &Batch) -> Result<Vec<Placed>, AllocError>
    ensures { IfOk result (λ v. v.items ≡ domain batch.now) }
{
    let mut placed = Vec::new(alloc);
    for span in batch.spans.as_slice() {
        placed.push(place_span(alloc, &batch.process, span)?)?;
    }
    Ok(placed)
}
