//! A span with its process, borrowed from what keeps both.

ghost use Rattle.std.specs.Prelude.{◌≡◌, ◌+◌, ◌<◌, ◌∷◌, length, slice_get, Some, IfOk, swap};
ghost use Rattle.jaeger_model.specs.Parents.{parent, parent_reference, with_parent};
ghost use Rattle.trace_model.specs.Adjusting.{host_of, parent_first, with_parent_first};
ghost use Rattle.trace_model.specs.BorrowedSpans.{placed_by_its_entry};
ghost use Rattle.span_steps.specs.Warnings.{warning_of, CanMove};
ghost use Rattle.trace_adjust.specs.KnownClocks.{is_moved};
ghost use Rattle.trace_adjust.specs.LentReferences.{referred, IsLent, IsReferred};

use jaeger_model::{
    Log, Placed, Process, Seen, Span, SpanId, SpanRef, Text, needs_no_reference, parent_of,
    parent_reference,
};
use span_steps::{Warning, host_named, parent_place};
use std::alloc::{AllocError, Global};
use std::marker::Model;

/// Where the reference to a span's parent is among those that are shown.
#[derive(Clone, Copy)]
pub(crate) enum ParentReference {
    /// The reported references, unchanged.
    AsReported,
    /// A reference that is made of the parent's id, before the reported ones.
    Made,
    /// The reported reference at this place is swapped with the first.
    MovedFirst(usize),
}

/// A borrowed span with its process, and where its reference to its parent is shown. Contracts see the span with
/// the reference there.
#[derive(Drop)]
pub(crate) struct LentPlaced<'a> {
    process: &'a Process,
    span: &'a Span,
    parent: ParentReference,
}

impl<'a> Model for LentPlaced<'a> {
    ghost use Rattle.jaeger_model.specs.declared.placed.Placed.{Placed};
    ghost use Rattle.trace_adjust.specs.LentReferences.{lent_placed, IsReferred};

    ghost Value = { Placed };

    ghost view = { λ l. lent_placed l.parent l.process.now l.span.now };

    ghost invariant = { λ l. IsReferred l.parent l.span.now };
}

/// Leaves the references as they were reported, or adds one to the parent before them if there is none.
fn parent_among(span: &Span) -> ParentReference
    ensures span { referred result span.now ≡ with_parent span.now }
    ensures kept { IsReferred result span.now }
{
    if needs_no_reference(span) {
        ParentReference::AsReported
    } else {
        ParentReference::Made
    }
}

/// Moves the reference to the parent to the front.
fn parent_moved_first(span: &Span) -> ParentReference
    ensures span { referred result span.now ≡ parent_first (with_parent span.now) }
    ensures kept { IsReferred result span.now }
{
    if !needs_no_reference(span) {
        return ParentReference::Made;
    }
    match parent_place(span.references.as_slice(), span.trace) {
        Some(place) => ParentReference::MovedFirst(place),
        None => ParentReference::AsReported,
    }
}

/// Returns the reference at an index, after the one at the place was swapped with the first.
fn swapped(references: &[SpanRef], place: usize, index: usize) -> SpanRef
    requires place { place < length references.now }
    requires index { index < length references.now }
    ensures { slice_get (swap references.now 0 place) index ≡ Some result }
{
    if index == 0 {
        references[place]
    } else if index == place {
        references[0]
    } else {
        references[index]
    }
}

/// Returns the reference at an index, after one was made before the others.
fn with_made(span: &Span, index: usize) -> SpanRef
    requires { index < length span.now.references + 1 }
    ensures { slice_get (parent_reference span.now ∷ span.now.references) index ≡ Some result }
{
    if index == 0 {
        return parent_reference(span);
    }
    span.references.as_slice()[index - 1]
}

impl<'a> LentPlaced<'a> {
    /// Borrows the span unchanged.
    pub(crate) fn unchanged(placed: &'a Placed) -> LentPlaced<'a>
        ensures { result ≡ placed.now }
    {
        LentPlaced {
            process: placed.process.get(),
            span: &placed.span,
            parent: ParentReference::AsReported,
        }
    }

    /// Borrows a span that was reported, with its parent among its references.
    pub(crate) fn with_parent(reported: Seen<'a>) -> LentPlaced<'a>
        ensures { result ≡ placed_by_its_entry reported.entry }
    {
        LentPlaced {
            process: reported.process,
            span: reported.span,
            parent: parent_among(reported.span),
        }
    }

    /// Borrows a span that was reported, with the reference to its parent before the others.
    pub(crate) fn with_parent_first(reported: Seen<'a>) -> LentPlaced<'a>
        ensures { result ≡ with_parent_first (placed_by_its_entry reported.entry) }
    {
        LentPlaced {
            process: reported.process,
            span: reported.span,
            parent: parent_moved_first(reported.span),
        }
    }

    pub(crate) fn id(&self) -> SpanId
        ensures { result ≡ self.now.span.id }
    {
        self.span.id
    }

    pub(crate) fn parent(&self) -> SpanId
        ensures { result ≡ parent self.now.span }
    {
        parent_of(self.span)
    }

    /// Returns the stored span.
    pub(crate) fn kept(&self) -> &'a Span
        ensures { IsLent result.now self.now.span }
    {
        self.span
    }

    pub(crate) fn process(&self) -> &'a Process
        ensures { result.now ≡ self.now.process }
    {
        self.process
    }

    pub(crate) fn logs(&self) -> &'a [Log]
        ensures { result.now ≡ self.now.span.logs }
    {
        self.span.logs.as_slice()
    }

    pub(crate) fn reference_count(&self) -> usize
        ensures { result ≡ length self.now.span.references }
    {
        let reported = self.span.references.as_slice().len();
        match self.parent {
            ParentReference::Made => reported + 1,
            ParentReference::AsReported | ParentReference::MovedFirst(_) => reported,
        }
    }

    pub(crate) fn reference(&self, index: usize) -> SpanRef
        requires { index < length self.now.span.references }
        ensures { slice_get self.now.span.references index ≡ Some result }
    {
        let reported = self.span.references.as_slice();
        match self.parent {
            ParentReference::AsReported => reported[index],
            ParentReference::Made => with_made(self.span, index),
            ParentReference::MovedFirst(place) => swapped(reported, place, index),
        }
    }

    /// Returns its warning, by the delta of its clock.
    pub(crate) fn warning(&self, max_skew: u64, delta: i128) -> Option<Warning>
        ensures warning { result ≡ warning_of max_skew delta self.now.span }
        ensures can_move { CanMove result self.now.span }
    {
        Warning::of_delta(max_skew, delta, self.span)
    }

    /// Returns the start in microseconds since 1970.
    pub(crate) fn start(&self) -> i64
        ensures { result ≡ self.now.span.start }
    {
        self.span.start
    }

    /// Returns the duration in microseconds.
    pub(crate) fn duration(&self) -> i64
        ensures { result ≡ self.now.span.duration }
    {
        self.span.duration
    }

    /// Returns whether the delta of its clock moves it. Reads each of its logs, unless the delta is 0 or above the
    /// limit.
    pub(crate) fn is_moved(&self, max_skew: u64, delta: i128) -> bool
        ensures { result ≡ is_moved max_skew delta self.now.span }
    {
        match self.warning(max_skew, delta) {
            Some(Warning::Adjusted(_)) => true,
            Some(Warning::PastLimit { .. } | Warning::PastTimes(_)) | None => false,
        }
    }

    /// Returns its host, or an empty text.
    pub(crate) fn host(&self, alloc: Global) -> Result<Text, AllocError>
        ensures { IfOk result (λ t. t ≡ host_of self.now) }
    {
        host_named(alloc, self.process)
    }
}
