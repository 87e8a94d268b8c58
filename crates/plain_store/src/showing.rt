//! The ring of traces and the spans that are shown, computed from all events.

ghost use Rattle.std.specs.Prelude.{◌≡◌, ℕ, List, [], ◌∷◌, ◌++◌, IfOk, map};
ghost use Rattle.std.specs.List.{list_any};
ghost use Rattle.jaeger_model.specs.declared.placed.Placed.{Placed as PlacedValue};
ghost use Rattle.plain_store.specs.Events.{event_of, in_ring, Shows};
ghost use Rattle.trace_model.specs.Events.{Event};
ghost use Rattle.trace_model.specs.Rings.{holds, arrive, newest};
ghost use Rattle.trace_model.specs.Searching.{traces};
ghost use Rattle.trace_model.specs.ShownSpans.{of_trace, trace_of};

use jaeger_model::{Placed, Seq, TraceId};
use std::alloc::{AllocError, Global};

/// Returns whether the trace is in the ring.
fn is_held(ring: &[TraceId], trace: TraceId) -> bool
    ensures { result ≡ holds ring.now trace }
{
    ring.iter().any(|t| trace == *t)
}

/// Keeps only the newest traces, or all if the limit is 0.
fn keep_newest(ring: &mut Vec<TraceId>, limit: u32)
    ensures { ring.new.items ≡ newest limit ring.old.items }
{
    if limit != 0 {
        let limit = limit as usize;
        let leaving = ring.len().saturating_sub(limit);
        ring.drain(..leaving);
    }
}

/// Updates the ring after a span of the trace has arrived.
fn arrive(ring: &mut Vec<TraceId>, limit: u32, trace: TraceId) -> Result<(), AllocError>
    ensures { IfOk result (λ _. ring.new.items ≡ arrive limit ring.old.items trace) }
{
    if is_held(ring, trace) {
        return Ok(());
    }
    ring.push(trace)?;
    keep_newest(ring, limit);
    Ok(())
}

/// An event of a store.
#[derive(Drop)]
pub(crate) enum StoreEvent {
    /// A span arrived.
    Came(Placed),
    /// A limit was set: from then on this number of newest traces stays, or all if it is 0.
    Limited(u32),
}

/// What is shown after some of the events.
#[derive(Drop)]
pub(crate) struct Showing {
    /// The limit of traces; 0 is none.
    limit: u32,
    /// The newest traces, the one opened first at the front.
    pub(crate) ring: Vec<TraceId>,
    /// The spans that are shown, in the order of their arrival.
    pub(crate) spans: Vec<Placed>,
}

impl Showing {
    /// Keeps only the spans of the traces in the ring.
    fn keep_held(&mut self)
        ensures limit { self.new.limit ≡ self.old.limit }
        ensures ring { self.new.ring ≡ self.old.ring }
        ensures spans { self.new.spans.items ≡ in_ring self.old.ring.items self.old.spans.items }
    {
        let ring = &self.ring;
        self.spans.retain(|p| is_held(ring, p.span.trace));
    }

    /// Adds a span that arrives.
    fn add_span(&mut self, placed: Placed) -> Result<(), AllocError>
        ensures limit { IfOk result (λ _. self.new.limit ≡ self.old.limit) }
        ensures ring { IfOk result (λ _. self.new.ring.items ≡
            arrive self.old.limit self.old.ring.items (trace_of placed)) }
        ensures spans { IfOk result (λ _. self.new.spans.items ≡
            in_ring self.new.ring.items (self.old.spans.items ++ placed ∷ [])) }
    {
        arrive(&mut self.ring, self.limit, placed.span.trace)?;
        self.spans.push(placed)?;
        self.keep_held();
        Ok(())
    }

    /// Sets the limit.
    fn set_limit(&mut self, limit: u32)
        ensures limit { self.new.limit ≡ limit }
        ensures ring { self.new.ring.items ≡ newest limit self.old.ring.items }
        ensures spans { self.new.spans.items ≡ in_ring self.new.ring.items self.old.spans.items }
    {
        self.limit = limit;
        keep_newest(&mut self.ring, limit);
        self.keep_held();
    }

    /// Applies one more event.
    fn apply(&mut self, event: StoreEvent) -> Result<(), AllocError>
        ensures { IfOk result (λ _. (n : ℕ) (es : List (Event PlacedValue)) →
            Shows n es self.old → Shows n (es ++ event_of event ∷ []) self.new) }
    {
        match event {
            StoreEvent::Came(placed) => self.add_span(placed),
            StoreEvent::Limited(limit) => {
                self.set_limit(limit);
                Ok(())
            }
        }
    }
}

/// Returns what is shown after all of these events, if the limit was this one before them; 0 is none.
pub(crate) fn all_shown(
    alloc: Global,
    happened: Vec<StoreEvent>,
    limit: u32,
) -> Result<Showing, AllocError>
    ensures { IfOk result (λ s. Shows limit (map event_of happened.items) s) }
{
    let mut showing = Showing {
        limit,
        ring: Vec::new(alloc),
        spans: Vec::new(alloc),
    };
    for event in happened {
        showing.apply(event)?;
    }
    Ok(showing)
}

/// Keeps the spans of one trace.
pub(crate) fn keep_trace(mut spans: Vec<Placed>, id: TraceId) -> Vec<Placed>
    ensures { result.items ≡ of_trace id spans.items }
{
    spans.retain(|p| id == p.span.trace);
    spans
}

/// Copies the spans of one trace.
fn copy_trace(alloc: Global, spans: &[Placed], id: TraceId) -> Result<Seq<Placed>, AllocError>
    ensures { IfOk result (λ s. s ≡ of_trace id spans.now) }
{
    let mut own = Vec::new(alloc);
    for placed in spans {
        if id == placed.span.trace {
            own.push(placed.clone()?)?;
        }
    }
    Ok(Seq::from_vec(own))
}

/// Returns the traces that are shown after all of these events, the one opened first at the front.
pub(crate) fn shown_traces(
    alloc: Global,
    happened: Vec<StoreEvent>,
    limit: u32,
) -> Result<Vec<Seq<Placed>>, AllocError>
    ensures { IfOk result (λ v. v.items ≡ traces limit (map event_of happened.items)) }
{
    let Showing { ring, spans, .. } = all_shown(alloc, happened, limit)?;
    let mut all = Vec::new(alloc);
    for id in &ring {
        all.push(copy_trace(alloc, &spans, *id)?)?;
    }
    Ok(all)
}
