//! Facts about the definitions. Each function does nothing, and its contract is the fact.

ghost use Rattle.std.specs.Prelude.{◌≡◌, ◌+◌, ℕ, List, [], ◌∷◌, ◌++◌, map, length, Some, Option, if◌then◌else◌};
ghost use Rattle.jaeger_model.specs.declared.placed.Placed.{Placed as PlacedValue};
ghost use Rattle.jaeger_model.specs.declared.ids.TraceId.{TraceId as TraceIdValue};
ghost use Rattle.trace_model.specs.declared.entry.Entry.{Entry};
ghost use Rattle.trace_model.specs.Histories.{arrivals};
ghost use Rattle.trace_model.specs.Rings.{holds};
ghost use Rattle.trace_model.specs.ShownSpans.{ring, spans_of_trace};
ghost use Rattle.trace_model.specs.Events.{Event, came, limited, without_limits};
ghost use Rattle.trace_model.specs.Histories.{events};
ghost use Rattle.trace_assembly.specs.declared.spot.Spot.{Spot as SpotValue};
ghost use Rattle.trace_assembly.specs.LocatedSpans.{located_by, located_events, events_in, span_at, spots_in};
ghost use Rattle.trace_assembly.specs.LocatedSpans.{shown_spots, with_event, without_evicted, after_arrival};
ghost use Rattle.trace_assembly.specs.LocatedSpans.{AreShown, ComesIn, Lowers};

/// The spans at the spots of a history, in order, are its arrivals.
#[tactic(auto, using(crate::proofs::LocatedEvents::spans_at_located_law))]
pub fn spots_name_the_arrivals()
    ensures { (h : List Entry) → map (span_at h) (spots_in (without_limits (located_events h))) ≡
        map (λ p. Some p) (arrivals h) }
{}

/// One more entry adds its events: the spans of a batch, each at the entry's place and its own index, or a limit.
#[tactic(auto, using(crate::proofs::LocatedEvents::located_push_law))]
pub fn an_entry_adds_its_spans()
    ensures { (h : List Entry) (e : Entry) →
        located_events (h ++ e ∷ []) ≡ located_events h ++ located_by (length h + 1) e.work }
{}

/// After an event a trace in the ring keeps its spots and gains its own new one. Any other trace has none.
#[tactic(auto, using(crate::proofs::SpotEvents::shown_spots_push_law))]
pub fn spots_since_opened()
    ensures { (n : ℕ) (es : List (Event (SpotValue × PlacedValue)))
        (e : Event (SpotValue × PlacedValue)) (t : TraceIdValue) →
        shown_spots n (es ++ e ∷ []) t ≡
        (if holds (ring n (events_in (es ++ e ∷ []))) t then with_event e
        (shown_spots n es) t else []) }
{}

/// If the spots of each trace are those of its shown spans, they still are after the spots of the trace that leaves
/// are removed and the new spot is added.
#[tactic(auto, using(crate::proofs::SpotEvents::comes_in_law))]
pub fn fed_as_the_ring_says()
    ensures { (n limit : ℕ) (es : List (Event (SpotValue × PlacedValue)))
        (l : SpotValue × PlacedValue) (left : Option TraceIdValue) (old new : List TraceIdValue)
        (spots : TraceIdValue → List SpotValue) → ComesIn n limit es l left old new →
        AreShown n es spots → AreShown n (es ++ came l ∷ []) (after_arrival l left spots) }
{}

/// If the spots of each trace are those of its shown spans, they still are after the spots of the traces that leave
/// at a limit are removed.
#[tactic(auto, using(crate::proofs::SpotEvents::lowers_law))]
pub fn lowered_as_the_ring_says()
    ensures { (n m : ℕ) (es : List (Event (SpotValue × PlacedValue)))
        (old new : List TraceIdValue) (spots : TraceIdValue → List SpotValue) →
        Lowers n m es old new → AreShown n es spots →
        AreShown n (es ++ limited m ∷ []) (without_evicted old new spots) }
{}

/// The spans at a trace's shown spots are its shown spans, in the order of their arrival.
#[tactic(auto, using(crate::proofs::SpotEvents::spans_at_shown_law))]
pub fn shown_spots_name_the_shown_spans()
    ensures { (n : ℕ) (h : List Entry) (t : TraceIdValue) →
        map (span_at h) (shown_spots n (located_events h) t) ≡
        map (λ p. Some p) (spans_of_trace n (events h) t) }
{}
