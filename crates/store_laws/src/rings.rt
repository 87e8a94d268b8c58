//! Facts about rings, shown spans and found traces. Each function does nothing, and its contract is the fact.

ghost use Rattle.std.specs.Prelude.{◌≡◌, ◌<◌, ◌≤◌, ℕ, List, [], ◌∷◌, ◌++◌, length, map, fold, true, false, Some, None, if◌then◌else◌};
ghost use Rattle.std.specs.List.{All, IsDistinct, list_all, list_any};
ghost use Rattle.jaeger_model.specs.Parents.{same_trace};
ghost use Rattle.jaeger_model.specs.declared.placed.Placed.{Placed as PlacedValue};
ghost use Rattle.jaeger_model.specs.declared.ids.TraceId.{TraceId as TraceIdValue};
ghost use Rattle.trace_model.specs.Rings.{arrive, holds, newest};
ghost use Rattle.trace_model.specs.Events.{Event, came, limited, without_limits};
ghost use Rattle.trace_model.specs.LimitTerms.{limits_none, comes_for};
ghost use Rattle.trace_model.specs.ShownSpans.{trace_of, ring, limit_after, shown, spans_of_trace, of_trace, trace_found};
ghost use Rattle.store_laws.specs.Subsequences.{IsSubsequence};

/// A late span does not renew its trace.
pub fn late_span_renews_nothing()
    ensures { (n : ℕ) (es : List (Event PlacedValue)) (p : PlacedValue) →
        holds (ring n es) (trace_of p) ≡ true → ring n (es ++ came p ∷ []) ≡ ring n es }
{}

/// A span of a trace that left the ring opens it again, with that span alone.
#[tactic(auto, using(trace_model::proofs::ShownOfTrace::opened_alone))]
pub fn opened_anew_with_one_span()
    ensures { (n : ℕ) (es : List (Event PlacedValue)) (p : PlacedValue) →
        holds (ring n es) (trace_of p) ≡ false →
        spans_of_trace n (es ++ came p ∷ []) (trace_of p) ≡ p ∷ [] }
{}

/// If no limit is set, every span that arrived is shown.
#[tactic(auto, using(trace_model::proofs::ShownOfTrace::shown_all))]
pub fn no_limit_keeps_all()
    ensures { (es : List (Event PlacedValue)) → list_all limits_none es ≡ true →
        shown 0 es ≡ without_limits es }
{}

/// After a span arrives, a trace keeps its spans and gains its own new one as long as it is in the ring; it loses
/// all of them when it leaves.
#[tactic(auto, using(trace_model::proofs::ShownOfTrace::spans_push))]
pub fn spans_since_opened()
    ensures { (n : ℕ) (es : List (Event PlacedValue)) (p : PlacedValue) (t : TraceIdValue) →
        spans_of_trace n (es ++ came p ∷ []) t ≡
        (if holds (ring n (es ++ came p ∷ [])) t then spans_of_trace n es t
        ++ of_trace t (p ∷ []) else []) }
{}

/// After a limit is set, the ring has that number of newest traces, in the same order; all of them if the limit is
/// 0.
#[tactic(auto, using(trace_model::proofs::ShownByEvents::ring_limited))]
pub fn newest_stay_at_a_limit()
    ensures { (n : ℕ) (es : List (Event PlacedValue)) (m : ℕ) →
        ring n (es ++ limited m ∷ []) ≡ newest m (ring n es) }
{}

/// After a limit is set, the traces that stay keep their shown spans, and the others have none.
#[tactic(auto, using(trace_model::proofs::ShownOfTrace::spans_limited))]
pub fn spans_stay_at_a_limit()
    ensures { (n : ℕ) (es : List (Event PlacedValue)) (m : ℕ) (t : TraceIdValue) →
        spans_of_trace n (es ++ limited m ∷ []) t ≡
        (if holds (newest m (ring n es)) t then spans_of_trace n es t else []) }
{}

/// A trace that left, or never arrived, is not in the ring before one of its spans arrives, whatever limits are
/// set.
#[tactic(auto, using(trace_model::proofs::ShownOfTrace::stays_out))]
pub fn left_trace_stays_out()
    ensures { (n : ℕ) (es : List (Event PlacedValue)) (t : TraceIdValue)
        (more : List (Event PlacedValue)) → list_any (comes_for t) more ≡ false →
        holds (ring n es) t ≡ false → holds (ring n (es ++ more)) t ≡ false }
{}

/// A trace that left shows no span before one of its spans arrives.
#[tactic(auto, using(trace_model::proofs::ShownOfTrace::none_shown))]
pub fn left_trace_shows_nothing()
    ensures { (n : ℕ) (es : List (Event PlacedValue)) (t : TraceIdValue)
        (more : List (Event PlacedValue)) → list_any (comes_for t) more ≡ false →
        holds (ring n es) t ≡ false → spans_of_trace n (es ++ more) t ≡ [] }
{}

/// The current limit is the last one that was set, or that of the opening if none was.
#[tactic(auto, using(trace_model::proofs::ShownByEvents::limit_came, trace_model::proofs::ShownByEvents::limit_limited))]
pub fn limit_in_force()
    ensures opening { (n : ℕ) → limit_after n [] ≡ n }
    ensures arrival { (n : ℕ) (es : List (Event PlacedValue)) (p : PlacedValue) →
        limit_after n (es ++ came p ∷ []) ≡ limit_after n es }
    ensures set { (n : ℕ) (es : List (Event PlacedValue)) (m : ℕ) →
        limit_after n (es ++ limited m ∷ []) ≡ m }
{}

/// A limit that no trace passes changes nothing at once, neither the ring nor the shown spans of a trace.
#[tactic(auto, using(crate::proofs::RingFacts::raised_ring, crate::proofs::RingFacts::raised_spans))]
pub fn raising_changes_nothing_at_once()
    ensures ring { (n : ℕ) (es : List (Event PlacedValue)) (m : ℕ) →
        (0 < m → length (ring n es) ≤ m) → ring n (es ++ limited m ∷ []) ≡ ring n es }
    ensures shown { (n : ℕ) (es : List (Event PlacedValue)) (m : ℕ) (t : TraceIdValue) →
        (0 < m → length (ring n es) ≤ m) →
        spans_of_trace n (es ++ limited m ∷ []) t ≡ spans_of_trace n es t }
{}

/// If no limit is set, the ring is that of the arrivals under the opening's limit.
#[tactic(auto, using(crate::proofs::RingFacts::arrivals_alone))]
pub fn without_limits_one_arrives_after_the_other()
    ensures { (n : ℕ) (ps : List PlacedValue) →
        ring n (map came ps) ≡ fold (arrive n) [] (map trace_of ps) }
{}

/// No trace is in the ring twice.
#[tactic(auto, using(crate::proofs::RingFacts::ring_distinct))]
pub fn ring_holds_each_once()
    ensures { (n : ℕ) (es : List (Event PlacedValue)) → IsDistinct same_trace (ring n es) }
{}

/// With a limit, the ring is no longer than the current limit.
#[tactic(auto, using(trace_model::proofs::ShownOfTrace::ring_within))]
pub fn ring_within_limit()
    ensures { (n : ℕ) (es : List (Event PlacedValue)) → 0 < limit_after n es →
        length (ring n es) ≤ limit_after n es }
{}

/// A trace of the ring is found with its shown spans, and has some.
#[tactic(auto, using(crate::proofs::RingFacts::found))]
pub fn trace_of_ring_is_found()
    ensures { (n : ℕ) (es : List (Event PlacedValue)) (t : TraceIdValue) →
        holds (ring n es) t ≡ true → trace_found n es t ≡ Some (spans_of_trace n es t) }
{}

/// A trace that is not in the ring is not found.
#[tactic(auto, using(crate::proofs::RingFacts::not_found))]
pub fn other_trace_is_not_found()
    ensures { (n : ℕ) (es : List (Event PlacedValue)) (t : TraceIdValue) →
        holds (ring n es) t ≡ false → trace_found n es t ≡ None }
{}

/// No trace is found empty.
#[tactic(auto, using(crate::proofs::RingFacts::found_some))]
pub fn found_trace_has_spans()
    ensures { (n : ℕ) (es : List (Event PlacedValue)) (t : TraceIdValue)
        (spans : List PlacedValue) →
        trace_found n es t ≡ Some spans → 0 < length spans }
{}

/// The spans found are spans of that trace.
#[tactic(auto, using(crate::proofs::RingFacts::found_own))]
pub fn found_spans_are_its_own()
    ensures { (n : ℕ) (es : List (Event PlacedValue)) (t : TraceIdValue)
        (spans : List PlacedValue) →
        trace_found n es t ≡ Some spans → All (λ p. trace_of p ≡ t) spans }
{}

/// The spans found are in the order of their arrival.
#[tactic(auto, using(crate::proofs::RingFacts::found_subsequence))]
pub fn found_spans_keep_their_order()
    ensures { (n : ℕ) (es : List (Event PlacedValue)) (t : TraceIdValue)
        (spans : List PlacedValue) →
        trace_found n es t ≡ Some spans → IsSubsequence spans (without_limits es) }
{}
