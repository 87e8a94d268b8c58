ghost use Rattle.std.specs.Prelude.{◌≡◌, IfOk, length};
ghost use Rattle.std.specs.List.{list_any};
ghost use Rattle.trace_model.specs.Searching.{matches, first_start};
ghost use Rattle.find_traces.specs.FoundIndices.{trace_at, id_at};

use jaeger_model::TraceId;
use std::alloc::{AllocError, Global};

/// A search, and traces that it judges one by one, wherever their spans are. A trace has an index among them; the
/// one opened first is at 0.
pub trait Searched {
    ghost use Rattle.std.specs.Prelude.{List};
    ghost use Rattle.jaeger_model.specs.declared.placed.Placed.{Placed as PlacedValue};
    ghost use Rattle.trace_model.specs.declared.query.Find.{Find as FindValue};

    /// The spans of each trace.
    ghost traces: { Self → List (List PlacedValue) };

    /// The search.
    ghost query: { Self → FindValue };

    /// Returns the limit of the search; 0 is no limit.
    fn limit(&self) -> u64
        ensures { result ≡ (query self.now).limit };

    /// Returns the number of traces.
    fn count(&self) -> usize
        ensures { result ≡ length (traces self.now) };

    /// Returns the start of the trace's first span, or 0 if there is none.
    fn start_at(&self, index: usize) -> i64
        ensures { result ≡ first_start (trace_at (traces self.now) index) };

    /// Returns the id of the trace's first span.
    fn id_at(&self, index: usize) -> Option<TraceId>
        ensures { result ≡ id_at (traces self.now) index };

    /// Returns whether one span of the trace meets every condition of the search. May cache results for the traces that
    /// are judged later.
    ///
    /// # Errors
    ///
    /// Out of memory, and nothing else.
    fn is_found_at(&mut self, alloc: Global, index: usize) -> Result<bool, AllocError>
        ensures found { IfOk result (λ found. found ≡
            list_any (matches (query self.old)) (trace_at (traces self.old) index)) }
        ensures same_traces { traces self.new ≡ traces self.old }
        ensures same_query { query self.new ≡ query self.old };
}
