//! Traces whose spans were collected from a store.

ghost use Rattle.std.specs.Prelude.{◌≡◌, List, [], ◌∷◌, ◌++◌, IfOk, OnOk, length, slice_index_or};
ghost use Rattle.trace_model.specs.TakenSpans.{Taken};

use crate::trace_parts::trace_part;
use std::alloc::{AllocError, Global};
use std::marker::Model;
use trace_model::{TakenSpan, push_tightly};

/// The spans of some traces, collected from a store, so that they can be read after the store is left: their
/// entries are shared. Contracts see the traces, each with its taken spans.
#[derive(Drop)]
pub struct TakenTraces {
    /// The spans of all traces, one trace after the other.
    spans: Vec<TakenSpan>,
    /// For each trace the number of spans before its first one.
    starts: Vec<usize>,
}

impl Model for TakenTraces {
    ghost use Rattle.std.specs.Prelude.{List, length};
    ghost use Rattle.trace_model.specs.TakenSpans.{Taken};
    ghost use Rattle.collected_traces.specs.TraceParts.{cut_at, AreStarts};

    ghost Value = { List (List Taken) };

    ghost view = { λ t. cut_at t.spans.items t.starts.items };

    ghost invariant = { λ t. AreStarts (length t.spans.items) t.starts.items };
}

impl TakenTraces {
    /// Makes an empty list with room for this number of traces, and of spans of all of them. It grows if there are
    /// more.
    ///
    /// # Errors
    ///
    /// Out of memory, and nothing else.
    pub fn with_capacity(
        alloc: Global,
        traces: usize,
        spans: usize,
    ) -> Result<TakenTraces, AllocError>
        ensures { IfOk result (λ ts. ts ≡ []) }
    {
        let starts = Vec::with_capacity(alloc, traces)?;
        let spans = Vec::with_capacity(alloc, spans)?;
        Ok(TakenTraces { spans, starts })
    }

    /// Returns the number of traces.
    pub fn count(&self) -> usize
        ensures { result ≡ length self.now }
    {
        self.starts.len()
    }

    /// Returns the spans of the trace at an index, which counts from 0; none if there is no such trace.
    pub fn trace(&self, index: usize) -> &[TakenSpan]
        ensures { result.now ≡ slice_index_or self.now index [] }
    {
        trace_part(&self.spans, &self.starts, index)
    }

    /// Appends a trace with no spans.
    ///
    /// # Errors
    ///
    /// Out of memory, and nothing else.
    pub fn begin(&mut self) -> Result<(), AllocError>
        ensures { OnOk result (self.new ≡ self.old ++ [] ∷ []) }
    {
        let start = self.spans.len();
        self.starts.push(start)?;
        Ok(())
    }

    /// Appends a span to the last trace.
    ///
    /// # Errors
    ///
    /// Out of memory, and nothing else.
    pub fn push(&mut self, span: TakenSpan) -> Result<(), AllocError>
        ensures { OnOk result ((ts : List (List Taken)) (t : List Taken) →
            self.old ≡ ts ++ t ∷ [] → self.new ≡ ts ++ (t ++ span ∷ []) ∷ []) }
    {
        push_tightly(&mut self.spans, span)?;
        Ok(())
    }
}
