//! The spans of a trace as they are shown, and which of them are known to share a process.

ghost use Rattle.std.specs.Prelude.{◌≡◌, ◌==◌, length};
ghost use Rattle.trace_model.specs.Adjusting.{spans_of};
ghost use Rattle.trace_model.specs.SharedProcesses.{ShareProcesses};

use crate::answer::Shown;
use jaeger_model::Seq;
use std::alloc::Global;
use std::marker::Model;

/// The spans of a trace as they are shown, with a key for each of the first of them. Spans with one key have one
/// process, so it need not be compared. Nothing else is known of a key. Contracts see the list of the spans.
#[derive(Debug, Drop)]
pub struct ShownTrace {
    spans: Seq<Shown>,
    process_keys: Vec<u64>,
}

impl Model for ShownTrace {
    ghost use Rattle.std.specs.Prelude.{List};
    ghost use Rattle.trace_model.specs.declared.answer.Shown.{Shown};
    ghost use Rattle.trace_model.specs.Adjusting.{spans_of};
    ghost use Rattle.trace_model.specs.SharedProcesses.{ShareProcesses};

    ghost Value = { List Shown };

    ghost view = { λ t. t.spans };

    ghost invariant = { λ t. ShareProcesses (spans_of t.spans) t.process_keys.items };
}

impl ShownTrace {
    /// Makes a trace of its spans, and of a key for each of the first of them. Allocates nothing.
    pub fn new(spans: Seq<Shown>, process_keys: Vec<u64>) -> ShownTrace
        requires { ShareProcesses (spans_of spans) process_keys.items }
        ensures { result ≡ spans }
    {
        ShownTrace {
            spans,
            process_keys,
        }
    }

    /// Makes a trace of spans without keys. Allocates nothing.
    pub fn without_keys(alloc: Global, spans: Seq<Shown>) -> ShownTrace
        ensures { result ≡ spans }
    {
        ShownTrace::new(spans, Vec::new(alloc))
    }

    /// Returns the spans.
    pub fn as_slice(&self) -> &[Shown]
        ensures { result.now ≡ self.now }
    {
        self.spans.as_slice()
    }

    /// Returns the keys of the first spans. Spans with one key have one process.
    pub fn process_keys(&self) -> &[u64]
        ensures { ShareProcesses (spans_of self.now) result.now }
    {
        &self.process_keys
    }

    /// Returns the number of spans.
    pub fn len(&self) -> usize
        ensures { result ≡ length self.now }
    {
        self.spans.len()
    }

    /// Returns whether there is no span.
    pub fn is_empty(&self) -> bool
        ensures { result ≡ (length self.now == 0) }
    {
        self.spans.is_empty()
    }
}
