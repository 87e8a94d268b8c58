//! The traces that a search found, collected from the store.
ghost use Rattle.std.specs.Prelude.{◌≡◌, IfOk, map};
ghost use Rattle.trace_model.specs.Adjusting.{adjusted};
ghost use Rattle.trace_model.specs.declared.answer.Answer.TheVariants as say;
ghost use Rattle.collected_traces.specs.TakenTraces.{ShareByNumber};
ghost use Rattle.trace_model.specs.TakenSpans.{placed_taken};

use collected_traces::{TakenTraces, keep_all};
use jaeger_model::Seq;
use std::alloc::{AllocError, Global};
use std::marker::Model;
use trace_model::{Answer, Limits};

/// Traces that were found, in the order of the answer. Contracts see the answer.
#[derive(Drop)]
pub(crate) struct FoundTraces {
    /// The limits of the store.
    limits: Limits,
    traces: TakenTraces,
}

impl Model for FoundTraces {
    ghost use Rattle.std.specs.Prelude.{map};
    ghost use Rattle.trace_model.specs.Adjusting.{adjusted};
    ghost use Rattle.trace_model.specs.declared.answer.Answer.{Answer};
    ghost use Rattle.trace_model.specs.declared.answer.Answer.TheVariants as say;
    ghost use Rattle.collected_traces.specs.TakenTraces.{ShareByNumber};
    ghost use Rattle.trace_model.specs.TakenSpans.{placed_taken};

    ghost Value = { Answer };

    ghost view = { λ f. say.Traces (map (adjusted f.limits.max_skew) (map placed_taken f.traces)) };

    ghost invariant = { λ f. ShareByNumber f.traces };
}

impl FoundTraces {
    pub(crate) fn new(limits: Limits, traces: TakenTraces) -> FoundTraces
        requires { ShareByNumber traces }
        ensures { result ≡
            say.Traces (map (adjusted limits.max_skew) (map placed_taken traces)) }
    {
        FoundTraces { limits, traces }
    }

    /// Returns the traces as they are to be shown.
    pub(crate) fn answer(self, alloc: Global) -> Result<Answer, AllocError>
        ensures { IfOk result (λ a. a ≡ self) }
    {
        let kept = keep_all(alloc, &self.traces, self.limits.max_skew)?;
        Ok(Answer::Traces(Seq::from_vec(kept)))
    }
}
