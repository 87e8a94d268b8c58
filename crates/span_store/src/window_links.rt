//! The links between services in a window of time, after its traces were collected from the store.
ghost use Rattle.std.specs.Prelude.{◌≡◌, IfOk, map};
ghost use Rattle.trace_model.specs.declared.answer.Answer.TheVariants as say;
ghost use Rattle.call_links.specs.NumberedCalls.{links_in, AreServicesNumbered};
ghost use Rattle.trace_model.specs.TakenSpans.{placed_taken};

use call_links::LinkCounts;
use jaeger_model::Seq;
use journal_traces::WindowTraces;
use std::alloc::{AllocError, Global};
use std::marker::Model;
use trace_model::{Answer, Link};

/// The traces of a window of time, whose spans have the numbers of their services. Contracts see the answer: the
/// links between services in these traces.
#[derive(Drop)]
pub(crate) struct WindowLinks {
    traces: WindowTraces,
}

impl Model for WindowLinks {
    ghost use Rattle.std.specs.Prelude.{map};
    ghost use Rattle.trace_model.specs.declared.answer.Answer.{Answer};
    ghost use Rattle.trace_model.specs.declared.answer.Answer.TheVariants as say;
    ghost use Rattle.call_links.specs.NumberedCalls.{links_in, AreServicesNumbered};
    ghost use Rattle.trace_model.specs.TakenSpans.{placed_taken};

    ghost Value = { Answer };

    ghost view = { λ w. say.Links (links_in (map placed_taken w.traces)) };

    ghost invariant = { λ w. AreServicesNumbered w.traces };
}

/// Counts the calls between services in traces that were collected.
fn links_of(alloc: Global, traces: &WindowTraces) -> Result<Vec<Link>, AllocError>
    requires { AreServicesNumbered traces.now }
    ensures { IfOk result (λ v. v.items ≡ links_in (map placed_taken traces.now)) }
{
    let mut counts = LinkCounts::new(alloc);
    for index in 0..traces.count() {
        let spans = traces.spans(alloc, index)?;
        counts.add(alloc, &spans)?;
    }
    // For the prover: the binding lets the clauses of `finish` be used for the result.
    let links = counts.finish(alloc)?;
    Ok(links)
}

impl WindowLinks {
    pub(crate) fn new(traces: WindowTraces) -> WindowLinks
        requires { AreServicesNumbered traces }
        ensures { result ≡ say.Links (links_in (map placed_taken traces)) }
    {
        WindowLinks { traces }
    }

    /// Computes the links between services.
    pub(crate) fn answer(self, alloc: Global) -> Result<Answer, AllocError>
        ensures { IfOk result (λ a. a ≡ self) }
    {
        let links = links_of(alloc, &self.traces)?;
        Ok(Answer::Links(Seq::from_vec(links)))
    }
}
