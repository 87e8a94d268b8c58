//! A search whose candidates were collected from the store, and which judges them after the store is left.
ghost use Rattle.std.specs.Prelude.{◌≡◌, map, IfOk};
ghost use Rattle.trace_model.specs.Searching.{found_in, ids_of};
ghost use Rattle.trace_model.specs.TakenSpans.{placed_taken};
ghost use Rattle.collected_traces.specs.CollectedCandidates.{traces_spotted};
ghost use Rattle.collected_traces.specs.TakenTraces.{ShareByNumber};
ghost use Rattle.span_store.specs.FoundAnswers.{found_answer};

use collected_traces::{
    CollectedCandidates, TakenSearch, TakenTraces, find_taken, find_taken_ids, keep_all,
};
use find_traces::PreparedSearch;
use jaeger_model::{Seq, TraceId};
use std::alloc::{AllocError, Global};
use std::marker::Model;
use trace_model::{Answer, Limits};

/// A search, and candidate traces among which it finds the same as among all. Contracts see its answer.
#[derive(Drop)]
pub(crate) struct CollectedSearch<'q> {
    /// Whether only the ids of the traces are requested.
    ids_alone: bool,
    /// The limits of the store.
    limits: Limits,
    traces: CollectedCandidates<'q>,
}

impl<'q> Model for CollectedSearch<'q> {
    ghost use Rattle.trace_model.specs.declared.answer.Answer.{Answer};
    ghost use Rattle.collected_traces.specs.CollectedCandidates.{traces_spotted};
    ghost use Rattle.span_store.specs.FoundAnswers.{found_answer};

    ghost Value = { Answer };

    ghost view = { λ s.
        found_answer s.limits s.traces.query s.ids_alone (traces_spotted s.traces) };
}

/// Takes the traces that a search finds among candidates, in the order of its answer. The candidates are dropped, and
/// what was judged of them: the answer needs none of it, and gets its memory.
fn found_among(
    alloc: Global,
    candidates: CollectedCandidates<'_>,
    prepared: &PreparedSearch<'_>,
) -> Result<TakenTraces, AllocError>
    requires { prepared.now ≡ candidates.query }
    ensures found { IfOk result (λ ts. map placed_taken ts ≡
        found_in prepared.now (traces_spotted candidates.entry)) }
    ensures shared { IfOk result ShareByNumber }
{
    let mut search = TakenSearch::new(alloc, &candidates, prepared)?;
    // For the prover: the binding lets the clauses of `find_taken` be used for the result.
    let traces = find_taken(alloc, &mut search)?;
    Ok(traces)
}

/// Returns the ids of the traces that a search finds among candidates, in the order of its answer.
fn ids_among(
    alloc: Global,
    candidates: CollectedCandidates<'_>,
    prepared: &PreparedSearch<'_>,
) -> Result<Vec<TraceId>, AllocError>
    requires { prepared.now ≡ candidates.query }
    ensures { IfOk result (λ v. v.items ≡
        ids_of (found_in prepared.now (traces_spotted candidates.entry))) }
{
    let mut search = TakenSearch::new(alloc, &candidates, prepared)?;
    // For the prover: the binding lets the clauses of `find_taken_ids` be used for the result.
    let ids = find_taken_ids(alloc, &mut search)?;
    Ok(ids)
}

impl<'q> CollectedSearch<'q> {
    pub(crate) fn new(
        ids_alone: bool,
        limits: Limits,
        traces: CollectedCandidates<'q>,
    ) -> CollectedSearch<'q>
        ensures { result ≡
            found_answer limits traces.entry.query ids_alone (traces_spotted traces.entry) }
    {
        CollectedSearch {
            ids_alone,
            limits,
            traces,
        }
    }

    /// Computes what the search finds.
    pub(crate) fn answer(self, alloc: Global) -> Result<Answer, AllocError>
        ensures { IfOk result (λ a. a ≡ self.entry) }
    {
        let CollectedSearch {
            ids_alone,
            limits,
            traces: candidates,
        } = self;
        let prepared = PreparedSearch::new(alloc, candidates.query())?;
        if ids_alone {
            let ids = ids_among(alloc, candidates, &prepared)?;
            return Ok(Answer::Ids(Seq::from_vec(ids)));
        }
        let found = found_among(alloc, candidates, &prepared)?;
        let kept = keep_all(alloc, &found, limits.max_skew)?;
        Ok(Answer::Traces(Seq::from_vec(kept)))
    }
}
