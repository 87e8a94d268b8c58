//! A store with one owner as the backend of a session. Seat 0 submits every batch, and the store answers at once.
//!
//! Contracts see a [`Direct`] as its limits and its list of entries, and determine its answers. A batch is accepted as
//! the next entry of seat 0 if the store admits it, or if the store has it already. A query is answered from the
//! entries held.

ghost use Rattle.std.specs.Prelude.{◌≡◌, ◌≤◌, length};
ghost use Rattle.trace_model.specs.Histories.{last_number};

use jaeger_model::Batch;
use span_store::SpanStore;
use std::alloc::Global;
use std::marker::Model;
use std::sync::Arc;
use trace_model::{Answer, Backend, Query, Refusal};

/// A store with one owner.
#[derive(Drop)]
pub struct Direct {
    store: SpanStore,
}

impl Model for Direct {
    ghost use Rattle.std.specs.Prelude.{◌≤◌, length};
    ghost use Rattle.trace_model.specs.LimitedHistories.{LimitedHistory};
    ghost use Rattle.trace_model.specs.Histories.{IsLegal, last_number};

    ghost Value = { LimitedHistory };

    ghost view = { λ s. s.store };

    ghost invariant = { λ s. IsLegal s.store.limits s.store.entries
        × (last_number 0 s.store.entries ≤ length s.store.entries) };
}

impl Direct {
    /// Wraps the store. Its entries of seat 0 have no number above the number of entries, so the next number is free.
    pub fn new(store: SpanStore) -> Self
        requires { last_number 0 store.entries ≤ length store.entries }
        ensures { result ≡ store }
    {
        // For the prover: the invariant needs the clause `legal` of `len`.
        let _legal = store.len();
        Direct { store }
    }
}

impl<T> Backend<T> for Direct {
    ghost use Rattle.pipe_session.specs.DirectCalls.{DirectKnows, DirectSubmits, DirectReads};
    ghost use Rattle.pipe_session.specs.DirectLaws.{submit_knows, read_knows};

    ghost limits = { λ s. s.limits };

    ghost knows = { DirectKnows };

    ghost submits = { DirectSubmits };

    ghost reads = { DirectReads };

    ghost submit_knows = { submit_knows };

    ghost read_knows = { read_knows };

    fn submit(&mut self, _rt: &T, alloc: Global, batch: Batch) -> Result<u64, Refusal> {
        let entry = self.store.next_entry(batch);
        self.store.apply(Arc::new(alloc, entry)?)
    }

    fn read(&mut self, _alloc: Global, query: &Query) -> Result<Answer, Refusal> {
        self.store.answer(query)
    }
}
