ghost use Rattle.journal_traces.specs.Told.{AreTold, AreOperationsTold};
ghost use Rattle.std.proofs.Props.{props};

use crate::judging::Judging;
use crate::requested_numbers::RequestedNumbers;
use crate::spotted_spans::{first_id, first_start, is_found};
use crate::store_view::StoreView;
use find_traces::{PreparedSearch, Searched};
use jaeger_model::TraceId;
use std::alloc::{AllocError, Global};
use trace_assembly::Spots;

/// A search, and the traces that it considers, by the spots of their spans in the journal. Numbers tell which
/// entries are of its service, and which spans have its operation.
#[derive(Clone, Copy)]
pub struct CandidateSearch<'a> {
    pub store: StoreView<'a>,
    pub requested: RequestedNumbers,
    pub prepared: &'a PreparedSearch<'a>,
    /// The spots of each trace, those of the one opened first at the front.
    pub spots: &'a [Spots<'a>],
    pub ghost correct: { AreTold prepared.now store.journal.now.held.entries
        store.by_service.now.service_numbers requested.service } by { Prim.hlevel props },
    pub ghost operations: { AreOperationsTold prepared.now store.journal.now.held.entries
        store.names.now.numbers.firsts store.names.now.operation_rows
        requested.operation } by { Prim.hlevel props },
}

impl<'a> Searched for CandidateSearch<'a> {
    ghost use Rattle.journal_traces.specs.CandidateTraces.{traces_of, query_of};

    ghost traces = { traces_of };

    ghost query = { query_of };

    fn limit(&self) -> u64 {
        self.prepared.query().limit
    }

    fn count(&self) -> usize {
        self.spots.len()
    }

    fn start_at(&self, index: usize) -> i64 {
        match self.spots.get(index) {
            Some(spots) => first_start(self.store.journal, spots.duplicate()),
            // Impossible: a search asks for indices below `count`. No clause says so.
            None => 0,
        }
    }

    fn id_at(&self, index: usize) -> Option<TraceId> {
        match self.spots.get(index) {
            Some(spots) => first_id(self.store.journal, spots.duplicate()),
            // Impossible: as above.
            None => None,
        }
    }

    fn is_found_at(&mut self, alloc: Global, index: usize) -> Result<bool, AllocError> {
        match self.spots.get(index) {
            Some(spots) => {
                let judging = Judging::new(self.store, self.prepared, self.requested);
                is_found(alloc, &judging, spots.duplicate())
            }
            // Impossible: as above.
            None => Ok(false),
        }
    }
}
