//! Each refusal of a store has its response.

use crate::tests::sessions::{AMPLE, closed_by_client, joined, played_over};
use jaeger_model::Batch;
use std::alloc::Global;
use std::mem::drop;
use std::test::*;
use trace_model::{Answer, Backend, Limits, Query, Refusal};
use trace_samples::exchanges::{BATCH, CONFLICT, JOURNAL_FULL, POST, SERVICES};

/// A store that refuses each batch and each query for one reason.
#[derive(Drop)]
struct Refusing {
    limits: Limits,
    why: Refusal,
}

impl<T> Backend<T> for Refusing {
    ghost use Rattle.session_tests.specs.RefusingStoreLaws.{KnowsNothing, Refuses, refused_submit, refused_read};

    ghost limits = { λ s. s.limits };

    ghost knows = { KnowsNothing };

    ghost submits = { λ s b r t. Refuses s s.why r t };

    ghost reads = { λ s q r t. Refuses s s.why r t };

    ghost submit_knows = { λ s b r t e. refused_submit _ s t b r s.why e };

    ghost read_knows = { λ s q r t e. refused_read _ s t q r s.why e };

    fn submit(&mut self, _rt: &T, _alloc: Global, batch: Batch) -> Result<u64, Refusal> {
        drop(batch);
        Err(self.why)
    }

    fn read(&mut self, _alloc: Global, _query: &Query) -> Result<Answer, Refusal> {
        Err(self.why)
    }
}

const DEFERRED: &[u8] =
    b"HTTP/1.1 503 Service Unavailable\r\nContent-Type: application/json\r\nContent-Length: 85\r\n\r\n\
        {\"data\":null,\"errors\":[{\"code\":503,\"msg\":\"deferred\"}],\"limit\":0,\"offset\":0,\"total\":0}";

const BUSY: &[u8] =
    b"HTTP/1.1 503 Service Unavailable\r\nContent-Type: application/json\r\nContent-Length: 81\r\n\r\n\
        {\"data\":null,\"errors\":[{\"code\":503,\"msg\":\"busy\"}],\"limit\":0,\"offset\":0,\"total\":0}";

const CLOSED: &[u8] =
    b"HTTP/1.1 503 Service Unavailable\r\nContent-Type: application/json\r\nContent-Length: 83\r\n\r\n\
        {\"data\":null,\"errors\":[{\"code\":503,\"msg\":\"closed\"}],\"limit\":0,\"offset\":0,\"total\":0}";

pub(crate) const NO_MEMORY: &[u8] =
    b"HTTP/1.1 500 Internal Server Error\r\nContent-Type: application/json\r\nContent-Length: 90\r\n\r\n\
        {\"data\":null,\"errors\":[{\"code\":500,\"msg\":\"out of memory\"}],\"limit\":0,\"offset\":0,\"total\":0}";

const INTERNAL: &[u8] =
    b"HTTP/1.1 500 Internal Server Error\r\nContent-Type: application/json\r\nContent-Length: 91\r\n\r\n\
        {\"data\":null,\"errors\":[{\"code\":500,\"msg\":\"internal error\"}],\"limit\":0,\"offset\":0,\"total\":0}";

/// A refusal, and the response to what was refused.
type Row = (Refusal, &'static [u8]);

const ROWS: [Row; 11] = [
    (
        Refusal::JournalFull {
            batches: 1,
            spans: 2,
        },
        JOURNAL_FULL,
    ),
    (Refusal::Stale { last: 1 }, INTERNAL),
    (Refusal::NoMemory, NO_MEMORY),
    (Refusal::Deferred, DEFERRED),
    (Refusal::Busy, BUSY),
    (Refusal::Closed, CLOSED),
    (Refusal::Stranger, INTERNAL),
    (Refusal::NoReply, INTERNAL),
    (Refusal::Behind { front: 1 }, INTERNAL),
    (Refusal::Conflict { place: 1 }, CONFLICT),
    (Refusal::Gone, INTERNAL),
];

/// Returns whether a batch and a query that are refused so are each answered by this response.
fn is_answered(alloc: Global, row: &Row) -> Result<bool, Fail> {
    let (why, response) = *row;
    let bytes = joined(alloc, &[POST, BATCH, SERVICES])?;
    let wanted = joined(alloc, &[response, response])?;
    let limits = Limits::new(1, 1, 0, 0).ok_or("limits")?;
    let mut store = Refusing { limits, why };
    let (ended, output) = played_over(alloc, &mut store, &bytes, AMPLE);
    Ok(ended == closed_by_client(2) && output.as_slice() == wanted.as_slice())
}

#[test]
fn each_refusal_is_answered(rt: HostRuntime) -> Result<(), Fail> {
    for row in &ROWS {
        assert!(rt; is_answered(rt.alloc(), row)?);
    }
    Ok(())
}
