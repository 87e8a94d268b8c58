//! A session over a store, with the devices that a test chooses. All tests call `session` by [`run`], and open a
//! store by [`empty_store`]: each call of such a function in a new place takes long to prove.

ghost use Rattle.std.specs.Prelude.{◌≡◌, false};

use http_session::{EndReason, Ended, SessionError, SessionErrorKind, session};
use pipe_session::Direct;
use session_devices::{Input, MemoryInput, MemoryOutput, Output};
use span_store::SpanStore;
use std::alloc::Global;
use std::hash::RandomState;
use std::mem::drop;
use std::test::*;
use trace_model::{Backend, Limits};
use trace_samples::exchanges::TRACE;

/// How a session ended.
pub(crate) type End = Result<Ended, SessionError>;

/// The end of a session that wrote this number of responses and reached the end of its input.
pub(crate) fn closed_by_client(answered: u64) -> End {
    Ok(Ended {
        answered,
        reason: EndReason::ClosedByClient,
    })
}

/// The end of a session whose first response closed it.
pub(crate) fn closed_by_response() -> End {
    Ok(Ended {
        answered: 1,
        reason: EndReason::ClosedByResponse,
    })
}

/// The end of a session that wrote this number of responses, and could read no further request.
pub(crate) fn unread(answered: u64) -> End {
    Err(SessionError {
        answered,
        written: 0,
        cause: SessionErrorKind::Reading,
    })
}

/// The end of a session that wrote this number of responses, and of the next one no more than this number of bytes.
pub(crate) fn unwritten(answered: u64, written: u64) -> End {
    Err(SessionError {
        answered,
        written,
        cause: SessionErrorKind::Writing,
    })
}

/// Concatenates the parts.
pub(crate) fn joined(alloc: Global, parts: &[&[u8]]) -> Result<Vec<u8>, Fail> {
    Ok(parts.concat(alloc)?)
}

/// How the devices of a session behave.
#[derive(Clone, Copy)]
pub(crate) struct Devices {
    /// The number of bytes that a read returns at most.
    pub(crate) step: usize,
    /// The read that fails, counted from 1; none if it is 0.
    pub(crate) fails_at: u64,
    /// The number of bytes that a write takes at most.
    pub(crate) taken: usize,
    /// The number of bytes after which each write fails.
    pub(crate) room: usize,
}

/// Devices that don't fail, and read and write much at once.
pub(crate) const AMPLE: Devices = Devices {
    step: 10_000,
    fails_at: 0,
    taken: 10_000,
    room: 10_000_000,
};

/// Answers the requests of an input over a store.
pub(crate) fn run<R: Input, W: Output, B: Backend<()>>(
    alloc: Global,
    input: &mut R,
    output: &mut W,
    store: &mut B,
) -> End
    requires input_works { R.has_failed input.old ≡ false }
    requires output_works { W.has_failed output.old ≡ false }
{
    session(&(), alloc, input, output, store)
}

/// Answers the requests in these bytes over a store. Returns how the session ended, and its output.
pub(crate) fn played_over<B: Backend<()>>(
    alloc: Global,
    store: &mut B,
    bytes: &[u8],
    devices: Devices,
) -> (End, MemoryOutput) {
    let mut input = MemoryInput::new(bytes, devices.step, devices.fails_at);
    let mut output = MemoryOutput::new(alloc, devices.room, devices.taken);
    let ended = run(alloc, &mut input, &mut output, store);
    (ended, output)
}

/// Opens a store for this number of batches and of spans.
pub(crate) fn store_for(
    alloc: Global,
    keys: RandomState,
    batches: u32,
    spans: u32,
) -> Result<Direct, Fail> {
    let limits = Limits::new(batches, spans, 0, 0).ok_or("limits")?;
    Ok(Direct::new(SpanStore::open(alloc, keys, limits)?))
}

/// Opens a store for ten batches.
pub(crate) fn empty_store(alloc: Global, keys: RandomState) -> Result<Direct, Fail> {
    store_for(alloc, keys, 10, 100)
}

/// What a session over an empty store did.
#[derive(Drop)]
pub(crate) struct Observed {
    /// How it ended.
    pub(crate) ended: End,
    /// What it wrote.
    pub(crate) output: MemoryOutput,
    /// What a session after it wrote that asked for trace 1.
    pub(crate) trace: MemoryOutput,
}

/// Answers the requests in these bytes over an empty store.
pub(crate) fn played(
    alloc: Global,
    keys: RandomState,
    bytes: &[u8],
    devices: Devices,
) -> Result<Observed, Fail> {
    let mut store = empty_store(alloc, keys)?;
    let (ended, output) = played_over(alloc, &mut store, bytes, devices);
    let (_, trace) = played_over(alloc, &mut store, TRACE, AMPLE);
    drop(store);
    Ok(Observed {
        ended,
        output,
        trace,
    })
}

/// Returns whether a session over an empty store ends so and writes this.
pub(crate) fn is_played(
    alloc: Global,
    keys: RandomState,
    bytes: &[u8],
    devices: Devices,
    (ended, written): (End, &[u8]),
) -> Result<bool, Fail> {
    let seen = played(alloc, keys, bytes, devices)?;
    Ok(seen.ended == ended && seen.output.as_slice() == written)
}
