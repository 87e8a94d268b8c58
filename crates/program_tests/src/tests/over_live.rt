//! Sessions over a shared store write the same bytes as over a store with one owner.

ghost use Rattle.std.specs.Prelude.{◌≡◌};

use crate::tests::requests::{CUT, DELETE, NOWHERE, UNTYPED, joined};
use http_session::session;
use intake::{Books, Clerk, DeskHandle, Live, open_desk};
use pipe_session::{Direct, pipe};
use read_side::{EmptyHistory, Keeper, StoreName, open};
use session_devices::{MemoryInput, MemoryOutput};
use span_store::SpanStore;
use std::alloc::{AllocError, Global};
use std::hash::RandomState;
use std::marker::Brand;
use std::process::Abort;
use std::random::RandomSource;
use std::sync::Wait;
use std::test::*;
use std::thread::{Threads, join};
use trace_model::Limits;
use trace_samples::exchanges::{BATCH, NUMBERED, POST, POST_NUMBERED, RENUMBERED, SERVICES, TRACE};

/// Returns the output of a session over a store with one owner.
fn direct_bytes(
    alloc: Global,
    keys: RandomState,
    limits: Limits,
    sent: &[u8],
) -> Result<MemoryOutput, AllocError> {
    let mut input = MemoryInput::new(sent, 1000, 0);
    let mut output = MemoryOutput::new(alloc, 100_000, 1000);
    let mut store = Direct::new(SpanStore::open(alloc, keys, limits)?);
    let _ended = pipe(alloc, &mut input, &mut output, &mut store);
    Ok(output)
}

/// Runs the clerk until the desk is closed, and puts the keeper back.
fn keep<N: StoreName, R: Wait>(rt: &R, clerk: Clerk<N>, slot: &mut Option<Keeper<N>>) {
    if let Some(keeper) = slot.take() {
        let Books {
            keeper,
            accounts: _,
            acknowledged: _,
            refused: _,
            unjudged: _,
            inbox: _,
        } = clerk.run(rt, keeper);
        if let Some(other) = slot.replace(keeper) {
            other.close(rt);
        }
    }
}

/// Returns the output of a session over a seat and a pass, beside a clerk.
fn session_bytes<N: StoreName, R: Wait>(
    rt: &R,
    alloc: Global,
    desk: &DeskHandle<N>,
    live: Option<Live<N>>,
    sent: &[u8],
) -> MemoryOutput {
    let mut input = MemoryInput::new(sent, 1000, 0);
    let mut output = MemoryOutput::new(alloc, 100_000, 1000);
    if let Some(mut live) = live {
        let _ended = session(rt, alloc, &mut input, &mut output, &mut live);
    }
    desk.close();
    output
}

/// Returns the output of a session over a new shared store.
fn live_bytes<N: StoreName + Send + Sync, R: Threads + Wait + Abort + Sync>(
    rt: &R,
    alloc: Global,
    keys: RandomState,
    history: EmptyHistory,
    limits: Limits,
    sent: &[u8],
) -> Result<MemoryOutput, Fail>
    requires book { history.log.book ≡ N.book }
    requires limits { limits ≡ N.limits }
{
    let (mut keeper, mut passes) = open::<N, _>(rt, alloc, keys, history, limits, 1)?;
    let first = keeper.receipt();
    match open_desk(alloc, keys, first, 1, 1) {
        Err(why) => {
            keeper.close(rt);
            Err(Fail::from(why))
        }
        Ok((desk, mut seats, clerk)) => {
            let live = match (seats.pop(), passes.pop()) {
                (Some(seat), Some(pass)) => Some(Live::new(seat, pass)),
                _ => None,
            };
            let mut slot = Some(keeper);
            let (_, output) = join(
                rt,
                || keep(rt, clerk, &mut slot),
                || session_bytes(rt, alloc, &desk, live, sent),
            );
            if let Some(keeper) = slot {
                keeper.close(rt);
            }
            Ok(output)
        }
    }
}

/// Returns whether both sessions write the same nonempty output.
fn is_same<R: Threads + Wait + Abort + RandomSource + Sync>(
    rt: &R,
    alloc: Global,
    limits: Limits,
    requests: &[&[u8]],
) -> Result<bool, Fail> {
    let sent = joined(alloc, requests)?;
    let keys = RandomState::new(rt)?;
    let live = live_bytes::<Brand, _>(
        rt,
        alloc,
        keys,
        EmptyHistory::new(),
        limits,
        sent.as_slice(),
    )?;
    let direct = direct_bytes(alloc, keys, limits, sent.as_slice())?;
    Ok(!live.as_slice().is_empty() && live.as_slice() == direct.as_slice())
}

/// The number of batches that a store has room for, and what is sent.
const SESSIONS: [(u32, &[&[u8]]); 8] = [
    (1000, &[UNTYPED, BATCH]),
    (1000, &[NOWHERE]),
    (1000, &[DELETE, SERVICES]),
    (1000, &[CUT, SERVICES]),
    (1, &[POST, BATCH, POST, BATCH, SERVICES]),
    (1000, &[POST, BATCH, TRACE, SERVICES]),
    (
        1000,
        &[
            POST_NUMBERED,
            NUMBERED,
            POST_NUMBERED,
            NUMBERED,
            POST_NUMBERED,
            RENUMBERED,
            TRACE,
        ],
    ),
    (
        1,
        &[
            POST_NUMBERED,
            NUMBERED,
            POST_NUMBERED,
            NUMBERED,
            POST,
            BATCH,
            TRACE,
        ],
    ),
];

/// The last two sessions send a numbered batch again: with another one, and to a full store.
#[test]
fn pipe_through_live(rt: HostRuntime) -> Result<(), Fail> {
    for (batches, sent) in SESSIONS {
        let limits = Limits::new(batches, 100_000, 0, 0).expect(&rt, "limits");
        assert!(rt; is_same(&rt, rt.alloc(), limits, sent)?);
    }
    Ok(())
}
