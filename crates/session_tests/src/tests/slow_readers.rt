//! Clients that take a few bytes of a response at a time.

use crate::tests::large::two_requests;
use crate::tests::sessions::{empty_store, joined};
use open_connections::{
    BufferedConnection, ConnectionEnd, ConnectionSet, ConnectionTurn, OpenProgress, TryConnection,
    TurnTime,
};
use session_devices::{Failed, Input};
use std::alloc::Global;
use std::hash::RandomState;
use std::mem::drop;
use std::test::*;
use std::time::Duration;
use trace_model::Backend;

/// A client that sends everything at once. It takes a few bytes at a time, and none every second time. After its last
/// bytes the connection fails.
#[derive(Drop)]
struct SlowClient<'a> {
    bytes: &'a [u8],
    taken: Vec<u8>,
    step: usize,
    is_busy: bool,
    room: usize,
}

impl<'a> Input for SlowClient<'a> {
    ghost use Rattle.std.specs.Prelude.{◌≡◌, ◌++◌, Some, false};

    ghost remaining = { λ s. Some s.bytes.now };

    ghost gives = { λ s given t. (s.bytes.now ≡ given ++ t.bytes.now)
        × (t.taken.items ≡ s.taken.items) };

    ghost has_failed = { λ s. false };

    fn read(&mut self, buf: &mut [u8]) -> Result<usize, Failed> {
        let count = buf.len().min(self.bytes.len());
        buf[..count].copy_from_slice(&self.bytes[..count]);
        self.bytes = &self.bytes[count..];
        Ok(count)
    }

    fn failed(&self) -> bool {
        false
    }
}

impl<'a> TryConnection for SlowClient<'a> {
    ghost use Rattle.std.specs.Prelude.{Some};
    ghost use Rattle.std.proofs.Common.{ap};

    ghost contents = { λ s. Some s.taken.items };

    ghost reads_leave = { λ s t bytes given. ap Some given.1 };

    fn try_write(&mut self, buf: &[u8]) -> Result<usize, Failed> {
        self.is_busy = !self.is_busy;
        if self.is_busy {
            return Ok(0);
        }
        if self.room == 0 {
            return Err(Failed);
        }
        let count = buf.len().min(self.step).min(self.room);
        if self.taken.extend_from_slice(&buf[..count]).is_err() {
            return Err(Failed);
        }
        self.room -= count;
        Ok(count)
    }
}

/// The result of a connection: what its client took, how it ended, and how often its response waited.
#[derive(Drop)]
struct Served<'a> {
    buffered: BufferedConnection<SlowClient<'a>>,
    end: ConnectionEnd,
    waits: u32,
}

/// Gives one connection turns until it is removed from the set.
fn serve_alone<'a, B: Backend<()>>(
    alloc: Global,
    client: SlowClient<'a>,
    store: &mut B,
) -> Result<Served<'a>, Fail> {
    let mut connections = ConnectionSet::new(alloc)?;
    let key = connections.add::<(), B>(alloc, client, Duration::ZERO, store)?;
    let mut waits = 0u32;
    for round in 0..1_000_000u64 {
        let at = TurnTime {
            now: Duration::ZERO,
            round,
        };
        match connections.take_turn(&(), alloc, key, at, store) {
            ConnectionTurn::Open(OpenProgress::Writing) => waits = waits.saturating_add(1),
            ConnectionTurn::Open(_) => {}
            ConnectionTurn::Removed(end, buffered) => {
                return Ok(Served {
                    buffered,
                    end,
                    waits,
                });
            }
            ConnectionTurn::Absent => break,
        }
    }
    Err(Fail::from("a connection that is there, and ends"))
}

/// Creates a client that takes `step` bytes at a time, and `room` in all.
fn slow_client(alloc: Global, bytes: &[u8], step: usize, room: usize) -> SlowClient<'_> {
    SlowClient {
        bytes,
        taken: Vec::new(alloc),
        step,
        is_busy: false,
        room,
    }
}

/// Writes everything that waits in a limited number of writes. Returns whether that succeeded.
fn flush_all(buffered: &mut BufferedConnection<SlowClient<'_>>) -> bool {
    for _round in 0..1_000_000u32 {
        if buffered.flush().is_err() {
            return false;
        }
        if !buffered.has_waiting() {
            return true;
        }
    }
    false
}

/// How a connection ended whose response waited for its client.
#[derive(Drop)]
struct Ending {
    end: ConnectionEnd,
    /// Whether a response waited.
    has_waited: bool,
    /// Whether all of the last response was written in the end.
    is_flushed: bool,
    /// The bytes that the client took.
    taken: Vec<u8>,
}

/// Serves a client that takes `step` bytes at a time, and `room` in all.
fn ending_of(
    alloc: Global,
    keys: RandomState,
    bytes: &[u8],
    step: usize,
    room: usize,
) -> Result<Ending, Fail> {
    let client = slow_client(alloc, bytes, step, room);
    let mut store = empty_store(alloc, keys)?;
    let served = serve_alone(alloc, client, &mut store);
    drop(store);
    let mut served = served?;
    let is_flushed = flush_all(&mut served.buffered);
    Ok(Ending {
        end: served.end,
        has_waited: served.waits > 0,
        is_flushed,
        taken: served.buffered.get_ref().taken.to_vec(alloc)?,
    })
}

/// Returns whether a client that takes `step` bytes at a time gets both responses, after they have waited for it.
fn is_served(alloc: Global, keys: RandomState, step: usize) -> Result<bool, Fail> {
    let (bytes, wanted) = two_requests(alloc)?;
    let ending = ending_of(alloc, keys, &bytes, step, usize::MAX)?;
    Ok(
        ending.end == ConnectionEnd::ClosedByClient
            && ending.has_waited
            && ending.is_flushed
            && ending.taken.as_slice() == wanted.as_slice(),
    )
}

/// The responses are the same however few bytes the client takes at a time. They wait for it.
#[test]
fn a_few_bytes_at_a_time(rt: HostRuntime) -> Result<(), Fail> {
    let keys = RandomState::new(&rt)?;
    for step in [1, 2, 7, 100, 16_383, 16_384, 40_000] {
        assert!(rt; is_served(rt.alloc(), keys, step)?);
    }
    Ok(())
}

/// Returns whether a connection that fails after this number of bytes is removed from the set while its response waits.
fn is_undelivered(alloc: Global, keys: RandomState, room: usize) -> Result<bool, Fail> {
    let (bytes, wanted) = two_requests(alloc)?;
    let twice = joined(alloc, &[&bytes, &bytes])?;
    let ending = ending_of(alloc, keys, &twice, 1_000, room)?;
    Ok(
        ending.end == ConnectionEnd::Undelivered
            && ending.taken.len() == room
            && wanted.starts_with(ending.taken.as_slice()),
    )
}

/// A connection that fails while its response waits is removed from the set, and has taken the first bytes of the
/// responses.
#[test]
fn a_failure_while_a_response_waits(rt: HostRuntime) -> Result<(), Fail> {
    let keys = RandomState::new(&rt)?;
    for room in [10, 100, 16_500, 40_000] {
        assert!(rt; is_undelivered(rt.alloc(), keys, room)?);
    }
    Ok(())
}
