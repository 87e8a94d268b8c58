//! A store with its desk and its clerk.

ghost use Rattle.std.specs.Prelude.{◌≡◌, length, map, IfOk};
ghost use Rattle.read_side.specs.Keepers.{no_entries};
ghost use Rattle.intake.specs.Turns.{IsNewClerk};
ghost use Rattle.trace_server.specs.ServerRuns.{OneForEach};
ghost use Rattle.trace_server.specs.WorkerSeats.{AreNew};

use crate::config::ServerConfig;
use crate::worker::WorkerStart;
use intake::{Clerk, DeskHandle, Live, open_desk};
use read_side::{EmptyHistory, Keeper, StoreName, open};
use std::alloc::{AllocError, Global};
use std::sync::Wait;
use trace_model::{Limits, Refusal};

/// A store, its desk and its clerk, and what the workers start with. It isn't `Drop`, because the keeper isn't.
pub(crate) struct SharedStore<N: StoreName> {
    pub(crate) keeper: Keeper<N>,
    pub(crate) desk: DeskHandle<N>,
    pub(crate) clerk: Clerk<N>,
    /// One for each worker.
    pub(crate) starts: Vec<WorkerStart<N>>,
}

/// Returns what the workers start with: each has a seat and a pass.
fn worker_starts<N: StoreName>(
    alloc: Global,
    seats: Vec<intake::Seat<N>>,
    passes: Vec<read_side::Pass<N>>,
) -> Result<Vec<WorkerStart<N>>, AllocError>
    requires { length passes.items ≡ length seats.items }
    ensures { IfOk result (λ v. map (λ p. p.live.seat) v.items ≡ seats.items) }
{
    let mut passes = passes;
    let mut starts = Vec::with_capacity(alloc, seats.len())?;
    for seat in seats {
        let Some(pass) = passes.pop() else {
            unreachable!()
        };
        starts.push(WorkerStart {
            number: seat.number() as u32,
            live: Live::new(seat, pass),
        })?;
    }
    Ok(starts)
}

/// A desk, its clerk, and what the workers start with.
type DeskEnds<N> = (DeskHandle<N>, Clerk<N>, Vec<WorkerStart<N>>);

/// Opens a desk of the store, and returns it with its clerk and what the workers start with.
fn open_for_workers<N: StoreName>(
    alloc: Global,
    keeper: &mut Keeper<N>,
    passes: Vec<read_side::Pass<N>>,
    config: &ServerConfig,
) -> Result<DeskEnds<N>, Refusal>
    requires passes { length passes.items ≡ config.now.options.workers }
    ensures keeper { keeper.new ≡ keeper.old }
    ensures clerk { IfOk result (λ f. IsNewClerk f.1) }
    ensures new { IfOk result (λ f. AreNew f.1.desk (map (λ p. p.live.seat) f.2.items)) }
    ensures numbers { IfOk result (λ f. OneForEach config.now.options.workers
        (map (λ p. p.live.seat) f.2.items)) }
{
    let first = keeper.receipt();
    let (desk, seats, clerk) = open_desk(
        alloc,
        config.keys,
        first,
        config.options.queue as usize,
        config.options.workers,
    )?;
    let starts = worker_starts(alloc, seats, passes)?;
    Ok((desk, clerk, starts))
}

impl<N: StoreName> SharedStore<N> {
    /// Opens an empty store over this history, which `N` names. For the prover: `limits` equals `config.options.limits`.
    ///
    /// # Errors
    ///
    /// Out of memory.
    pub(crate) fn open<R: Wait>(
        rt: &R,
        alloc: Global,
        history: EmptyHistory,
        limits: Limits,
        config: &ServerConfig,
    ) -> Result<SharedStore<N>, Refusal>
        requires book { history.log.book ≡ N.book }
        requires limits { limits ≡ N.limits }
        ensures keeper { IfOk result (λ h. h.keeper ≡ no_entries) }
        ensures clerk { IfOk result (λ h. IsNewClerk h.clerk) }
        ensures new { IfOk result (λ h.
            AreNew h.clerk.desk (map (λ p. p.live.seat) h.starts.items)) }
        ensures numbers { IfOk result (λ h.
            OneForEach config.now.options.workers (map (λ p. p.live.seat) h.starts.items)) }
    {
        let workers = config.options.workers as usize;
        let (mut keeper, passes) = open::<N, _>(rt, alloc, config.keys, history, limits, workers)?;
        match open_for_workers(alloc, &mut keeper, passes, config) {
            Ok((desk, clerk, starts)) => Ok(SharedStore {
                keeper,
                desk,
                clerk,
                starts,
            }),
            Err(why) => {
                keeper.close(rt);
                Err(why)
            }
        }
    }

    /// Closes a store that was not used.
    pub(crate) fn close<R: Wait>(self, rt: &R) {
        let SharedStore {
            keeper,
            desk: _,
            clerk: _,
            starts: _,
        } = self;
        keeper.close(rt);
    }
}
