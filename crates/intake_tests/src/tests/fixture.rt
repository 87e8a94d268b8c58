//! A store with a desk of four seats, whose queue has the given room.

ghost use Rattle.std.specs.Prelude.{◌≡◌, ◌≤◌, All, IfOk};
ghost use Rattle.intake.specs.Seats.{IsNewSeat};

use crate::tests::rows::Row;
use intake::{Clerk, DeskHandle, Seat, open_desk};
use jaeger_model::Batch;
use read_side::{EmptyHistory, Keeper, Pass, StoreName, open};
use std::alloc::{AllocError, Global};
use std::hash::RandomState;
use std::mem::drop;
use std::random::RandomSource;
use std::sync::Wait;
use std::test::*;
use std::thread::Threads;
use trace_model::Limits;
use trace_samples::{list_of, span};

/// All that belongs to one store.
pub struct Fixture<N: StoreName> {
    pub keeper: Keeper<N>,
    pub passes: Vec<Pass<N>>,
    pub desk: DeskHandle<N>,
    pub seats: Vec<Seat<N>>,
    pub clerk: Clerk<N>,
}

impl<N: StoreName> Fixture<N> {
    /// Closes the store, and drops all that belongs to it.
    pub(crate) fn close<R: Wait>(self, rt: &R) {
        let Fixture {
            keeper,
            passes,
            desk,
            seats,
            clerk,
        } = self;
        keeper.close(rt);
        drop(passes);
        drop(desk);
        drop(seats);
        drop(clerk);
    }
}

/// A batch of one span, which has the id, and whose trace has it too.
pub fn batch(alloc: Global, id: u64) -> Result<Batch, AllocError> {
    let spans = list_of(alloc, span(alloc, id, id)?)?;
    trace_samples::batch(alloc, "a", spans.into_vec())
}

/// Opens a store with `readers` readers, and its desk. If there is no memory for the desk it closes the store.
pub(crate) fn opened<N: StoreName, R: Wait + RandomSource>(
    rt: &R,
    alloc: Global,
    name: EmptyHistory,
    limits: Limits,
    readers: usize,
    capacity: usize,
) -> Result<Fixture<N>, Fail>
    requires store { (name.log.book ≡ N.book) × (limits ≡ N.limits) }
    requires readers { (1 ≤ readers) × (readers ≤ 64) }
    requires queue { (1 ≤ capacity) × (capacity ≤ 4096) }
    ensures seats { IfOk result (λ f. All (IsNewSeat f.clerk.desk capacity) f.seats.items) }
{
    let keys = RandomState::new(rt)?;
    let (mut keeper, passes) = open::<N, _>(rt, alloc, keys, name, limits, readers)?;
    let first = keeper.receipt();
    match open_desk(alloc, keys, first, capacity, 4) {
        Err(why) => {
            drop(passes);
            keeper.close(rt);
            Err(Fail::from(why))
        }
        Ok((desk, seats, clerk)) => Ok(Fixture {
            keeper,
            passes,
            desk,
            seats,
            clerk,
        }),
    }
}

/// Opens a store and its desk, and plays the row with them.
pub fn played<N: StoreName + Send + Sync, R: Threads + Wait + RandomSource + Sync>(
    rt: &R,
    alloc: Global,
    name: EmptyHistory,
    limits: Limits,
    capacity: usize,
    row: Row,
) -> Result<bool, Fail>
    requires store { (name.log.book ≡ N.book) × (limits ≡ N.limits) }
    requires queue { (1 ≤ capacity) × (capacity ≤ 4096) }
{
    let fixture = opened::<N, _>(rt, alloc, name, limits, 2, capacity)?;
    Ok(row.play(rt, alloc, fixture))
}
