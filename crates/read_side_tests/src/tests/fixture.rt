//! A store that is opened for a row, and the row that is played with it.

ghost use Rattle.std.specs.Prelude.{◌≡◌, ◌≤◌};

use crate::tests::concurrent_reads::asked_along;
use crate::tests::holding::{held_beside, learnt_late};
use crate::tests::machine::followed;
use crate::tests::prefixes::prefixes_compared;
use crate::tests::rows::{all_or_nothing, moved_on, settled};
use crate::tests::sent_again::sent_twice;
use read_side::{EmptyHistory, Keeper, Pass, StoreName, open};
use std::alloc::Global;
use std::hash::RandomState;
use std::marker::Brand;
use std::mem::drop;
use std::random::RandomSource;
use std::sync::Wait;
use std::test::*;
use std::thread::Threads;
use trace_model::{Limits, Query, Refusal};

/// What is played.
#[derive(Clone, Copy)]
pub enum Row {
    Settled,
    MovedOn,
    AllOrNothing,
    Followed,
    HeldBeside,
    LearntLate,
    SentTwice,
    AskedAlong,
    PrefixesCompared,
}

/// What belongs to a store that was opened.
pub struct Fixture<'a, N: StoreName> {
    pub keeper: &'a mut Keeper<N>,
    pub passes: &'a mut Vec<Pass<N>>,
    pub keys: RandomState,
    pub limits: Limits,
}

impl Row {
    /// Plays the row. Returns whether all was as wanted.
    fn play<N: StoreName + Send + Sync, R: Threads + Wait + Sync>(
        self,
        rt: &R,
        alloc: Global,
        fixture: Fixture<'_, N>,
    ) -> Result<bool, Fail> {
        let Fixture {
            keeper,
            passes,
            keys,
            limits,
        } = fixture;
        match self {
            Row::Settled => settled(rt, alloc, keeper, passes),
            Row::MovedOn => moved_on(rt, alloc, keeper, passes),
            Row::AllOrNothing => all_or_nothing(rt, alloc, keeper),
            Row::Followed => followed(rt, alloc, keeper, passes, (keys, limits)),
            Row::HeldBeside => held_beside(rt, alloc, keeper, passes),
            Row::LearntLate => learnt_late(rt, alloc, keeper, passes),
            Row::SentTwice => sent_twice(rt, alloc, keeper),
            Row::AskedAlong => asked_along(rt, alloc, keeper, passes, limits),
            Row::PrefixesCompared => prefixes_compared(rt, alloc, keeper, passes),
        }
    }
}

/// The result of a row.
#[derive(Clone, Copy)]
pub struct RowResult {
    /// Whether all was as wanted.
    pub as_wanted: bool,
    /// Why a pass that is left is refused after the store is closed.
    pub gone: Option<Refusal>,
}

/// Why a pass that is left is refused.
fn refused<N: StoreName>(passes: &mut Vec<Pass<N>>) -> Option<Refusal> {
    match passes.last_mut() {
        Some(pass) => pass.read(&Query::Services).err(),
        None => None,
    }
}

/// Opens a store for `readers` readers, plays the row with it and closes it.
fn played<N: StoreName + Send + Sync, R: Threads + Wait + RandomSource + Sync>(
    rt: &R,
    alloc: Global,
    name: EmptyHistory,
    limits: Limits,
    readers: usize,
    row: Row,
) -> Result<RowResult, Fail>
    requires store { (name.log.book ≡ N.book) × (limits ≡ N.limits) }
    requires readers { (1 ≤ readers) × (readers ≤ 64) }
{
    let keys = RandomState::new(rt)?;
    let (mut keeper, mut passes) = open::<N, _>(rt, alloc, keys, name, limits, readers)?;
    let fixture = Fixture {
        keeper: &mut keeper,
        passes: &mut passes,
        keys,
        limits,
    };
    let as_wanted = row.play(rt, alloc, fixture);
    keeper.close(rt);
    let gone = refused(&mut passes);
    drop(passes);
    let as_wanted = as_wanted?;
    Ok(RowResult { as_wanted, gone })
}

/// Plays the row with a store for this number of batches and of readers. Clock skews of up to 500 microseconds are
/// adjusted.
pub fn plays<R: Threads + Wait + RandomSource + Sync>(
    rt: &R,
    alloc: Global,
    batches: u32,
    readers: usize,
    row: Row,
) -> Result<RowResult, Fail>
    requires { (1 ≤ readers) × (readers ≤ 64) }
{
    let limits = Limits::new(batches, 1000, 0, 500).ok_or("limits")?;
    played::<Brand, _>(rt, alloc, EmptyHistory::new(), limits, readers, row)
}
