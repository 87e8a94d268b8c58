use crate::tests::entries::{entries_to, entry_of};
use crate::tests::fixture::{Row, plays};
use crate::tests::rows::answer_to;
use read_side::{Keeper, Pass, Reading, Receipt, StoreName};
use std::alloc::Global;
use std::mem::drop;
use std::sync::{Arc, Wait};
use std::test::*;
use std::thread::{Threads, join};
use trace_model::{Entry, Query, Refusal};

/// The front of a list that is held, and those of two readings of it.
type Fronts = (u64, u64, u64);

/// The front of a reading.
pub(crate) fn front_read(reading: Result<Reading, Refusal>) -> Result<u64, Refusal> {
    let reading = reading?;
    let front = reading.front;
    drop(reading);
    Ok(front)
}

/// Holds, reads twice and leaves. It needs no handle, so it can't wait.
fn held_fronts<N: StoreName>(pass: &mut Pass<N>) -> Result<Fronts, Refusal> {
    let held = pass.hold()?;
    let front = held.front();
    let first = front_read(held.read(&Query::Services));
    let second = front_read(held.read(&Query::Services));
    held.leave();
    Ok((front, first?, second?))
}

/// Admits the entries, and returns the number that was accepted.
pub fn count_admitted<N: StoreName, R: Wait>(
    rt: &R,
    keeper: &mut Keeper<N>,
    entries: Vec<Arc<Entry>>,
) -> u64 {
    let mut taken = 0u64;
    for entry in entries {
        if answer_to(rt, keeper, entry).is_ok() {
            taken = taken.saturating_add(1);
        }
    }
    taken
}

/// Whether all three are the same.
fn is_one(fronts: &Fronts) -> bool {
    fronts.0 == fronts.1 && fronts.1 == fronts.2
}

#[test]
fn held_point(rt: HostRuntime) -> Result<(), Fail> {
    assert!(rt; plays(&rt, rt.alloc(), 10, 1, Row::HeldBeside)?.as_wanted);
    Ok(())
}

/// One thread holds and reads twice while another admits two entries. Then the pass settles on the last receipt.
pub fn held_beside<N: StoreName + Send + Sync, R: Threads + Wait + Sync>(
    rt: &R,
    alloc: Global,
    keeper: &mut Keeper<N>,
    passes: &mut Vec<Pass<N>>,
) -> Result<bool, Fail> {
    let entries = entries_to(alloc, 2)?;
    let Some(pass) = passes.first_mut() else {
        drop(entries);
        return Ok(false);
    };
    let (taken, fronts) = beside(rt, keeper, pass, entries);
    let last = keeper.receipt();
    let settles = pass.settle(&last) == Ok(()) && last.front() == 2;
    drop(last);
    Ok(taken == 2 && settles && fronts.is_ok_and(|fronts| is_one(&fronts)))
}

/// Returns the number of entries that were accepted, and what is held meanwhile.
fn beside<N: StoreName + Send + Sync, R: Threads + Wait + Sync>(
    rt: &R,
    keeper: &mut Keeper<N>,
    pass: &mut Pass<N>,
    entries: Vec<Arc<Entry>>,
) -> (u64, Result<Fronts, Refusal>) {
    join(
        rt,
        || -> u64 { count_admitted(rt, keeper, entries) },
        || -> Result<Fronts, Refusal> { held_fronts(pass) },
    )
}

#[test]
fn an_old_receipt_is_learnt(rt: HostRuntime) -> Result<(), Fail> {
    assert!(rt; plays(&rt, rt.alloc(), 10, 1, Row::LearntLate)?.as_wanted);
    Ok(())
}

/// A pass at front 3 that learns a receipt of front 1 stays there, and reads there.
pub fn learnt_late<N: StoreName, R: Wait>(
    rt: &R,
    alloc: Global,
    keeper: &mut Keeper<N>,
    passes: &mut Vec<Pass<N>>,
) -> Result<bool, Fail> {
    let old = keeper.admit(rt, entry_of(alloc, 1)?)?;
    let both = two_more(rt, alloc, keeper);
    let seen = match passes.first_mut() {
        Some(pass) => learn_late(pass, &old),
        None => Err(Refusal::Gone),
    };
    drop(old);
    Ok(both? && seen == Ok((3, 1, 3, 3)))
}

/// Whether a second and a third entry are taken.
fn two_more<N: StoreName, R: Wait>(
    rt: &R,
    alloc: Global,
    keeper: &mut Keeper<N>,
) -> Result<bool, Fail> {
    let second = answer_to(rt, keeper, entry_of(alloc, 2)?);
    let third = answer_to(rt, keeper, entry_of(alloc, 3)?);
    Ok(second.is_ok() && third.is_ok())
}

/// Returns the front of a reading, that of the old receipt, that of the pass after it has learnt it, and that of
/// the next reading.
fn learn_late<N: StoreName>(
    pass: &mut Pass<N>,
    old: &Receipt<N>,
) -> Result<(u64, u64, u64, u64), Refusal> {
    let before = front_read(pass.read(&Query::Services))?;
    pass.learn(old);
    let learnt = pass.front();
    let after = front_read(pass.read(&Query::Services))?;
    Ok((before, old.front(), learnt, after))
}
