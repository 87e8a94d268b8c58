use crate::tests::entries::{entries_to, entry_of};
use crate::tests::fixture::{Row, plays};
use crate::tests::holding::front_read;
use crate::tests::sent_again::{AdmitAnswer, answer_of};
use jaeger_model::TraceId;
use read_side::{Keeper, Pass, Receipt, StoreName};
use std::alloc::Global;
use std::mem::drop;
use std::sync::{Arc, Wait};
use std::test::*;
use trace_model::{Answer, Entry, Query, Refusal};
use trace_samples::{beside, kept};

/// What was seen of a row, or why a call of it was refused.
type Seen<T> = Result<T, Refusal>;

/// Admits the entries in order, and adds the receipts.
fn add_receipts<N: StoreName, R: Wait>(
    rt: &R,
    keeper: &mut Keeper<N>,
    entries: Vec<Arc<Entry>>,
    receipts: &mut Vec<Receipt<N>>,
) -> Seen<()> {
    for entry in entries {
        receipts.push(keeper.admit(rt, entry)?)?;
    }
    Ok(())
}

/// Admits the entries in order, and returns the receipts.
pub fn admit_all<N: StoreName, R: Wait>(
    rt: &R,
    alloc: Global,
    keeper: &mut Keeper<N>,
    entries: Vec<Arc<Entry>>,
) -> Seen<Vec<Receipt<N>>> {
    let mut receipts = Vec::new(alloc);
    let added = add_receipts(rt, keeper, entries, &mut receipts);
    kept(receipts, added)
}

#[test]
fn settling_on_earlier_and_later(rt: HostRuntime) -> Result<(), Fail> {
    assert!(rt; plays(&rt, rt.alloc(), 10, 1, Row::Settled)?.as_wanted);
    Ok(())
}

/// The row of `settling_on_earlier_and_later`: a pass settles on the receipts of three entries, and on that of a
/// fourth.
pub fn settled<N: StoreName, R: Wait>(
    rt: &R,
    alloc: Global,
    keeper: &mut Keeper<N>,
    passes: &mut Vec<Pass<N>>,
) -> Result<bool, Fail> {
    let receipts = admit_all(rt, alloc, keeper, entries_to(alloc, 3)?)?;
    let behind = settle_on_earlier(passes, &receipts);
    drop(receipts);
    let last = settle_on(rt, keeper, passes, entry_of(alloc, 4)?);
    Ok(behind == Err(Refusal::Behind { front: 3 }) && last == Ok(()))
}

/// Whether a pass that knows of the third receipt settles on the second one.
fn settle_on_earlier<N: StoreName>(passes: &mut Vec<Pass<N>>, receipts: &[Receipt<N>]) -> Seen<()> {
    match (passes.first_mut(), receipts) {
        (Some(pass), [_, second, third]) => {
            pass.learn(third);
            pass.settle(second)
        }
        _ => Err(Refusal::Gone),
    }
}

/// Whether it settles on the receipt of an entry that is admitted then.
fn settle_on<N: StoreName, R: Wait>(
    rt: &R,
    keeper: &mut Keeper<N>,
    passes: &mut Vec<Pass<N>>,
    entry: Arc<Entry>,
) -> Seen<()> {
    let receipt = keeper.admit(rt, entry)?;
    let settled = match passes.first_mut() {
        Some(pass) => pass.settle(&receipt),
        None => Err(Refusal::Gone),
    };
    drop(receipt);
    settled
}

#[test]
fn reading_learning_and_moving_on(rt: HostRuntime) -> Result<(), Fail> {
    let played = plays(&rt, rt.alloc(), 10, 3, Row::MovedOn)?;
    assert!(rt; played.as_wanted);
    assert!(rt; played.gone == Some(Refusal::Gone));
    Ok(())
}

/// The front of the first pass, whether it settled, the front of the second and whether trace 1 was in its answer,
/// and the front of the first pass after a fourth entry was admitted that it learnt nothing of.
pub fn moved_on<N: StoreName, R: Wait>(
    rt: &R,
    alloc: Global,
    keeper: &mut Keeper<N>,
    passes: &mut Vec<Pass<N>>,
) -> Result<bool, Fail> {
    let receipts = admit_all(rt, alloc, keeper, entries_to(alloc, 3)?)?;
    let early = match (passes.as_mut_slice(), receipts.last()) {
        ([first, second, ..], Some(third)) => read_along(first, second, third),
        _ => Err(Refusal::Gone),
    };
    drop(receipts);
    let fourth = keeper.admit(rt, entry_of(alloc, 4)?);
    let was_admitted = fourth.is_ok();
    drop(fourth);
    let later = match passes.first_mut() {
        Some(first) => front_read(first.read(&Query::Services)),
        None => Err(Refusal::Gone),
    };
    Ok(early == Ok((3, Ok(()), 3, true)) && was_admitted && later == Ok(4))
}

/// The front of a reading of trace 1, and whether the trace was in its answer.
fn trace_read<N: StoreName>(pass: &mut Pass<N>) -> Seen<(u64, bool)> {
    let id = TraceId { high: 0, low: 1 };
    let reading = pass.read(&Query::Trace { id, raw: true })?;
    let seen = (
        reading.front,
        matches!(&reading.answer, Answer::Trace(Some(_))),
    );
    drop(reading);
    Ok(seen)
}

/// What the two passes see while the third entry is the last one.
fn read_along<N: StoreName>(
    first: &mut Pass<N>,
    second: &mut Pass<N>,
    third: &Receipt<N>,
) -> Seen<(u64, Seen<()>, u64, bool)> {
    let front = front_read(first.read(&Query::Services))?;
    let settled = first.settle(third);
    second.learn(third);
    let (other, found) = trace_read(second)?;
    Ok((front, settled, other, found))
}

#[test]
fn admit_all_or_nothing(rt: HostRuntime) -> Result<(), Fail> {
    assert!(rt; plays(&rt, rt.alloc(), 10, 1, Row::AllOrNothing)?.as_wanted);
    Ok(())
}

/// Each entry is published, or memory ran out and it is neither published nor pending: it is published when it is
/// submitted again, at the place that it would have had. It is never pending: the check of allocations refuses each
/// in turn.
pub fn all_or_nothing<N: StoreName, R: Wait>(
    rt: &R,
    alloc: Global,
    keeper: &mut Keeper<N>,
) -> Result<bool, Fail> {
    let mut all = true;
    for front in 0..4u64 {
        let number = front + 1;
        let (entry, again) = twice(alloc, number)?;
        let answer = answer_at_last(rt, keeper, front, entry, again);
        all = all && answer == Ok((number, number));
    }
    let last = keeper.receipt();
    let is_last = last.front() == 4 && last.place().is_none() && last.entry().is_none();
    drop(last);
    Ok(all && is_last)
}

/// An entry, twice.
fn twice(alloc: Global, number: u64) -> Result<(Arc<Entry>, Arc<Entry>), Fail> {
    let entry = entry_of(alloc, number)?;
    beside(entry, entry_of(alloc, number))
}

/// The answer to an entry that is admitted.
pub fn answer_to<N: StoreName, R: Wait>(
    rt: &R,
    keeper: &mut Keeper<N>,
    entry: Arc<Entry>,
) -> AdmitAnswer {
    let admitted = keeper.admit(rt, entry);
    let answer = answer_of(&admitted);
    drop(admitted);
    answer
}

/// The number of entries that the keeper vouches for.
fn front_of<N: StoreName>(keeper: &mut Keeper<N>) -> u64 {
    let receipt = keeper.receipt();
    let front = receipt.front();
    drop(receipt);
    front
}

/// The answer to an entry after `front` others, which is submitted again if memory ran out and no more are
/// published than before. If it were pending, it would be stale then.
fn answer_at_last<N: StoreName, R: Wait>(
    rt: &R,
    keeper: &mut Keeper<N>,
    front: u64,
    entry: Arc<Entry>,
    again: Arc<Entry>,
) -> AdmitAnswer {
    let answer = answer_to(rt, keeper, entry);
    if answer == Err(Refusal::NoMemory) && front_of(keeper) == front {
        return answer_to(rt, keeper, again);
    }
    drop(again);
    answer
}
