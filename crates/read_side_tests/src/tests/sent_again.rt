use crate::tests::entries::sent_entry;
use crate::tests::fixture::{Row, plays};
use crate::tests::rows::answer_to;
use read_side::{Keeper, Receipt, StoreName};
use std::alloc::Global;
use std::mem::drop;
use std::sync::{Arc, Wait};
use std::test::*;
use trace_model::{Entry, Refusal};
use trace_samples::beside;

/// The number of entries that the receipt vouches for and its place, 0 if it has none; or why there is no receipt.
pub type AdmitAnswer = Result<(u64, u64), Refusal>;

/// The answer with this receipt, or without one.
pub fn answer_of<N: StoreName>(admitted: &Result<Receipt<N>, Refusal>) -> AdmitAnswer {
    match admitted {
        Ok(receipt) => Ok((receipt.front(), receipt.place().unwrap_or(0))),
        Err(why) => Err(*why),
    }
}

/// The number of the entry that a receipt is for.
fn number_of<N: StoreName>(receipt: &Receipt<N>) -> Option<u64> {
    receipt.entry().map(|entry| entry.number)
}

#[test]
fn the_one_batch_sent_again(rt: HostRuntime) -> Result<(), Fail> {
    assert!(rt; plays(&rt, rt.alloc(), 1, 1, Row::SentTwice)?.as_wanted);
    Ok(())
}

/// The answer to an entry that is admitted, and the number of the entry that the receipt is for.
fn held_by<N: StoreName, R: Wait>(
    rt: &R,
    keeper: &mut Keeper<N>,
    entry: Arc<Entry>,
) -> (AdmitAnswer, Option<u64>) {
    let admitted = keeper.admit(rt, entry);
    let answer = answer_of(&admitted);
    let number = match &admitted {
        Ok(receipt) => number_of(receipt),
        Err(_) => None,
    };
    drop(admitted);
    (answer, number)
}

/// Like [`held_by`], for an entry that is submitted again if memory ran out.
fn held_at_last<N: StoreName, R: Wait>(
    rt: &R,
    keeper: &mut Keeper<N>,
    entry: Arc<Entry>,
    again: Arc<Entry>,
) -> (AdmitAnswer, Option<u64>) {
    let held = held_by(rt, keeper, entry);
    if held.0 == Err(Refusal::NoMemory) {
        return held_by(rt, keeper, again);
    }
    drop(again);
    held
}

/// In a store for one batch, a batch that was published is found when it is resent, at its place, and the receipt
/// is for the first entry. If memory ran out for that one, it is not pending, and the second one is added. The check of
/// allocations refuses each in turn.
pub fn sent_twice<N: StoreName, R: Wait>(
    rt: &R,
    alloc: Global,
    keeper: &mut Keeper<N>,
) -> Result<bool, Fail> {
    let first = answer_to(rt, keeper, sent_entry(alloc, 1, 7, 1)?);
    let second = sent_entry(alloc, 2, 7, 1)?;
    let (second, again) = beside(second, sent_entry(alloc, 2, 7, 1))?;
    let (answer, held) = held_at_last(rt, keeper, second, again);
    let wanted = match first {
        Ok((1, 1)) => 1,
        Err(Refusal::NoMemory) => 2,
        _ => return Ok(false),
    };
    Ok(answer == Ok((1, 1)) && held == Some(wanted))
}
