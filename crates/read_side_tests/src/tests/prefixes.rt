use crate::tests::entries::sent_entry;
use crate::tests::fixture::{Row, plays};
use read_side::{HistoryPrefix, Keeper, Pass, StoreName, longest};
use std::alloc::Global;
use std::mem::drop;
use std::sync::{Arc, Wait};
use std::test::*;
use trace_model::{Entry, Refusal};
use trace_samples::beside;

#[test]
fn lists_are_prefixes_of_each_other(rt: HostRuntime) -> Result<(), Fail> {
    assert!(rt; plays(&rt, rt.alloc(), 4, 1, Row::PrefixesCompared)?.as_wanted);
    Ok(())
}

/// Admits an entry, and lets the pass learn its receipt. Returns the list of the receipt.
fn learnt_history<N: StoreName, R: Wait>(
    rt: &R,
    keeper: &mut Keeper<N>,
    pass: &mut Pass<N>,
    entry: Arc<Entry>,
) -> Result<HistoryPrefix<N>, Refusal> {
    let receipt = keeper.admit(rt, entry)?;
    pass.learn(&receipt);
    let history = receipt.history();
    drop(receipt);
    Ok(history)
}

/// Admits an entry. Returns the list of the receipt.
fn admitted_history<N: StoreName, R: Wait>(
    rt: &R,
    keeper: &mut Keeper<N>,
    entry: Arc<Entry>,
) -> Result<HistoryPrefix<N>, Refusal> {
    let receipt = keeper.admit(rt, entry)?;
    let history = receipt.history();
    drop(receipt);
    Ok(history)
}

/// Returns whether the lists of two receipts, of a pass and of the keeper have the lengths that they should, and each
/// shorter one is a prefix of each longer one.
fn are_ordered<N: StoreName, R: Wait>(
    rt: &R,
    keeper: &mut Keeper<N>,
    pass: &mut Pass<N>,
    (first, second): (Arc<Entry>, Arc<Entry>),
) -> Result<bool, Refusal> {
    let none = pass.history();
    let one = learnt_history(rt, keeper, pass, first);
    let two = admitted_history(rt, keeper, second);
    let (one, two) = (one?, two?);
    let known = pass.history();
    let all = keeper.history();
    keeper.includes(&one);
    keeper.includes(&known);
    let lengths = [none.len(), known.len(), one.len(), all.len()];
    let longest = longest(&none, &[two, known.duplicate()]);
    Ok(
        lengths == [0, 1, 1, 2]
            && longest.len() == 2
            && none.is_prefix_of(&known)
            && known.is_prefix_of(&all)
            && !all.is_prefix_of(&known)
            && known.longer(&all).len() == 2,
    )
}

/// The row of `lists_are_prefixes_of_each_other`: two entries; the pass learns the receipt of the first one.
pub fn prefixes_compared<N: StoreName, R: Wait>(
    rt: &R,
    alloc: Global,
    keeper: &mut Keeper<N>,
    passes: &mut Vec<Pass<N>>,
) -> Result<bool, Fail> {
    let first = sent_entry(alloc, 1, 1, 1)?;
    let entries = beside(first, sent_entry(alloc, 2, 2, 2))?;
    let ordered = match passes.last_mut() {
        Some(pass) => are_ordered(rt, keeper, pass, entries),
        None => {
            drop(entries);
            Err(Refusal::Gone)
        }
    };
    Ok(ordered?)
}
