//! Opening a store.
ghost use Rattle.std.specs.Prelude.{◌≡◌, ◌≤◌, Err, IfOk, IfErr, All, length};
ghost use Rattle.trace_model.specs.declared.refusal.Refusal.TheVariants.{NoMemory};
ghost use Rattle.read_side.specs.Keepers.{no_entries};
ghost use Rattle.read_side.specs.Passes.{new_pass};

use crate::counted_log::CountedLog;
use crate::history::{EmptyHistory, StoreName};
use crate::keeper::{CopyWriter, Keeper};
use crate::pass::Pass;
use crate::reader_state::ReaderState;
use crate::store_copy::StoreCopy;
use arrival_journal::Journal;
use left_right::writer::Writer;
use span_store::SpanStore;
use std::alloc::Global;
use std::hash::RandomState;
use std::sync::Wait;
use trace_model::{Limits, Refusal};

/// The greatest number of readers of a store.
pub const MAX_READERS: usize = 64;

/// Drops what was made before memory ran out.
fn without_memory<T: Drop, R>(made: T) -> Result<R, Refusal>
    ensures { result ≡ Err NoMemory }
{
    // For the prover: an explicit drop is cheaper than one at the end of the block.
    drop(made);
    Err(Refusal::NoMemory)
}

/// Opens an empty store over this history, which `N` names, for 1 to [`MAX_READERS`] readers. The keys are those of the
/// hash by which it finds traces.
///
/// # Errors
///
/// [`Refusal::NoMemory`]: there is no memory, or the copies take no more readers; nothing is left allocated.
pub fn open<N: StoreName, R: Wait>(
    rt: &R,
    alloc: Global,
    keys: RandomState,
    history: EmptyHistory,
    limits: Limits,
    readers: usize,
) -> Result<(Keeper<N>, Vec<Pass<N>>), Refusal>
    requires readers { (1 ≤ readers) × (readers ≤ MAX_READERS) }
    requires book { history.log.book ≡ N.book }
    requires limits { limits ≡ N.limits }
    ensures keeper { IfOk result (λ r. r.0 ≡ no_entries) }
    ensures passes { IfOk result (λ r. All (λ p. p ≡ new_pass) r.1.items) }
    ensures count { IfOk result (λ r. length r.1.items ≡ readers) }
    ensures reason { IfErr result (λ why. why ≡ NoMemory) }
{
    let log = CountedLog::new(history);
    let mut passes = Vec::with_capacity(alloc, readers)?;
    // No search looks into the keeper's journal.
    let Ok(journal) = Journal::without_outlines(alloc, keys, limits) else {
        return without_memory((log, passes));
    };
    let Ok(first) = SpanStore::open(alloc, keys, limits) else {
        return without_memory((log, passes, journal));
    };
    let first = StoreCopy::new(first, log.seen());
    let Ok(second) = SpanStore::open(alloc, keys, limits) else {
        return without_memory((log, passes, journal, first));
    };
    let second = StoreCopy::new(second, log.seen());
    let Ok(writer): Result<CopyWriter<N>, _> = Writer::new(alloc, first, second, readers) else {
        return without_memory((log, passes, journal));
    };
    for _made in 0..readers {
        let Ok(entrance) = writer.factory().reader() else {
            writer.take(rt);
            return without_memory((log, passes, journal));
        };
        let pass = Pass::new(ReaderState::new(entrance, log.seen()));
        passes.push_reserved(pass);
    }
    Ok((Keeper::new(alloc, writer, journal, log), passes))
}
