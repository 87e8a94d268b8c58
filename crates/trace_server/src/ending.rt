//! The end of the server: every seat is taken in, and the store is closed.

ghost use Rattle.std.specs.Prelude.{◌≡◌, [], map, IfOk, OnOk};
ghost use Rattle.std.specs.Arc.{arc_value};
ghost use Rattle.intake.specs.Books.{Balances};
ghost use Rattle.trace_server.specs.ServerRuns.{ClosesBooks, counts_of};
ghost use Rattle.trace_server.specs.WorkerSeats.{AreOpen, AreSeatsTaken, HasJudged, MovesJobs};

use crate::worker::EndedWorker;
use intake::Books;
use read_side::StoreName;
use std::sync::Wait;
use trace_model::Refusal;

/// What became of the batches that were submitted.
#[derive(Clone, Copy, Debug)]
pub(crate) struct Totals {
    pub(crate) acknowledged: u64,
    pub(crate) refused: u64,
    /// The number that were neither acknowledged nor refused.
    pub(crate) unanswered: u64,
}

/// Takes the workers' seats in, until memory runs out.
fn take_all_in<N: StoreName, R: Wait>(
    rt: &R,
    books: &mut Books<N>,
    workers: Vec<EndedWorker<N>>,
) -> Result<(), Refusal>
    requires open { AreOpen books.old.inbox.desk (map (λ w. w.live.seat) workers.items) }
    requires books { Balances books.old.inbox.taken books.old.accounts
        (map arc_value books.old.unjudged.items) }
    ensures accounts { books.new.accounts ≡ books.old.accounts }
    ensures counts { (books.new.acknowledged ≡ books.old.acknowledged)
        × (books.new.refused ≡ books.old.refused) }
    ensures moved { MovesJobs books.old.inbox.taken (map arc_value books.old.unjudged.items)
        books.new.inbox.taken (map arc_value books.new.unjudged.items) }
    ensures whole { OnOk result (AreSeatsTaken books.new.inbox.taken
        (map (λ w. w.live.seat) workers.items)) }
{
    let mut workers = workers;
    while let Some(EndedWorker { outcome: _, live }) = workers.pop() {
        let (mut seat, _pass) = live.into_parts();
        books.take_in_seat(rt, &mut seat)?;
    }
    Ok(())
}

/// Takes the workers' seats in, closes the store, and counts what became of the batches.
///
/// # Errors
///
/// Out of memory for the jobs that are left. The store is closed in this case too.
pub(crate) fn close_books<N: StoreName, R: Wait>(
    rt: &R,
    books: Books<N>,
    workers: Vec<EndedWorker<N>>,
) -> Result<Totals, Refusal>
    requires open { AreOpen books.inbox.desk (map (λ w. w.live.seat) workers.items) }
    requires judged { HasJudged N.limits books }
    requires left { books.unjudged.items ≡ [] }
    ensures { IfOk result (λ t. ClosesBooks N.limits books.keeper
        (map (λ w. w.live.seat) workers.items)
        (counts_of t.acknowledged t.refused t.unanswered)) }
{
    let mut books = books;
    let taken_in = take_all_in(rt, &mut books, workers);
    let (acknowledged, refused) = (books.acknowledged, books.refused);
    let unanswered = books.close(rt);
    taken_in?;
    Ok(Totals {
        acknowledged,
        refused,
        unanswered,
    })
}
