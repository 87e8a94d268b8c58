//! The clerk, which takes the jobs and has them judged.

ghost use Rattle.std.specs.Prelude.{◌≡◌, ◌≤◌, ◌^◌, map, [], length, IfOk, IfErr, OnErr};
ghost use Rattle.std.specs.Arc.{arc_value};
ghost use Rattle.trace_model.specs.declared.refusal.Refusal.TheVariants.{NoMemory};
ghost use Rattle.read_side.specs.Keepers.{admit_call, Answers};
ghost use Rattle.read_side.specs.Receipts.{AnsweredAt};
ghost use Rattle.intake.specs.Denials.{IsDenied};
ghost use Rattle.intake.specs.Turns.{IsNewInbox, IsNewClerk, Accounted, place_or_refusal, ServesJob, turn_state, IfServed, IfNotServed, IfNoJob, WasEmpty};
ghost use Rattle.intake.specs.Books.{run_state, Ran, Balances, acknowledged, refused};

use crate::account::Account;
use crate::accounts::Accounts;
use crate::answer_slot::JobAnswer;
use crate::books::Books;
use crate::denial::Denial;
use crate::inbox::Inbox;
use crate::shared::Shared;
use crate::ticket::Ack;
use arrival_journal::Record;
use read_side::{Keeper, Receipt, StoreName};
use std::alloc::Global;
use std::marker::Model;
use std::sync::{Arc, Wait};
use trace_model::Refusal;

/// The clerk expects another job soon after it has served this number of jobs since it last slept. After fewer it
/// sleeps at once: a sender that waits for its answer doesn't submit its next job that soon.
const BURST: u64 = 3;

/// The number of spins for a job that is expected soon, before the clerk sleeps.
const JOB_SPINS: u32 = 40;

/// The result of a turn.
#[derive(Clone, Copy, PartialEq, Eq, Debug)]
pub enum Turn {
    /// The queue was empty (tested, not proved).
    Idle,
    /// This job was judged and answered.
    Served { seat: u16, number: u64 },
    /// The desk was closed, and then the queue was empty (tested, not proved).
    Ended,
}

/// The clerk of a desk: what the writer thread runs. It takes jobs from the queue and has the keeper admit them.
/// Contracts see all jobs that it took, and an account of each one.
///
/// If it is dropped without [`run`](Self::run) or [`leave`](Self::leave), each ticket that still waits is told that
/// no answer comes.
#[derive(Drop)]
pub struct Clerk<N: StoreName> {
    inbox: Inbox<N>,
    ending: Ending<N>,
    accounts: Accounts,
    alloc: Global,
}

/// Tells the tickets, when it is dropped, that the clerk has ended.
pub(crate) struct Ending<N: StoreName> {
    shared: Arc<Shared<N>>,
}

impl<N: StoreName> Drop for Ending<N> {
    fn drop(self) {
        let Ending { shared } = self;
        shared.end();
    }
}

impl<N: StoreName> Model for Clerk<N> {
    ghost use Rattle.intake.specs.Turns.{ClerkValue, clerk_value, Accounted};

    ghost Value = { ClerkValue };

    ghost view = { λ c. clerk_value c.inbox c.accounts };

    ghost invariant = { λ c. Accounted c.inbox.taken c.accounts };
}

/// Fills the room that was made for the receipt.
fn fill<N: StoreName, R: Wait>(
    rt: &R,
    mut room: Arc<Receipt<N>>,
    receipt: Receipt<N>,
) -> Arc<Receipt<N>>
    ensures { arc_value result ≡ receipt }
{
    // Impossible: a second try. Nobody else has the room yet.
    for _ in rt.forever() {
        if let Some(slot) = Arc::get_mut(&mut room) {
            *slot = receipt;
            return room;
        }
    }
    unreachable!()
}

/// Has an entry judged. If there is no memory for a receipt, it isn't admitted.
fn judge_entry<N: StoreName, R: Wait>(
    rt: &R,
    alloc: Global,
    keeper: &mut Keeper<N>,
    recorded: Record,
) -> Result<Ack<N>, Denial<N>>
    ensures judged { Answers (admit_call N.limits keeper.old recorded keeper.new)
        (place_or_refusal (λ a. a.place) (λ d. d.refusal) result) }
    ensures answered { IfOk result (λ a.
        AnsweredAt (arc_value a.receipt).entries a.place recorded) }
    ensures denied { IfErr result (λ d. IsDenied N.limits recorded d.refusal d.list) }
{
    let accepted = keeper.history();
    // The room for the receipt comes first: after the publish a lack of memory could no longer refuse the entry.
    let Ok(room) = Arc::new(alloc, keeper.receipt()) else {
        return Err(Denial {
            refusal: keeper.refusal_without_receipt(&recorded),
            list: Some(accepted),
        });
    };
    let receipt = match keeper.admit_record(rt, recorded) {
        Ok(receipt) => receipt,
        Err(refusal) => {
            return Err(Denial {
                refusal,
                list: Some(accepted),
            });
        }
    };
    let Some(place) = receipt.place() else {
        unreachable!()
    };
    Ok(Ack {
        receipt: fill(rt, room, receipt),
        place,
    })
}

/// Returns only the place, or the refusal.
fn place_or_refusal<N: StoreName>(answer: &Result<Ack<N>, Denial<N>>) -> Result<u64, Refusal>
    ensures { result ≡ place_or_refusal (λ a. a.place) (λ d. d.refusal) answer.now }
{
    match answer {
        Ok(ack) => Ok(ack.place),
        Err(denial) => Err(denial.refusal),
    }
}

impl<N: StoreName> Clerk<N> {
    pub(crate) fn new(alloc: Global, shared: Arc<Shared<N>>, inbox: Inbox<N>) -> Clerk<N>
        requires { IsNewInbox inbox }
        ensures new { IsNewClerk result }
        ensures desk { result.desk ≡ inbox.desk }
    {
        Clerk {
            inbox,
            ending: Ending { shared },
            accounts: Accounts::new(),
            alloc,
        }
    }

    /// Takes one job, if there is one, has the keeper judge it, and answers its ticket. If there is no memory for
    /// its receipt, the job is refused with [`Refusal::NoMemory`], unless the keeper has another reason to refuse
    /// it.
    ///
    /// Allocates nothing if there is no job.
    ///
    /// # Errors
    ///
    /// [`Refusal::NoMemory`]: there is no room for another account, and no job was taken.
    pub fn turn<R: Wait>(&mut self, rt: &R, keeper: &mut Keeper<N>) -> Result<Turn, Refusal>
        ensures served { IfServed result (ServesJob N.limits
            (turn_state self.old keeper.old) (turn_state self.new keeper.new)) }
        ensures unchanged { IfNotServed result ((self.new ≡ self.old) × (keeper.new ≡ keeper.old)) }
        ensures empty { IfNoJob result (WasEmpty self.old.ended self.old.taken) }
        ensures reason { IfErr result (λ why. why ≡ NoMemory) }
        ensures full { OnErr result (2 ^ 62 ≤ length self.old.accounts) }
    {
        // Impossible: 2^62 jobs would take centuries. But no clause says so.
        if self.accounts.is_full() {
            return Err(Refusal::NoMemory);
        }
        let closed = self.ending.shared.is_closed();
        let Some(job) = self.inbox.pop(rt) else {
            return Ok(if closed { Turn::Ended } else { Turn::Idle });
        };
        let (seat, number) = job.id();
        let (recorded, slot) = job.split();
        let answer = judge_entry(rt, self.alloc, keeper, recorded);
        let account = Account {
            seat,
            number,
            answer: place_or_refusal(&answer),
        };
        self.accounts.add(&account);
        let job_answer = JobAnswer { answer };
        self.ending.shared.store_answer(rt, seat, &slot, job_answer);
        Ok(Turn::Served { seat, number })
    }

    /// Returns the accounts of the jobs that it took.
    pub fn accounts(&self) -> &Accounts
        ensures same { result.now ≡ self.now.accounts }
        ensures each { Accounted self.now.taken self.now.accounts }
    {
        &self.accounts
    }

    /// Waits until the bell's count isn't `rings` any more. Looks for a ring before it sleeps if the clerk has
    /// served at least [`BURST`] jobs since it last slept. Returns whether it slept.
    fn await_job<R: Wait>(&self, rt: &R, rings: u64, served: u64) -> bool {
        let spins = if served >= BURST { JOB_SPINS } else { 0 };
        self.ending.shared.jobs.wait(rt, rings, spins)
    }

    /// Serves until the desk is closed and the queue is empty, and returns the books.
    ///
    /// If there is nothing to do, or no room for another account, it sleeps until a job is submitted.
    pub fn run<R: Wait>(self, rt: &R, mut keeper: Keeper<N>) -> Books<N>
        ensures judged { Ran N.limits (run_state self.taken self.accounts keeper)
            (run_state result.inbox.taken result.accounts result.keeper) }
        ensures acknowledged { result.acknowledged ≡ acknowledged result.accounts }
        ensures refused { result.refused ≡ refused result.accounts }
        ensures unjudged { result.unjudged.items ≡ [] }
        ensures empty { WasEmpty result.inbox.ended result.inbox.taken }
        ensures desk { (result.inbox.desk ≡ self.desk) × (result.inbox.ended ≡ self.ended) }
        ensures books { Balances result.inbox.taken result.accounts
            (map arc_value result.unjudged.items) }
    {
        let mut clerk = self;
        // For the prover: the clause `each` of `accounts` is used below.
        let _each = clerk.accounts().count();
        let mut served: u64 = 0;
        for _ in rt.forever() {
            let rings = clerk.ending.shared.jobs.rings();
            match clerk.turn(rt, &mut keeper) {
                Ok(Turn::Ended) => return clerk.leave(keeper),
                Ok(Turn::Served { .. }) => served = served.saturating_add(1),
                Ok(Turn::Idle) | Err(_) => {
                    if clerk.await_job(rt, rings, served) {
                        served = 0;
                    }
                }
            }
        }
        unreachable!()
    }

    /// Returns the books at once. Waiting jobs stay in the queue, from which [`Books::take_in_seat`] returns them; their
    /// tickets are told that no answer comes, or that the desk was closed.
    pub fn leave(self, keeper: Keeper<N>) -> Books<N>
        ensures taken { result.inbox.taken ≡ self.taken }
        ensures accounts { result.accounts ≡ self.accounts }
        ensures keeper { result.keeper ≡ keeper }
        ensures each { Accounted self.taken self.accounts }
        ensures acknowledged { result.acknowledged ≡ acknowledged result.accounts }
        ensures refused { result.refused ≡ refused result.accounts }
        ensures unjudged { result.unjudged.items ≡ [] }
        ensures desk { (result.inbox.desk ≡ self.desk) × (result.inbox.ended ≡ self.ended) }
        ensures books { Balances result.inbox.taken result.accounts
            (map arc_value result.unjudged.items) }
    {
        let Clerk {
            inbox,
            ending,
            accounts,
            alloc,
        } = self;
        drop(ending);
        Books {
            keeper,
            acknowledged: accounts.acknowledged(),
            refused: accounts.refused(),
            accounts,
            unjudged: Vec::new(alloc),
            inbox,
        }
    }
}
