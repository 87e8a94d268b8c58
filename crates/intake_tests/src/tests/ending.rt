//! Closing the books: four seats submit while a fifth thread closes the desk, after each of them has a job in,
//! or the clerk leaves while jobs wait. Nothing is lost.

ghost use Rattle.std.specs.Prelude.{◌≡◌, true, map, All, IfSome};
ghost use Rattle.std.specs.Arc.{arc_value};
ghost use Rattle.intake.specs.Books.{Balances};
ghost use Rattle.intake.specs.Seats.{IsNewSeat};
ghost use Rattle.intake_tests.specs.Seats.{AllMaySubmit, KeepsSeat};

use crate::tests::closed::is_batch_refused;
use crate::tests::fixture::{Fixture, batch, opened};
use intake::{Books, Clerk, DeskHandle, Seat, Ticket, Turn};
use read_side::{EmptyHistory, Keeper, StoreName};
use std::alloc::Global;
use std::marker::Brand;
use std::mem::drop;
use std::process::Abort;
use std::random::RandomSource;
use std::sync::Wait;
use std::sync::atomic::{AtomicU64, Ordering};
use std::test::*;
use std::thread::{Threads, join_mut, yield_now};
use trace_model::{Limits, Refusal};

/// How often a seat tries to submit a batch, from its first success on.
const MAX_TRIES: u64 = 200;

/// The number of jobs that the queue has room for.
const ROOM: usize = 8;

/// The number of batches that the store has room for. Each has one span.
const MAX_BATCHES: u32 = 40;

/// How often a thread that waits, for room or for the seats, lets others run.
const PATIENCE: u64 = 10_000_000;

/// A seat, and a ticket for each job that it submitted, the first one for number 1.
#[derive(Drop)]
struct Submitter<N: StoreName> {
    seat: Seat<N>,
    tickets: Vec<Ticket<N>>,
}

/// The result of a try to submit a batch.
#[derive(Clone, Copy)]
enum Tried {
    Submitted,
    /// The queue was full.
    Refused,
    /// The desk is closed, or memory ran out.
    Over,
}

/// Tries to submit a batch, without waiting for an answer.
fn try_batch<N: StoreName, R: Wait>(
    rt: &R,
    alloc: Global,
    submitter: &mut Submitter<N>,
    id: u64,
) -> Tried
    ensures { KeepsSeat submitter.old.seat submitter.new.seat }
{
    if submitter.tickets.reserve(1).is_err() {
        return Tried::Over;
    }
    let Ok(batch) = batch(alloc, id) else {
        return Tried::Over;
    };
    match submitter.seat.submit(rt, alloc, batch) {
        Ok(ticket) => {
            submitter.tickets.push_reserved(ticket);
            Tried::Submitted
        }
        Err((why, batch)) => {
            drop(batch);
            if why == Refusal::Closed {
                Tried::Over
            } else {
                Tried::Refused
            }
        }
    }
}

/// Tries at most `most` times to submit a batch; the first time until there is room for it; fewer times if the desk is
/// closed before. The first success is counted.
fn submit_batches<N: StoreName, R: Wait>(
    rt: &R,
    alloc: Global,
    submitter: &mut Submitter<N>,
    most: u64,
    begun: &AtomicU64,
)
    ensures { KeepsSeat submitter.old.seat submitter.new.seat }
{
    let mut tries = 0u64;
    for id in 0..PATIENCE {
        if tries >= most {
            break;
        }
        match try_batch(rt, alloc, submitter, id) {
            Tried::Submitted => {
                if submitter.tickets.len() == 1 {
                    begun.fetch_add(1, Ordering::SeqCst);
                }
            }
            Tried::Refused => yield_now(),
            Tried::Over => break,
        }
        if !submitter.tickets.is_empty() {
            tries = tries.saturating_add(1);
        }
    }
}

/// Closes the desk a while after each of the four seats has a job in.
fn close_soon<N: StoreName>(desk: &DeskHandle<N>, turns: u64, begun: &AtomicU64) {
    for _ in 0..PATIENCE {
        if begun.load(Ordering::SeqCst) == 4 {
            break;
        }
        yield_now();
    }
    for _ in 0..turns {
        yield_now();
    }
    desk.close();
}

/// Two seats, each in its thread.
fn two_submit<N: StoreName + Send + Sync, R: Threads + Wait + Sync>(
    rt: &R,
    alloc: Global,
    a: &mut Submitter<N>,
    b: &mut Submitter<N>,
    begun: &AtomicU64,
)
    ensures a { KeepsSeat a.old.seat a.new.seat }
    ensures b { KeepsSeat b.old.seat b.new.seat }
{
    join_mut(
        rt,
        &mut || submit_batches(rt, alloc, a, MAX_TRIES, begun),
        &mut || submit_batches(rt, alloc, b, MAX_TRIES, begun),
    );
}

/// The four seats of a desk.
#[derive(Drop)]
struct Four<N: StoreName> {
    a: Submitter<N>,
    b: Submitter<N>,
    c: Submitter<N>,
    d: Submitter<N>,
}

/// The next seat of the clerk's desk.
fn next_seat<N: StoreName>(clerk: &Clerk<N>, seats: &mut Vec<Seat<N>>) -> Option<Seat<N>>
    requires { All (IsNewSeat clerk.now.desk 8) seats.old.items }
    ensures rest { All (IsNewSeat clerk.now.desk 8) seats.new.items }
    ensures seat { IfSome result (IsNewSeat clerk.now.desk 8) }
{
    seats.pop()
}

/// The seat, which has submitted nothing yet.
fn unused_seat<N: StoreName>(alloc: Global, seat: Seat<N>) -> Submitter<N>
    ensures { result.seat ≡ seat }
{
    let tickets = Vec::new(alloc);
    Submitter { seat, tickets }
}

/// The four seats of the clerk's desk.
fn four_of<N: StoreName>(alloc: Global, clerk: &Clerk<N>, seats: Vec<Seat<N>>) -> Option<Four<N>>
    requires { All (IsNewSeat clerk.now.desk 8) seats.items }
    ensures { IfSome result (λ f.
        AllMaySubmit clerk.now.desk f.a.seat f.b.seat f.c.seat f.d.seat) }
{
    let mut seats = seats;
    let d = next_seat(clerk, &mut seats)?;
    let c = next_seat(clerk, &mut seats)?;
    let b = next_seat(clerk, &mut seats)?;
    let a = next_seat(clerk, &mut seats)?;
    Some(Four {
        a: unused_seat(alloc, a),
        b: unused_seat(alloc, b),
        c: unused_seat(alloc, c),
        d: unused_seat(alloc, d),
    })
}

/// Four seats, each in its thread.
fn four_submit<N: StoreName + Send + Sync, R: Threads + Wait + Sync>(
    rt: &R,
    alloc: Global,
    four: &mut Four<N>,
    begun: &AtomicU64,
)
    ensures a { KeepsSeat four.old.a.seat four.new.a.seat }
    ensures b { KeepsSeat four.old.b.seat four.new.b.seat }
    ensures c { KeepsSeat four.old.c.seat four.new.c.seat }
    ensures d { KeepsSeat four.old.d.seat four.new.d.seat }
{
    let Four { a, b, c, d } = four;
    join_mut(
        rt,
        &mut || two_submit(rt, alloc, a, b, begun),
        &mut || two_submit(rt, alloc, c, d, begun),
    );
}

/// The seats, and the desk, which is closed this number of turns after all of them have begun.
#[derive(Drop)]
struct Floor<N: StoreName> {
    four: Four<N>,
    desk: DeskHandle<N>,
    turns: u64,
    /// The number of seats that have a job in.
    begun: AtomicU64,
}

/// A desk that has just been opened: its clerk, the clerk's keeper, and the seats.
struct OpenDesk<N: StoreName> {
    clerk: Clerk<N>,
    keeper: Keeper<N>,
    floor: Floor<N>,
}

/// The seats submit, while one more thread closes the desk.
fn all_submit<N: StoreName + Send + Sync, R: Threads + Wait + Sync>(
    rt: &R,
    alloc: Global,
    floor: &mut Floor<N>,
)
    ensures a { KeepsSeat floor.old.four.a.seat floor.new.four.a.seat }
    ensures b { KeepsSeat floor.old.four.b.seat floor.new.four.b.seat }
    ensures c { KeepsSeat floor.old.four.c.seat floor.new.four.c.seat }
    ensures d { KeepsSeat floor.old.four.d.seat floor.new.four.d.seat }
{
    let Floor {
        four,
        desk,
        turns,
        begun,
    } = floor;
    let begun: &AtomicU64 = begun;
    join_mut(
        rt,
        &mut || four_submit(rt, alloc, four, begun),
        &mut || close_soon(desk, *turns, begun),
    );
}

/// The clerk and its keeper, and what the clerk left after it has served.
struct Office<N: StoreName> {
    clerk: Option<Clerk<N>>,
    keeper: Option<Keeper<N>>,
    books: Option<Books<N>>,
}

/// Has the clerk serve until the desk is closed.
fn keep<N: StoreName, R: Wait>(rt: &R, office: &mut Office<N>)
    ensures desk { IfSome office.old.clerk (λ k.
        IfSome office.new.books (λ l. l.inbox.desk ≡ k.desk)) }
    ensures books { IfSome office.new.books (λ l.
        Balances l.inbox.taken l.accounts (map arc_value l.unjudged.items)) }
{
    if let Some(earlier) = office.books.take() {
        earlier.close(rt);
    }
    let Some(clerk) = office.clerk.take() else {
        return;
    };
    let Some(keeper) = office.keeper.take() else {
        return;
    };
    if let Some(earlier) = office.books.replace(clerk.run(rt, keeper)) {
        earlier.close(rt);
    }
}

/// The clerk serves, the seats submit, and the desk is closed.
fn all_day<N: StoreName + Send + Sync, R: Threads + Wait + Sync>(
    rt: &R,
    alloc: Global,
    office: &mut Office<N>,
    floor: &mut Floor<N>,
)
    ensures desk { IfSome office.old.clerk (λ k.
        IfSome office.new.books (λ l. l.inbox.desk ≡ k.desk)) }
    ensures books { IfSome office.new.books (λ l.
        Balances l.inbox.taken l.accounts (map arc_value l.unjudged.items)) }
    ensures a { KeepsSeat floor.old.four.a.seat floor.new.four.a.seat }
    ensures b { KeepsSeat floor.old.four.b.seat floor.new.four.b.seat }
    ensures c { KeepsSeat floor.old.four.c.seat floor.new.four.c.seat }
    ensures d { KeepsSeat floor.old.four.d.seat floor.new.four.d.seat }
{
    join_mut(
        rt,
        &mut || keep(rt, office),
        &mut || all_submit(rt, alloc, floor),
    );
}

/// Takes a seat in, and tries once more if memory ran out.
fn take_in<N: StoreName, R: Wait>(rt: &R, books: &mut Books<N>, seat: &mut Seat<N>)
    requires desk { books.old.inbox.desk ≡ seat.old.desk }
    requires books { Balances books.old.inbox.taken books.old.accounts
        (map arc_value books.old.unjudged.items) }
    requires seat { seat.old.may_submit ≡ true }
    ensures desk { books.new.inbox.desk ≡ books.old.inbox.desk }
    ensures books { Balances books.new.inbox.taken books.new.accounts
        (map arc_value books.new.unjudged.items) }
{
    for _ in rt.forever() {
        if books.take_in_seat(rt, seat).is_ok() {
            break;
        }
    }
}

/// Returns whether the seat's job with this number is left.
fn is_left<N: StoreName>(books: &Books<N>, seat: u16, number: u64) -> bool {
    books
        .unjudged
        .iter()
        .any(|job| job.seat == seat && job.number == number)
}

/// The number of tickets that were answered by the store, and how.
#[derive(Clone, Copy)]
struct Answers {
    acknowledged: u64,
    /// The store was full.
    full: u64,
    without_memory: u64,
}

impl Answers {
    fn none() -> Answers {
        Answers {
            acknowledged: 0,
            full: 0,
            without_memory: 0,
        }
    }

    fn refused(self) -> u64 {
        self.full.saturating_add(self.without_memory)
    }

    /// Returns whether no job was refused as of a full store before the store was full.
    fn fills_first(self) -> bool {
        self.full == 0 || self.acknowledged == u64::from(MAX_BATCHES)
    }
}

/// Returns whether the job was refused by a full store or for want of memory, which is counted. No other refusal is
/// due.
fn is_refused(why: Refusal, answers: &mut Answers) -> bool {
    match why {
        Refusal::JournalFull { batches, spans } => {
            let most = u64::from(MAX_BATCHES);
            answers.full = answers.full.saturating_add(1);
            batches == most && spans == most
        }
        Refusal::NoMemory => {
            answers.without_memory = answers.without_memory.saturating_add(1);
            true
        }
        _ => false,
    }
}

/// Returns whether the ticket says that the desk was closed exactly if its job is left. Another answer is counted: each
/// refusal has to be the one that is due.
fn is_answered<N: StoreName, R: Wait>(
    rt: &R,
    books: &Books<N>,
    ticket: Ticket<N>,
    seat: u16,
    number: u64,
    answers: &mut Answers,
) -> bool {
    let is_left = is_left(books, seat, number);
    match ticket.wait(rt) {
        Err(Refusal::Closed) => return is_left,
        Ok(_) => answers.acknowledged = answers.acknowledged.saturating_add(1),
        Err(why) => {
            if !is_refused(why, answers) {
                return false;
            }
        }
    }
    !is_left
}

/// Returns whether the books answer each ticket, and a further batch is refused. The store's answers are counted.
fn is_whole<N: StoreName, R: Wait>(
    rt: &R,
    alloc: Global,
    books: &Books<N>,
    submitter: Submitter<N>,
    answers: &mut Answers,
) -> bool {
    let Submitter { mut seat, tickets } = submitter;
    let mut number = 0u64;
    let mut answered = true;
    for ticket in tickets {
        number = number.saturating_add(1);
        answered = is_answered(rt, books, ticket, seat.number(), number, answers) && answered;
    }
    answered && seat.submitted() == number && is_batch_refused(rt, alloc, &mut seat)
}

/// The number of jobs that are left, and of those that were refused for want of memory.
#[derive(Clone, Copy)]
struct Leftover {
    jobs: u64,
    without_memory: u64,
}

/// Returns whether the counts of jobs, accounts and entries agree.
fn are_counted<N: StoreName>(books: &mut Books<N>, four: &Four<N>) -> bool {
    let mut all = 0u64;
    for submitter in [&four.a, &four.b, &four.c, &four.d] {
        all = all.saturating_add(submitter.tickets.len() as u64);
    }
    let left = books.unjudged.len() as u64;
    let answered = books.acknowledged.saturating_add(books.refused);
    let receipt = books.keeper.receipt();
    let front = receipt.front();
    drop(receipt);
    all == answered.saturating_add(left) && front == books.acknowledged
}

/// Returns whether the books answer each ticket of the seats, and a further batch of each is refused. The store's
/// answers are counted.
fn are_whole<N: StoreName, R: Wait>(
    rt: &R,
    alloc: Global,
    books: &Books<N>,
    four: Four<N>,
    answers: &mut Answers,
) -> bool {
    // For the prover: each seat is given up by a call, and none on one side of an `&&` alone.
    let Four { a, b, c, d } = four;
    let a = is_whole(rt, alloc, books, a, answers);
    let b = is_whole(rt, alloc, books, b, answers);
    let c = is_whole(rt, alloc, books, c, answers);
    let d = is_whole(rt, alloc, books, d, answers);
    a && b && c && d
}

/// Returns what is left in the books after all seats were taken in.
fn leftover_of<N: StoreName, R: Wait>(
    rt: &R,
    alloc: Global,
    books: &mut Books<N>,
    four: Four<N>,
) -> Option<Leftover> {
    let counted = are_counted(books, &four);
    let mut answers = Answers::none();
    let whole = are_whole(rt, alloc, books, four, &mut answers);
    let booked = answers.acknowledged == books.acknowledged && answers.refused() == books.refused;
    if counted && whole && booked && answers.fills_first() {
        Some(Leftover {
            jobs: books.unjudged.len() as u64,
            without_memory: answers.without_memory,
        })
    } else {
        None
    }
}

/// Takes all seats in, and returns what is left. Returns None if some submitted job isn't in the books once, with
/// its own answer, or the counts of jobs, accounts and entries don't agree.
fn left_over<N: StoreName, R: Wait>(
    rt: &R,
    alloc: Global,
    books: Books<N>,
    submitters: Four<N>,
) -> Option<Leftover>
    requires books { Balances books.inbox.taken books.accounts
        (map arc_value books.unjudged.items) }
    requires seats { AllMaySubmit books.inbox.desk submitters.a.seat submitters.b.seat
        submitters.c.seat submitters.d.seat }
{
    let mut books = books;
    let mut four = submitters;
    take_in(rt, &mut books, &mut four.a.seat);
    take_in(rt, &mut books, &mut four.b.seat);
    take_in(rt, &mut books, &mut four.c.seat);
    take_in(rt, &mut books, &mut four.d.seat);
    let left = leftover_of(rt, alloc, &mut books, four);
    books.close(rt);
    left
}

/// Two seats submit five jobs. The clerk serves one; the desk is closed, and the clerk leaves: four are
/// left. If memory ran out it may be fewer jobs.
fn leaves<N: StoreName, R: Wait>(rt: &R, alloc: Global, opened: OpenDesk<N>) -> bool
    requires seats { AllMaySubmit opened.clerk.desk opened.floor.four.a.seat
        opened.floor.four.b.seat opened.floor.four.c.seat opened.floor.four.d.seat }
{
    let OpenDesk {
        mut clerk,
        mut keeper,
        floor,
    } = opened;
    let Floor {
        mut four,
        desk,
        turns: _,
        begun,
    } = floor;
    submit_batches(rt, alloc, &mut four.a, 3, &begun);
    submit_batches(rt, alloc, &mut four.b, 2, &begun);
    let submitted = (four.a.tickets.len() as u64).saturating_add(four.b.tickets.len() as u64);
    let served = matches!(clerk.turn(rt, &mut keeper), Ok(Turn::Served { .. }));
    desk.close();
    drop(desk);
    let books = clerk.leave(keeper);
    match left_over(rt, alloc, books, four) {
        Some(left) => left.jobs == submitted.saturating_sub(served as u64),
        None => false,
    }
}

/// Returns whether each seat has submitted something.
fn have_begun<N: StoreName>(four: &Four<N>) -> bool {
    [&four.a, &four.b, &four.c, &four.d]
        .iter()
        .all(|one| !one.tickets.is_empty())
}

/// The clerk serves while the seats submit and the desk is closed. Returns whether each seat had a job in, and
/// nothing is lost. Memory is ample: no job is refused for want of it.
fn races<N: StoreName + Send + Sync, R: Threads + Wait + Sync>(
    rt: &R,
    alloc: Global,
    opened: OpenDesk<N>,
) -> bool
    requires seats { AllMaySubmit opened.clerk.desk opened.floor.four.a.seat
        opened.floor.four.b.seat opened.floor.four.c.seat opened.floor.four.d.seat }
{
    let OpenDesk {
        clerk,
        keeper,
        mut floor,
    } = opened;
    let mut office = Office {
        clerk: Some(clerk),
        keeper: Some(keeper),
        books: None,
    };
    all_day(rt, alloc, &mut office, &mut floor);
    let Office {
        clerk,
        keeper,
        books,
    } = office;
    drop(clerk);
    if let Some(keeper) = keeper {
        keeper.close(rt);
    }
    let Floor {
        four,
        desk,
        turns: _,
        begun: _,
    } = floor;
    drop(desk);
    let begun = have_begun(&four);
    match books {
        Some(books) => {
            let left = left_over(rt, alloc, books, four);
            begun && left.is_some_and(|left| left.without_memory == 0)
        }
        None => {
            drop(four);
            false
        }
    }
}

/// How a desk ends.
#[derive(Clone, Copy)]
enum Ending {
    /// It is closed this number of turns after each of four seats has a job in, while they submit and the clerk
    /// serves.
    Race(u64),
    /// The clerk leaves while jobs wait.
    Leaves,
}

impl Ending {
    /// The number of turns, after each seat has a job in, until the desk is closed.
    fn turns(self) -> u64 {
        match self {
            Ending::Race(turns) => turns,
            Ending::Leaves => 0,
        }
    }
}

/// Opens a store with a desk of four seats, and ends it this way.
fn round<N: StoreName + Send + Sync, R: Threads + Wait + Abort + RandomSource + Sync>(
    rt: &R,
    alloc: Global,
    name: EmptyHistory,
    limits: Limits,
    ending: Ending,
) -> Result<bool, Fail>
    requires { (name.log.book ≡ N.book) × (limits ≡ N.limits) }
{
    let Fixture {
        keeper,
        passes,
        desk,
        seats,
        clerk,
    } = opened::<N, _>(rt, alloc, name, limits, 1, ROOM)?;
    drop(passes);
    match four_of(alloc, &clerk, seats) {
        Some(four) => {
            let floor = Floor {
                four,
                desk,
                turns: ending.turns(),
                begun: AtomicU64::new(0),
            };
            let opened = OpenDesk {
                clerk,
                keeper,
                floor,
            };
            match ending {
                Ending::Race(_) => Ok(races(rt, alloc, opened)),
                Ending::Leaves => Ok(leaves(rt, alloc, opened)),
            }
        }
        None => {
            keeper.close(rt);
            drop(desk);
            drop(clerk);
            Ok(false)
        }
    }
}

/// A store with room for [`MAX_BATCHES`].
fn plays<R: Threads + Wait + Abort + RandomSource + Sync>(
    rt: &R,
    alloc: Global,
    ending: Ending,
) -> Result<bool, Fail> {
    let limits = Limits::new(MAX_BATCHES, 1000, 0, 0).expect(rt, "limits");
    round::<Brand, _>(rt, alloc, EmptyHistory::new(), limits, ending)
}

#[test]
fn nothing_lost(rt: HostRuntime) -> Result<(), Fail> {
    for turns in 0..100 {
        assert!(rt; plays(&rt, rt.alloc(), Ending::Race(turns))?);
    }
    Ok(())
}

/// Wherever memory runs out while the seats are taken in (`rt try --test --fail-alloc 1..`).
#[test]
fn waiting_jobs_handed_back(rt: HostRuntime) -> Result<(), Fail> {
    assert!(rt; plays(&rt, rt.alloc(), Ending::Leaves)?);
    Ok(())
}
