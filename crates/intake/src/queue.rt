//! The queue between the seats and the clerk, and its rule.

use crate::job::Job;
use crossbeam_queue::protocol::{Join, Lesson, Outcome, Protocol, Split};
use crossbeam_queue::{Pass, RuledArrayQueue};
use read_side::StoreName;
use std::collections::LinkedList;
use std::marker::PhantomData;
use trace_model::Entry;

/// What an ended seat submitted. No value of it is made: only contracts use it.
pub struct EndedSeat {
    pub seat: u64,
    pub jobs: LinkedList<Entry>,
}

/// What a seat or the clerk knows of the queue. No value of it is made: only contracts use it.
pub struct QueueView {
    /// Whether it may submit jobs, as this seat.
    pub submits: bool,
    /// Whether it takes the jobs.
    pub takes: bool,
    pub seat: u64,
    /// The number of seats that it has made.
    pub made: u64,
    /// The jobs that it submitted.
    pub submitted: LinkedList<Entry>,
    /// The jobs that it took.
    pub taken: LinkedList<Entry>,
    /// The seats that it took in.
    pub ended: LinkedList<EndedSeat>,
}

/// The rule: for each seat the jobs taken, followed by those queued, are the jobs that it submitted, in order,
/// numbered from 1 on.
pub struct InOrder<N> {
    of: PhantomData<N>,
}

impl<N: StoreName> Protocol<Job<N>, QueueView> for InOrder<N> {
    ghost use Rattle.intake.specs.Queues.{first_view, Balanced};

    ghost holds = { Balanced };

    ghost first = { first_view };
}

/// The step that submits a job, and what is returned if the queue is full.
pub struct PushJob;

impl<N: StoreName> Outcome<Job<N>, QueueView> for PushJob {
    ghost use Rattle.intake.specs.Queues.{PutsJob};

    ghost then = { PutsJob };
}

impl<N: StoreName> Lesson<Job<N>, QueueView> for PushJob {
    ghost use Rattle.intake.specs.Queues.{IsQueued};

    ghost fact = { IsQueued };
}

/// The step that takes a job, and what is returned if there is none.
pub struct PopJob;

impl<N: StoreName> Outcome<Job<N>, QueueView> for PopJob {
    ghost use Rattle.intake.specs.Queues.{TakesJob};

    ghost then = { TakesJob };
}

impl<N: StoreName> Lesson<Job<N>, QueueView> for PopJob {
    ghost use Rattle.intake.specs.Queues.{Waiting};

    ghost fact = { Waiting };
}

/// The step that makes one more seat.
pub struct MakeSeat;

impl Split<QueueView> for MakeSeat {
    ghost use Rattle.intake.specs.Queues.{one_more, new_seat};

    ghost left = { one_more };

    ghost right = { new_seat };
}

/// The step by which a seat gives up its right to submit, and keeps its list.
pub struct Retire;

impl Split<QueueView> for Retire {
    ghost use Rattle.intake.specs.Queues.{retired};

    ghost left = { retired };

    ghost right = { λ v. v };
}

/// The step by which the clerk takes over a right to submit that was given up.
pub struct TakeIn;

impl Join<QueueView> for TakeIn {
    ghost use Rattle.intake.specs.Queues.{took_in, spent};

    ghost both = { took_in };

    ghost spent = { spent };
}

/// The queue of one desk.
pub type Queue<N> = RuledArrayQueue<Job<N>, QueueView, InOrder<N>>;

/// What a seat or the clerk holds of the queue.
pub type QueueEnd<N> = Pass<Job<N>, QueueView>;
