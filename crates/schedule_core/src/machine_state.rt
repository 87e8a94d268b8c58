//! The machine over two copies. Readers enter the one that is shown; a publish shows them the other one, unless
//! a reader is still inside that.

ghost use Rattle.std.specs.Prelude.{◌≡◌, IfOk, length, slice_get, take};
ghost use Rattle.std.specs.Arc.{arc_value};
ghost use Rattle.trace_model.specs.Answers.{answer};
ghost use Rattle.arrival_journal.specs.Journals.{admission_by};
ghost use Rattle.schedule_core.specs.CopiedLists.{all_of};
ghost use Rattle.schedule_core.specs.MachineStates.{verdict};
ghost use Rattle.schedule_core.specs.ReaderStates.{Visits};
ghost use Rattle.schedule_core.specs.declared.step.Step.TheVariants.{Enter, Leave, Learn, Read};
ghost use Rattle.schedule_core.specs.Machine.{by_reader, enters, front_of, leaves, learns, new_machine, publishes, limits_by, puts, reads, stays};
ghost use Rattle.schedule_core.specs.Machine.{step as stepped, takes};

use crate::copies::{Copies, without_memory};
use crate::outcome::Outcome;
use crate::readers::{Inside, ReaderState, Readers};
use crate::seats::Seats;
use crate::step::Step;
use std::alloc::{AllocError, Global};
use std::hash::RandomState;
use std::marker::Model;
use std::sync::Arc;
use trace_model::{Admission, Answer, Entry, Limits, Query, TraceLimit, Work};

/// The machine with the two copies that it keeps.
#[derive(Drop)]
pub(crate) struct MachineState {
    copies: Copies,
    seats: Seats,
    /// The front of each publish.
    fronts: Vec<u64>,
    readers: Readers,
}

impl Model for MachineState {
    ghost use Rattle.schedule_core.specs.Machine.{Machine};
    ghost use Rattle.schedule_core.specs.MachineStates.{IsState, machine_of};

    ghost Value = { Machine };

    ghost view = { λ s. machine_of s.copies s.seats s.fronts.items s.readers };

    ghost invariant = { λ s. IsState s.copies s.seats s.fronts.items s.readers };
}

impl MachineState {
    /// Makes a machine in which nothing has happened.
    ///
    /// # Errors
    ///
    /// Out of memory, and nothing else.
    pub fn new(alloc: Global, keys: RandomState, limits: Limits) -> Result<MachineState, AllocError>
        ensures { IfOk result (λ s. s ≡ new_machine limits) }
    {
        let seats = Seats::new(alloc)?;
        let Ok(readers) = Readers::new(alloc) else {
            return without_memory(seats);
        };
        let Ok(copies) = Copies::new(alloc, keys, limits) else {
            return without_memory((seats, readers));
        };
        Ok(MachineState {
            copies,
            seats,
            fronts: Vec::new(alloc),
            readers,
        })
    }

    fn put(&mut self, seat: u32, work: Work) -> Result<Outcome, AllocError>
        ensures { IfOk result (λ o. record { outcome = o; machine = self.new } ≡
            puts self.old seat work (slice_get self.old.numbers seat)) }
    {
        match self.seats.submit(seat, work)? {
            Some(number) => Ok(Outcome::Put { number }),
            None => Ok(Outcome::Unknown),
        }
    }

    fn limit(&mut self, seat: u32, limit: u32) -> Result<Outcome, AllocError>
        ensures { IfOk result (λ o. record { outcome = o; machine = self.new } ≡
            limits_by self.old seat limit (slice_get self.old.numbers seat)) }
    {
        let Some(limit) = TraceLimit::new(limit) else {
            return Ok(Outcome::Unknown);
        };
        self.put(seat, Work::TraceLimit(limit))
    }

    fn take(&mut self) -> Outcome
        ensures { record { outcome = result; machine = self.new } ≡
            takes self.old self.old.waiting }
    {
        let Some(job) = self.seats.take() else {
            return Outcome::Idle;
        };
        judge(&mut self.copies, job)
    }

    fn publish(&mut self) -> Result<Outcome, AllocError>
        ensures { IfOk result (λ o. record { outcome = o; machine = self.new } ≡
            publishes self.old) }
    {
        if let Some(reader) = self.readers.first_held(self.publishes()) {
            return Ok(Outcome::Held { reader });
        }
        self.fronts.reserve(1)?;
        self.copies.publish()?;
        let front = self.copies.front();
        self.fronts.push_reserved(front);
        Ok(Outcome::Published { front })
    }

    /// Returns the number of publishes so far.
    fn publishes(&self) -> u64
        ensures { result ≡ length self.now.fronts }
    {
        self.fronts.len() as u64
    }

    fn enter(&mut self, reader: u32) -> Outcome
        ensures { record { outcome = result; machine = self.new } ≡
            by_reader self.old reader (λ r. enters self.old reader r.inside) }
    {
        let Some(state) = self.readers.get(reader) else {
            return Outcome::Unknown;
        };
        if state.inside.is_some() {
            return Outcome::Inside;
        }
        let front = self.copies.front();
        let inside = Inside {
            front,
            publishes: self.publishes(),
        };
        self.readers.set(
            reader,
            ReaderState {
                seen: front,
                inside: Some(inside),
            },
        );
        Outcome::Entered { front }
    }

    fn read(&self, reader: u32, query: &Query) -> Result<Outcome, AllocError>
        ensures { IfOk result (λ o. stays self.now o ≡
            by_reader self.now reader (λ r. reads self.now query.now r.inside)) }
    {
        let Some(state) = self.readers.get(reader) else {
            return Ok(Outcome::Unknown);
        };
        let Some(inside) = state.inside else {
            return Ok(Outcome::Outside);
        };
        let answer = answer_inside(&self.copies, self.publishes(), inside, query)?;
        Ok(Outcome::Answered {
            front: inside.front,
            answer,
        })
    }

    /// Returns the front of a publish, which counts from 1.
    fn front_of(&self, publish: u32) -> Option<u64>
        ensures { result ≡ front_of self.now publish }
    {
        let before = (publish as usize).checked_sub(1)?;
        self.fronts.get(before).copied()
    }

    fn learn(&mut self, reader: u32, publish: u32) -> Outcome
        ensures { record { outcome = result; machine = self.new } ≡
            stepped self.old (Learn reader publish) }
    {
        let Some(state) = self.readers.get(reader) else {
            return Outcome::Unknown;
        };
        let Some(front) = self.front_of(publish) else {
            return Outcome::Unknown;
        };
        if state.inside.is_some() {
            return Outcome::Inside;
        }
        let seen = state.seen.max(front);
        self.readers.set(reader, ReaderState { seen, inside: None });
        Outcome::Learnt { front: seen }
    }

    fn leave(&mut self, reader: u32) -> Outcome
        ensures { record { outcome = result; machine = self.new } ≡
            stepped self.old (Leave reader) }
    {
        let Some(state) = self.readers.get(reader) else {
            return Outcome::Unknown;
        };
        if state.inside.is_none() {
            return Outcome::Outside;
        }
        self.readers.set(
            reader,
            ReaderState {
                seen: state.seen,
                inside: None,
            },
        );
        Outcome::Left
    }

    /// Makes a step, and returns its outcome.
    ///
    /// # Errors
    ///
    /// Out of memory, and nothing else.
    pub fn step(&mut self, step: Step) -> Result<Outcome, AllocError>
        ensures { IfOk result (λ o. record { outcome = o; machine = self.new } ≡
            stepped self.old step) }
    {
        match step {
            Step::Put { seat, batch } => self.put(seat, Work::Batch(batch)),
            Step::Limit { seat, limit } => self.limit(seat, limit),
            Step::Take => Ok(self.take()),
            Step::Publish => self.publish(),
            Step::Enter { reader } => Ok(self.enter(reader)),
            Step::Read { reader, query } => {
                let outcome = self.read(reader, &query);
                // For the prover: an explicit drop is cheaper than one at the end of the block.
                drop(query);
                outcome
            }
            Step::Learn { reader, publish } => Ok(self.learn(reader, publish)),
            Step::Leave { reader } => Ok(self.leave(reader)),
        }
    }
}

/// Accepts a job, unless its batch was sent before or the accepted entries refuse it.
fn judge(copies: &mut Copies, job: Arc<Entry>) -> Outcome
    ensures { record { outcome = result; copies = copies.new } ≡
        verdict copies.old (arc_value job) (admission_by (all_of copies.old) (arc_value job)) }
{
    let (seat, number) = (job.seat, job.number);
    match copies.admit(job) {
        Ok(Admission::Added) => Outcome::Taken { seat, number },
        Ok(Admission::Resent { place }) => Outcome::Again {
            seat,
            number,
            place,
        },
        Err(why) => Outcome::Refused(why),
    }
}

/// Returns the answer at the list that a reader entered, which one of the copies has.
fn answer_inside(
    copies: &Copies,
    publishes: u64,
    inside: Inside,
    query: &Query,
) -> Result<Answer, AllocError>
    requires visits { Visits copies.now.before copies.now.history publishes inside }
    ensures { IfOk result (λ a. a ≡ answer copies.now.limits (take inside.front copies.now.history)
        query.now) }
{
    let is_last = inside.publishes == publishes;
    copies.answer(query, is_last).map_err(|_| AllocError)
}
