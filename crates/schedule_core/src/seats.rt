//! Seats and the jobs that they have submitted.

ghost use Rattle.std.specs.Prelude.{◌≡◌, [], ◌∷◌, ◌++◌, IfOk, MatchOption, OnErr, replicate};
ghost use Rattle.std.specs.Arc.{arc_value};
ghost use Rattle.schedule_core.specs.WaitingJobs.{next_number, queued};

use std::alloc::{AllocError, Global};
use std::collections::VecDeque;
use std::marker::Model;
use std::sync::Arc;
use trace_model::{Entry, Work};

/// The number of seats.
const SEATS: usize = 64;

/// The jobs that wait, and the last number of each seat.
#[derive(Drop)]
pub(crate) struct Seats {
    alloc: Global,
    waiting: VecDeque<Arc<Entry>>,
    numbers: Vec<u64>,
}

impl Model for Seats {
    ghost use Rattle.std.specs.Prelude.{◌≡◌, map, length};
    ghost use Rattle.std.specs.Arc.{arc_value};
    ghost use Rattle.schedule_core.specs.WaitingJobs.{Queued};
    ghost use Rattle.schedule_core.specs.declared.seats.TheConstants.{SEATS};

    ghost Value = { Queued };

    ghost view = { λ s. record { waiting = map arc_value s.waiting.items; numbers = s.numbers.items } };

    ghost invariant = { λ s. length s.numbers.items ≡ SEATS };
}

impl Seats {
    /// Makes seats that have submitted nothing.
    ///
    /// # Errors
    ///
    /// Out of memory, and nothing else.
    pub fn new(alloc: Global) -> Result<Seats, AllocError>
        ensures { IfOk result (λ s. s ≡ record { waiting = []; numbers = replicate SEATS 0 }) }
    {
        Ok(Seats {
            alloc,
            waiting: VecDeque::new(alloc),
            numbers: vec![in alloc; 0u64; SEATS]?,
        })
    }

    /// Returns the number after the seat's last one; none if there is no such seat, or its numbers are used up.
    fn next_number(&self, seat: u32) -> Option<u64>
        ensures { result ≡ next_number self.now.numbers seat }
    {
        let last = *self.numbers.get(seat as usize)?;
        last.checked_add(1)
    }

    /// Appends the work, as the seat's next job, to those that wait, and returns its number; `None` if there is no
    /// such seat or its numbers are used up.
    ///
    /// # Errors
    ///
    /// Out of memory, and nothing else. Nothing has changed then.
    pub fn submit(&mut self, seat: u32, work: Work) -> Result<Option<u64>, AllocError>
        ensures number { IfOk result (λ number. number ≡ next_number self.old.numbers seat) }
        ensures queued { IfOk result (λ number. self.new ≡ queued self.old seat work number) }
        ensures unchanged { OnErr result (self.new ≡ self.old) }
    {
        let Some(number) = self.next_number(seat) else {
            return Ok(None);
        };
        let job = Entry {
            seat: seat as u16,
            number,
            work,
        };
        self.waiting.push_back(Arc::new(self.alloc, job)?)?;
        self.numbers[seat as usize] = number;
        Ok(Some(number))
    }

    /// Takes the job that has waited longest.
    pub fn take(&mut self) -> Option<Arc<Entry>>
        ensures { MatchOption result ((self.old.waiting ≡ []) × (self.new ≡ self.old)) (λ job.
            self.old ≡ record self.new { waiting = arc_value job ∷ self.new.waiting }) }
    {
        self.waiting.pop_front()
    }
}
