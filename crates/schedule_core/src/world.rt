ghost use Rattle.std.specs.Prelude.{◌≡◌, Option, Some, IfOk};
ghost use Rattle.schedule_core.specs.Machine.{Machine, new_machine};
ghost use Rattle.schedule_core.specs.BoundedMachines.{Steps};

use crate::machine_state::MachineState;
use crate::outcome::Outcome;
use crate::step::Step;
use std::alloc::{AllocError, Global};
use std::hash::RandomState;
use std::marker::Model;
use trace_model::{Limits, Refusal};

/// The stepped machine. After it has run out of memory, every later step is refused for that.
#[derive(Drop)]
pub struct World {
    state: Option<MachineState>,
}

impl Model for World {
    ghost Value = { Option Machine };

    ghost view = { λ s. s.state };
}

impl World {
    /// Makes a machine in which nothing has happened. The keys are those of its stores.
    ///
    /// # Errors
    ///
    /// Out of memory, and nothing else.
    pub fn new(alloc: Global, keys: RandomState, limits: Limits) -> Result<Self, AllocError>
        ensures { IfOk result (λ world. world ≡ Some (new_machine limits)) }
    {
        let state = MachineState::new(alloc, keys, limits)?;
        Ok(World { state: Some(state) })
    }

    /// Makes a step and returns its outcome.
    pub fn step(&mut self, step: Step) -> Outcome
        ensures { Steps self.old step result self.new }
    {
        let Some(state) = &mut self.state else {
            // For the prover: an explicit drop is cheaper than one at the end of the block.
            drop(step);
            return Outcome::Refused(Refusal::NoMemory);
        };
        match state.step(step) {
            Ok(outcome) => outcome,
            Err(_) => {
                // For the prover: `drop` is generic in the state, so its type isn't opened.
                drop(self.state.take());
                Outcome::Refused(Refusal::NoMemory)
            }
        }
    }
}
