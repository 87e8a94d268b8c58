ghost use Rattle.std.specs.Prelude.{IfOk};
ghost use Rattle.schedule_core.specs.RunFacts.{IsPlayed};
ghost use Rattle.schedule_core.specs.BoundedMachines.{PlaysFrom};

use crate::outcome::Outcome;
use crate::step::Step;
use crate::world::World;
use std::alloc::{AllocError, Global};
use std::hash::RandomState;
use trace_model::Limits;

/// Returns the outcomes of the steps, in order, from a machine in which nothing has happened. They don't depend on
/// the keys. What holds of every run holds of the steps up to the first that ran out of memory: the history only
/// grows, each answer is the plain store's for a prefix of it, and accepted are the jobs taken, in order, each
/// once, except for those that were refused or sent before. Only a test calls it: the subcommand `play` makes each
/// step by [`World::step`] as its line is read.
///
/// # Errors
///
/// There was no memory for the machine or for the list of outcomes. A step that runs out of memory, and each later
/// one, is refused by its outcome.
pub fn play(
    alloc: Global,
    keys: RandomState,
    steps: Vec<Step>,
    limits: Limits,
) -> Result<Vec<Outcome>, AllocError>
    ensures { IfOk result (λ outcomes. IsPlayed limits steps.items outcomes.items) }
{
    let mut world = World::new(alloc, keys, limits)?;
    let outcomes = outcomes_of(alloc, &mut world, steps);
    // For the prover: an explicit drop is cheaper than one at the end of the block.
    drop(world);
    outcomes
}

/// Returns the outcomes of the steps, in order, from the current state of the machine.
fn outcomes_of(
    alloc: Global,
    world: &mut World,
    steps: Vec<Step>,
) -> Result<Vec<Outcome>, AllocError>
    ensures { IfOk result (λ outcomes. PlaysFrom world.old steps.items outcomes.items) }
{
    let mut outcomes = Vec::new(alloc);
    for step in steps {
        outcomes.push(world.step(step))?;
    }
    Ok(outcomes)
}
