//! A machine that reads a step from each line.
ghost use Rattle.std.specs.Prelude.{◌≡◌, ◌≢◌, ◌++◌, IfOk, OnOk, Some, codes, false};
ghost use Rattle.query_http.specs.Paths.{endpoint_rows};
ghost use Rattle.trace_model.specs.declared.refusal.Refusal.TheVariants.{NoMemory};
ghost use Rattle.schedule_core.specs.declared.outcome.Outcome.TheVariants.{Refused};
ghost use Rattle.schedule_core.specs.Machine.{new_machine};
ghost use Rattle.step_lines.specs.OutcomeLines.{outcome_line};
ghost use Rattle.commands.specs.PlayRuns.{IsMade, MakesStep, play_moment, step_fault_line};

use matchit::Router;
use query_http::{Endpoint, endpoints};
use schedule_core::{Outcome, Step, World};
use std::alloc::{AllocError, Global};
use std::hash::RandomState;
use std::io::Write;
use std::marker::Model;
use step_lines::{StepFault, outcome_text, read_step};
use text_lines::LineHandler;
use trace_model::{Limits, Refusal};

/// Writes that a line is no step.
fn write_fault(reply: &mut Vec<u8>, number: u64, fault: StepFault) -> Result<(), AllocError>
    ensures { OnOk result (reply.new.items ≡ reply.old.items ++ step_fault_line number fault) }
{
    writeln!(reply, "line {number}: {fault}").map_err(|_| AllocError)
}

/// Returns whether the outcome says that memory ran out.
fn is_no_memory(outcome: &Outcome) -> bool
    ensures { result ≡ false → outcome.now ≢ Refused NoMemory }
{
    matches!(outcome, Outcome::Refused(Refusal::NoMemory))
}

/// Runs the step. Running out of memory is an error, not an outcome.
fn make(world: &mut World, step: Step) -> Result<Outcome, AllocError>
    ensures { IfOk result (λ o. IsMade world.old step o world.new) }
{
    let outcome = world.step(step);
    if is_no_memory(&outcome) {
        return Err(AllocError);
    }
    Ok(outcome)
}

/// Writes a line.
fn write_line(reply: &mut Vec<u8>, text: &str) -> Result<(), AllocError>
    ensures { OnOk result (reply.new.items ≡ reply.old.items ++ (text.now ++ codes "\n")) }
{
    writeln!(reply, "{text}").map_err(|_| AllocError)
}

/// Writes the outcome of a step.
fn write_outcome(alloc: Global, reply: &mut Vec<u8>, outcome: &Outcome) -> Result<(), AllocError>
    ensures { OnOk result (reply.new.items ≡
        reply.old.items ++ (outcome_line outcome.now ++ codes "\n")) }
{
    let text = outcome_text(alloc, outcome)?;
    write_line(reply, text.as_str())
}

/// Runs the step, and writes its outcome.
fn play_step(
    alloc: Global,
    world: &mut World,
    reply: &mut Vec<u8>,
    step: Step,
) -> Result<(), AllocError>
    ensures { OnOk result (MakesStep (play_moment reply.old.items world.old)
        (play_moment reply.new.items world.new) step) }
{
    let outcome = make(world, step)?;
    write_outcome(alloc, reply, &outcome)
}

/// A machine that reads a step from each line and replies with its outcome. Contracts see the state to which its steps
/// led, or `None` once memory ran out.
#[derive(Drop)]
pub(crate) struct Script {
    router: Router<Endpoint>,
    world: World,
}

impl Model for Script {
    ghost use Rattle.std.specs.Prelude.{◌≡◌, Option};
    ghost use Rattle.query_http.specs.Paths.{endpoint_rows};
    ghost use Rattle.schedule_core.specs.Machine.{Machine};

    ghost Value = { Option Machine };

    ghost view = { λ s. s.world };

    ghost invariant = { λ s. s.router ≡ endpoint_rows };
}

impl Script {
    /// Creates a machine in its initial state.
    ///
    /// # Errors
    ///
    /// Out of memory, and nothing else.
    pub(crate) fn new(alloc: Global, keys: RandomState, limits: Limits) -> Result<Self, AllocError>
        ensures { IfOk result (λ s. s ≡ Some (new_machine limits)) }
    {
        let Ok(router) = endpoints(alloc) else {
            return Err(AllocError);
        };
        Ok(Script {
            router,
            world: World::new(alloc, keys, limits)?,
        })
    }
}

impl LineHandler for Script {
    ghost use Rattle.commands.specs.PlayRuns.{TakesStep};

    ghost takes = { TakesStep };

    fn handle_line(
        &mut self,
        alloc: Global,
        number: u64,
        line: &mut Vec<u8>,
        reply: &mut Vec<u8>,
    ) -> Result<bool, AllocError> {
        if line.is_empty() {
            return Ok(false);
        }
        match read_step(alloc, &self.router, line.as_slice())? {
            Ok(step) => {
                play_step(alloc, &mut self.world, reply, step)?;
                Ok(false)
            }
            Err(fault) => {
                write_fault(reply, number, fault)?;
                Ok(true)
            }
        }
    }
}
