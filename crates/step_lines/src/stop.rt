//! Why the reading of a line stops.
ghost use Rattle.std.specs.Prelude.{◌≡◌};
ghost use Rattle.step_lines.specs.declared.stop.Stop.TheVariants.{Fault, Memory};

use crate::fault::StepFault;
use std::alloc::AllocError;

/// Why the reading of a line stops before its step is known.
#[derive(Clone, Copy)]
pub(crate) enum Stop {
    Fault(StepFault),
    Memory,
}

impl From<StepFault> for Stop {
    ghost from_gives = { λ x s. s ≡ Fault x };

    fn from(fault: StepFault) -> Stop {
        Stop::Fault(fault)
    }
}

impl From<AllocError> for Stop {
    ghost from_gives = { λ _ s. s ≡ Memory };

    fn from(_: AllocError) -> Stop {
        Stop::Memory
    }
}
