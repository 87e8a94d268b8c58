ghost use Rattle.std.specs.Prelude.{◌≡◌};
ghost use Rattle.text_lines.specs.RunErrors.{status_by};

use crate::exit_status::ExitStatus;
use session_devices::Failed;
use std::alloc::AllocError;

/// Why a run stopped before the end of its input.
#[derive(Clone, Copy, Debug, PartialEq, Eq)]
pub enum RunError {
    /// A read or a write failed, or the limit of reads was reached.
    Device,
    /// Memory, threads or another resource of the system ran out.
    Memory,
}

impl RunError {
    /// Returns the exit status of a run that stopped with this error.
    pub fn status(self) -> ExitStatus
        ensures { result ≡ status_by self }
    {
        match self {
            RunError::Device => ExitStatus::DeviceFailed,
            RunError::Memory => ExitStatus::OutOfMemory,
        }
    }
}

impl From<AllocError> for RunError {
    ghost use Rattle.text_lines.specs.declared.run_error.RunError.TheVariants.{Memory};

    ghost from_gives = { λ _ h. h ≡ Memory };

    fn from(_: AllocError) -> RunError {
        RunError::Memory
    }
}

impl From<Failed> for RunError {
    ghost use Rattle.text_lines.specs.declared.run_error.RunError.TheVariants.{Device};

    ghost from_gives = { λ _ h. h ≡ Device };

    fn from(_: Failed) -> RunError {
        RunError::Device
    }
}
