ghost use Rattle.std.specs.Prelude.{◌≡◌, ◌↔◌, IfOk, IsTrue};
ghost use Rattle.std.specs.Cmp.{decided, partial_equiv_from_equiv};
ghost use Rattle.jaeger_model.specs.Sameness.{same_process};
ghost use Rattle.jaeger_model.specs.SameLaws.{same_process-decides};

use crate::batch::Process;
use std::alloc::{AllocError, Global};
use std::marker::Model;
use std::sync::Arc;

/// A reference-counted process, which all spans of a batch share. Contracts see the process.
#[derive(Debug, Drop)]
pub struct SharedProcess {
    process: Arc<Process>,
}

impl Model for SharedProcess {
    ghost use Rattle.std.specs.Arc.{arc_value};
    ghost use Rattle.jaeger_model.specs.declared.batch.Process.{Process};

    ghost Value = { Process };

    ghost view = { λ r. arc_value r.process };
}

impl SharedProcess {
    /// Moves the process into an `Arc`.
    ///
    /// # Errors
    ///
    /// Out of memory, and nothing else.
    pub fn new(alloc: Global, process: Process) -> Result<Self, AllocError>
        ensures { IfOk result (λ r. r ≡ process) }
    {
        let process = Arc::new(alloc, process)?;
        Ok(SharedProcess { process })
    }

    /// Returns the process.
    pub fn get(&self) -> &Process
        ensures { result.now ≡ self.now }
    {
        &self.process
    }

    /// Returns whether the processes are equal.
    pub fn is_same(&self, other: &SharedProcess) -> bool
        ensures { IsTrue result ↔ (self.now ≡ other.now) }
    {
        self == other
    }
}

/// Clones the `Arc`. It doesn't allocate.
impl Clone for SharedProcess {
    ghost is_clone = { λ s t. t ≡ s };

    fn clone(&self) -> Result<Self, AllocError> {
        let process = Arc::try_clone(&self.process)?;
        Ok(SharedProcess { process })
    }
}

impl PartialEq for SharedProcess {
    ghost eq = { same_process };

    ghost laws = { partial_equiv_from_equiv (decided same_process same_process-decides) };

    fn eq(&self, other: &SharedProcess) -> bool {
        self.get() == other.get()
    }
}

impl Eq for SharedProcess {
    ghost laws = { decided same_process same_process-decides };
}
