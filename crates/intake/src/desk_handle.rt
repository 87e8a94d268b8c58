//! The handle of a desk: closing it, and its last receipt.

ghost use Rattle.std.specs.Prelude.{◌≡◌, IfErr};
ghost use Rattle.trace_model.specs.declared.refusal.Refusal.TheVariants.{NoMemory};

use crate::shared::Shared;
use read_side::{Receipt, StoreName};
use std::sync::{Arc, Wait};
use trace_model::Refusal;

/// The handle of a desk, which is a submission queue. It closes the queue, and vouches for what was published.
#[derive(Drop)]
pub struct DeskHandle<N: StoreName> {
    shared: Arc<Shared<N>>,
}

impl<N: StoreName> DeskHandle<N> {
    pub(crate) fn new(shared: Arc<Shared<N>>) -> DeskHandle<N> {
        DeskHandle { shared }
    }

    /// Closes the desk: no seat submits anything from then on. The clerk still serves what is queued.
    pub fn close(&self) {
        self.shared.close();
    }

    /// Returns the last receipt that the clerk stored, or the one with which the desk was opened.
    ///
    /// # Errors
    ///
    /// Out of memory alone.
    pub fn vouch<R: Wait>(&self, rt: &R) -> Result<Arc<Receipt<N>>, Refusal>
        ensures reason { IfErr result (λ why. why ≡ NoMemory) }
    {
        let last = self.shared.last.lock(rt);
        Ok(Arc::try_clone(&*last)?)
    }
}
