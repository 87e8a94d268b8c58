//! Several reads of one list.
ghost use Rattle.std.specs.Prelude.{◌≡◌, length, true, IfOk, IfErr};
ghost use Rattle.trace_model.specs.declared.refusal.Refusal.TheVariants.{NoMemory};
ghost use Rattle.trace_model.specs.Answers.{answer};
ghost use Rattle.read_side.specs.Passes.{come_out};

use crate::history::StoreName;
use crate::pass::{Collection, Pass, Reading};
use trace_model::{Query, Refusal};

/// A pass that stays inside the list that it entered.
///
/// As long as it is kept, the publish after the next one has to wait. After it is left or dropped, the pass knows that
/// list and is outside. If the value is forgotten, the pass stays inside until it learns, reads, settles or holds
/// again, or is dropped.
pub struct Held<'a, N: StoreName> {
    pass: &'a mut Pass<N>,
}

impl<'a, N: StoreName> Held<'a, N> {
    ghost use Rattle.read_side.specs.HeldPasses.{pass_of, held_list, IsInside};

    /// Keeps the pass inside.
    pub(crate) fn new(pass: &'a mut Pass<N>) -> Held<'a, N>
        ensures same { (pass_of result).ghost_name ≡ pass.entry.ghost_name }
        ensures held { (pass_of result).now ≡ pass.old }
    {
        Held { pass }
    }

    /// Returns the number of entries of the held list. Only tests call it.
    pub fn front(&self) -> u64
        ensures { result ≡ length (held_list self.now) }
    {
        self.pass.front()
    }

    /// Answers a query from the held list. Only tests call it; the others call `collect`.
    ///
    /// # Errors
    ///
    /// [`Refusal::NoMemory`] alone.
    pub fn read(&self, query: &Query) -> Result<Reading, Refusal>
        requires inside { IsInside self.now }
        ensures front { IfOk result (λ r. r.front ≡ length (held_list self.now)) }
        ensures answer { IfOk result (λ r.
            r.answer ≡ answer N.limits (held_list self.now) query.now) }
        ensures reason { IfErr result (λ why. why ≡ NoMemory) }
    {
        self.collect(query)?.reading()
    }

    /// Collects what an answer from the held list needs.
    ///
    /// # Errors
    ///
    /// [`Refusal::NoMemory`] alone.
    pub(crate) fn collect<'q>(&self, query: &'q Query) -> Result<Collection<'q>, Refusal>
        requires held { IsInside self.now }
        ensures front { IfOk result (λ c. c.front ≡ length (held_list self.now)) }
        ensures answer { IfOk result (λ c.
            c.collected ≡ answer N.limits (held_list self.now) query.now) }
        ensures reason { IfErr result (λ why. why ≡ NoMemory) }
    {
        self.pass.collect(query)
    }

    /// Leaves the list. The pass then knows that list. Allocates nothing.
    pub fn leave(self)
        ensures { self.exit.0.now ≡ come_out (pass_of self.entry).now }
    {
        let Held { pass } = self;
        pass.leave();
    }
}

impl<N: StoreName> Drop for Held<'_, N> {
    ghost use Rattle.read_side.specs.HeldPasses.{pass_of};

    fn drop(self)
        ensures { self.exit.0.now ≡ come_out (pass_of self.entry).now }
    {
        let Self { pass } = self;
        pass.leave();
    }
}
