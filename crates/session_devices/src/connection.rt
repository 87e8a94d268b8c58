ghost use Rattle.std.specs.Prelude.{◌≡◌};
ghost use Rattle.session_devices.specs.ByteTransfers.{KeepsOther};

use crate::{Failed, Input, Output};

/// An input and an output at once. Its reads and writes are in one order, so a contract can name what was written
/// before each read.
pub trait Connection: Input + Output {
    /// A read doesn't change what was written.
    ghost reads_leave: { KeepsOther Self Self.gives Self.contents Self.Output.has_failed };

    /// A write doesn't change what is still to be read.
    ghost writes_leave: { KeepsOther Self Self.takes Self.remaining Self.Input.has_failed };
}

/// An input and an output, joined into one connection.
#[derive(Drop)]
pub struct Join<'a, R, W> {
    pub input: &'a mut R,
    pub output: &'a mut W,
}

impl<'a, R, W> Join<'a, R, W> {
    /// Joins an input and an output.
    pub fn new(input: &'a mut R, output: &'a mut W) -> Self
        ensures input { result.input ≡ input.entry }
        ensures output { result.output ≡ output.entry }
    {
        Join { input, output }
    }
}

impl<'a, R: Input, W: Output> Input for Join<'a, R, W> {
    ghost remaining = { λ s. R.remaining s.input.now };

    // The references stay the same too, so the lender learns what became of the values that they refer to.
    ghost gives = { λ s given t. R.gives s.input.now given t.input.now
        × (t.input.ghost_name ≡ s.input.ghost_name) × (t.output ≡ s.output) };

    ghost has_failed = { λ s. R.has_failed s.input.now };

    fn read(&mut self, buf: &mut [u8]) -> Result<usize, Failed> {
        self.input.read(buf)
    }

    fn failed(&self) -> bool {
        Input::failed(&*self.input)
    }
}

impl<'a, R: Input, W: Output> Output for Join<'a, R, W> {
    ghost use Rattle.std.proofs.Common.{refl, ◌∙◌};

    ghost contents = { λ s. W.contents s.output.now };

    ghost takes = { λ s bytes t. W.takes s.output.now bytes t.output.now
        × (t.output.ghost_name ≡ s.output.ghost_name) × (t.input ≡ s.input) };

    ghost has_failed = { λ s. W.has_failed s.output.now };

    ghost takes_nothing = { λ s. (W.takes_nothing s.output.now, refl, refl) };

    ghost takes_joined = { λ s t u front back one two. (
      W.takes_joined s.output.now t.output.now
          u.output.now front back one.0 two.0,
      two.1 ∙ one.1,
      two.2 ∙ one.2,
    ) };

    fn write(&mut self, buf: &[u8]) -> Result<usize, Failed> {
        self.output.write(buf)
    }

    fn failed(&self) -> bool {
        Output::failed(&*self.output)
    }
}

impl<'a, R: Input, W: Output> Connection for Join<'a, R, W> {
    ghost use Rattle.std.proofs.Common.{rules};

    ghost reads_leave = { λ s t bytes given. Prim.search rules };

    ghost writes_leave = { λ s t bytes taken. Prim.search rules };
}
