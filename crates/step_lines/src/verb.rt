//! The first word of a line.
ghost use Rattle.std.specs.Prelude.{◌≡◌};
ghost use Rattle.step_lines.specs.Steps.{verb_in};

use crate::fault::StepFault;

/// The first word of a line.
#[derive(Clone, Copy)]
pub(crate) enum Verb {
    Put,
    Limit,
    Take,
    Publish,
    Enter,
    Read,
    Learn,
    Leave,
}

pub(crate) fn read_verb(word: &[u8]) -> Result<Verb, StepFault>
    ensures { result ≡ verb_in word.now }
{
    match word {
        b"put" => Ok(Verb::Put),
        b"limit" => Ok(Verb::Limit),
        b"take" => Ok(Verb::Take),
        b"publish" => Ok(Verb::Publish),
        b"enter" => Ok(Verb::Enter),
        b"read" => Ok(Verb::Read),
        b"learn" => Ok(Verb::Learn),
        b"leave" => Ok(Verb::Leave),
        _ => Err(StepFault::BadStep),
    }
}
