//! Faults of a line.
ghost use Rattle.std.specs.Prelude.{Some};

use batch_codec::HexFault;
use std::fmt;
use trace_model::Refusal;

/// Why a line of `get` can't be used.
#[derive(Clone, Copy, Debug, PartialEq, Eq)]
pub(crate) enum LineFault {
    /// Its text is not a batch.
    NoBatch(HexFault),
    /// The store refused the batch.
    Refused(Refusal),
}

impl fmt::Display for LineFault {
    ghost use Rattle.commands.specs.LineFaults.{line_fault_text};

    ghost output = { λ f. Some (line_fault_text f) };

    fn fmt<W: fmt::Write>(&self, f: &mut fmt::Formatter<W>) -> fmt::Result {
        match self {
            LineFault::NoBatch(fault) => write!(f, "{fault}"),
            LineFault::Refused(refusal) => write!(f, "refused {refusal}"),
        }
    }
}
