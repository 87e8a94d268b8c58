//! Why a line is no step.
ghost use Rattle.std.specs.Prelude.{Some};

use batch_codec::HexFault;
use query_http::Parameter;
use std::fmt;

/// Why a line is no step. A bad step is reported before every other fault; running out of memory is no fault.
#[derive(Clone, Copy, Debug, PartialEq, Eq)]
pub enum StepFault {
    /// Its words are not those of a step.
    BadStep,
    /// Its text is no batch.
    NoBatch(HexFault),
    /// No endpoint has the target's path.
    NoSuchPath,
    /// The target's first parameter that can't be read.
    BadParameter(Parameter),
}

impl fmt::Display for StepFault {
    ghost use Rattle.step_lines.specs.FaultTexts.{step_fault_text};

    ghost output = { λ f. Some (step_fault_text f) };

    fn fmt<W: fmt::Write>(&self, f: &mut fmt::Formatter<W>) -> fmt::Result {
        match self {
            StepFault::BadStep => f.write_str("bad step"),
            StepFault::NoBatch(fault) => write!(f, "{fault}"),
            StepFault::NoSuchPath => f.write_str("no such path"),
            StepFault::BadParameter(parameter) => {
                let name = parameter.name();
                write!(f, "bad parameter {name}")
            }
        }
    }
}
