//! Why a text isn't a batch.
ghost use Rattle.std.specs.Prelude.{Some};

use crate::fault::DecodeError;
use std::fmt;

/// Why a text isn't a batch. Running out of memory is no such fault.
#[derive(Clone, Copy, Debug, PartialEq, Eq)]
pub enum HexFault {
    /// The text isn't hexadecimal, or has an odd number of digits.
    BadHex,
    /// The bytes aren't a batch; this is their first fault.
    Undecodable(DecodeError),
}

impl fmt::Display for HexFault {
    ghost use Rattle.batch_codec.specs.HexFaultTexts.{hex_fault_text};

    ghost output = { λ f. Some (hex_fault_text f) };

    fn fmt<W: fmt::Write>(&self, f: &mut fmt::Formatter<W>) -> fmt::Result {
        match self {
            HexFault::BadHex => f.write_str("bad hex"),
            HexFault::Undecodable(fault) => write!(f, "refused {fault}"),
        }
    }
}
