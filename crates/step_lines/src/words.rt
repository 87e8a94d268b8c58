//! The words of a line, and numbers among them.
ghost use Rattle.std.specs.Prelude.{◌≡◌, map, IfOk};
ghost use Rattle.step_lines.specs.Words.{words_of, number_in};

use crate::fault::StepFault;
use jaeger_model::decimal::{is_number, value_of};
use std::alloc::{AllocError, Global};

/// Splits a line into words, at each space.
pub(crate) fn words_of(alloc: Global, line: &[u8]) -> Result<Vec<&[u8]>, AllocError>
    ensures { IfOk result (λ v. map (λ w. w.now) v.items ≡ words_of line.now) }
{
    line.split(|c| *c == b' ').collect(alloc)
}

/// Reads a number of 1 to 9 digits, and nothing else.
#[tactic(auto, unfolding(crate::specs::Words::number_in))]
pub(crate) fn read_number(word: &[u8]) -> Result<u32, StepFault>
    ensures { result ≡ number_in word.now }
{
    if is_number(word, 9) {
        Ok(value_of(word) as u32)
    } else {
        Err(StepFault::BadStep)
    }
}
