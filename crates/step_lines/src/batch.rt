//! The batch of a hexadecimal text.
ghost use Rattle.step_lines.specs.Steps.{as_batch};
ghost use Rattle.step_lines.specs.ReadResults.{ReadsStep};
ghost use Rattle.batch_codec.specs.HexSpelling.{batch_in};

use crate::fault::StepFault;
use crate::stop::Stop;
use batch_codec::decode_hex;
use jaeger_model::Batch;
use std::alloc::Global;

/// Reads the batch of a hexadecimal text.
pub(crate) fn read_batch(alloc: Global, text: &[u8]) -> Result<Batch, Stop>
    ensures { ReadsStep (λ b. b) result (as_batch (batch_in text.now)) }
{
    match decode_hex(alloc, text)? {
        Ok(batch) => Ok(batch),
        Err(fault) => Err(Stop::Fault(StepFault::NoBatch(fault))),
    }
}
