//! Decodes a text.
ghost use Rattle.std.specs.Prelude.{◌≡◌, IfOk};
ghost use Rattle.batch_codec.specs.HexSpelling.{batch_in};

use crate::batch::decode;
use crate::fault::DecodeError;
use crate::hex_fault::HexFault;
use hex::FromHexError;
use jaeger_model::Batch;
use std::alloc::{AllocError, Global};

/// Returns the batch that a hexadecimal text encodes, or why it encodes none: [`HexFault::BadHex`]
/// is reported before [`HexFault::Undecodable`].
///
/// # Errors
///
/// Out of memory, and nothing else.
#[tactic(auto, unfolding(crate::specs::HexSpelling::batch_in))]
pub fn decode_hex(alloc: Global, text: &[u8]) -> Result<Result<Batch, HexFault>, AllocError>
    ensures { IfOk result (λ batch. batch ≡ batch_in text.now) }
{
    let bytes = match hex::decode(alloc, text) {
        Ok(bytes) => bytes,
        Err(FromHexError::OutOfMemory) => return Err(AllocError),
        Err(_) => return Ok(Err(HexFault::BadHex)),
    };
    match decode(alloc, bytes.as_slice()) {
        Ok(batch) => Ok(Ok(batch)),
        Err(DecodeError::Memory) => Err(AllocError),
        Err(fault) => Ok(Err(HexFault::Undecodable(fault))),
    }
}
