//! The keys of the processes of spans.

ghost use Rattle.std.specs.Prelude.{◌≡◌, IfOk};
ghost use Rattle.trace_model.specs.TakenSpans.{numbers_taken};

use std::alloc::{AllocError, Global};
use trace_model::TakenSpan;

/// Returns the key of each span's process.
pub(crate) fn process_keys_of(alloc: Global, spans: &[TakenSpan]) -> Result<Vec<u64>, AllocError>
    ensures { IfOk result (λ v. v.items ≡ numbers_taken spans.now) }
{
    let mut keys = Vec::with_capacity(alloc, spans.len())?;
    for span in spans {
        keys.push(u64::from(span.process_key()))?;
    }
    Ok(keys)
}
