//! What an answer shows.

use query_json::AnswerParts;
use std::alloc::{AllocError, Global};
use std::mem::drop;
use trace_model::Answer;
use trace_samples::kept;

/// More parts than the text of an answer has.
const MANY_PARTS: u32 = 10_000;

/// Appends the parts to the text.
fn add_parts(text: &mut Vec<u8>, parts: &mut AnswerParts) -> Result<(), AllocError> {
    for _ in 0..MANY_PARTS {
        if parts.part().is_empty() {
            break;
        }
        text.extend_from_slice(parts.part())?;
        parts.advance();
    }
    Ok(())
}

/// Returns the JSON of an answer, as clients of the server read it. `read_side_tests` has a copy of it.
pub(crate) fn shown(alloc: Global, answer: Answer) -> Result<Vec<u8>, AllocError> {
    let mut parts = AnswerParts::new(alloc, answer)?;
    let mut text = Vec::new(alloc);
    let added = add_parts(&mut text, &mut parts);
    drop(parts);
    kept(text, added)
}
