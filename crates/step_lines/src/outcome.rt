//! The text of an outcome.
ghost use Rattle.std.specs.Prelude.{◌≡◌, IfOk, string_bytes};
ghost use Rattle.serde_json.specs.Written.{compact_text};
ghost use Rattle.answer_trees.specs.Trees.{answer_tree};
ghost use Rattle.step_lines.specs.OutcomeLines.{outcome_line};

use answer_trees::answer_json;
use answer_trees::laws::trees_have_no_float;
use schedule_core::Outcome;
use std::alloc::{AllocError, Global};
use trace_model::Answer;

/// Returns the compact text of an answer's tree.
fn json_text(alloc: Global, answer: &Answer) -> Result<String, AllocError>
    ensures { IfOk result (λ s. string_bytes s ≡ compact_text (answer_tree answer.now)) }
{
    // For the prover: the law gives what `to_string` requires of the tree.
    trees_have_no_float();
    let tree = answer_json(alloc, answer)?;
    // For the prover: the binding lets the clauses of `to_string` be used for the result.
    let text = tree.to_string(alloc)?;
    Ok(text)
}

/// Returns the text of an answer.
fn answered_text(alloc: Global, front: u64, answer: &Answer) -> Result<String, AllocError>
    ensures { IfOk result (λ s. string_bytes s ≡ outcome_line (Outcome.Answered front answer.now)) }
{
    let json = json_text(alloc, answer)?;
    let json = json.as_str();
    format!(in alloc; "read {front} {json}")
}

/// Returns the text of an outcome, as a line without its end.
///
/// An answer is written as the body of its HTTP response, so a trace that isn't found is written as the error 404.
///
/// # Errors
///
/// Out of memory, and nothing else.
pub fn outcome_text(alloc: Global, outcome: &Outcome) -> Result<String, AllocError>
    ensures { IfOk result (λ s. string_bytes s ≡ outcome_line outcome.now) }
{
    match outcome {
        Outcome::Put { number } => format!(in alloc; "put {number}"),
        Outcome::Taken { seat, number } => format!(in alloc; "taken {seat} {number}"),
        Outcome::Again {
            seat,
            number,
            place,
        } => format!(in alloc; "again {seat} {number} {place}"),
        Outcome::Refused(refusal) => format!(in alloc; "refused {refusal}"),
        Outcome::Idle => String::from_str(alloc, "idle"),
        Outcome::Published { front } => format!(in alloc; "published {front}"),
        Outcome::Held { reader } => format!(in alloc; "held {reader}"),
        Outcome::Entered { front } => format!(in alloc; "entered {front}"),
        Outcome::Answered { front, answer } => answered_text(alloc, *front, answer),
        Outcome::Learnt { front } => format!(in alloc; "learnt {front}"),
        Outcome::Left => String::from_str(alloc, "left"),
        Outcome::Inside => String::from_str(alloc, "inside"),
        Outcome::Outside => String::from_str(alloc, "outside"),
        Outcome::Unknown => String::from_str(alloc, "unknown"),
    }
}
