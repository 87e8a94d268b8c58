//! Lines of a script for the stepped machine: which step a line names, and the line of an outcome.
//!
//! [`read_step`] returns a line's step or its fault, and [`outcome_text`] the text of an outcome. Unless memory
//! runs out, both are proved to be functions that `specs/` defines: `step_in` and `outcome_line`. A line is
//! given without its end. The caller handles empty lines and the numbers of lines.
//!
//! * `step`: the step of a line, by its first word.
//! * `verb`: the first word.
//! * `words`: the words of a line, and numbers.
//! * `batch`: the batch of a hexadecimal text.
//! * `target`: the query of a target.
//! * `fault`: why a line is no step.
//! * `stop`: why a reading stops, for a fault or because memory ran out.
//! * `outcome`: the text of an outcome.
//! * `laws`: facts about the definitions.
#![tactic(auto)]

mod batch;
mod fault;
pub mod laws;
mod outcome;
mod step;
mod stop;
mod target;
mod verb;
mod words;

pub use fault::StepFault;
pub use outcome::outcome_text;
pub use step::read_step;
