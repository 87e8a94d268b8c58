//! Answers and errors as the JSON trees of Jaeger's query interface (v1).
//!
//! `specs/Trees.antt` defines each kind of object once, with its keys in the order of their bytes. Each tree is proved
//! equal to its definition. No tree has a float, so a tree determines its compact text.
//!
//! * `answer`: the trees of answers and errors.
//! * `trace`: a trace with its spans.
//! * `naming`: the processes of a trace, and their names.
//! * `values`: tags, logs, references, processes, operations, links and ids.
//! * `tree`: values that have a tree, and lists of them.
//! * `members`: adds members to an object that is being built.
//! * `laws`: facts about the trees.
#![tactic(auto)]

mod answer;
pub mod laws;
mod members;
mod naming;
mod trace;
mod tree;
mod values;

pub use answer::{NOT_FOUND_MESSAGE, answer_json, error_json};
pub use naming::{FirstSpan, lent_places, names};
pub use tree::Tree;
pub use values::flags_number;
