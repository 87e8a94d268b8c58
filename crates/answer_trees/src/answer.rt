//! The trees of answers and errors.
ghost use Rattle.std.specs.Prelude.{◌≡◌, IfOk, length, map};
ghost use Rattle.serde_json.specs.View.{view};
ghost use Rattle.answer_trees.specs.Trees.{answer_tree, error_tree, found_tree, items_tree};

use crate::tree::{Tree, trees};
use jaeger_model::Seq;
use query_http::Status;
use serde_json::{Value, json};
use std::alloc::{AllocError, Global};
use trace_model::{Answer, AnsweredTrace};

/// The message for a trace that wasn't found.
pub const NOT_FOUND_MESSAGE: &str = "trace not found";

/// Returns the tree of an answer with these items.
fn items_json(alloc: Global, items: Vec<Value>) -> Result<Value, AllocError>
    ensures { IfOk result (λ v. view v ≡ items_tree (map view items.items)) }
{
    let total = items.len();
    let data = Value::Array(items);
    json!(in alloc; {"data": data, "errors": null, "limit": 0, "offset": 0, "total": total})
}

/// Returns the tree of an error: no data, and one error with the status and the message.
///
/// # Errors
///
/// Out of memory, and nothing else.
pub fn error_json(alloc: Global, code: u16, msg: &str) -> Result<Value, AllocError>
    ensures { IfOk result (λ v. view v ≡ error_tree code msg.now) }
{
    json!(in alloc; {"data": null, "errors": [{"code": code, "msg": msg}], "limit": 0, "offset": 0, "total": 0})
}

/// Returns the tree of an answer with one trace. For a trace that wasn't found it is the error 404.
fn found_json(alloc: Global, trace: &Option<AnsweredTrace>) -> Result<Value, AllocError>
    ensures { IfOk result (λ v. view v ≡ found_tree trace.now) }
{
    match trace {
        Some(spans) => {
            let mut items = Vec::new(alloc);
            items.push(spans.to_json(alloc)?)?;
            items_json(alloc, items)
        }
        None => error_json(alloc, Status::NotFound.code(), NOT_FOUND_MESSAGE),
    }
}

/// Returns the tree of an answer: its items as `data`, and their number as `total`. For a trace that wasn't found it is
/// the error 404 with the message [`NOT_FOUND_MESSAGE`].
///
/// # Errors
///
/// Out of memory, and nothing else.
pub fn answer_json(alloc: Global, answer: &Answer) -> Result<Value, AllocError>
    ensures { IfOk result (λ v. view v ≡ answer_tree answer.now) }
{
    match answer {
        Answer::Trace(trace) => found_json(alloc, trace),
        Answer::Names(names) => items_json(alloc, trees(alloc, names.as_slice())?),
        Answer::Operations(operations) => items_json(alloc, trees(alloc, operations.as_slice())?),
        Answer::Traces(traces) => items_json(alloc, trees(alloc, traces.as_slice())?),
        Answer::Ids(ids) => items_json(alloc, trees(alloc, ids.as_slice())?),
        Answer::Links(links) => items_json(alloc, trees(alloc, links.as_slice())?),
    }
}
