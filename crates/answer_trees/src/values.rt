//! The trees of tags, logs, references, processes, operations, links and ids.
ghost use Rattle.std.specs.Prelude.{◌≡◌, IfOk};
ghost use Rattle.serde_json.specs.View.{view};
ghost use Rattle.answer_trees.specs.Trees.{flags_number, id_tree, kind_name, link_tree, log_tree, operation_tree, process_tree, reference_tree, tag_tree};
ghost use Rattle.answer_trees.specs.Trees.{type_name, value_tree};

use crate::tree::{Tree, list};
use jaeger_model::{
    Log, Process, RefKind, SpanRef, Tag, TagValue, TraceId, ValueRef, span_text, tag_text,
    trace_text,
};
use serde_json::{Value, json};
use std::alloc::{AllocError, Global};
use trace_model::{Link, Operation};

/// Returns the name of the type of a tag's value.
fn type_name(value: &TagValue) -> &'static str
    ensures { result.now ≡ type_name value.now }
{
    match value.get() {
        ValueRef::Text(_) => "string",
        ValueRef::Double(_) => "float64",
        ValueRef::Bool(_) => "bool",
        ValueRef::Long(_) => "int64",
        ValueRef::Bytes(_) => "binary",
    }
}

/// Returns the tree of a tag's value: a bool, an integer of any size, and for every other type its text. The text of a
/// double is its sixteen hexadecimal digits.
fn value_json(alloc: Global, value: &TagValue) -> Result<Value, AllocError>
    ensures { IfOk result (λ v. view v ≡ value_tree value.now) }
{
    match value.get() {
        ValueRef::Bool(flag) => Ok(Value::Bool(flag)),
        ValueRef::Long(number) => Ok(Value::from(number)),
        ValueRef::Text(_) | ValueRef::Double(_) | ValueRef::Bytes(_) => {
            Ok(Value::String(tag_text(alloc, value)?))
        }
    }
}

impl Tree for Tag {
    ghost tree = { tag_tree };

    fn to_json(&self, alloc: Global) -> Result<Value, AllocError> {
        let value = value_json(alloc, &self.value)?;
        json!(in alloc; {"key": self.key.as_str(), "type": type_name(&self.value), "value": value})
    }
}

impl Tree for Log {
    ghost tree = { log_tree };

    fn to_json(&self, alloc: Global) -> Result<Value, AllocError> {
        let fields = list(alloc, self.fields.as_slice())?;
        json!(in alloc; {"fields": fields, "timestamp": self.at})
    }
}

/// Returns the name of a kind of reference.
fn kind_name(kind: RefKind) -> &'static str
    ensures { result.now ≡ kind_name kind }
{
    match kind {
        RefKind::ChildOf => "CHILD_OF",
        RefKind::FollowsFrom => "FOLLOWS_FROM",
    }
}

impl Tree for SpanRef {
    ghost tree = { reference_tree };

    fn to_json(&self, alloc: Global) -> Result<Value, AllocError> {
        let span = span_text(alloc, self.id)?;
        let trace = trace_text(alloc, self.trace)?;
        json!(in alloc; {"refType": kind_name(self.kind), "spanID": span, "traceID": trace})
    }
}

impl Tree for Process {
    ghost tree = { process_tree };

    fn to_json(&self, alloc: Global) -> Result<Value, AllocError> {
        let tags = list(alloc, self.tags.as_slice())?;
        json!(in alloc; {"serviceName": self.service.as_str(), "tags": tags})
    }
}

impl Tree for Operation {
    ghost tree = { operation_tree };

    fn to_json(&self, alloc: Global) -> Result<Value, AllocError> {
        json!(in alloc; {"name": self.name.as_str(), "spanKind": self.kind.as_str()})
    }
}

impl Tree for Link {
    ghost tree = { link_tree };

    fn to_json(&self, alloc: Global) -> Result<Value, AllocError> {
        json!(in alloc; {"callCount": self.calls, "child": self.child.as_str(), "parent": self.parent.as_str()})
    }
}

impl Tree for TraceId {
    ghost tree = { id_tree };

    fn to_json(&self, alloc: Global) -> Result<Value, AllocError> {
        Ok(Value::String(trace_text(alloc, *self)?))
    }
}

/// Returns the flags' 32 bits as an unsigned number.
pub fn flags_number(flags: i32) -> u32
    ensures { result ≡ flags_number flags }
{
    flags.cast_unsigned()
}
