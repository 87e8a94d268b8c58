//! The tree of a trace: its spans, and their processes by name.
ghost use Rattle.std.specs.Prelude.{◌≡◌, IfOk, List, OnOk, length, map, string_bytes};
ghost use Rattle.serde_json.specs.View.{members_view, view};
ghost use Rattle.jaeger_model.specs.declared.batch.Process.{Process as ProcessValue};
ghost use Rattle.answer_trees.specs.ProcessNames.{process_name};
ghost use Rattle.answer_trees.specs.ProcessNumbers.{first_process};
ghost use Rattle.answer_trees.specs.Trees.{list, processes_of, processes_tree, span_tree, trace_id_text, trace_object, trace_tree, warnings_tree};
ghost use Rattle.answer_trees.specs.TraceProcesses.{process_names, process_place};
ghost use Rattle.answer_trees.specs.TreeMembers.{with_lists, with_numbers, with_texts};

use crate::members::{put_list, put_text};
use crate::naming::{FirstSpan, names, places, process_name};
use crate::tree::{Tree, list};
use crate::values::flags_number;
use jaeger_model::{Text, span_text, trace_text};
use serde_json::{Map, Value, json, put};
use std::alloc::{AllocError, Global};
use trace_adjust::{show, show_lone};
use trace_model::{AnsweredTrace, Shown, ShownTrace, TraceForm};

/// Returns a list of texts, or null if there are none.
fn warnings_json(alloc: Global, warnings: &[Text]) -> Result<Value, AllocError>
    ensures { IfOk result (λ v. view v ≡ warnings_tree warnings.now) }
{
    if warnings.is_empty() {
        return Ok(Value::Null);
    }
    list(alloc, warnings)
}

/// Adds the numbers of a span.
fn put_numbers(
    members: &mut Map<String, Value>,
    alloc: Global,
    shown: &Shown,
) -> Result<(), AllocError>
    ensures { OnOk result (members_view members.new.entries
        ≡ with_numbers shown.now (members_view members.old.entries)) }
{
    let span = &shown.placed.span;
    put(members, alloc, "duration", Value::from(span.duration))?;
    put(
        members,
        alloc,
        "flags",
        Value::from(flags_number(span.flags)),
    )?;
    put(members, alloc, "startTime", Value::from(span.start))
}

/// Adds the texts and ids of a span whose process has this name.
fn put_texts(
    members: &mut Map<String, Value>,
    alloc: Global,
    process: &str,
    shown: &Shown,
) -> Result<(), AllocError>
    ensures { OnOk result (members_view members.new.entries
        ≡ with_texts process.now shown.now (members_view members.old.entries)) }
{
    let span = &shown.placed.span;
    put_text(members, alloc, "operationName", span.operation.as_str())?;
    put_text(members, alloc, "processID", process)?;
    put(
        members,
        alloc,
        "spanID",
        Value::String(span_text(alloc, span.id)?),
    )?;
    put(
        members,
        alloc,
        "traceID",
        Value::String(trace_text(alloc, span.trace)?),
    )
}

/// Adds the lists of a span.
fn put_lists(
    members: &mut Map<String, Value>,
    alloc: Global,
    shown: &Shown,
) -> Result<(), AllocError>
    ensures { OnOk result (members_view members.new.entries
        ≡ with_lists shown.now (members_view members.old.entries)) }
{
    let span = &shown.placed.span;
    put_list(members, alloc, "logs", span.logs.as_slice())?;
    put_list(members, alloc, "references", span.references.as_slice())?;
    put_list(members, alloc, "tags", span.tags.as_slice())?;
    put(
        members,
        alloc,
        "warnings",
        warnings_json(alloc, shown.warnings.as_slice())?,
    )
}

/// Returns the tree of a span whose process has this name.
fn span_json(alloc: Global, process: &str, shown: &Shown) -> Result<Value, AllocError>
    ensures { (ps : List ProcessValue) →
        process.now ≡ process_name (process_place ps shown.now) →
        IfOk result (λ v. view v ≡ span_tree ps shown.now) }
{
    let mut members = Map::new(alloc);
    put_numbers(&mut members, alloc, shown)?;
    put_texts(&mut members, alloc, process, shown)?;
    put_lists(&mut members, alloc, shown)?;
    Ok(Value::Object(members))
}

/// Returns the spans, each with the name of its process.
fn spans_json(
    alloc: Global,
    names: &[String],
    places: &[u32],
    spans: &[Shown],
) -> Result<Value, AllocError>
    requires names { map string_bytes names.now ≡ process_names (length (processes_of spans.now)) }
    requires count { length names.now ≡ length (processes_of spans.now) }
    requires places { places.now ≡ map (process_place (processes_of spans.now)) spans.now }
    ensures { IfOk result (λ v. view v ≡
        list (map (span_tree (processes_of spans.now)) spans.now)) }
{
    let mut trees = Vec::new(alloc);
    for (index, shown) in spans.iter().enumerate() {
        let process = names[places[index] as usize].as_str();
        trees.push(span_json(alloc, process, shown)?)?;
    }
    Ok(Value::Array(trees))
}

/// Returns the processes by their names.
fn processes_json(alloc: Global, processes: &[FirstSpan]) -> Result<Value, AllocError>
    ensures { IfOk result (λ v. view v ≡ processes_tree (map first_process processes.now)) }
{
    let mut named = Map::new(alloc);
    for (place, first) in processes.iter().enumerate() {
        let name = process_name(alloc, place)?;
        put(
            &mut named,
            alloc,
            name.as_str(),
            first.process.to_json(alloc)?,
        )?;
    }
    Ok(Value::Object(named))
}

/// Returns the id of a trace, which is that of its first span.
fn trace_id_text(alloc: Global, spans: &[Shown]) -> Result<String, AllocError>
    ensures { IfOk result (λ s. string_bytes s ≡ trace_id_text spans.now) }
{
    match spans.first() {
        Some(shown) => trace_text(alloc, shown.placed.span.trace),
        None => Ok(String::new(alloc)),
    }
}

/// Returns the tree of a trace with these processes and spans and this id.
fn trace_json(
    alloc: Global,
    processes: Value,
    spans: Value,
    id: String,
) -> Result<Value, AllocError>
    ensures { IfOk result (λ v.
        view v ≡ trace_object (view processes) (view spans) (string_bytes id)) }
{
    json!(in alloc; {"processes": processes, "spans": spans, "traceID": id, "warnings": null})
}

/// The tree of a trace: its spans in order, and their processes by the names that the spans use.
impl Tree for ShownTrace {
    ghost tree = { trace_tree };

    fn to_json(&self, alloc: Global) -> Result<Value, AllocError> {
        let shown = self.as_slice();
        let (places, known) = places(alloc, self)?;
        let names = names(alloc, known.len())?;
        let spans = spans_json(alloc, &names, &places, shown)?;
        let processes = processes_json(alloc, &known)?;
        let id = trace_id_text(alloc, shown)?;
        trace_json(alloc, processes, spans, id)
    }
}

/// The tree of a trace of an answer. Building it copies spans that are borrowed from their entries.
impl Tree for AnsweredTrace {
    ghost tree = { trace_tree };

    fn to_json(&self, alloc: Global) -> Result<Value, AllocError> {
        match self.form() {
            TraceForm::Copied(copied) => copied.to_json(alloc),
            TraceForm::Lone(span) => show_lone(alloc, span)?.to_json(alloc),
            TraceForm::Kept(kept) => show(alloc, kept)?.to_json(alloc),
        }
    }
}
