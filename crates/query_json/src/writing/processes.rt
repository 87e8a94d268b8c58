//! The processes of a trace in the order of their names, and the text of each.
ghost use Rattle.std.specs.Prelude.{◌≡◌, ◌+◌, ◌<◌, ◌^◌, ◌∷◌, List, [], All, IfOk, decimal, get_or, length, map, string_bytes};
ghost use Rattle.std.specs.Bool.{OnTrue};
ghost use Rattle.serde_json.specs.Data.{string};
ghost use Rattle.serde_json.specs.Written.{compact_text};
ghost use Rattle.trace_model.specs.declared.answer.Shown.{Shown};
ghost use Rattle.json_page.specs.Page.{Puts};
ghost use Rattle.answer_trees.specs.Trees.{process_tree};
ghost use Rattle.query_json.specs.NamedProcesses.{AreNamed, HasSpan, first_named, named_at, named_text};
ghost use Rattle.answer_trees.specs.ProcessNumbers.{IsFirst, first_process};
ghost use Rattle.answer_trees.specs.TraceProcesses.{process_names};

use super::WriteJson;
use super::values::write_tags;
use answer_trees::{FirstSpan, names};
use jaeger_model::Process;
use json_page::Page;
use std::alloc::{AllocError, Global};
use std::collections::BTreeMap;
use trace_adjust::LentSpans;
use trace_model::place_u32;

impl WriteJson for Process {
    ghost tree = { process_tree };

    fn write(&self, out: &mut Page) {
        out.push_str(r#"{"serviceName":"#);
        out.push_quoted(self.service.as_str());
        out.push_str(r#","tags":"#);
        write_tags(out, self.tags.as_slice());
        out.push_str("}");
    }
}

/// A process of a trace: the index of a span that has it, and its number, counted from 1, which its name contains.
#[derive(Clone, Copy)]
pub(crate) struct NamedProcess {
    number: u32,
    span: u32,
}

impl NamedProcess {
    /// Returns the process of the first span.
    pub(super) fn first() -> NamedProcess
        ensures { result ≡ first_named }
    {
        NamedProcess { number: 1, span: 0 }
    }

    /// Returns the process with this number of others before it, which the span at the index has.
    fn at(place: usize, span: usize) -> Result<NamedProcess, AllocError>
        requires { place + 1 < 2 ^ 64 }
        ensures { IfOk result (λ p. p ≡ named_at place span) }
    {
        Ok(NamedProcess {
            number: place_u32(place + 1)?,
            span: place_u32(span)?,
        })
    }
}

/// Returns whether the process of the first span is the only one.
pub(super) fn is_first_alone(processes: &[NamedProcess]) -> bool
    ensures { OnTrue result (processes.now ≡ first_named ∷ []) }
{
    match processes {
        [only] => only.number == 1 && only.span == 0,
        _ => false,
    }
}

/// Maps the processes' names to them.
fn by_name<'n>(
    alloc: Global,
    names: &'n [String],
    processes: &[FirstSpan],
) -> Result<BTreeMap<&'n str, NamedProcess>, AllocError>
    requires names { map string_bytes names.now ≡ process_names (length processes.now) }
    requires count { length names.now ≡ length processes.now }
    ensures { (spans : List Shown) → All (IsFirst spans) processes.now →
        IfOk result (λ m.
        AreNamed spans (map first_process processes.now) (map (λ e. e.1) m.entries)) }
{
    let mut named = BTreeMap::new(alloc);
    for (place, first) in processes.iter().enumerate() {
        let span = first.span;
        named.insert(names[place].as_str(), NamedProcess::at(place, span)?)?;
    }
    Ok(named)
}

/// Returns the processes in the order of the map.
fn in_its_order(
    alloc: Global,
    named: &BTreeMap<&str, NamedProcess>,
) -> Result<Vec<NamedProcess>, AllocError>
    ensures { IfOk result (λ v. v.items ≡ map (λ e. e.1) named.now.entries) }
{
    let mut order = Vec::with_capacity(alloc, named.len())?;
    for (_, process) in named.iter() {
        order.push(*process)?;
    }
    Ok(order)
}

/// Returns the processes in the order of their names' bytes.
pub(super) fn in_order(
    alloc: Global,
    processes: &[FirstSpan],
) -> Result<Vec<NamedProcess>, AllocError>
    ensures { (spans : List Shown) → All (IsFirst spans) processes.now →
        IfOk result (λ v. AreNamed spans (map first_process processes.now) v.items) }
{
    let names = names(alloc, processes.len())?;
    let named = by_name(alloc, &names, processes)?;
    // For the prover: the binding lets the clause of `in_its_order` be used for the result.
    let order = in_its_order(alloc, &named)?;
    Ok(order)
}

/// Writes the name of the process with this number, as a JSON string.
fn write_name(out: &mut Page, number: u32)
    ensures { Puts out.old out.new (compact_text (string (112 ∷ decimal number))) }
{
    out.push_str("\"p");
    out.push_unsigned(u64::from(number));
    out.push_str("\"");
}

/// Writes the process of one of the spans, after its name.
fn write_named(out: &mut Page, spans: &LentSpans, named: NamedProcess)
    requires { named.span < length spans.now }
    ensures { Puts out.old out.new (named_text spans.now named) }
{
    write_name(out, named.number);
    out.push_str(":");
    spans.at(named.span as usize).process().write(out);
}

/// Writes the process at the index, which one of the spans has, after its name.
pub(super) fn write_process(
    out: &mut Page,
    spans: &LentSpans,
    processes: &[NamedProcess],
    index: usize,
)
    requires index { index < length processes.now }
    requires spans { All (HasSpan spans.now) processes.now }
    ensures { Puts out.old out.new (get_or (map (named_text spans.now) processes.now) index []) }
{
    write_named(out, spans, processes[index]);
}
