//! Writes a span of an answer, borrowed from its entry.
ghost use Rattle.std.specs.Prelude.{◌≡◌, ◌+◌, List, decimal, map};
ghost use Rattle.serde_json.specs.Data.{string};
ghost use Rattle.serde_json.specs.Written.{compact_text};
ghost use Rattle.jaeger_model.specs.declared.batch.Process.{Process as ProcessValue};
ghost use Rattle.span_steps.specs.Warnings.{warning_text, warning_texts};
ghost use Rattle.trace_adjust.specs.LentSpans.{lent_log};
ghost use Rattle.json_page.specs.Page.{Puts};
ghost use Rattle.answer_trees.specs.Trees.{flags_number, log_tree, reference_tree, span_tree, warnings_tree};
ghost use Rattle.answer_trees.specs.TraceProcesses.{process_place};

use super::values::write_tags;
use super::{WriteItems, WriteJson, write_list};
use answer_trees::flags_number;
use json_page::Page;
use span_steps::Warning;
use trace_adjust::{LentLog, LentLogs, LentSpan};

impl<'a> WriteJson for LentLog<'a> {
    ghost tree = { λ l. log_tree (lent_log l) };

    fn write(&self, out: &mut Page) {
        out.push_str(r#"{"fields":"#);
        write_tags(out, self.fields);
        out.push_str(r#","timestamp":"#);
        out.push_signed_ref(&self.at);
        out.push_str("}");
    }
}

impl<'a> WriteItems for LentLogs<'a> {
    ghost trees = { λ logs. map log_tree logs };

    fn count(&self) -> usize {
        self.len()
    }

    fn write_item(&self, out: &mut Page, index: usize) {
        self.log(index).write(out);
    }
}

/// The references of a span, as items of a list.
#[derive(Clone, Copy)]
struct References<'s, 'a>(&'s LentSpan<'a>);

impl<'s, 'a> WriteItems for References<'s, 'a> {
    ghost trees = { λ r. map reference_tree r.0.now.placed.span.references };

    fn count(&self) -> usize {
        self.0.reference_count()
    }

    fn write_item(&self, out: &mut Page, index: usize) {
        self.0.reference(index).write(out);
    }
}

/// Writes the warning about a span's clock.
fn write_warning(out: &mut Page, warning: &Warning)
    ensures { Puts out.old out.new (compact_text (string (warning_text warning.now))) }
{
    match warning {
        Warning::Adjusted(delta) => {
            out.push_str("\"clock skew adjusted by ");
            out.push_delta(delta);
            out.push_str(" us\"");
        }
        Warning::PastLimit { delta, max_skew } => {
            out.push_str("\"clock skew of ");
            out.push_delta(delta);
            out.push_str(" us not applied: the limit is ");
            out.push_unsigned(*max_skew);
            out.push_str(" us\"");
        }
        Warning::PastTimes(delta) => {
            out.push_str("\"clock skew of ");
            out.push_delta(delta);
            out.push_str(" us not applied: a time would not fit\"");
        }
    }
}

/// Writes a list with the warning, or null if there is none.
fn write_warnings(out: &mut Page, warning: &Option<Warning>)
    ensures { Puts out.old out.new (compact_text (warnings_tree (warning_texts warning.now))) }
{
    match warning {
        Some(warning) => {
            out.push_str("[");
            write_warning(out, warning);
            out.push_str("]");
        }
        None => out.push_str("null"),
    }
}

/// Writes the flags' 32 bits as an unsigned number. For the prover: they are passed by reference, so that the caller
/// doesn't read them.
fn write_flags(out: &mut Page, flags: &i32)
    ensures { Puts out.old out.new (decimal (flags_number flags.now)) }
{
    out.push_unsigned(u64::from(flags_number(*flags)));
}

/// Writes a span whose process has this number, counted from 1.
pub(super) fn write_span(out: &mut Page, number: u64, lent: &LentSpan)
    ensures { (ps : List ProcessValue) → number ≡ process_place ps lent.now + 1 →
        Puts out.old out.new (compact_text (span_tree ps lent.now)) }
{
    let span = lent.span();
    out.push_str(r#"{"duration":"#);
    out.push_signed_ref(&span.duration);
    out.push_str(r#","flags":"#);
    write_flags(out, &span.flags);
    out.push_str(r#","logs":"#);
    write_list(out, lent.logs());
    out.push_str(r#","operationName":""#);
    out.push_escaped(span.operation.as_str());
    out.push_str(r#"","processID":"p"#);
    out.push_unsigned(number);
    out.push_str(r#"","references":"#);
    write_list(out, References(lent));
    out.push_str(r#","spanID":"#);
    span.id.write(out);
    out.push_str(r#","startTime":"#);
    out.push_signed(lent.start());
    out.push_str(r#","tags":"#);
    write_tags(out, span.tags.as_slice());
    out.push_str(r#","traceID":"#);
    span.trace.write(out);
    out.push_str(r#","warnings":"#);
    write_warnings(out, &lent.warning());
    out.push_str("}");
}
