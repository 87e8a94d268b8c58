//! The conditions of a search that need a span's process: its service, and the tags.

ghost use Rattle.std.specs.Prelude.{◌≡◌, IfOk};
ghost use Rattle.jaeger_model.specs.declared.batch.Process.{Process as ProcessValue};
ghost use Rattle.trace_model.specs.declared.query.Find.{Find as FindValue};
ghost use Rattle.collected_traces.specs.ProcessConditions.{of_service_with_tags, IsJudgedAs};

use find_traces::{JudgedProcess, PreparedSearch};
use jaeger_model::{Process, Span};
use std::alloc::{AllocError, Global};

/// Judges a process; returns `None` if it is not of the search's service.
pub(crate) fn judge<'a>(
    alloc: Global,
    prepared: &'a PreparedSearch<'a>,
    process: &Process,
) -> Result<Option<JudgedProcess<'a>>, AllocError>
    ensures { IfOk result (IsJudgedAs prepared.now process.now) }
{
    if prepared.query().service != process.service {
        return Ok(None);
    }
    Ok(Some(JudgedProcess::new(alloc, prepared, process)?))
}

/// Returns whether a span of a judged process is of the service of the search and has its tags.
pub(crate) fn has_tags(
    alloc: Global,
    judged: &Option<JudgedProcess<'_>>,
    span: &Span,
) -> Result<bool, AllocError>
    ensures { (query : FindValue) (process : ProcessValue) → IsJudgedAs query process judged.now →
        IfOk result (λ b. b ≡ of_service_with_tags query
        (record { process = process; span = span.now })) }
{
    match judged {
        Some(process) => process.has_all_tags(alloc, span),
        None => Ok(false),
    }
}
