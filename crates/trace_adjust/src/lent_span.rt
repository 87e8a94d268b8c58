//! A span of an answer, borrowed from its entry.

ghost use Rattle.std.specs.Prelude.{◌≡◌, ◌<◌, length, slice_get, Some};
ghost use Rattle.trace_model.specs.Adjusting.{shifted};
ghost use Rattle.trace_adjust.specs.LentReferences.{IsLent};
ghost use Rattle.span_steps.specs.Warnings.{warning_texts};

use crate::lent_logs::LentLogs;
use crate::lent_placed::LentPlaced;
use jaeger_model::{Process, Span, SpanRef};
use span_steps::{Warning, moved_by};
use std::marker::Model;

/// A span of an answer, borrowed from its entry, with what is shown differently. Contracts see the span as it is
/// shown.
#[derive(Drop)]
pub struct LentSpan<'a> {
    placed: LentPlaced<'a>,
    warning: Option<Warning>,
}

impl<'a> Model for LentSpan<'a> {
    ghost use Rattle.trace_model.specs.declared.answer.Shown.{Shown};
    ghost use Rattle.span_steps.specs.Warnings.{shown_with_warning, CanMove};

    ghost Value = { Shown };

    ghost view = { λ l. shown_with_warning l.warning l.placed };

    ghost invariant = { λ l. CanMove l.warning l.placed.span };
}

impl<'a> LentSpan<'a> {
    /// The span moved by the delta of its host's clock, or left with a warning; unchanged if the delta is 0.
    pub(crate) fn shifted(placed: LentPlaced<'a>, delta: i128, max_skew: u64) -> LentSpan<'a>
        ensures { result ≡ shifted max_skew delta placed.entry }
    {
        let warning = placed.warning(max_skew, delta);
        LentSpan { placed, warning }
    }

    /// Returns the stored span, with its own references and times.
    pub fn span(&self) -> &'a Span
        ensures { IsLent result.now self.now.placed.span }
    {
        self.placed.kept()
    }

    /// Returns the process that reported it.
    pub fn process(&self) -> &'a Process
        ensures { result.now ≡ self.now.placed.process }
    {
        self.placed.process()
    }

    /// Returns the shown start, in microseconds since 1970.
    pub fn start(&self) -> i64
        ensures { result ≡ self.now.placed.span.start }
    {
        let start = self.placed.start();
        match self.warning {
            Some(Warning::Adjusted(delta)) => moved_by(start, delta),
            Some(Warning::PastLimit { .. } | Warning::PastTimes(_)) | None => start,
        }
    }

    /// Returns the shown logs.
    pub fn logs(&self) -> LentLogs<'a>
        ensures { result ≡ self.now.placed.span.logs }
    {
        let logs = self.placed.logs();
        match self.warning {
            Some(Warning::Adjusted(delta)) => LentLogs::new(logs, Some(delta)),
            Some(Warning::PastLimit { .. } | Warning::PastTimes(_)) | None => LentLogs::new(
                logs, None,
            ),
        }
    }

    /// Returns the number of its shown references.
    pub fn reference_count(&self) -> usize
        ensures { result ≡ length self.now.placed.span.references }
    {
        self.placed.reference_count()
    }

    /// Returns the shown reference at the index.
    pub fn reference(&self, index: usize) -> SpanRef
        requires { index < length self.now.placed.span.references }
        ensures { slice_get self.now.placed.span.references index ≡ Some result }
    {
        self.placed.reference(index)
    }

    /// Returns its warning, if it has one.
    pub fn warning(&self) -> Option<Warning>
        ensures { self.now.warnings ≡ warning_texts result }
    {
        self.warning
    }
}
