//! A trace of an answer: either copied, or as references to the entries that have its spans.

ghost use Rattle.std.specs.Prelude.{◌≡◌, ℕ, [], ◌∷◌, IfOk};
ghost use Rattle.trace_model.specs.Adjusting.{adjusted};
ghost use Rattle.trace_model.specs.KeptTraces.{lone_value, kept_value, KeptShares, form_value, FormShares};
ghost use Rattle.trace_model.specs.TakenSpans.{placed_taken};

use crate::shown_trace::ShownTrace;
use crate::taken_span::TakenSpan;
use std::alloc::{AllocError, Global};
use std::marker::Model;

/// A trace whose spans are in their entries, and how to show it.
#[derive(Debug, Drop)]
pub struct KeptTrace {
    /// Spans with one key have one process; nothing else is known of a key.
    pub spans: Vec<TakenSpan>,
    /// The greatest clock skew that is adjusted, in microseconds.
    pub max_skew: u64,
    /// Whether the spans are shown as reported, without adjustment.
    pub raw: bool,
}

/// The forms of a trace of an answer. `Copied` and `Kept` are boxed, since many answers consist of `Lone` traces.
#[derive(Debug, Drop)]
pub enum TraceForm {
    /// Its spans are copied and adjusted.
    Copied(Box<ShownTrace>),
    /// Its only span is in its entry, and is shown adjusted. Nothing is allocated for it.
    Lone(TakenSpan),
    /// Its spans are in their entries.
    Kept(Box<KeptTrace>),
}

const _: () = prove!(size_of::<AnsweredTrace>() == 24);

/// A trace of an answer. Contracts see the list of its spans as they are shown, in each form.
#[derive(Debug, Drop)]
pub struct AnsweredTrace {
    form: TraceForm,
}

impl Model for AnsweredTrace {
    ghost use Rattle.std.specs.Prelude.{List};
    ghost use Rattle.trace_model.specs.declared.answer.Shown.{Shown};
    ghost use Rattle.trace_model.specs.KeptTraces.{form_value, FormShares};

    ghost Value = { List Shown };

    ghost view = { λ t. form_value t.form };

    ghost invariant = { λ t. FormShares t.form };
}

impl AnsweredTrace {
    /// Makes an answer of a trace that is copied already, as a plain store and tests have it.
    ///
    /// # Errors
    ///
    /// Out of memory, and nothing else.
    pub fn copied(alloc: Global, trace: ShownTrace) -> Result<AnsweredTrace, AllocError>
        ensures { IfOk result (λ t. t ≡ trace) }
    {
        let trace = Box::new(alloc, trace)?;
        Ok(AnsweredTrace {
            form: TraceForm::Copied(trace),
        })
    }

    /// Makes an answer of a trace with one span, to be shown adjusted. Its clock has no other to be compared with, so it
    /// is the same for each limit of the skew. Allocates nothing.
    pub fn lone(span: TakenSpan) -> AnsweredTrace
        ensures value { result ≡ lone_value span }
        ensures adjusted { (max_skew : ℕ) →
            result ≡ adjusted max_skew (placed_taken (span ∷ [])) }
    {
        AnsweredTrace {
            form: TraceForm::Lone(span),
        }
    }

    /// Makes an answer of a trace whose spans are in their entries.
    ///
    /// # Errors
    ///
    /// Out of memory, and nothing else.
    pub fn kept(alloc: Global, trace: KeptTrace) -> Result<AnsweredTrace, AllocError>
        requires { KeptShares trace }
        ensures { IfOk result (λ t. t ≡ kept_value trace) }
    {
        let trace = Box::new(alloc, trace)?;
        Ok(AnsweredTrace {
            form: TraceForm::Kept(trace),
        })
    }

    /// Returns the form.
    pub fn form(&self) -> &TraceForm
        ensures value { form_value result.now ≡ self.now }
        ensures shares { FormShares result.now }
    {
        &self.form
    }

    /// Takes the form out.
    pub fn into_form(self) -> TraceForm
        ensures value { form_value result ≡ self }
        ensures shares { FormShares result }
    {
        self.form
    }
}
