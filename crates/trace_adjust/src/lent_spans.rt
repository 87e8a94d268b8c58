//! The spans of a trace of an answer as they are shown, borrowed one by one from their entries.

ghost use Rattle.std.specs.Prelude.{◌≡◌, ◌<◌, ℤ, List, pos, get_or, length, map, slice_get, IfOk, Some, None, option_map};
ghost use Rattle.trace_model.specs.Adjusting.{spans_of};
ghost use Rattle.trace_model.specs.BorrowedSpans.{placed_by_its_entry};
ghost use Rattle.trace_model.specs.KeptTraces.{lone_value};
ghost use Rattle.trace_model.specs.SharedProcesses.{ShareProcesses};
ghost use Rattle.trace_adjust.specs.LentSpans.{placed_as, shown_by_deltas, AreLent, AreThere};

use crate::lent_placed::LentPlaced;
use crate::lent_span::LentSpan;
use crate::process_keys::process_keys_of;
use jaeger_model::Seen;
use std::alloc::{AllocError, Global};
use std::marker::Model;
use trace_model::{KeptTrace, TakenSpan};

/// A trace with spans that move, and the deltas of their clocks.
#[derive(Drop)]
pub(crate) struct MovedSpans {
    pub(crate) trace: Box<KeptTrace>,
    /// The deltas of the spans, in microseconds; 0 for the spans after the last delta.
    pub(crate) deltas: Vec<i128>,
}

/// The forms of a trace that is lent. A trace stays in the box in which the answer has it, since nothing would reuse the
/// memory of that box, and an answer may have very many traces.
#[derive(Drop)]
pub(crate) enum LentForm {
    /// The only span of a trace, which no clock moves.
    Lone(TakenSpan),
    /// A trace without spans that move.
    Kept(Box<KeptTrace>),
    Moved(Box<MovedSpans>),
}

const _: () = prove!(size_of::<LentSpans>() == 24);

const _: () = prove!(size_of::<MovedSpans>() == 32);

/// The spans of a trace, borrowed from their entries. Of each span it holds its entry, its index, the key of its process
/// and the delta of its clock, if one moves; all else is computed when the span is read. Contracts see the spans as they
/// are shown.
#[derive(Drop)]
pub struct LentSpans {
    form: LentForm,
}

impl Model for LentSpans {
    ghost use Rattle.std.specs.Prelude.{List};
    ghost use Rattle.trace_model.specs.declared.answer.Shown.{Shown};
    ghost use Rattle.trace_adjust.specs.LentSpans.{lent_value, IsLentForm};

    ghost Value = { List Shown };

    ghost view = { λ l. lent_value l.form };

    ghost invariant = { λ l. IsLentForm l.form };
}

/// Borrows a reported span, with its parent among its references: as they were reported if `raw` is set and they have
/// it, else with the parent first.
fn lent_as<'a>(raw: bool, reported: Seen<'a>) -> LentPlaced<'a>
    ensures { result ≡ placed_as raw (placed_by_its_entry reported.entry) }
{
    if raw {
        LentPlaced::with_parent(reported)
    } else {
        LentPlaced::with_parent_first(reported)
    }
}

/// Returns the delta of the span at the index.
fn delta_at(deltas: &[i128], index: usize) -> i128
    ensures { result ≡ get_or deltas.now index (pos 0) }
{
    deltas.get(index).copied().unwrap_or(0)
}

/// Borrows the span at the index.
fn lent_at<'a>(raw: bool, spans: &'a [TakenSpan], index: usize) -> LentPlaced<'a>
    requires { index < length spans.now }
    ensures { Some result ≡ option_map (placed_as raw)
        (get_or (map (λ t. t.span) spans.now) index None) }
{
    lent_as(raw, spans[index].reported())
}

/// Returns the only span of a trace as it is shown.
fn lone_span(span: &TakenSpan) -> LentSpan<'_>
    ensures { slice_get (lone_value span.now) 0 ≡ Some result }
{
    let placed = lent_as(false, span.reported());
    LentSpan::shifted(placed, 0, 0)
}

/// Returns the number of spans of a trace.
fn span_count(trace: &KeptTrace) -> usize
    requires { AreThere trace.now.spans.items }
    ensures { (deltas : List ℤ) → result ≡ length (shown_by_deltas trace.now deltas) }
{
    trace.spans.len()
}

/// Returns the span at the index as it is shown, by the deltas of the clocks.
fn span_at<'a>(trace: &'a KeptTrace, deltas: &[i128], index: usize) -> LentSpan<'a>
    requires there { AreThere trace.now.spans.items }
    requires index { index < length (shown_by_deltas trace.now deltas.now) }
    ensures { slice_get (shown_by_deltas trace.now deltas.now) index ≡ Some result }
{
    let delta = delta_at(deltas, index);
    let placed = lent_at(trace.raw, &trace.spans, index);
    LentSpan::shifted(placed, delta, trace.max_skew)
}

impl LentSpans {
    /// Borrows the only span of a trace, to be shown adjusted. Allocates nothing.
    pub fn lone(span: TakenSpan) -> LentSpans
        ensures value { result ≡ lone_value span }
        ensures one { length result ≡ 1 }
    {
        // For the prover: the clause of `reported` says that the span exists.
        let _reported = span.reported();
        LentSpans {
            form: LentForm::Lone(span),
        }
    }

    /// Borrows the spans of a trace, to be shown by the deltas of their clocks. Allocates nothing if there is no delta.
    pub(crate) fn of(
        alloc: Global,
        trace: Box<KeptTrace>,
        deltas: Vec<i128>,
    ) -> Result<LentSpans, AllocError>
        requires { AreLent trace.value deltas.items }
        ensures { IfOk result (λ l. l ≡ shown_by_deltas trace.value deltas.items) }
    {
        if deltas.is_empty() {
            return Ok(LentSpans {
                form: LentForm::Kept(trace),
            });
        }
        let moved = Box::new(alloc, MovedSpans { trace, deltas })?;
        Ok(LentSpans {
            form: LentForm::Moved(moved),
        })
    }

    /// Returns the number of spans.
    pub fn len(&self) -> usize
        ensures { result ≡ length self.now }
    {
        match &self.form {
            LentForm::Lone(_) => 1,
            LentForm::Kept(trace) => span_count(trace),
            LentForm::Moved(moved) => span_count(&moved.trace),
        }
    }

    /// Returns the span at the index. Allocates nothing.
    pub fn at(&self, index: usize) -> LentSpan<'_>
        requires { index < length self.now }
        ensures { slice_get self.now index ≡ Some result }
    {
        match &self.form {
            LentForm::Lone(span) => lone_span(span),
            LentForm::Kept(trace) => span_at(trace, &[], index),
            LentForm::Moved(moved) => span_at(&moved.trace, &moved.deltas, index),
        }
    }

    /// Returns a key for each of the first spans. Spans with one key have one process.
    ///
    /// # Errors
    ///
    /// Out of memory, and nothing else.
    pub fn process_keys(&self, alloc: Global) -> Result<Vec<u64>, AllocError>
        ensures { IfOk result (λ v. ShareProcesses (spans_of self.now) v.items) }
    {
        match &self.form {
            LentForm::Lone(_) => Ok(Vec::new(alloc)),
            LentForm::Kept(trace) => process_keys_of(alloc, &trace.spans),
            LentForm::Moved(moved) => process_keys_of(alloc, &moved.trace.spans),
        }
    }
}
