//! Writes a trace piece by piece: each process and each span is one piece, and so are the texts around them.
ghost use Rattle.std.specs.Prelude.{◌≡◌, ◌==◌, ◌+◌, ◌<◌, ◌^◌, ◌∷◌, [], All, IfOk, OnOk, get_or, length, map, string_bytes};
ghost use Rattle.std.specs.List.{list_all};
ghost use Rattle.serde_json.specs.Data.{string};
ghost use Rattle.serde_json.specs.Written.{compact_text};
ghost use Rattle.trace_model.specs.KeptTraces.{kept_value, KeptShares};
ghost use Rattle.query_json.specs.LentTraces.{IsNumbered, IsWritable};
ghost use Rattle.query_json.specs.NamedProcesses.{AreNamed, first_named};
ghost use Rattle.json_page.specs.Page.{Puts};
ghost use Rattle.answer_trees.specs.ProcessNumbers.{IsFirst, first_process};
ghost use Rattle.query_json.specs.TracePieces.{close_text, item_spans, pieces_of, span_pieces, span_text_in, trace_pieces};
ghost use Rattle.answer_trees.specs.Trees.{processes_of, trace_id_text, trace_tree};
ghost use Rattle.answer_trees.specs.TraceProcesses.{process_place};

use super::processes::{NamedProcess, in_order, is_first_alone, write_process};
use super::span::write_span;
use super::{WriteJson, write_separator};
use answer_trees::{FirstSpan, Tree, lent_places};
use json_page::Page;
use std::alloc::{AllocError, Global};
use std::snapshot::Snapshot;
use trace_adjust::{LentSpans, lend};
use trace_model::{AnsweredTrace, KeptTrace, ShownTrace, TraceForm};

/// Writes the id of a trace, which is that of its first span.
fn write_id(out: &mut Page, spans: &LentSpans)
    ensures { Puts out.old out.new (compact_text (string (trace_id_text spans.now))) }
{
    if spans.len() == 0 {
        out.push_str("\"\"");
        return;
    }
    spans.at(0).span().trace.write(out);
}

/// Writes the text after the spans.
fn write_close(out: &mut Page, spans: &LentSpans)
    ensures { Puts out.old out.new (close_text spans.now) }
{
    out.push_str(r#"],"traceID":"#);
    write_id(out, spans);
    out.push_str(r#","warnings":"#);
    out.push_str("null");
    out.push_str("}");
}

/// Checks that the processes and spans can be counted. A number that doesn't fit is reported as out of memory.
fn check_count(processes: usize, spans: usize) -> Result<(), AllocError>
    ensures { OnOk result (processes + spans < 2 ^ 62) }
{
    match processes.checked_add(spans) {
        Some(count) if count < 1 << 62 => Ok(()),
        // Impossible: no memory holds 2^62 of them.
        _ => Err(AllocError),
    }
}

/// Returns the place of each span's process among the processes, and the processes in the order of their first spans.
/// The list of the spans' keys is dropped when it returns.
fn places_by_keys(
    alloc: Global,
    spans: &LentSpans,
) -> Result<(Vec<u32>, Vec<FirstSpan<'_>>), AllocError>
    ensures places { IfOk result (λ r.
        r.0.items ≡ map (process_place (processes_of spans.now)) spans.now) }
    ensures processes { IfOk result (λ r. map first_process r.1.items ≡ processes_of spans.now) }
    ensures firsts { IfOk result (λ r. All (IsFirst spans.now) r.1.items) }
{
    let keys = spans.process_keys(alloc)?;
    lent_places(alloc, spans, &keys)
}

/// Returns the place of each span's process among the processes, and the processes in the order of their names.
fn named_processes(
    alloc: Global,
    spans: &LentSpans,
) -> Result<(Vec<u32>, Vec<NamedProcess>), AllocError>
    ensures places { IfOk result (λ r.
        r.0.items ≡ map (process_place (processes_of spans.now)) spans.now) }
    ensures processes { IfOk result (λ r.
        AreNamed spans.now (processes_of spans.now) r.1.items) }
{
    let (places, processes) = places_by_keys(alloc, spans)?;
    let named = in_order(alloc, &processes)?;
    Ok((places, named))
}

/// Returns the number of processes before that of the span at the index.
fn place_at(places: &[u32], index: usize) -> u32
    ensures { result ≡ get_or places.now index 0 }
{
    places.get(index).copied().unwrap_or(0)
}

/// Writes the text of a trace piece by piece, from its spans and their processes.
#[derive(Clone, Copy)]
struct TraceWriter<'a> {
    spans: &'a LentSpans,
    /// For each span the number of processes before its own; 0 for the spans after the last place.
    places: &'a [u32],
    /// In the order of their names.
    processes: &'a [NamedProcess],
}

impl<'a> TraceWriter<'a> {
    /// Returns the number of pieces: one for each process and each span, and those before, between and after them.
    fn piece_count(&self) -> usize
        requires { IsNumbered self.now.spans.now self.now.places.now self.now.processes.now }
        ensures count { result ≡ length (pieces_of self.now.processes.now self.now.spans.now) }
        ensures bound { result < 2 ^ 63 }
    {
        self.processes.len() + self.spans.len() + 3
    }

    /// Writes a piece.
    fn write_piece(&self, out: &mut Page, piece: usize)
        requires numbered { IsNumbered self.now.spans.now self.now.places.now
            self.now.processes.now }
        requires piece { piece < length (pieces_of self.now.processes.now self.now.spans.now) }
        ensures { Puts out.old out.new
            (get_or (pieces_of self.now.processes.now self.now.spans.now) piece []) }
    {
        if piece == 0 {
            out.push_str(r#"{"processes":{"#);
            return;
        }
        let index = piece - 1;
        if index >= self.processes.len() {
            self.write_after_processes(out, index - self.processes.len());
            return;
        }
        write_separator(out, index);
        write_process(out, self.spans, self.processes, index);
    }

    /// Writes one of the pieces after the processes.
    fn write_after_processes(&self, out: &mut Page, piece: usize)
        requires numbered { IsNumbered self.now.spans.now self.now.places.now
            self.now.processes.now }
        requires piece { piece < length (span_pieces self.now.spans.now) }
        ensures { Puts out.old out.new (get_or (span_pieces self.now.spans.now) piece []) }
    {
        if piece == 0 {
            out.push_str(r#"},"spans":["#);
            return;
        }
        let index = piece - 1;
        if index >= self.spans.len() {
            write_close(out, self.spans);
            return;
        }
        write_separator(out, index);
        self.write_span_at(out, index);
    }

    /// Writes the span at the index, with the name of its process.
    fn write_span_at(&self, out: &mut Page, index: usize)
        requires numbered { IsNumbered self.now.spans.now self.now.places.now
            self.now.processes.now }
        requires within { index < length self.now.spans.now }
        ensures { Puts out.old out.new
            (get_or (map (span_text_in self.now.spans.now) self.now.spans.now) index []) }
    {
        let number = u64::from(place_at(self.places, index)) + 1;
        write_span(out, number, &self.spans.at(index));
    }
}

/// A trace whose spans are borrowed from their entries, with its processes, which must be known before it is written.
#[derive(Drop)]
pub(crate) struct LentTrace {
    spans: LentSpans,
    /// For each span the number of processes before its own.
    places: Vec<u32>,
    processes: Vec<NamedProcess>,
}

impl LentTrace {
    /// Returns the number of its pieces.
    fn piece_count(&self) -> usize
        requires { IsNumbered self.now.spans self.now.places.items self.now.processes.items }
        ensures count { result ≡ length (pieces_of self.now.processes.items self.now.spans) }
        ensures bound { result < 2 ^ 63 }
    {
        let writer = TraceWriter {
            spans: &self.spans,
            places: &self.places,
            processes: &self.processes,
        };
        writer.piece_count()
    }

    /// Writes a piece.
    fn write_piece(&self, out: &mut Page, piece: usize)
        requires numbered { IsNumbered self.now.spans self.now.places.items
            self.now.processes.items }
        requires piece { piece < length (pieces_of self.now.processes.items self.now.spans) }
        ensures { Puts out.old out.new
            (get_or (pieces_of self.now.processes.items self.now.spans) piece []) }
    {
        let writer = TraceWriter {
            spans: &self.spans,
            places: &self.places,
            processes: &self.processes,
        };
        writer.write_piece(out, piece);
    }
}

/// Returns the number of pieces of a trace whose spans have one process.
fn piece_count_of_one(spans: &LentSpans) -> usize
    requires { IsNumbered spans.now [] (first_named ∷ []) }
    ensures count { result ≡ length (pieces_of (first_named ∷ []) spans.now) }
    ensures bound { result < 2 ^ 63 }
{
    let processes = [NamedProcess::first()];
    let writer = TraceWriter {
        spans,
        places: &[],
        processes: &processes,
    };
    writer.piece_count()
}

/// Writes a piece of a trace whose spans have one process.
fn write_piece_of_one(out: &mut Page, spans: &LentSpans, piece: usize)
    requires numbered { IsNumbered spans.now [] (first_named ∷ []) }
    requires piece { piece < length (pieces_of (first_named ∷ []) spans.now) }
    ensures { Puts out.old out.new (get_or (pieces_of (first_named ∷ []) spans.now) piece []) }
{
    let processes = [NamedProcess::first()];
    let writer = TraceWriter {
        spans,
        places: &[],
        processes: &processes,
    };
    writer.write_piece(out, piece);
}

/// A trace with spans of its own, as the text of its tree. Only contracts read the spans. Only the plain store and tests
/// make such a trace.
#[derive(Drop)]
pub(crate) struct CopiedTrace {
    spans: Snapshot<ShownTrace>,
    text: String,
}

impl CopiedTrace {
    /// Builds the tree of the trace, and keeps its text.
    fn new(alloc: Global, copied: &ShownTrace) -> Result<CopiedTrace, AllocError>
        ensures spans { IfOk result (λ t. t.spans.value ≡ copied.now) }
        ensures text { IfOk result (λ t.
            string_bytes t.text ≡ compact_text (trace_tree copied.now)) }
    {
        let text = copied.to_json(alloc)?.to_string(alloc)?;
        Ok(CopiedTrace {
            spans: Snapshot::of(copied),
            text,
        })
    }
}

/// A trace of an answer, written in pieces. One with spans of its own is one piece.
#[derive(Drop)]
pub(crate) enum TraceItem {
    /// Its spans are borrowed, and have one process. Nothing else is stored for it: many answers consist of such traces,
    /// small ones.
    OneProcess(LentSpans),
    Lent(Box<LentTrace>),
    Copied(CopiedTrace),
}

/// Returns whether each place is 0.
fn are_zero(places: &[u32]) -> bool
    ensures { result ≡ list_all (λ p. p == 0) places.now }
{
    places.iter().all(|place| *place == 0)
}

/// Prepares a trace whose spans are borrowed from their entries.
fn lent_item(alloc: Global, kept: Box<KeptTrace>) -> Result<TraceItem, AllocError>
    requires { KeptShares kept.value }
    ensures spans { IfOk result (λ t. item_spans t ≡ kept_value kept.value) }
    ensures writable { IfOk result IsWritable }
{
    let spans = lend(alloc, kept)?;
    let (places, processes) = named_processes(alloc, &spans)?;
    check_count(processes.len(), spans.len())?;
    if is_first_alone(&processes) && are_zero(&places) {
        return Ok(TraceItem::OneProcess(spans));
    }
    let lent = LentTrace {
        spans,
        places,
        processes,
    };
    Ok(TraceItem::Lent(Box::new(alloc, lent)?))
}

impl TraceItem {
    /// Allocates all that writing it needs.
    pub(crate) fn new(alloc: Global, trace: AnsweredTrace) -> Result<TraceItem, AllocError>
        ensures spans { IfOk result (λ t. item_spans t ≡ trace) }
        ensures writable { IfOk result IsWritable }
    {
        match trace.into_form() {
            TraceForm::Lone(span) => Ok(TraceItem::OneProcess(LentSpans::lone(span))),
            TraceForm::Kept(kept) => lent_item(alloc, kept),
            TraceForm::Copied(copied) => Ok(TraceItem::Copied(CopiedTrace::new(alloc, &copied)?)),
        }
    }

    /// Returns the number of its pieces.
    pub(crate) fn piece_count(&self) -> usize
        requires { IsWritable self.now }
        ensures count { result ≡ length (trace_pieces self.now) }
        ensures bound { result < 2 ^ 63 }
    {
        match self {
            TraceItem::OneProcess(spans) => piece_count_of_one(spans),
            TraceItem::Lent(lent) => lent.piece_count(),
            TraceItem::Copied(_) => 1,
        }
    }

    /// Writes a piece.
    pub(crate) fn write_piece(&self, out: &mut Page, piece: usize)
        requires writable { IsWritable self.now }
        requires piece { piece < length (trace_pieces self.now) }
        ensures { Puts out.old out.new (get_or (trace_pieces self.now) piece []) }
    {
        match self {
            TraceItem::OneProcess(spans) => write_piece_of_one(out, spans, piece),
            TraceItem::Lent(lent) => lent.write_piece(out, piece),
            TraceItem::Copied(copied) => out.push_str(copied.text.as_str()),
        }
    }
}
