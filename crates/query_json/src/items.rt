//! The items of an answer, each written in pieces.
ghost use Rattle.std.specs.Prelude.{◌≡◌, ◌<◌, ◌^◌, ◌∷◌, [], All, IfOk, IfSome, get_or, length, map};
ghost use Rattle.serde_json.specs.Written.{compact_text};
ghost use Rattle.query_json.specs.LentTraces.{IsWritable};
ghost use Rattle.json_page.specs.Page.{Puts};
ghost use Rattle.query_json.specs.Pieces.{AreWritable, item_pieces, item_trees, items_text};
ghost use Rattle.query_json.specs.TracePieces.{item_spans, trace_pieces};
ghost use Rattle.answer_trees.specs.Trees.{answer_tree, trace_tree};

use crate::writing::{TraceItem, WriteItems};
use jaeger_model::{Seq, TraceId};
use json_page::Page;
use std::alloc::{AllocError, Global};
use trace_model::{Answer, AnsweredTrace, Link, Name, Operation};

/// The items of an answer. A piece is what one call writes.
#[derive(Drop)]
pub(crate) enum Items {
    Names(Seq<Name>),
    Operations(Seq<Operation>),
    Ids(Seq<TraceId>),
    Links(Seq<Link>),
    Traces(Vec<TraceItem>),
}

/// Returns the traces as items.
fn trace_items(alloc: Global, traces: Vec<AnsweredTrace>) -> Result<Vec<TraceItem>, AllocError>
    ensures spans { IfOk result (λ v. map item_spans v.items ≡ traces.items) }
    ensures writable { IfOk result (λ v. All IsWritable v.items) }
{
    let mut items = Vec::with_capacity(alloc, traces.len())?;
    for trace in traces {
        items.push(TraceItem::new(alloc, trace)?)?;
    }
    Ok(items)
}

/// Returns a trace as the only item.
fn of_trace(alloc: Global, trace: AnsweredTrace) -> Result<Items, AllocError>
    ensures trees { IfOk result (λ i. item_trees i ≡ trace_tree trace ∷ []) }
    ensures writable { IfOk result AreWritable }
{
    let mut items = Vec::with_capacity(alloc, 1)?;
    items.push(TraceItem::new(alloc, trace)?)?;
    Ok(Items::Traces(items))
}

/// Returns the traces as items of an answer.
fn of_traces(alloc: Global, traces: Seq<AnsweredTrace>) -> Result<Items, AllocError>
    ensures trees { IfOk result (λ i. item_trees i ≡ map trace_tree traces) }
    ensures writable { IfOk result AreWritable }
{
    Ok(Items::Traces(trace_items(alloc, traces.into_vec())?))
}

/// Returns the number of pieces of the trace at the index.
fn trace_piece_count(traces: &[TraceItem], item: usize) -> usize
    requires writable { All IsWritable traces.now }
    requires item { item < length traces.now }
    ensures count { result ≡ length (get_or (map trace_pieces traces.now) item []) }
    ensures bound { result < 2 ^ 63 }
{
    traces[item].piece_count()
}

/// Writes a piece of the trace at the index.
fn write_trace_piece(page: &mut Page, traces: &[TraceItem], item: usize, piece: usize)
    requires writable { All IsWritable traces.now }
    requires item { item < length traces.now }
    requires piece { piece < length (get_or (map trace_pieces traces.now) item []) }
    ensures { Puts page.old page.new
        (get_or (get_or (map trace_pieces traces.now) item []) piece []) }
{
    traces[item].write_piece(page, piece);
}

impl Items {
    /// Returns the items of the answer, or `None` for a trace that wasn't found.
    ///
    /// # Errors
    ///
    /// Out of memory, and nothing else.
    pub(crate) fn of(alloc: Global, answer: Answer) -> Result<Option<Items>, AllocError>
        ensures text { IfOk result (λ o. items_text o ≡ compact_text (answer_tree answer)) }
        ensures writable { IfOk result (λ o. IfSome o AreWritable) }
    {
        match answer {
            Answer::Trace(Some(trace)) => Ok(Some(of_trace(alloc, trace)?)),
            Answer::Trace(None) => Ok(None),
            Answer::Traces(traces) => Ok(Some(of_traces(alloc, traces)?)),
            Answer::Names(names) => Ok(Some(Items::Names(names))),
            Answer::Operations(operations) => Ok(Some(Items::Operations(operations))),
            Answer::Ids(ids) => Ok(Some(Items::Ids(ids))),
            Answer::Links(links) => Ok(Some(Items::Links(links))),
        }
    }

    /// Returns no items.
    pub(crate) fn none(alloc: Global) -> Items
        ensures none { item_pieces result ≡ [] }
        ensures writable { AreWritable result }
    {
        Items::Traces(Vec::new(alloc))
    }

    /// Returns the number of items.
    pub(crate) fn count(&self) -> usize
        ensures count { result ≡ length (item_pieces self.now) }
        ensures bound { result < 2 ^ 63 }
    {
        match self {
            Items::Names(names) => names.as_slice().len(),
            Items::Operations(operations) => operations.as_slice().len(),
            Items::Ids(ids) => ids.as_slice().len(),
            Items::Links(links) => links.as_slice().len(),
            Items::Traces(traces) => traces.len(),
        }
    }

    /// Returns the number of pieces of an item.
    pub(crate) fn piece_count(&self, item: usize) -> usize
        requires writable { AreWritable self.now }
        requires item { item < length (item_pieces self.now) }
        ensures count { result ≡ length (get_or (item_pieces self.now) item []) }
        ensures bound { result < 2 ^ 63 }
    {
        match self {
            Items::Names(_) => 1,
            Items::Operations(_) => 1,
            Items::Ids(_) => 1,
            Items::Links(_) => 1,
            Items::Traces(traces) => trace_piece_count(traces, item),
        }
    }

    /// Writes a piece of an item.
    pub(crate) fn write_piece(&self, page: &mut Page, item: usize, piece: usize)
        requires writable { AreWritable self.now }
        requires item { item < length (item_pieces self.now) }
        requires piece { piece < length (get_or (item_pieces self.now) item []) }
        ensures { Puts page.old page.new
            (get_or (get_or (item_pieces self.now) item []) piece []) }
    {
        match self {
            Items::Names(names) => names.as_slice().write_item(page, item),
            Items::Operations(operations) => operations.as_slice().write_item(page, item),
            Items::Ids(ids) => ids.as_slice().write_item(page, item),
            Items::Links(links) => links.as_slice().write_item(page, item),
            Items::Traces(traces) => write_trace_piece(page, traces, item, piece),
        }
    }
}
