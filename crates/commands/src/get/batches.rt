//! A store that reads a batch from each line.
ghost use Rattle.std.specs.Prelude.{◌≡◌, ◌++◌, IfOk, OnOk, Some};
ghost use Rattle.trace_model.specs.Refusals.{admission};
ghost use Rattle.commands.specs.JudgedLines.{admitted, is_written, judged_line, without_blanks};
ghost use Rattle.span_store.specs.NextEntry.{next_entry};
ghost use Rattle.commands.specs.GetRuns.{fault_line, nothing_held};

use crate::get::line_fault::LineFault;
use batch_codec::decode_hex;
use jaeger_model::Batch;
use span_store::SpanStore;
use std::alloc::{AllocError, Global};
use std::hash::RandomState;
use std::io::Write;
use std::marker::Model;
use std::sync::Arc;
use text_lines::LineHandler;
use trace_model::Limits;

/// Submits the batch as the next entry of seat 0. If it was sent before, nothing is added.
fn admit(
    alloc: Global,
    store: &mut SpanStore,
    batch: Batch,
) -> Result<Option<LineFault>, AllocError>
    ensures { IfOk result (λ fault. record { fault = fault; held = store.new }
        ≡ admitted store.old (next_entry store.old batch)
        (admission store.old.limits store.old.entries (next_entry store.old batch))) }
{
    let Ok(entry) = Arc::new(alloc, store.next_entry(batch)) else {
        return Err(AllocError);
    };
    match store.apply(entry) {
        Ok(_) => Ok(None),
        Err(refusal) => Ok(Some(LineFault::Refused(refusal))),
    }
}

/// Returns whether the byte is neither a space nor a tab.
fn is_written(c: u8) -> bool
    ensures { result ≡ is_written c }
{
    c != b' ' && c != b'\t'
}

fn drop_blanks(line: &mut Vec<u8>)
    ensures { line.new.items ≡ without_blanks line.old.items }
{
    line.retain(|c| is_written(*c));
}

/// Adds the batch of a line to the store, or returns why it can't.
fn take_batch(
    alloc: Global,
    store: &mut SpanStore,
    line: &mut Vec<u8>,
) -> Result<Option<LineFault>, AllocError>
    ensures { IfOk result (λ fault. record { fault = fault; held = store.new } ≡
        judged_line store.old line.old.items) }
{
    drop_blanks(line);
    if line.is_empty() {
        return Ok(None);
    }
    match decode_hex(alloc, line.as_slice())? {
        Ok(batch) => admit(alloc, store, batch),
        Err(fault) => Ok(Some(LineFault::NoBatch(fault))),
    }
}

/// Writes that a line can't be used.
fn write_fault(reply: &mut Vec<u8>, number: u64, fault: LineFault) -> Result<(), AllocError>
    ensures { OnOk result (reply.new.items ≡ reply.old.items ++ fault_line number (Some fault)) }
{
    writeln!(reply, "line {number}: {fault}").map_err(|_| AllocError)
}

/// A store that reads a batch from each line, and replies with the reason if it can't.
#[derive(Drop)]
pub(crate) struct Batches {
    store: SpanStore,
}

impl Model for Batches {
    ghost use Rattle.trace_model.specs.LimitedHistories.{LimitedHistory};

    ghost Value = { LimitedHistory };

    ghost view = { λ s. s.store };
}

impl Batches {
    /// Creates an empty store.
    ///
    /// # Errors
    ///
    /// Out of memory, and nothing else.
    pub(crate) fn new(alloc: Global, keys: RandomState, limits: Limits) -> Result<Self, AllocError>
        ensures { IfOk result (λ batches. batches ≡ nothing_held limits) }
    {
        let store = SpanStore::open(alloc, keys, limits)?;
        Ok(Batches { store })
    }

    /// Returns the store.
    pub(crate) fn store(&self) -> &SpanStore
        ensures { result.now ≡ self.now }
    {
        &self.store
    }
}

impl LineHandler for Batches {
    ghost use Rattle.commands.specs.GetRuns.{TakesBatch};

    ghost takes = { TakesBatch };

    fn handle_line(
        &mut self,
        alloc: Global,
        number: u64,
        line: &mut Vec<u8>,
        reply: &mut Vec<u8>,
    ) -> Result<bool, AllocError> {
        match take_batch(alloc, &mut self.store, line)? {
            None => Ok(false),
            Some(fault) => {
                write_fault(reply, number, fault)?;
                Ok(true)
            }
        }
    }
}
