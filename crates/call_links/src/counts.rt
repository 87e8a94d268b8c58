//! Calls counted trace by trace.

ghost use Rattle.std.specs.Prelude.{◌≡◌, [], List, IfOk, OnOk, map};
ghost use Rattle.trace_model.specs.TakenSpans.{Taken, placed_taken};
ghost use Rattle.call_links.specs.NumberedCalls.{numbered_call, links_in, AreServicesNumbered};
ghost use Rattle.call_links.specs.LinkTallies.{with_call, with_trace, tallied};

use crate::calls::{Call, call_to, first_spans};
use crate::numbered_span::NumberedSpan;
use crate::order::{in_order, linked};
use crate::tally::{LinkTally, link_tally_after, numbers_of};
use std::alloc::{AllocError, Global};
use std::collections::BTreeMap;
use std::marker::Model;
use trace_model::Link;

/// The number of calls between services, counted trace by trace. It keeps a span of the caller and one of the
/// callee for each pair of services, and nothing for a call or a trace. Contracts see each pair by its numbers,
/// with its names and its number of calls.
#[derive(Drop)]
pub struct LinkCounts<'a> {
    tallies: BTreeMap<(u32, u32), LinkTally<'a>>,
}

impl<'a> Model for LinkCounts<'a> {
    ghost use Rattle.call_links.specs.LinkTallies.{LinkTallies, tallies_seen};

    ghost Value = { LinkTallies };

    ghost view = { λ c. tallies_seen c.tallies.entries };
}

impl<'a> LinkCounts<'a> {
    /// Makes an empty count.
    pub fn new(alloc: Global) -> Self
        ensures { result ≡ [] }
    {
        LinkCounts {
            tallies: BTreeMap::new(alloc),
        }
    }

    /// Counts one call. Reads no text, and looks up the pair of services once unless it is new.
    fn count(&mut self, call: Call<'_, 'a>) -> Result<(), AllocError>
        ensures { OnOk result (self.new ≡ with_call self.old (numbered_call call.entry)) }
    {
        let numbers = numbers_of(call);
        if let Some(tally) = self.tallies.get_mut(&numbers) {
            *tally = link_tally_after(call, tally.calls)?;
            return Ok(());
        }
        self.tallies.insert(numbers, link_tally_after(call, 0)?)?;
        Ok(())
    }

    /// Adds the calls of one trace.
    ///
    /// Each span whose parent is a span of the trace adds one call, unless both are of one service. Of
    /// spans with one id the first is the parent.
    ///
    /// # Errors
    ///
    /// Out of memory; also if a number of calls would pass 64 bits, which can't be: no memory holds that many spans.
    pub fn add(&mut self, alloc: Global, trace: &[NumberedSpan<'a>]) -> Result<(), AllocError>
        ensures { OnOk result (self.new ≡ with_trace self.old trace.now) }
    {
        let first = first_spans(alloc, trace)?;
        for span in trace {
            if let Some(call) = call_to(&first, span) {
                self.count(call)?;
            }
        }
        Ok(())
    }

    /// Returns each pair of services with its number of calls, in order of caller and then of callee. Spans are of
    /// the same service exactly if their numbers are equal. The links share the names.
    ///
    /// # Errors
    ///
    /// Out of memory; also if a service had no name, which can't be.
    pub fn finish(self, alloc: Global) -> Result<Vec<Link>, AllocError>
        ensures { (traces : List (List Taken)) → AreServicesNumbered traces →
            self.entry ≡ tallied traces →
            IfOk result (λ v. v.items ≡ links_in (map placed_taken traces)) }
    {
        let ordered = in_order(alloc, self.tallies)?;
        // For the prover: the binding lets the clauses of `linked` be used for the result.
        let links = linked(alloc, ordered)?;
        Ok(links)
    }
}
