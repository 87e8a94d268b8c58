//! A span in its entry, with its ids and the number of its service.

ghost use Rattle.std.specs.Prelude.{◌≡◌, Some, slice_get, IfOk, IfSome, option_map};
ghost use Rattle.std.specs.Option.{option_and_then};
ghost use Rattle.std.specs.Arc.{arc_value};
ghost use Rattle.jaeger_model.specs.Parents.{parent};
ghost use Rattle.trace_model.specs.EntryWork.{placed_brought};
ghost use Rattle.trace_model.specs.BorrowedSpans.{placed_by_its_entry};

use jaeger_model::{Seen, parent_of};
use std::alloc::AllocError;
use std::marker::Model;
use std::sync::Arc;
use trace_model::{Entry, Name, reported_in};

/// A span in its entry, with its ids and the number of its service. The entry is borrowed, so that a span costs no
/// count of its sharers. Contracts see the span with its process and its parent among its references, and the number.
#[derive(Drop)]
pub struct NumberedSpan<'a> {
    entry: &'a Arc<Entry>,
    index: u32,
    service_number: u32,
    /// The id of the span, read once: spans are scattered in memory, and the calls of a trace ask for it again.
    id: u64,
    /// The id of its parent, or 0 if it has none.
    parent: u64,
}

impl<'a> Model for NumberedSpan<'a> {
    ghost use Rattle.std.specs.Prelude.{slice_get, IsSome};
    ghost use Rattle.std.specs.Arc.{arc_value};
    ghost use Rattle.trace_model.specs.EntryWork.{placed_brought};
    ghost use Rattle.trace_model.specs.TakenSpans.{Taken};
    ghost use Rattle.call_links.specs.NumberedCalls.{HasIds};

    ghost Value = { Taken };

    ghost view = { λ s. record {
      span = slice_get (placed_brought (arc_value s.entry.now).work) s.index;
      number = s.service_number;
    } };

    ghost invariant = { λ s.
        IsSome (slice_get (placed_brought (arc_value s.entry.now).work) s.index)
        × HasIds s.id s.parent (slice_get (placed_brought (arc_value s.entry.now).work) s.index) };
}

/// Returns the id of a span.
fn id_of(seen: Seen<'_>) -> u64
    ensures { result ≡ seen.entry.span.now.id.0 }
{
    seen.span.id.0
}

/// Returns the id of a span's parent, or 0 if it has none.
fn parent_id(seen: Seen<'_>) -> u64
    ensures { result ≡ (parent seen.entry.span.now).0 }
{
    parent_of(seen.span).0
}

/// Returns the span of the entry at an index, as it was reported.
#[tactic(auto, using(crate::proofs::ServiceTables::brought_there, crate::proofs::ServiceTables::not_brought))]
fn seen_in(entry: &Entry, index: u32) -> Option<Seen<'_>>
    ensures { option_map placed_by_its_entry result ≡
        slice_get (placed_brought entry.now.work) index }
{
    match entry.work.batch() {
        Some(batch) => reported_in(batch, index),
        None => None,
    }
}

impl<'a> NumberedSpan<'a> {
    /// Makes the span of the entry at an index, which counts from 0, with this number of its service; `None` if the
    /// entry has no such span.
    #[tactic(auto, using(crate::proofs::ServiceTables::id_kept, crate::proofs::ServiceTables::parent_kept))]
    pub fn new(entry: &'a Arc<Entry>, index: u32, service_number: u32) -> Option<NumberedSpan<'a>>
        ensures span { option_and_then (λ s. s.span) result ≡
            slice_get (placed_brought (arc_value entry.now).work) index }
        ensures number { IfSome result (λ s. s.number ≡ service_number) }
    {
        let seen = seen_in(entry, index)?;
        Some(NumberedSpan {
            entry,
            index,
            service_number,
            id: id_of(seen),
            parent: parent_id(seen),
        })
    }

    /// Returns a copy. `Copy` can't be derived for a type with a lifetime and a `Model`.
    pub(crate) fn duplicate(&self) -> NumberedSpan<'a>
        ensures { result ≡ self.now }
    {
        NumberedSpan {
            entry: self.entry,
            index: self.index,
            service_number: self.service_number,
            id: self.id,
            parent: self.parent,
        }
    }

    /// Returns its id.
    pub(crate) fn id(&self) -> u64
        ensures { Some result ≡ option_map (λ p. p.span.id.0) self.now.span }
    {
        self.id
    }

    /// Returns the id of its parent, or 0 if it has none.
    pub(crate) fn parent(&self) -> u64
        ensures { Some result ≡ option_map (λ p. (parent p.span).0) self.now.span }
    {
        self.parent
    }

    /// Returns the number of its service.
    pub(crate) fn service_number(&self) -> u32
        ensures { result ≡ self.now.number }
    {
        self.service_number
    }

    /// Returns the span as it was reported: its parent need not be among its references.
    pub(crate) fn reported(&self) -> Seen<'a>
        ensures { Some (placed_by_its_entry result) ≡ self.now.span }
    {
        let Some(seen) = seen_in(self.entry, self.index) else {
            unreachable!();
        };
        seen
    }

    /// Returns the name of its service, shared with its entry.
    ///
    /// # Errors
    ///
    /// Out of memory, and nothing else.
    #[tactic(auto, using(crate::proofs::ServiceTables::name_there))]
    pub(crate) fn service(&self) -> Result<Name, AllocError>
        ensures { IfOk result (λ n. Some n ≡ option_map (λ p. p.process.service) self.now.span) }
    {
        Name::of_service(self.entry)
    }
}
