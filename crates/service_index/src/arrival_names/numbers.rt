ghost use Rattle.std.specs.Prelude.{◌≡◌, ◌<◌, ◌≤◌, ◌+◌, ◌++◌, [], ◌∷◌, map, length, get_or, IfOk, vec_capacity};
ghost use Rattle.std.specs.Arc.{arc_value};
ghost use Rattle.jaeger_model.specs.declared.placed.Placed.{Placed};
ghost use Rattle.trace_model.specs.declared.entry.Entry.{Entry as EntryValue};
ghost use Rattle.trace_model.specs.Histories.{arrivals, before_last};
ghost use Rattle.trace_model.specs.BorrowedSpans.{seen};
ghost use Rattle.jaeger_model.specs.Tags.{kind_of};
ghost use Rattle.service_index.specs.ServicePlaces.{ArePlacesKept};
ghost use Rattle.service_index.specs.ArrivalNumbers.{AreOf, IsAt};
ghost use Rattle.jaeger_model.specs.Kinds.{kind_text};
ghost use Rattle.arrival_journal.specs.KindTexts.{first_kinds, kinds_in};
ghost use Rattle.service_index.specs.KeptNames.{AreKinds, reported_at};

use crate::service_places::ServicePlaces;
use crate::texts::Texts;
use arrival_journal::SpanKinds;
use jaeger_model::{Kind, Span, Text};
use std::alloc::{AllocError, Global};
use std::marker::Model;
use std::sync::Arc;
use trace_model::{Entry, Name, Operation};

/// Which span has which arrival number.
#[derive(Drop)]
pub struct ArrivalNumbers {
    batches: u32,
    spans: u32,
    /// For each arrival the number of entries before its own.
    entry_of: Vec<u32>,
    /// For each entry the number of its first span.
    firsts: Vec<u32>,
    /// For each arrival its kind.
    kinds: Vec<Kind>,
}

impl Model for ArrivalNumbers {
    ghost use Rattle.std.specs.Prelude.{vec_capacity, length, ◌≤◌, ◌<◌, ◌^◌};
    ghost use Rattle.service_index.specs.ArrivalNumbers.{Numbered};

    ghost Value = { Numbered };

    ghost view = { λ a. record { entry_of = a.entry_of.items; firsts = a.firsts.items; kinds = a.kinds.items; batches = a.batches; spans = a.spans } };

    ghost invariant = { λ a. (a.batches ≤ vec_capacity a.firsts)
        × (a.spans ≤ vec_capacity a.entry_of) × (length a.entry_of.items ≤ a.spans)
        × (a.spans < 2 ^ 32) × (a.spans ≤ vec_capacity a.kinds) };
}

/// The arrivals of a list of entries, by their numbers.
#[derive(Drop)]
pub struct Arrivals<'a> {
    entries: &'a [Arc<Entry>],
    by_service: &'a ServicePlaces,
    entry_of: &'a [u32],
    firsts: &'a [u32],
    kinds: &'a [Kind],
}

impl<'a> Model for Arrivals<'a> {
    ghost use Rattle.std.specs.Prelude.{List, map};
    ghost use Rattle.std.specs.Arc.{arc_value};
    ghost use Rattle.trace_model.specs.declared.entry.Entry.{Entry as EntryValue};
    ghost use Rattle.service_index.specs.ServicePlaces.{ArePlacesKept};
    ghost use Rattle.service_index.specs.ArrivalNumbers.{AreOf};
    ghost use Rattle.service_index.specs.KeptNames.{AreKinds};

    ghost Value = { List EntryValue };

    ghost view = { λ a. map arc_value a.entries.now };

    ghost invariant = { λ a. AreOf (map arc_value a.entries.now) a.entry_of.now a.firsts.now
        × AreKinds (map arc_value a.entries.now) a.kinds.now
        × ArePlacesKept (map arc_value a.entries.now) a.by_service.now };
}

impl<'a> Texts for Arrivals<'a> {
    ghost use Rattle.service_index.specs.KeptNames.{names_of_arrivals};
    ghost use Rattle.service_index.specs.ArrivalServiceLaws.{names_numbered};

    ghost names = { names_of_arrivals };

    fn name_at(&self, n: u32) -> (&str, &str, &str) {
        let entry_index = self.entry_of[n as usize];
        let work = &self.entries[entry_index as usize].work;
        let index = n - self.firsts[entry_index as usize];
        let kind = self.kinds[n as usize];
        (work.service(), work.operation(index), kind.text())
    }

    fn service_number_at(&self, n: u32) -> u32 {
        self.by_service.service_number_at(self.entry_of[n as usize])
    }

    fn service_number_of(&self, service: &str) -> Option<u32> {
        self.by_service.service_number_of(self.entries, service)
    }

    ghost services_numbered = { names_numbered };
}

impl<'a> Arrivals<'a> {
    /// Returns the service of the arrival with this number. The name refers to its entry.
    ///
    /// # Errors
    ///
    /// Out of memory, and nothing else.
    pub(crate) fn service_at(&self, n: u32) -> Result<Name, AllocError>
        requires { n < length (arrivals self.now) }
        ensures { IfOk result (λ s. s ≡ (reported_at self.now n).service) }
    {
        let entry_index = self.entry_of[n as usize];
        Name::of_service(&self.entries[entry_index as usize])
    }

    /// Returns the operation of the arrival with this number. The name refers to its entry.
    ///
    /// # Errors
    ///
    /// Out of memory, and nothing else.
    pub(crate) fn operation_at(&self, alloc: Global, n: u32) -> Result<Operation, AllocError>
        requires { n < length (arrivals self.now) }
        ensures { IfOk result (λ o. o ≡ (reported_at self.now n).operation) }
    {
        let entry_index = self.entry_of[n as usize];
        let first = self.firsts[entry_index as usize];
        let kind = self.kinds[n as usize];
        let name = Name::of_operation(&self.entries[entry_index as usize], n - first)?;
        let kind = Text::from_str(alloc, kind.text())?;
        Ok(Operation { name, kind })
    }
}

impl ArrivalNumbers {
    /// Makes the numbers of no entry, with room for this number of entries and spans.
    ///
    /// # Errors
    ///
    /// Out of memory, and nothing else.
    pub fn with_room(alloc: Global, batches: u32, spans: u32) -> Result<Self, AllocError>
        ensures numbers { IfOk result (λ numbers. AreOf [] numbers.entry_of numbers.firsts) }
        ensures kinds { IfOk result (λ numbers. numbers.kinds ≡ []) }
        ensures batches { IfOk result (λ numbers. numbers.batches ≡ batches) }
        ensures spans { IfOk result (λ numbers. numbers.spans ≡ spans) }
    {
        let entry_of = Vec::with_capacity(alloc, spans as usize)?;
        let firsts = Vec::with_capacity(alloc, batches as usize)?;
        let kinds = Vec::with_capacity(alloc, spans as usize)?;
        Ok(ArrivalNumbers {
            batches,
            spans,
            entry_of,
            firsts,
            kinds,
        })
    }

    /// Returns the number of spans that have numbers.
    pub fn len(&self) -> u32
        ensures numbers { result ≡ length self.now.entry_of }
        ensures within { result ≤ self.now.spans }
    {
        self.entry_of.len() as u32
    }

    /// Returns for each entry the number of its first span.
    pub fn firsts(&self) -> &[u32]
        ensures { result.now ≡ self.now.firsts }
    {
        &self.firsts
    }

    /// Numbers the spans of the last entry. `span_kinds` has the kinds of its first spans. Allocates nothing.
    pub fn add(&mut self, entries: &[Arc<Entry>], span_kinds: &SpanKinds)
        requires some { 0 < length entries.now }
        requires numbers { AreOf (before_last (map arc_value entries.now)) self.old.entry_of
            self.old.firsts }
        requires kinds { AreKinds (before_last (map arc_value entries.now)) self.old.kinds }
        requires batches { length entries.now ≤ self.old.batches }
        requires spans { length (arrivals (map arc_value entries.now)) ≤ self.old.spans }
        requires first { (e : EntryValue) →
            map arc_value entries.now ≡ before_last (map arc_value entries.now) ++ e ∷ [] →
            span_kinds.now ≡ kinds_in e }
        ensures numbers { AreOf (map arc_value entries.now) self.new.entry_of self.new.firsts }
        ensures kinds { AreKinds (map arc_value entries.now) self.new.kinds }
        ensures batches { self.new.batches ≡ self.old.batches }
        ensures spans { self.new.spans ≡ self.old.spans }
    {
        let entry_index = entries.len() - 1;
        self.firsts.push_reserved(self.entry_of.len() as u32);
        for _span in entries[entry_index].work.spans() {
            self.entry_of.push_reserved(entry_index as u32);
        }
        add_kinds(
            &mut self.kinds,
            span_kinds,
            entries[entry_index].work.spans(),
        );
    }

    /// Returns the arrivals of these entries by their numbers, with the numbers of their services.
    pub fn arrivals<'a>(
        &'a self,
        entries: &'a [Arc<Entry>],
        by_service: &'a ServicePlaces,
    ) -> Arrivals<'a>
        requires numbers { AreOf (map arc_value entries.now) self.now.entry_of self.now.firsts }
        requires kinds { AreKinds (map arc_value entries.now) self.now.kinds }
        requires placed { ArePlacesKept (map arc_value entries.now) by_service.now }
        ensures { result ≡ map arc_value entries.now }
    {
        Arrivals {
            entries,
            by_service,
            entry_of: &self.entry_of,
            firsts: &self.firsts,
            kinds: &self.kinds,
        }
    }
}

/// Appends kinds that are known.
fn add_known(kinds: &mut Vec<Kind>, known: &[Kind])
    requires { length kinds.old.items + length known.now ≤ vec_capacity kinds.old }
    ensures kinds { kinds.new.items ≡ kinds.old.items ++ known.now }
    ensures capacity { vec_capacity kinds.new ≡ vec_capacity kinds.old }
{
    for kind in known {
        kinds.push_reserved(*kind);
    }
}

/// Finds the kinds of the spans, and appends them.
fn find_kinds(kinds: &mut Vec<Kind>, spans: &[Span])
    requires { length kinds.old.items + length spans.now ≤ vec_capacity kinds.old }
    ensures kinds { map kind_text kinds.new.items ≡
        map kind_text kinds.old.items ++ map kind_of spans.now }
    ensures capacity { vec_capacity kinds.new ≡ vec_capacity kinds.old }
{
    for span in spans {
        kinds.push_reserved(Kind::of(span));
    }
}

/// Appends the kinds of the spans. Those of the first spans are known, so no tag of these is read.
fn add_kinds(kinds: &mut Vec<Kind>, span_kinds: &SpanKinds, spans: &[Span])
    requires room { length kinds.old.items + length spans.now ≤ vec_capacity kinds.old }
    requires first { span_kinds.now ≡ first_kinds spans.now }
    ensures kinds { map kind_text kinds.new.items ≡
        map kind_text kinds.old.items ++ map kind_of spans.now }
    ensures capacity { vec_capacity kinds.new ≡ vec_capacity kinds.old }
{
    let known = span_kinds.as_slice();
    add_known(kinds, known);
    find_kinds(kinds, &spans[known.len()..]);
}
