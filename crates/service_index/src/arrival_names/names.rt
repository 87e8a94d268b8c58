ghost use Rattle.std.specs.Prelude.{◌≡◌, ◌+◌, ◌<◌, ◌≤◌, [], ◌∷◌, ◌++◌, map, length, take, IfOk, vec_capacity};
ghost use Rattle.std.specs.Arc.{arc_value};
ghost use Rattle.jaeger_model.specs.Texts.{text_cmp, sorted_set};
ghost use Rattle.trace_model.specs.declared.entry.Entry.{Entry as EntryValue};
ghost use Rattle.trace_model.specs.Histories.{arrivals, before_last};
ghost use Rattle.trace_model.specs.Names.{services};
ghost use Rattle.service_index.specs.ListedNames.{listed_cmp};
ghost use Rattle.service_index.specs.Indexes.{listing_by, owners, operations_at, IsIndexed};
ghost use Rattle.service_index.specs.Probes.{AreNumbersBelow};
ghost use Rattle.service_index.specs.ServicePlaces.{ArePlacesKept};
ghost use Rattle.service_index.specs.OperationRows.{AreOperationRows, rows_in};
ghost use Rattle.arrival_journal.specs.KindTexts.{kinds_in};
ghost use Rattle.service_index.specs.KeptNames.{AreNamesKept, names_of_arrivals, reports, reports_service, reports_operation, AreOperations};
ghost use Rattle.service_index.specs.KeptNames.{TellOperation};

use crate::arrival_names::numbers::{ArrivalNumbers, Arrivals};
use crate::index::ServiceIndex;
use crate::operation_rows::OperationRows;
use crate::service_places::ServicePlaces;
use crate::texts::Texts;
use arrival_journal::SpanKinds;
use jaeger_model::Text;
use std::alloc::{AllocError, Global};
use std::hash::RandomState;
use std::marker::Model;
use std::sync::Arc;
use trace_model::{Entry, Name, Operation};

/// The services and operations of the arrivals of a list of entries that grows at its end.
#[derive(Drop)]
pub struct ArrivalNames {
    numbers: ArrivalNumbers,
    index: ServiceIndex,
    /// For each arrival the row of its operation.
    operation_rows: Vec<u32>,
}

impl Model for ArrivalNames {
    ghost use Rattle.std.specs.Prelude.{vec_capacity, ◌≤◌};
    ghost use Rattle.service_index.specs.KeptNames.{KeptNames};

    ghost Value = { KeptNames };

    ghost view = { λ n. record { numbers = n.numbers; index = n.index; operation_rows = n.operation_rows.items } };

    ghost invariant = { λ n. n.numbers.spans ≤ vec_capacity n.operation_rows };
}

impl ArrivalNames {
    /// Makes an index of no entry, with room for this number of entries and spans. The keys are those of the hash
    /// by which names are found.
    ///
    /// # Errors
    ///
    /// Out of memory, and nothing else.
    pub fn with_room(
        alloc: Global,
        keys: RandomState,
        batches: u32,
        spans: u32,
    ) -> Result<Self, AllocError>
        ensures kept { IfOk result (λ names. AreNamesKept [] names) }
        ensures batches { IfOk result (λ names. names.numbers.batches ≡ batches) }
        ensures numbers { IfOk result (λ names. names.numbers.spans ≡ spans) }
        ensures index { IfOk result (λ names. names.index.room ≡ spans) }
    {
        let numbers = ArrivalNumbers::with_room(alloc, batches, spans)?;
        let index = ServiceIndex::with_room(alloc, keys, spans)?;
        let operation_rows = Vec::with_capacity(alloc, spans as usize)?;
        Ok(ArrivalNames {
            numbers,
            index,
            operation_rows,
        })
    }

    /// Adds the last entry of the list, which is one entry longer. `span_kinds` has the kinds of its first
    /// spans. Allocates nothing.
    pub fn add(
        &mut self,
        entries: &[Arc<Entry>],
        by_service: &ServicePlaces,
        span_kinds: &SpanKinds,
    )
        requires some { 0 < length entries.now }
        requires kept { AreNamesKept (before_last (map arc_value entries.now)) self.old }
        requires placed { ArePlacesKept (map arc_value entries.now) by_service.now }
        requires batches { length entries.now ≤ self.old.numbers.batches }
        requires numbers { length (arrivals (map arc_value entries.now)) ≤ self.old.numbers.spans }
        requires index { length (arrivals (map arc_value entries.now)) ≤ self.old.index.room }
        requires first { (e : EntryValue) →
            map arc_value entries.now ≡ before_last (map arc_value entries.now) ++ e ∷ [] →
            span_kinds.now ≡ kinds_in e }

        ensures kept { AreNamesKept (map arc_value entries.now) self.new }
        ensures batches { self.new.numbers.batches ≡ self.old.numbers.batches }
        ensures numbers { self.new.numbers.spans ≡ self.old.numbers.spans }
        ensures index { self.new.index.room ≡ self.old.index.room }
    {
        let begin = self.index.used();
        self.numbers.add(entries, span_kinds);
        let arrivals = self.numbers.arrivals(entries, by_service);
        add_arrivals(
            &mut self.index,
            &mut self.operation_rows,
            &arrivals,
            begin,
            self.numbers.len(),
        );
    }

    /// Returns for each entry the number of arrivals before its first span.
    pub fn firsts(&self) -> &[u32]
        ensures { result.now ≡ self.now.numbers.firsts }
    {
        self.numbers.firsts()
    }

    /// Returns for each arrival the row of its operation: a number for the operation of a service with its kind.
    pub fn operation_rows(&self) -> &[u32]
        ensures { result.now ≡ self.now.operation_rows }
    {
        &self.operation_rows
    }

    /// Returns the rows of an operation of a service, one for each kind. An arrival of the service has the operation
    /// exactly if its row is among these.
    pub fn rows_of_operation(
        &self,
        entries: &[Arc<Entry>],
        by_service: &ServicePlaces,
        service: &str,
        operation: &str,
    ) -> OperationRows
        requires kept { AreNamesKept (map arc_value entries.now) self.now }
        requires placed { ArePlacesKept (map arc_value entries.now) by_service.now }
        ensures { TellOperation (map arc_value entries.now) self.now.operation_rows
            service.now operation.now (rows_in result) }
    {
        let arrivals = self.numbers.arrivals(entries, by_service);
        // If no arrival is of the service, any rows will do: the clause speaks of arrivals of the service.
        let service_number = arrivals.service_number_of(service).unwrap_or(0);
        self.index
            .rows_of_operation(&arrivals, service_number, operation)
    }

    /// Returns the services of all arrivals, in no particular order. The names refer to their entries.
    ///
    /// # Errors
    ///
    /// Out of memory, and nothing else.
    pub fn known_services(
        &self,
        alloc: Global,
        entries: &[Arc<Entry>],
        by_service: &ServicePlaces,
    ) -> Result<Vec<Name>, AllocError>
        requires kept { AreNamesKept (map arc_value entries.now) self.now }
        requires placed { ArePlacesKept (map arc_value entries.now) by_service.now }
        ensures { IfOk result (λ v. sorted_set text_cmp v.items ≡
            services (arrivals (map arc_value entries.now))) }
    {
        let arrivals = self.numbers.arrivals(entries, by_service);
        services_of(alloc, &arrivals, self.index.one_arrival_of_each_service())
    }

    /// Returns the operations of a service with their kinds, in no particular order. The names refer to their
    /// entries.
    ///
    /// # Errors
    ///
    /// Out of memory, and nothing else.
    pub fn known_operations(
        &self,
        alloc: Global,
        entries: &[Arc<Entry>],
        by_service: &ServicePlaces,
        service: &Text,
    ) -> Result<Vec<Operation>, AllocError>
        requires kept { AreNamesKept (map arc_value entries.now) self.now }
        requires placed { ArePlacesKept (map arc_value entries.now) by_service.now }
        ensures { IfOk result (λ v. AreOperations service.now
            (arrivals (map arc_value entries.now)) v.items) }
    {
        let arrivals = self.numbers.arrivals(entries, by_service);
        let numbers = self
            .index
            .one_arrival_of_each_operation(&arrivals, service.as_str())?;
        operations_of(alloc, &arrivals, &numbers)
    }

    /// Returns whether an arrival is of the service.
    pub fn knows_service(
        &self,
        entries: &[Arc<Entry>],
        by_service: &ServicePlaces,
        service: &str,
    ) -> bool
        requires kept { AreNamesKept (map arc_value entries.now) self.now }
        requires placed { ArePlacesKept (map arc_value entries.now) by_service.now }
        ensures { result ≡ reports_service service.now (arrivals (map arc_value entries.now)) }
    {
        self.index
            .knows_service(&self.numbers.arrivals(entries, by_service), service)
    }

    /// Returns whether an arrival is of the service and of this operation, of any kind.
    pub fn knows_operation(
        &self,
        entries: &[Arc<Entry>],
        by_service: &ServicePlaces,
        service: &str,
        operation: &str,
    ) -> bool
        requires kept { AreNamesKept (map arc_value entries.now) self.now }
        requires placed { ArePlacesKept (map arc_value entries.now) by_service.now }
        ensures { result ≡ reports_operation service.now operation.now
            (arrivals (map arc_value entries.now)) }
    {
        let arrivals = self.numbers.arrivals(entries, by_service);
        let Some(service_number) = arrivals.service_number_of(service) else {
            return false;
        };
        self.index
            .knows_operation(&arrivals, service_number, operation)
    }
}

/// Returns the services of the arrivals with these numbers.
fn services_of(
    alloc: Global,
    arrivals: &Arrivals<'_>,
    numbers: &[u32],
) -> Result<Vec<Name>, AllocError>
    requires { AreNumbersBelow (names_of_arrivals arrivals.now).count numbers.now }
    ensures { IfOk result (λ v. v.items ≡ owners (names_of_arrivals arrivals.now) numbers.now) }
{
    let mut services = Vec::with_capacity(alloc, numbers.len())?;
    for n in numbers {
        services.push(arrivals.service_at(*n)?)?;
    }
    Ok(services)
}

/// Returns the operations of the arrivals with these numbers.
fn operations_of(
    alloc: Global,
    arrivals: &Arrivals<'_>,
    numbers: &[u32],
) -> Result<Vec<Operation>, AllocError>
    requires { AreNumbersBelow (names_of_arrivals arrivals.now).count numbers.now }
    ensures { IfOk result (λ v. v.items ≡
        operations_at (names_of_arrivals arrivals.now) numbers.now) }
{
    let mut operations = Vec::with_capacity(alloc, numbers.len())?;
    for n in numbers {
        operations.push(arrivals.operation_at(alloc, *n)?)?;
    }
    Ok(operations)
}

/// Adds the arrivals from `first` up to `end`, which is excluded, and the rows of their operations.
fn add_arrivals(
    index: &mut ServiceIndex,
    rows: &mut Vec<u32>,
    arrivals: &Arrivals<'_>,
    first: u32,
    end: u32,
)
    requires indexed { IsIndexed (names_of_arrivals arrivals.now) index.old }
    requires listed { listing_by (names_of_arrivals arrivals.now) index.old ≡
        sorted_set listed_cmp (take first (reports arrivals.now)) }
    requires used { index.old.used ≡ first }
    requires rises { first ≤ end }
    requires within { end ≤ length (reports arrivals.now) }
    requires room { end ≤ index.old.room }
    requires rows { AreOperationRows (names_of_arrivals arrivals.now)
        index.old.operations.numbers rows.old.items }
    requires all_rows { length rows.old.items ≡ first }
    requires rows_room { end ≤ vec_capacity rows.old }
    ensures indexed { IsIndexed (names_of_arrivals arrivals.now) index.new }
    ensures listed { listing_by (names_of_arrivals arrivals.now) index.new ≡
        sorted_set listed_cmp (take end (reports arrivals.now)) }
    ensures used { index.new.used ≡ end }
    ensures room { index.new.room ≡ index.old.room }
    ensures rows { AreOperationRows (names_of_arrivals arrivals.now)
        index.new.operations.numbers rows.new.items }
    ensures all_rows { length rows.new.items ≡ end }
    ensures rows_room { vec_capacity rows.new ≡ vec_capacity rows.old }
{
    for n in first..end {
        let row = index.add_at(n, arrivals);
        rows.push_reserved(row);
    }
}
