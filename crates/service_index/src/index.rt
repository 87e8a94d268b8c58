ghost use Rattle.std.specs.Prelude.{◌≡◌, ℕ, ◌+◌, ◌<◌, ◌≤◌, List, [], length, Some, IfOk};
ghost use Rattle.std.specs.List.{list_any};
ghost use Rattle.jaeger_model.specs.Texts.{text_cmp, sorted_set};
ghost use Rattle.trace_model.specs.Names.{operation_cmp};
ghost use Rattle.service_index.specs.ListedNames.{services_in};
ghost use Rattle.service_index.specs.Labels.{Names, IsServiceNumberOf, label_value, service_number_alone};
ghost use Rattle.service_index.specs.Labels.{operation_label, operation_labels};
ghost use Rattle.service_index.specs.Probes.{AreNumbersBelow, row_of, with_number};
ghost use Rattle.service_index.specs.OperationRows.{all_kinds, rows_in, rows_of_kinds};
ghost use Rattle.service_index.specs.Indexes.{listing_by, listing_with, service_row, has_service, has_operation, own_operations, operations_at};
ghost use Rattle.service_index.specs.Indexes.{owners, AreFrom, IsChain, IsIndexed, LeadsBack};

use crate::label_table::LabelTable;
use crate::labels::Label;
use crate::links::RowLinks;
use crate::operation_rows::OperationRows;
use crate::texts::{OperationLabels, ServiceNumberLabels, Texts};
use jaeger_model::Kind;
use std::alloc::{AllocError, Global};
use std::hash::RandomState;
use std::marker::Model;

/// An index of the services that the spans of some numbers reported, each with its operations and their kinds, with
/// all memory allocated once.
///
/// The names are in the spans, and each call gets them as [`Texts`]. The names of numbers that were added must not
/// change. An operation is found by the number of its service, its name and its kind, so adding a number reads no
/// text of a service.
#[derive(Drop)]
pub struct ServiceIndex {
    alloc: Global,
    room: u32,
    used: u32,
    /// For each operation of a service, with its kind, the arrival number of a span.
    operations: LabelTable,
    /// For each service the arrival number of a span, found by the service's number.
    services: LabelTable,
    /// The rows of the operations, linked for each service.
    links: RowLinks,
}

impl Model for ServiceIndex {
    ghost use Rattle.std.specs.Prelude.{◌≡◌};
    ghost use Rattle.service_index.specs.Indexes.{Index, IsSized};

    ghost Value = { Index };

    ghost view = { λ i. record {
      operations = i.operations;
      services = i.services;
      newest = i.links.newest;
      earlier = i.links.earlier;
      used = i.used;
      room = i.room;
    } };

    ghost invariant = { λ i. (i.links.room ≡ i.room) × IsSized record {
      operations = i.operations;
      services = i.services;
      newest = i.links.newest;
      earlier = i.links.earlier;
      used = i.used;
      room = i.room;
    } };
}

impl ServiceIndex {
    /// Makes an empty index, with room for `room` numbers. The keys are those of the hash by which names are found.
    ///
    /// # Errors
    ///
    /// Out of memory, and nothing else.
    pub fn with_room(alloc: Global, keys: RandomState, room: u32) -> Result<Self, AllocError>
        ensures empty { IfOk result (λ index. (names : Names) → listing_by names index ≡ []) }
        ensures used { IfOk result (λ index. index.used ≡ 0) }
        ensures room { IfOk result (λ index. index.room ≡ room) }
        ensures indexed { IfOk result (λ index. (names : Names) → IsIndexed names index) }
    {
        let operations = LabelTable::with_room(alloc, keys, room)?;
        let services = LabelTable::with_room(alloc, keys, room)?;
        let links = RowLinks::with_room(alloc, room)?;
        Ok(ServiceIndex {
            alloc,
            room,
            used: 0,
            operations,
            services,
            links,
        })
    }

    /// Returns the number of numbers that were added.
    pub fn used(&self) -> u32
        ensures used { result ≡ self.now.used }
        ensures within { result ≤ self.now.room }
    {
        self.used
    }

    /// Adds a number: what its span reports is listed from now on. Returns the row of its operation, which no later
    /// call changes. Allocates nothing.
    pub fn add_at<T: Texts>(&mut self, n: u32, texts: &T) -> u32
        requires indexed { IsIndexed (T.names texts.now) self.old }
        requires held { n < (T.names texts.now).count }
        requires room { self.old.used < self.old.room }

        ensures listed { listing_by (T.names texts.now) self.new ≡
            listing_with (T.names texts.now) self.old n }
        ensures used { self.new.used ≡ self.old.used + 1 }
        ensures room { self.new.room ≡ self.old.room }
        ensures indexed { IsIndexed (T.names texts.now) self.new }
        ensures operations { self.new.operations.numbers ≡ with_number
            (operation_labels (T.names texts.now)) self.old.operations.numbers n }
        ensures row { result ≡ row_of (operation_labels (T.names texts.now))
            self.new.operations.numbers ((operation_labels (T.names texts.now)).at n) }
    {
        self.used += 1;
        let row = self.operations.add(&OperationLabels { texts }, n);
        if (row as usize) < self.links.rows() {
            return row;
        }
        let service = self.services.add(&ServiceNumberLabels { texts }, n);
        self.links.add_row(service as usize);
        row
    }

    /// Returns whether a span of the service was added.
    pub fn knows_service<T: Texts>(&self, texts: &T, service: &str) -> bool
        requires { IsIndexed (T.names texts.now) self.now }
        ensures { result ≡ has_service service.now (listing_by (T.names texts.now) self.now) }
    {
        (self.service_row(texts, service) as usize) < self.links.services()
    }

    /// Returns whether a span of the service of this number with this operation was added, of any kind.
    pub fn knows_operation<T: Texts>(&self, texts: &T, service_number: u32, operation: &str) -> bool
        requires { IsIndexed (T.names texts.now) self.now }
        ensures { (service : List ℕ) →
            IsServiceNumberOf (T.names texts.now) service (Some service_number) →
            result ≡ list_any (λ kind. has_operation service operation.now kind
            (listing_by (T.names texts.now) self.now)) all_kinds }
    {
        let of_kinds = self.rows_of_operation(texts, service_number, operation);
        of_kinds.has_row_below(self.links.rows())
    }

    /// Returns the row of an operation with this kind of the service of this number, or the number of operations if
    /// no such span was added.
    pub fn row_of_operation<T: Texts>(
        &self,
        texts: &T,
        service_number: u32,
        operation: &str,
        kind: &str,
    ) -> u32
        requires { IsIndexed (T.names texts.now) self.now }
        ensures { result ≡ row_of (operation_labels (T.names texts.now))
            self.now.operations.numbers
            (operation_label service_number operation.now kind.now) }
    {
        let label = Label {
            service_number,
            name: operation,
            kind,
        };
        self.operations.row_of(&OperationLabels { texts }, label)
    }

    /// Returns the rows of an operation of the service of this number, one for each kind.
    pub(crate) fn rows_of_operation<T: Texts>(
        &self,
        texts: &T,
        service_number: u32,
        operation: &str,
    ) -> OperationRows
        requires { IsIndexed (T.names texts.now) self.now }
        ensures { rows_in result ≡ rows_of_kinds (operation_labels (T.names texts.now))
            self.now.operations.numbers service_number operation.now }
    {
        let mut rows = [0; Kind::COUNT];
        for (index, kind) in Kind::ALL.iter().enumerate() {
            rows[index] = self.row_of_operation(texts, service_number, operation, kind.text());
        }
        OperationRows { rows }
    }

    /// Returns the number of one span of each service, in no particular order.
    /// [`sorted_names`](crate::sorted_names) sorts the services.
    pub fn one_arrival_of_each_service(&self) -> &[u32]
        ensures held { (names : Names) → IsIndexed names self.now →
            AreNumbersBelow names.count result.now }
        ensures services { (names : Names) → IsIndexed names self.now →
            sorted_set text_cmp (owners names result.now) ≡
            services_in (listing_by names self.now) }
    {
        self.services.numbers()
    }

    /// Returns the row of a service, or the number of services if it is not known.
    fn service_row<T: Texts>(&self, texts: &T, service: &str) -> u32
        requires { IsIndexed (T.names texts.now) self.now }
        ensures { result ≡ service_row (T.names texts.now) self.now service.now }
    {
        match texts.service_number_of(service) {
            Some(service_number) => self.services.row_of(
                &ServiceNumberLabels { texts },
                service_number_label(service_number),
            ),
            None => self.links.services() as u32,
        }
    }

    /// Returns the number of one span of each operation of a service with its kind, in no particular order.
    /// [`sorted_operations`](crate::sorted_operations) and [`sorted_operation_names`](crate::sorted_operation_names)
    /// sort the operations, or their names.
    ///
    /// # Errors
    ///
    /// Out of memory, and nothing else.
    pub fn one_arrival_of_each_operation<T: Texts>(
        &self,
        texts: &T,
        service: &str,
    ) -> Result<Vec<u32>, AllocError>
        requires { IsIndexed (T.names texts.now) self.now }
        ensures held { IfOk result (λ v. AreNumbersBelow (T.names texts.now).count v.items) }
        ensures operations { IfOk result (λ v.
            sorted_set operation_cmp (operations_at (T.names texts.now) v.items) ≡
            own_operations service.now (listing_by (T.names texts.now) self.now)) }
    {
        let row = self.service_row(texts, service) as usize;
        if row >= self.links.services() {
            return Ok(Vec::new(self.alloc));
        }
        numbers_along(
            self.alloc,
            self.operations.numbers(),
            self.links.earlier_links(),
            self.links.newest_link(row),
        )
    }
}

/// Returns the label of the service itself.
fn service_number_label(service_number: u32) -> Label<'static>
    ensures { label_value result ≡ service_number_alone service_number }
{
    Label {
        service_number,
        name: "",
        kind: "",
    }
}

/// Returns the numbers of a service's operations: that of its newest row, to which a link is given, and those of the
/// earlier rows that it links to.
fn numbers_along(
    alloc: Global,
    numbers: &[u32],
    earlier: &[u32],
    newest: u32,
) -> Result<Vec<u32>, AllocError>
    requires falls { LeadsBack (length numbers.now) earlier.now }
    requires within { newest ≤ length numbers.now }
    ensures held { IfOk result (λ v. (count : ℕ) → AreNumbersBelow count numbers.now →
        AreNumbersBelow count v.items) }
    ensures along { IfOk result (λ v. (names : Names) →
        IsChain (owners names numbers.now) earlier.now →
        AreFrom names numbers.now newest (operations_at names v.items)) }
{
    let mut along = Vec::new(alloc);
    let mut at = newest;
    while at > 0 {
        let row = (at - 1) as usize;
        along.push(numbers[row])?;
        at = earlier[row];
    }
    Ok(along)
}
