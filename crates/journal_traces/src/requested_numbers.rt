//! What a search requests, by numbers.

ghost use Rattle.std.specs.Prelude.{◌≡◌};
ghost use Rattle.service_index.specs.KeptNames.{AreNamesKept};
ghost use Rattle.service_index.specs.ServicePlaces.{ArePlacesKept, service_number_of};
ghost use Rattle.journal_traces.specs.Told.{AreOperationsTold};

use crate::store_view::StoreView;
use service_index::OperationRows;
use trace_model::Find;

/// What a search requests, by numbers: its service and its operation.
#[derive(Clone, Copy)]
pub struct RequestedNumbers {
    /// The number of the service; none if no entry is of it.
    pub service: Option<u32>,
    /// The rows of the operation; none if the search requests no operation.
    pub operation: Option<OperationRows>,
}

/// Looks up the rows of the operation of a search; none if it requests no operation.
fn requested_rows(query: &Find, store: StoreView<'_>) -> Option<OperationRows>
    requires kept { AreNamesKept store.journal.now.held.entries store.names.now }
    requires placed { ArePlacesKept store.journal.now.held.entries store.by_service.now }
    ensures { AreOperationsTold query.now store.entry.journal.now.held.entries
        store.entry.names.now.numbers.firsts store.entry.names.now.operation_rows result }
{
    let operation = query.operation.as_str();
    if operation == "" {
        return None;
    }
    let service = query.service.as_str();
    let entries = store.journal.entries();
    let rows = store
        .names
        .rows_of_operation(entries, store.by_service, service, operation);
    Some(rows)
}

impl RequestedNumbers {
    /// Looks up the service and the operation of a search. From then on numbers tell which spans have them.
    pub fn of(query: &Find, store: StoreView<'_>) -> Self
        requires kept { AreNamesKept store.journal.now.held.entries store.names.now }
        requires placed { ArePlacesKept store.journal.now.held.entries store.by_service.now }
        ensures service { result.service ≡
            service_number_of store.entry.journal.now.held.entries query.now.service }
        ensures operation { AreOperationsTold query.now store.entry.journal.now.held.entries
            store.entry.names.now.numbers.firsts store.entry.names.now.operation_rows
            result.operation }
    {
        let entries = store.journal.entries();
        let service = query.service.as_str();
        RequestedNumbers {
            service: store.by_service.service_number_of(entries, service),
            operation: requested_rows(query, store),
        }
    }
}
