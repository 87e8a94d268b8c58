//! The traces with a span of a service, by the numbers of the services of entries: no span is read.

ghost use Rattle.std.specs.Prelude.{◌≡◌, ◌<◌, ◌^◌, IfOk, map, filter, length};
ghost use Rattle.std.specs.List.{list_any};
ghost use Rattle.trace_assembly.specs.AssembledRows.{spots_of};
ghost use Rattle.service_index.specs.ServicePlaces.{AreServiceNumbers};
ghost use Rattle.journal_traces.specs.ReportedSpots.{is_reported, are_reported};

use crate::entry_services::is_of_service;
use arrival_journal::Journal;
use service_index::ServicePlaces;
use std::alloc::{AllocError, Global};
use trace_assembly::{Assembly, Spot, Spots};

/// Returns whether there is an entry at a spot's place, and its service has this number.
fn is_reported(
    journal: &Journal,
    by_service: &ServicePlaces,
    service_number: u32,
    spot: Spot,
) -> bool
    requires few { length journal.now.held.entries < 2 ^ 32 }
    requires numbers { AreServiceNumbers journal.now.held.entries by_service.now.service_numbers }
    ensures { result ≡ is_reported journal.now.held.entries by_service.now.service_numbers
        service_number spot }
{
    journal.entry(spot.place).is_some()
        && is_of_service(by_service, Some(service_number), spot.place)
}

/// Returns whether the entry of one of the spots is of the service with this number.
fn are_reported(
    journal: &Journal,
    by_service: &ServicePlaces,
    service_number: u32,
    spots: Spots<'_>,
) -> bool
    requires few { length journal.now.held.entries < 2 ^ 32 }
    requires numbers { AreServiceNumbers journal.now.held.entries by_service.now.service_numbers }
    ensures { result ≡ are_reported journal.now.held.entries by_service.now.service_numbers
        service_number spots.entry }
{
    for spot in spots {
        if is_reported(journal, by_service, service_number, spot) {
            return true;
        }
    }
    false
}

/// Returns the spots of each trace of the ring of which an entry of the service with this number brought a span,
/// those of the one opened first at the front. For each trace of the ring, reads its spots up to the first that the
/// service brought, and no span. The list has room for all traces of the ring: it is for services that most of them have.
///
/// # Errors
///
/// Out of memory, and nothing else.
pub fn spots_reported<'a>(
    alloc: Global,
    assembly: &'a Assembly,
    journal: &Journal,
    by_service: &ServicePlaces,
    service_number: u32,
) -> Result<Vec<Spots<'a>>, AllocError>
    requires few { length journal.now.held.entries < 2 ^ 32 }
    requires numbers { AreServiceNumbers journal.now.held.entries by_service.now.service_numbers }
    ensures { IfOk result (λ v. v.items ≡ map (spots_of assembly.now)
        (filter (λ t. are_reported journal.now.held.entries by_service.now.service_numbers
        service_number (spots_of assembly.now t)) assembly.now.newest.ids)) }
{
    let traces = assembly.ring().len();
    let mut found = Vec::with_capacity(alloc, traces)?;
    for index in 0..traces {
        let spots = assembly.spots_at(index);
        if are_reported(journal, by_service, service_number, spots.duplicate()) {
            found.push(spots)?;
        }
    }
    Ok(found)
}
