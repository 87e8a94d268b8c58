//! Which entries are of a service, by the numbers of services: no span is read.

ghost use Rattle.std.specs.Prelude.{◌≡◌, ◌<◌, ◌≤◌, ◌-◌, ◌^◌, length, get_or};
ghost use Rattle.journal_traces.specs.ReportedSpots.{is_number};

use service_index::ServicePlaces;

/// Returns whether the entry at a place is of the service with this number; no entry is of a service without a number.
pub(crate) fn is_of_service(
    by_service: &ServicePlaces,
    service_number: Option<u32>,
    place: u64,
) -> bool
    requires few { place < 2 ^ 32 }
    requires above { 0 < place }
    requires within { place ≤ length by_service.now.service_numbers }
    ensures { result ≡
        is_number service_number (get_or by_service.now.service_numbers (place - 1) 0) }
{
    match service_number {
        Some(number) => by_service.service_number_at((place - 1) as u32) == number,
        None => false,
    }
}
