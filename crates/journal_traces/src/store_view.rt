//! What queries read of a store.

use arrival_journal::Journal;
use service_index::{ArrivalNames, ServicePlaces};
use trace_assembly::Assembly;
use trace_ring::FirstStarts;

/// The parts of a store that queries read.
#[derive(Clone, Copy)]
pub struct StoreView<'a> {
    pub journal: &'a Journal,
    /// The traces of the ring, with the spots of their spans.
    pub assembly: &'a Assembly,
    /// The start of the first span of each of these traces, and the ranges of the starts of all their spans.
    pub starts: &'a FirstStarts,
    /// The numbers of the services of the journal's entries.
    pub by_service: &'a ServicePlaces,
    /// The numbers of the spans of these entries, and the rows of their operations.
    pub names: &'a ArrivalNames,
}
