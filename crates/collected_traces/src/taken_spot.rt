//! Where a span is among the entries that were collected from the journal.

/// Where a span is among the collected entries: the number of its entry and its index there, both counted from 0.
/// It has 8 bytes, since a query holds one for each span of the traces that it considers.
#[derive(Clone, Copy)]
pub struct TakenSpot {
    pub number: u32,
    pub index: u32,
}
