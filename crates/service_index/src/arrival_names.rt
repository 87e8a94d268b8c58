//! The names of the arrivals of a list of entries: services and operations, with all memory allocated once.
//!
//! A span is identified by its arrival number, which counts from 0. [`ArrivalNumbers`] leads from a number to
//! the span in its entry, and [`ArrivalNames`] indexes the services and operations of all arrivals by these
//! numbers. Both index a list of entries that grows at its end. Each call gets the list, and a clause of each
//! call relates it to the index (`AreOf`, `AreNamesKept`). Besides the list each call gets its
//! [`ServicePlaces`](crate::service_places::ServicePlaces), in which the service of each entry has a number: an
//! operation is found by that number, so that no text of a service is read for a span. Adding one more entry
//! allocates nothing. The answers are those of the plain store of the list.
//!
//! * `numbers`: which span has which arrival number.
//! * `names`: the services and operations, and for each arrival the row of its operation.

mod names;
mod numbers;

pub use names::ArrivalNames;
pub use numbers::{ArrivalNumbers, Arrivals};
