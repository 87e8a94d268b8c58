//! The places of the entries that each service reported, with all memory allocated once.
//!
//! A batch has one process, so each entry belongs to one service (a trace limit to the one with the empty name), and a
//! search by a service reads only the entries of that service. The places index a list of entries that grows at its
//! end. Each call gets the list, and a clause of each call relates it to the index (`ArePlacesKept`). Adding one more
//! entry allocates nothing, at a cost that doesn't depend on the number of entries. Its service is looked up once, and
//! has a number from then on, which represents its text.
//!
//! * `reporters`: the services of entries, as labels.
//! * `along`: the places of one service.
//! * `places`: the [`ServicePlaces`].

mod along;
mod places;
mod reporters;

pub use along::Places;
pub use places::ServicePlaces;
