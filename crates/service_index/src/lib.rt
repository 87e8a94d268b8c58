//! The index of services and operations: what was ever reported.
//!
//! Contracts see a [`ServiceIndex`] as the numbers of spans that were added. What it lists is the set of what
//! these spans reported, each service with an operation and its kind, in order. Each answer equals that of a
//! filter over this set, and `laws` says that it is the plain store's answer if the set is that of all
//! arrivals.
//!
//! The index allocates once. It holds only numbers of spans, and reads their names from the spans ([`Texts`]).
//! There each service has a number: an operation is found by its service's number, its name and its kind, so
//! that no text of a service is hashed or compared when a number is added. Adding a number allocates nothing.
//! Its label is first compared with one that was found recently. If that differs, the label is hashed under
//! keys drawn at the start, and looked up in the few places to which the hash leads, in a table that is at most
//! half full. Before half of the places are taken, the labels are moved to about four times as many, a few with
//! each new label, in memory that was allocated at the start. No contract speaks of these costs. A clause of each
//! call (`IsIndexed`) says that the index leads to its numbers by the names. Every call keeps it, and it stays true
//! when more spans arrive (`laws::more_names`).
//!
//! * `index`: the [`ServiceIndex`].
//! * `texts`: access to the names.
//! * `labels`: the keys of a table.
//! * `label_table`: numbers by labels: the [`LabelTable`].
//! * `guesses`: the rows in which labels were last found.
//! * `sought_label`: the label to find, and the rows that are searched.
//! * `links`: the rows of each service, from the newest on: the [`RowLinks`].
//! * `operation_rows`: the rows of an operation of a service, one for each kind: the [`OperationRows`].
//! * `operation_sets`: services and operations, sorted and without duplicates.
//! * `service_places`: the places of the entries of each service, and a number for each service: the
//!   [`ServicePlaces`].
//! * `arrival_names`: the services and operations of the arrivals, by arrival numbers: the [`ArrivalNames`].
//! * `laws`: facts about the definitions of `specs/`.
#![tactic(auto)]

pub mod arrival_names;
mod guesses;
mod index;
mod label_table;
mod labels;
pub mod laws;
mod links;
mod operation_rows;
mod operation_sets;
pub mod service_places;
mod sought_label;
mod texts;

pub use arrival_names::{ArrivalNames, ArrivalNumbers};
pub use index::ServiceIndex;
pub use label_table::LabelTable;
pub use labels::{Label, Labels};
pub use links::RowLinks;
pub use operation_rows::OperationRows;
pub use operation_sets::{sorted_names, sorted_operation_names, sorted_operations};
pub use service_places::{Places, ServicePlaces};
pub use texts::Texts;
