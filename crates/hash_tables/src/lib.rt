//! Hash tables with all memory allocated once: rows found by a hash, and trace ids by their rows.
//!
//! The number of a row is at the first place that was free from where its hash points, and more than half of
//! the places are free, so a row is found in a few steps, whatever the rows are. The caller owns the rows and
//! their keys, and passes them as [`Sought`].
//!
//! Before half of the places would be taken, the table grows about fourfold. No single call does the work of a
//! growth, since two tables take turns. Rows are found in the table in use. The calls that mark rows prepare
//! the other one, a step each: at first a step adds a few free places, later it moves a few rows. So the other
//! table leads to all rows before it is needed, and the two are swapped. Both allocate their memory at the
//! start, and touch it only as the rows need it.
//!
//! The contracts promise, for any hash: `find` returns a row that is sought, if there is one, and no other;
//! `mark` allocates nothing and loses no row.
//!
//! An [`IdTable`] is such a table of trace ids: it maps an id to the number of its row. That is the number of
//! ids that were added before it, and no id is ever removed. Ids are found by a hash under a key that is drawn
//! at the program's start, so that a client can't choose ids that are slow to find. No contract shows that.
//!
//! * `places`: the [`RowPlaces`].
//! * `growing`: the number of places, and the table that is prepared for the next growth.
//! * `slots`: walks over the places of a table.
//! * `sought`: the key to find, and the rows that are searched.
//! * `id_table`: the [`IdTable`].
//! * `sought_id`: the id to find, and the ids that are searched.
#![tactic(auto)]

mod growing;
mod id_table;
mod places;
mod slots;
mod sought;
mod sought_id;

pub use id_table::{Entered, IdTable};
pub use places::RowPlaces;
pub use sought::Sought;
