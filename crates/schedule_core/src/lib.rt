//! The stepped machine: a store with jobs that wait, publishes and readers, moved one step at a time.
//!
//! Its steps are those of running threads, each made at once and reported by its outcome: a seat submits a job,
//! the clerk takes one, the keeper publishes, a reader enters, reads, learns and leaves. [`World`] keeps two
//! copies of the store, as the threads do, and is proved to answer as a machine that has none.
//!
//! * `step`: the steps of the machine.
//! * `outcome`: the outcomes of steps.
//! * `seats`: jobs that wait, and the numbers of the seats.
//! * `readers`: the states of the readers.
//! * `copies`: the accepted entries, and two copies of a store that hold prefixes of them.
//! * `machine_state`: the machine over them.
//! * `world`: the machine, as far as memory allows.
//! * `script`: a list of steps.
//! * `laws`: facts about runs of the machine.
#![tactic(auto)]

mod copies;
pub mod laws;
mod machine_state;
mod outcome;
mod readers;
mod script;
mod seats;
mod step;
mod world;

pub use outcome::Outcome;
pub use script::play;
pub use step::Step;
pub use world::World;
