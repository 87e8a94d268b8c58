//! What a server does with its connections beside their sessions: how many may be open and accepted, and what is left of
//! one after its session. It has no contracts. `checks/sockets.py` tests most of it over real sockets; docs/ASSURANCE.md
//! says what nothing shows.
//!
//! * `loads`: the number of open connections, of each worker and in all.
//! * `connection_quota`: how many may still be accepted, of those that the server is asked to serve.
//! * `connection`: sockets before and after their sessions.
//! * `lingering`: connections after their last response.
//! * `patient_clock`: a clock that hardly counts the time in which a worker serves.
#![tactic(auto)]

mod connection;
mod connection_quota;
mod lingering;
mod loads;
mod patient_clock;

pub use connection::{idle_limit, prepare};
pub use connection_quota::ConnectionQuota;
pub use lingering::{Awaits, Lingering};
pub use loads::Loads;
pub use patient_clock::PatientClock;
