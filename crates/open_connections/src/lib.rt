//! The connections of one thread. A connection that waits for its client needs no thread of its own.
//!
//! A thread that serves many connections keeps a [`ConnectionSet`] of their sessions and a [`Readiness`] of their
//! sockets. It waits until some connections are ready and reads once from each, so a client that sends slowly occupies
//! no thread. A complete request is answered. What the client doesn't take of the response at once waits in the
//! connection's [`BufferedConnection`], so a client that reads slowly occupies no thread either. It is proved that each
//! session stays underway from the start of its connection while the connection is open, whatever other sessions do
//! ([`ConnectionSet::take_turn`]: `underway`). So its pieces add up to what [`http_session::serve_connection`]
//! promises, from some first state of its store, which no clause names. That the last piece does so too is its clause
//! `turn`.
//!
//! * `nonblocking`: connections whose writes never block.
//! * `waiting_bytes`: counts of the response bytes that wait.
//! * `pending_response`: a response that waits to be written. `buffered`: a connection that keeps its waiting response.
//! * `socket`: a TCP stream as a connection.
//! * `open`: a connection and its session.
//! * `set`: the sessions of all connections.
//! * `readiness`: which sockets are ready, over `mio`.
//! * `laws`: laws of open connections.
#![tactic(auto)]

mod buffered;
pub mod laws;
mod nonblocking;
mod open;
mod pending_response;
mod readiness;
mod set;
mod socket;
mod waiting_bytes;

pub use buffered::BufferedConnection;
pub use nonblocking::TryConnection;
pub use open::{ConnectionEnd, ConnectionProgress, OpenConnection, OpenProgress, TurnTime};
pub use readiness::{Event, MAX_EVENTS, Readiness};
pub use set::{ConnectionSet, ConnectionTurn};
pub use socket::Socket;
pub use waiting_bytes::WaitingBytes;
