//! The tests, by their subject, and what they share.

mod clients;
mod devices;
mod first_waits;
mod lines;
mod machine;
mod over_live;
mod requests;
mod runs;
mod server;
mod serving;
mod sockets;
mod turns;
