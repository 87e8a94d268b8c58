//! A server on a socket: many workers read one store and submit their batches to one clerk.
//!
//! [`serve_with`] accepts connections until it has served the requested number. Each worker has a seat at the store's
//! desk and a pass, which the sessions of all its connections use ([`http_session::Session`]). It waits until some
//! connections are readable, and answers one request of each. So each session's answers are the plain store's at points
//! of one growing history, never before the receipt that was vouched for when the session began. An error of a
//! connection ends only that connection. What an operator is told is in `server_notices`.
//!
//! * `config`: the configuration of a server.
//! * `call_observer`: an observer of the calls to the store. `worker_store`: a worker's store.
//! * `worker`: a worker. `threads`: work in threads.
//! * `event_loop`: the loop that waits for a worker's connections and serves them. `source`: what it waits for, by tokens.
//! * `acceptor`: accepts connections.
//! * `shared`: a store with its desk and its clerk, which all workers share.
//! * `ending`: takes in every seat at the end. `output_lines`: the lines of the output.
//! * `serving`: [`serve_with`].
//! * `laws`: laws of a worker's connections.
#![tactic(auto)]

mod acceptor;
mod call_observer;
mod config;
mod ending;
mod event_loop;
pub mod laws;
mod output_lines;
mod serving;
mod shared;
mod source;
mod threads;
mod worker;
mod worker_store;

pub use call_observer::{CallObserver, NoObserver};
pub use config::ServerConfig;
pub use serving::serve_with;
