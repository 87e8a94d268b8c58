//! What an operator asks of the server: its options.
//!
//! * `host`: the addresses that it may listen on.
//! * `options`: the options, within their ranges.
#![tactic(auto)]

mod host;
mod options;

pub use host::Host;
pub use options::{
    MAX_CONNECTIONS, MAX_QUEUE, MAX_SECONDS, MAX_WORKERS, RequestedOptions, ServeOptions,
};
