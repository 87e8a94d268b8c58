//! The configuration of a server.

use serve_options::ServeOptions;
use std::hash::RandomState;

/// The configuration of a server.
#[derive(Clone, Copy, Debug)]
pub struct ServerConfig {
    /// Its options. The port is that of the socket that it gets, which listens on the host.
    pub options: ServeOptions,
    /// The keys of the hash function of its store.
    pub keys: RandomState,
}
