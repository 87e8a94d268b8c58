//! What a worker waits for, and the tokens by which the system names it.

/// The token of the listener.
const LISTENER: usize = usize::MAX;

/// What the system reports as ready.
#[derive(Clone, Copy, Debug, PartialEq, Eq)]
pub(crate) enum Source {
    /// The listener: a connection may be waiting.
    Listener,
    /// An open connection, by its key.
    Open(usize),
    /// A connection whose session has ended, by its key.
    Lingering(usize),
}

impl Source {
    /// Returns the token.
    pub(crate) fn token(self) -> usize {
        match self {
            Source::Listener => LISTENER,
            Source::Open(key) => key << 1,
            Source::Lingering(key) => (key << 1) | 1,
        }
    }

    /// Returns what has the token.
    pub(crate) fn of(token: usize) -> Source {
        match token {
            LISTENER => Source::Listener,
            _ if token & 1 == 1 => Source::Lingering(token >> 1),
            _ => Source::Open(token >> 1),
        }
    }
}
