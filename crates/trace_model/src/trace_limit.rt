//! A trace limit.
ghost use Rattle.std.specs.Prelude.{◌≡◌, ◌<◌, ◌≤◌, IfSome, MatchOption};

use std::marker::Model;

/// How many of the newest traces are shown, at most [`MAX`](Self::MAX); 0 shows all. Contracts see the number.
#[derive(Clone, Copy, Debug, PartialEq, Eq)]
pub struct TraceLimit {
    traces: u32,
}

impl Model for TraceLimit {
    ghost use Rattle.std.specs.Prelude.{ℕ, ◌≤◌};

    ghost Value = { ℕ };

    ghost view = { λ l. l.traces };

    ghost invariant = { λ l. l.traces ≤ 1000000 };

    ghost inverse = { λ n. record { traces = n } };
}

impl TraceLimit {
    /// The greatest limit. Clauses write it out on purpose: if it changes by itself, they are refused.
    pub const MAX: u32 = 1_000_000;

    /// Returns this limit, or `None` if it is out of range.
    pub fn new(limit: u32) -> Option<TraceLimit>
        ensures within { MatchOption result (1000000 < limit) (λ _. limit ≤ 1000000) }
        ensures same { IfSome result (λ l. l ≡ limit) }
    {
        if limit > Self::MAX {
            return None;
        }
        Some(TraceLimit { traces: limit })
    }

    /// Returns the number of traces.
    pub fn get(self) -> u32
        ensures same { result ≡ self }
        ensures within { result ≤ 1000000 }
    {
        self.traces
    }
}
