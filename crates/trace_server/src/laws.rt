//! Laws of a worker's connections. Each function does nothing, and its contract is the law.

ghost use Rattle.trace_server.specs.WorkerConnections.{RefusalsAreByPrefixes};

use read_side::StoreName;

/// Each batch of a connection that was refused by `JournalFull`, `Stale` or `Conflict` was refused by a legal prefix of
/// the list that [`refused_by`](intake::Live::refused_by) of the worker's store returns, then or later: while the
/// connection is open, and after its session has ended or failed, whatever the worker's other connections do.
pub fn refusals_are_by_prefixes<N: StoreName>()
    ensures { RefusalsAreByPrefixes N.limits }
{}
