//! Laws of open connections. Each function does nothing, and its contract is the law.

ghost use Rattle.http_session.specs.Sessions.{store_of};
ghost use Rattle.open_connections.specs.BufferedConnections.{buffered_model};
ghost use Rattle.open_connections.specs.ConnectionRefusals.{ConnectionRefusalsStayKnown};

use crate::nonblocking::TryConnection;
use trace_model::Backend;

/// A batch that is refused by `JournalFull`, `Stale` or `Conflict` is refused by a list, and the store still knows by
/// which one later: while the connection that sent the batch is open, and after it was removed from the set
/// ([`ConnectionSet::take_turn`](crate::ConnectionSet::take_turn): `turn`), whatever other connections do.
pub fn refusals_stay_known<T, C: TryConnection, B: Backend<T>>()
    ensures { ConnectionRefusalsStayKnown (store_of B.submits B.reads B.knows B.limits)
        (buffered_model C.remaining C.gives C.has_failed C.contents) }
{}
