//! Laws of sessions that run in pieces. Each function does nothing, and its contract is the law.

ghost use Rattle.http_session.specs.Sessions.{store_of};
ghost use Rattle.http_session.specs.ResponseOrder.{model_of, connection_moment};
ghost use Rattle.trace_model.specs.StoreKnowledge.{ForgetsNothing};
ghost use Rattle.http_session.specs.ResumableSessions.{no_requests_yet, CanContinue, session_moment, Underway, UnderwayAmong};
ghost use Rattle.http_session.specs.ResumableSessions.{AnswersSoFar, StaysUnderway, OutlastsWrites, SubmitsSome, ReadsSome, AsksOnce};
ghost use Rattle.http_session.specs.KnownRefusals.{RefusalsStayKnown, RefusalsStayKnownAmong};

use session_devices::Connection;
use trace_model::Backend;

/// A new session is underway from the present state of its connection and its store.
pub fn a_new_session_is_underway<T, C: Connection, B: Backend<T>>(connection: &C, backend: &B)
    ensures ready { CanContinue (C.remaining connection.now) no_requests_yet }

    ensures alone { Underway (store_of B.submits B.reads B.knows B.limits)
        (model_of C.remaining C.gives C.Input.has_failed C.contents C.takes C.Output.has_failed)
        (connection_moment connection.now backend.now)
        (session_moment connection.now backend.now no_requests_yet) }

    ensures among { UnderwayAmong (store_of B.submits B.reads B.knows B.limits)
        (model_of C.remaining C.gives C.Input.has_failed C.contents C.takes C.Output.has_failed)
        (connection_moment connection.now backend.now)
        (session_moment connection.now backend.now no_requests_yet) }
{}

/// A session that pauses stays underway while others submit batches or query the store, while other sessions run a
/// piece ([`Session::answer_next`](crate::Session::answer_next): `asks`), and after anything else that makes the store
/// forget nothing.
pub fn a_pause_keeps_a_session_underway<T, C: Connection, B: Backend<T>>()
    ensures submits { StaysUnderway (store_of B.submits B.reads B.knows B.limits)
        (model_of C.remaining C.gives C.Input.has_failed C.contents C.takes C.Output.has_failed)
        (SubmitsSome (store_of B.submits B.reads B.knows B.limits)) }

    ensures reads { StaysUnderway (store_of B.submits B.reads B.knows B.limits)
        (model_of C.remaining C.gives C.Input.has_failed C.contents C.takes C.Output.has_failed)
        (ReadsSome (store_of B.submits B.reads B.knows B.limits)) }

    ensures pieces { StaysUnderway (store_of B.submits B.reads B.knows B.limits)
        (model_of C.remaining C.gives C.Input.has_failed C.contents C.takes C.Output.has_failed)
        (AsksOnce (store_of B.submits B.reads B.knows B.limits)) }

    ensures others { StaysUnderway (store_of B.submits B.reads B.knows B.limits)
        (model_of C.remaining C.gives C.Input.has_failed C.contents C.takes C.Output.has_failed)
        (ForgetsNothing B.limits B.knows) }
{}

/// A session stays underway while its connection writes the waiting part of a response: nothing new is handed over, and
/// what was handed over doesn't change.
pub fn late_writes_keep_a_session_underway<T, C: Connection, B: Backend<T>>()
    ensures { OutlastsWrites (store_of B.submits B.reads B.knows B.limits)
        (model_of C.remaining C.gives C.Input.has_failed C.contents C.takes C.Output.has_failed) }
{}

/// The answers so far of a session that is underway belong to one growing history, although others use the store too.
/// Each answer is the plain store's at a point that is never before the point of an earlier answer of this session, nor
/// before a batch accepted from it.
pub fn answers_so_far_are_of_one_history<T, C: Connection, B: Backend<T>>()
    ensures { AnswersSoFar (store_of B.submits B.reads B.knows B.limits)
        (model_of C.remaining C.gives C.Input.has_failed C.contents C.takes C.Output.has_failed) }
{}

/// A batch that is refused by `JournalFull`, `Stale` or `Conflict` is refused by a list, and the store still knows by
/// which one later: at each moment of the session that submitted the batch, and after it has ended or failed. This
/// holds for a session that has the store to itself, and for one among others.
pub fn refusals_stay_known<T, C: Connection, B: Backend<T>>()
    ensures alone { RefusalsStayKnown (store_of B.submits B.reads B.knows B.limits)
        (model_of C.remaining C.gives C.Input.has_failed C.contents C.takes C.Output.has_failed) }

    ensures among { RefusalsStayKnownAmong (store_of B.submits B.reads B.knows B.limits)
        (model_of C.remaining C.gives C.Input.has_failed C.contents C.takes C.Output.has_failed) }
{}
