//! A session over a store with one owner, whose answers are a function of its requests.
//!
//! A query is answered from exactly the entries held at the start, followed by one entry for each batch accepted so
//! far, in order, except those that were sent before. So the bytes written are a function of the bytes read, those
//! entries and the limits: `laws`.
//!
//! * `direct`: a store with one owner as the backend of a session: the [`Direct`].
//! * `laws`: facts about the definitions of `specs/`.
#![tactic(auto)]

ghost use Rattle.std.specs.Prelude.{◌≡◌, false, IfOk, IfErr, OnOk};
ghost use Rattle.http_session.specs.Sessions.{moment};
ghost use Rattle.http_session.specs.SessionRuns.{devices_of};
ghost use Rattle.pipe_session.specs.ExactAnswers.{EndsExactly, FailsExactly};

mod direct;
pub mod laws;

pub use direct::Direct;
use http_session::{Ended, SessionError, session};
use session_devices::{Input, Output};
use std::alloc::Global;

/// Answers the requests of the input one after the other, from a store with one owner. It blocks on nothing but the
/// devices.
///
/// # Errors
///
/// A device failed, or memory ran out. Batches that were accepted before stay accepted.
pub fn pipe<R: Input, W: Output>(
    alloc: Global,
    input: &mut R,
    output: &mut W,
    store: &mut Direct,
) -> Result<Ended, SessionError>
    requires input_works { R.has_failed input.old ≡ false }
    requires output_works { W.has_failed output.old ≡ false }

    ensures ended { IfOk result (EndsExactly
        (devices_of R.remaining R.gives R.has_failed W.contents W.has_failed)
        (moment input.old output.old store.old) (moment input.new output.new store.new)) }

    ensures works { OnOk result ((R.has_failed input.new ≡ false)
        × (W.has_failed output.new ≡ false)) }

    ensures error { IfErr result (FailsExactly
        (devices_of R.remaining R.gives R.has_failed W.contents W.has_failed)
        (moment input.old output.old store.old) (moment input.new output.new store.new)) }
{
    // For the prover: the match takes the clauses `ended` and `error` apart.
    match session(&(), alloc, input, output, store) {
        Ok(ended) => Ok(ended),
        Err(error) => Err(error),
    }
}
