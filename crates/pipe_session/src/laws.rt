//! Laws of sessions over a store with one owner. Each function does nothing, and its contract is the law.

ghost use Rattle.std.specs.Prelude.{◌≡◌, ◌≢◌, ℕ, List, ◌++◌};
ghost use mathlib.Core.List.{IsPrefix};
ghost use Rattle.trace_model.specs.LimitedHistories.{LimitedHistory};
ghost use Rattle.http_requests.specs.HeadContents.{Asked};
ghost use Rattle.http_session.specs.Sessions.{Exchange as ExchangeValue, SessionFailure, last_of, exchange_due, responses};
ghost use Rattle.http_session.specs.declared.whole_session.Ended.{Ended as EndedValue};
ghost use Rattle.http_session.specs.Verdicts.{Judges};
ghost use Rattle.http_session.specs.declared.verdict.ErrorReply.TheVariants.{NoMemory};
ghost use Rattle.http_session.specs.declared.verdict.Verdict.{Verdict as VerdictValue};
ghost use Rattle.http_session.specs.declared.verdict.Verdict.TheVariants.{Reject};
ghost use Rattle.pipe_session.specs.OneFunction.{KnownStart, SessionEnd, EndsOf, FailsOf, NeverWants, SessionResult, Finished, Failed};
ghost use Rattle.pipe_session.specs.OneFunction.{HadMemoryFirst, OneTextBegins, WroteFailed, WroteFinished, WroteFirst};

/// A request determines its verdict, unless memory ran out.
pub fn a_request_has_one_verdict()
    ensures { (a : Asked) (body : List ℕ) (v w : VerdictValue) →
        v ≢ Reject NoMemory → w ≢ Reject NoMemory → Judges a body v → Judges a body w → v ≡ w }
{}

/// If the bytes of the devices are known and memory did not run out, a session that ended as `pipe` promises meets the
/// premises of the laws below.
pub fn a_session_that_ended_is_finished()
    ensures { (before : KnownStart) (after : SessionEnd) (ended : EndedValue)
        (ends : EndsOf before after ended) → NeverWants (ends.opens ++ last_of ends.ending) →
        WroteFinished before after ended }
{}

/// If the bytes of the devices are known and memory ran out for no exchange, a session that failed as `pipe` promises
/// meets the premises of the laws below.
pub fn a_session_that_failed_is_failed()
    ensures { (before : KnownStart) (after : SessionEnd) (failure : SessionFailure)
        (fails : FailsOf before after failure) →
        NeverWants (fails.opens ++ exchange_due fails.next) → WroteFailed before after }
{}

/// The bytes that a session writes are a function of the bytes of the input, and the entries and limits of the store at
/// the start, however the bytes are read and written. So are the entries at the end, the number of responses, and
/// whether the input ended between two requests.
pub fn bytes_written_are_one_function()
    ensures { (bytes : List ℕ) (s : LimitedHistory) (one other : SessionResult) →
        Finished bytes s one → Finished bytes s other → one ≡ other }
{}

/// A session that fails, by a device or because memory ran out elsewhere, wrote a prefix of what one that ends writes.
pub fn a_failed_session_wrote_a_prefix()
    ensures { (bytes : List ℕ) (s : LimitedHistory) (short : List ℕ) (long : SessionResult) →
        Failed bytes s short → Finished bytes s long → IsPrefix short long.written }
{}

/// Of two sessions that failed over one input, one wrote a prefix of what the other wrote.
pub fn of_two_failed_sessions_one_wrote_a_prefix()
    ensures { (bytes : List ℕ) (s : LimitedHistory) (one other : List ℕ) →
        Failed bytes s one → Failed bytes s other → OneTextBegins one other }
{}

/// The exchanges of a session that ended, before the first one for which memory ran out, were written first, and are
/// those of a session that failed there. So they are a prefix of what any session writes in which memory never ran out.
pub fn what_an_ended_session_wrote_before_memory_ran_out()
    ensures { (before : KnownStart) (after : SessionEnd) (ended : EndedValue)
        (ends : EndsOf before after ended) (xs : List ExchangeValue) →
        HadMemoryFirst xs (ends.opens ++ last_of ends.ending) →
        WroteFirst before.input before.output after.output before.store (responses xs) }
{}

/// The exchanges of a session that failed, before the first one for which memory ran out, were written first, and are
/// those of a session that failed there.
pub fn what_a_failed_session_wrote_before_memory_ran_out()
    ensures { (before : KnownStart) (after : SessionEnd) (failure : SessionFailure)
        (fails : FailsOf before after failure)
        (xs : List ExchangeValue) → HadMemoryFirst xs (fails.opens ++ exchange_due fails.next) →
        WroteFirst before.input before.output after.output before.store (responses xs) }
{}
