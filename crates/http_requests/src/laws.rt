//! Laws of the definitions: what the bytes of an input start with, however they are read. Each function does nothing,
//! and its contract is the law.

ghost use Rattle.std.specs.Prelude.{◌≡◌, ℕ, List, [], ◌++◌};
ghost use Rattle.httparse.specs.Grammar.{RequestHead as RequestHeadValue, NeverHasRequest};
ghost use Rattle.http_requests.specs.declared.head.TheConstants.{MAX_HEAD_BYTES, MAX_FIELDS};
ghost use Rattle.http_requests.specs.declared.request.TheConstants.{MAX_BODY_BYTES};
ghost use Rattle.session_devices.specs.declared.limits.TheConstants.{MAX_READS};
ghost use Rattle.http_requests.specs.declared.room.TheConstants.{READ_BYTES};
ghost use Rattle.http_requests.specs.Heads.{TakesHead, EndsLine};
ghost use Rattle.http_requests.specs.Requests.{Spells, IsMalformed, AwaitsRequest};
ghost use Rattle.http_requests.specs.declared.request.RequestFault.{RequestFault as RequestFaultValue};
ghost use Rattle.http_requests.specs.declared.request.RequestFault.TheVariants.{TooLarge};

/// The limits of a session: the bytes and fields of a head, the bytes of a body, the number of reads, and the bytes
/// that one read asks for.
pub fn a_session_has_these_limits()
    ensures head { MAX_HEAD_BYTES ≡ 8192 }
    ensures fields { MAX_FIELDS ≡ 64 }
    ensures body { MAX_BODY_BYTES ≡ 4194304 }
    ensures reads { MAX_READS ≡ 1099511627776 }
    ensures piece { READ_BYTES ≡ 16384 }
{}

/// Bytes start with at most one head, and what follows it is determined.
pub fn a_head_is_read_in_one_way()
    ensures { (bytes : List ℕ) (h k : RequestHeadValue) (rest more : List ℕ) →
        TakesHead bytes h rest → TakesHead bytes k more → (h ≡ k) × (rest ≡ more) }
{}

/// If bytes start with a head, they still do when more bytes come.
pub fn a_head_stays_when_more_comes()
    ensures { (bytes : List ℕ) (h : RequestHeadValue) (rest more : List ℕ) →
        TakesHead bytes h rest → TakesHead (bytes ++ more) h (rest ++ more) }
{}

/// The bytes determine the request that they start with: its text, its head, its body, and what follows.
pub fn a_request_is_spelled_in_one_way()
    ensures { (text other : List ℕ) (h k : RequestHeadValue) (body more rest left : List ℕ) →
        Spells text h body → Spells other k more → text ++ rest ≡ other ++ left →
        (text ≡ other) × (h ≡ k) × (body ≡ more) × (rest ≡ left) }
{}

/// If a piece of the bytes is malformed, all of them are, for the same reason. The end counts only if nothing is left
/// after the piece.
pub fn a_malformed_request_stays_malformed()
    ensures { (piece left : List ℕ) (b : RequestFaultValue) →
        IsMalformed (left ≡ []) piece b → IsMalformed (Unit {0}) (piece ++ left) b }
{}

/// Bytes that start with a request are not malformed, whatever piece of them was examined.
pub fn a_request_is_not_malformed()
    ensures { (text rest piece left : List ℕ) (h : RequestHeadValue) (body : List ℕ)
        (b : RequestFaultValue) →
        Spells text h body → piece ++ left ≡ text ++ rest → IsMalformed (left ≡ []) piece b → ⊥ }
{}

/// Bytes are malformed for one reason, whatever pieces of them were examined.
pub fn a_malformed_request_has_one_reason()
    ensures { (piece left part behind : List ℕ) (b c : RequestFaultValue) →
        piece ++ left ≡ part ++ behind → IsMalformed (left ≡ []) piece b →
        IsMalformed (behind ≡ []) part c → b ≡ c }
{}

/// The empty input is not malformed.
pub fn the_empty_input_is_not_malformed()
    ensures { (b : RequestFaultValue) → IsMalformed (Unit {0}) [] b → ⊥ }
{}

/// While a request is awaited, the bytes don't start with one.
pub fn an_awaited_request_is_not_there()
    ensures { (bytes text rest : List ℕ) (h : RequestHeadValue) (body : List ℕ) →
        AwaitsRequest bytes → Spells text h body → bytes ≡ text ++ rest → ⊥ }
{}

/// While a request is awaited, neither its head nor a size line of its chunks makes it too large.
pub fn an_awaited_request_is_not_too_large()
    ensures { (bytes : List ℕ) → AwaitsRequest bytes → IsMalformed ⊥ bytes TooLarge → ⊥ }
{}

/// While a request is awaited, the complete lines received may still start with a head.
pub fn an_awaited_request_may_still_come()
    ensures { (lines rest : List ℕ) →
        AwaitsRequest (lines ++ rest) → EndsLine lines → NeverHasRequest lines → ⊥ }
{}
