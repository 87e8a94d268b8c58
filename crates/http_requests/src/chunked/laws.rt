//! Laws of the definition. Each function does nothing, and its contract is the law.

ghost use Rattle.std.specs.Prelude.{◌≡◌, ◌≢◌, ℕ, List, ◌++◌};
ghost use Rattle.http_requests.specs.declared.chunked.line.TheConstants.{MAX_LINE_BYTES};
ghost use Rattle.http_requests.specs.declared.chunked.trailer.TheConstants.{MAX_TRAILER_BYTES};
ghost use Rattle.http_requests.specs.declared.head.TheConstants.{MAX_FIELDS};
ghost use Rattle.http_requests.specs.Chunks.{Reading as ReadingValue, Reading.{bad, not_yet}, ReadsChunks, IsDecided, IsSized, BeginsWith, HasNone, NeverHas};

/// A size line has at most 256 bytes with its CR LF, and a trailer at most 8,192 bytes with its empty line, and 64
/// fields.
pub fn a_chunked_body_has_these_limits()
    ensures line { MAX_LINE_BYTES ≡ 256 }
    ensures trailer { MAX_TRAILER_BYTES ≡ 8192 }
    ensures fields { MAX_FIELDS ≡ 64 }
{}

/// Reading some bytes has at most one outcome: a complete body with its data and the length of its text, a body that is
/// too large at a certain line, no body whatever follows, or no body yet.
pub fn bytes_come_to_one_answer()
    ensures { (most : ℕ) (bytes : List ℕ) (a b : ReadingValue) →
        ReadsChunks most bytes a → ReadsChunks most bytes b → a ≡ b }
{}

/// If reading a prefix has an outcome other than `not_yet`, more bytes don't change it.
pub fn a_prefix_decides()
    ensures { (most : ℕ) (bytes more : List ℕ) (a : ReadingValue) →
        a ≢ not_yet → ReadsChunks most bytes a → ReadsChunks most (bytes ++ more) a }
{}

/// Bytes that can't become a body whatever follows don't start with a body.
pub fn bad_bytes_have_no_body()
    ensures { (most : ℕ) (bytes : List ℕ) → ReadsChunks most bytes bad →
        HasNone (IsDecided most) bytes }
{}

/// A body starts with all its chunks and the line after them, or with those up to the size line that makes it too
/// large.
pub fn a_body_begins_with_its_chunks()
    ensures { (most : ℕ) (text : List ℕ) → IsDecided most text → BeginsWith (IsSized most) text }
{}
