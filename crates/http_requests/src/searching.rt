ghost use Rattle.std.specs.Prelude.{◌≡◌, ◌≤◌, ℕ, List, [], false, length, take};
ghost use Rattle.http_requests.specs.LineEnds.{is_due};
ghost use Rattle.http_requests.specs.Searches.{LooksFor, search_for};

use crate::chunked::ParseStatus;
use crate::line_ends::is_due;

/// A search for a text at the start of the bytes received.
pub(crate) trait Search {
    /// What is returned about the text.
    type Found;

    /// The length limit of the text. Once this number of bytes is received, a search is due whether or not a line
    /// ended.
    const MAX_LENGTH: usize;

    ghost MAX_LENGTH: { ℕ };

    /// The text has not come, and still may.
    ghost awaits: { List ℕ → Type 0 };

    /// The bytes start with the text, and this is returned about it.
    ghost finds: { Self → List ℕ → Self.Found → Type 0 };

    /// The text doesn't come, whatever follows the bytes.
    ghost never_has: { List ℕ → Type 0 };

    /// Searches the bytes received so far.
    fn look(&mut self, bytes: &[u8]) -> ParseStatus<Self::Found>
        ensures { LooksFor (search_for awaits (finds self.new) never_has) bytes.now result };

    /// The text is awaited before the first byte.
    ghost awaited_first: { awaits [] };

    /// While no search is due, the text stays awaited.
    ghost awaited_still: { (bytes : List ℕ) (seen : ℕ) → awaits (take seen bytes) →
        is_due bytes seen MAX_LENGTH ≡ false → awaits bytes };
}

/// Searches if the text may have come with the bytes after the first `seen`, or can't come later. It was awaited in the
/// first `seen` bytes.
pub(crate) fn look_when_due<S: Search>(
    bytes: &[u8],
    seen: usize,
    sought: &mut S,
) -> ParseStatus<S::Found>
    requires seen { seen ≤ length bytes.now }
    requires before { S.awaits (take seen bytes.now) }
    ensures { LooksFor (search_for S.awaits (S.finds sought.new) S.never_has)
        bytes.now result }
{
    if is_due(bytes, seen, S::MAX_LENGTH) {
        sought.look(bytes)
    } else {
        ParseStatus::Partial
    }
}
