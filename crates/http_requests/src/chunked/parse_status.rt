ghost use Rattle.http_requests.specs.ChunkSearches.{FoundByParser};

use httparse::Status;

/// What was found at the start of the bytes received so far.
#[derive(Clone, Copy, Debug, PartialEq, Eq)]
pub enum ParseStatus<T> {
    /// The complete text, parsed.
    Complete(T),
    /// Nothing yet: more bytes may complete it.
    Partial,
    /// Nothing, whatever follows.
    Invalid,
}

/// Returns what `count` bytes start with, given what a parser returned for the first `most` of them. A text that is
/// still incomplete after `most` bytes never comes.
pub fn limited_status<T, E: Drop>(
    parsed: Result<Status<T>, E>,
    count: usize,
    most: usize,
) -> ParseStatus<T>
    ensures { FoundByParser parsed count most result }
{
    match parsed {
        Ok(Status::Complete(found)) => ParseStatus::Complete(found),
        Ok(Status::Partial) if count < most => ParseStatus::Partial,
        Ok(Status::Partial) | Err(_) => ParseStatus::Invalid,
    }
}
