ghost use Rattle.http_requests.specs.ChunkSearches.{LooksAtTrailer};

use crate::chunked::parse_status::{ParseStatus, limited_status};
use crate::chunked::prefix::prefix_of;
use crate::head::MAX_FIELDS;
use httparse::spans::{EMPTY_HEADER_SPAN, parse_headers};

/// The length limit of a trailer, with its empty line: a limit of the session.
pub const MAX_TRAILER_BYTES: usize = 8192;

/// Looks for a trailer within these limits at the start of the bytes, and finds its length (RFC 9112, section 7.1.2).
/// Its fields are ignored.
pub fn look_for_trailer(bytes: &[u8]) -> ParseStatus<usize>
    ensures { LooksAtTrailer bytes.now result }
{
    let mut headers = [EMPTY_HEADER_SPAN; MAX_FIELDS];
    let parsed = parse_headers(prefix_of(bytes, MAX_TRAILER_BYTES), &mut headers);
    match limited_status(parsed, bytes.len(), MAX_TRAILER_BYTES) {
        ParseStatus::Complete((length, _)) => ParseStatus::Complete(length),
        ParseStatus::Partial => ParseStatus::Partial,
        ParseStatus::Invalid => ParseStatus::Invalid,
    }
}
