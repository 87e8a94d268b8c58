ghost use Rattle.http_requests.specs.ChunkSearches.{LooksAtLine};

use crate::chunked::parse_status::{ParseStatus, limited_status};
use crate::chunked::prefix::prefix_of;
use httparse::parse_chunk_size;

/// The length limit of a size line, with its CR LF. RFC 9112 sets none; this is a limit of the session.
pub const MAX_LINE_BYTES: usize = 256;

/// Looks for a size line of at most [`MAX_LINE_BYTES`] at the start of the bytes. Finds its length and the size in it.
/// Chunk extensions are ignored (RFC 9112, section 7.1.1).
pub fn look_for_size(bytes: &[u8]) -> ParseStatus<(usize, u64)>
    ensures { LooksAtLine bytes.now result }
{
    let parsed = parse_chunk_size(prefix_of(bytes, MAX_LINE_BYTES));
    limited_status(parsed, bytes.len(), MAX_LINE_BYTES)
}
