ghost use Rattle.http_requests.specs.Heads.{AwaitsHead};

use crate::chunked::{ParseStatus, limited_status, prefix_of};
use crate::searching::Search;
use httparse::spans::{EMPTY_HEADER_SPAN, HeaderSpan, RequestSpans, parse_request};

/// The length limit of a head, with its empty line. RFC 9112 sets none; this is a limit of the session.
pub(crate) const MAX_HEAD_BYTES: usize = 8192;

/// The number of fields that a head or a trailer may have: a limit of the session.
pub(crate) const MAX_FIELDS: usize = 64;

/// Room for one field more than a head may have, so that one too many is noticed.
const FIELD_ROOM: usize = MAX_FIELDS + 1;

/// The search for a head, with room for its fields.
#[derive(Drop)]
pub(crate) struct HeadSearch {
    pub(crate) headers: [HeaderSpan; FIELD_ROOM],
}

impl HeadSearch {
    pub(crate) fn new() -> Self {
        HeadSearch {
            headers: [EMPTY_HEADER_SPAN; FIELD_ROOM],
        }
    }
}

impl Search for HeadSearch {
    ghost use Rattle.http_requests.specs.Heads.{NeverHasHead, IsWholeHead};
    ghost use Rattle.http_requests.specs.LineLaws.{no_bytes_await, head_not_due};
    ghost use Rattle.http_requests.specs.declared.head.TheConstants.{MAX_HEAD_BYTES};

    type Found = RequestSpans;

    const MAX_LENGTH: usize = MAX_HEAD_BYTES;

    ghost MAX_LENGTH = { MAX_HEAD_BYTES };

    ghost awaits = { AwaitsHead };

    ghost finds = { λ search bytes spans. IsWholeHead bytes search.headers spans };

    ghost never_has = { NeverHasHead };

    ghost awaited_first = { no_bytes_await };

    ghost awaited_still = { head_not_due };

    fn look(&mut self, bytes: &[u8]) -> ParseStatus<RequestSpans> {
        let parsed = parse_request(prefix_of(bytes, MAX_HEAD_BYTES), &mut self.headers);
        match limited_status(parsed, bytes.len(), MAX_HEAD_BYTES) {
            ParseStatus::Complete(spans) if spans.headers > MAX_FIELDS => ParseStatus::Invalid,
            ParseStatus::Complete(spans) => ParseStatus::Complete(spans),
            ParseStatus::Partial => ParseStatus::Partial,
            ParseStatus::Invalid => ParseStatus::Invalid,
        }
    }
}
