ghost use Rattle.std.specs.Prelude.{◌≡◌, ◌==◌, ◌||◌, codes};
ghost use Rattle.http_requests.specs.HeadContents.{method_of, body_of_size, length_by, body_by, IsBounded, closes_by, media_type, is_thrift, has_batch_type};
ghost use Rattle.http_requests.specs.Fields.{values_of};
ghost use Rattle.http_requests.specs.FramedHeads.{Frames};
ghost use Rattle.http_requests.specs.Heads.{IsWholeHead};

use crate::chunked::prefix_of;
use crate::fields::{Fields, Values, is_named, split_once, trimmed};
use crate::head::MAX_HEAD_BYTES;
use httparse::spans::{HeaderSpan, RequestSpans, Span as ByteSpan};
use jaeger_model::decimal::{is_number, value_of};

/// The limit of a body's data, in bytes: a limit of the session.
pub(crate) const MAX_BODY_BYTES: u64 = 4_194_304;

/// The methods that some path accepts.
#[derive(Clone, Copy, Debug, PartialEq, Eq)]
pub enum Method {
    Get,
    Post,
    Other,
}

/// The length of a body, by its head.
#[derive(Clone, Copy, Debug, PartialEq, Eq)]
pub enum BodyLength {
    Bytes(u64),
    /// By its chunks (RFC 9112, section 7.1).
    Chunked,
    /// Can't be read: a Transfer-Encoding other than `chunked`, two of them, or one beside a Content-Length; two
    /// Content-Lengths, or one that isn't 1 to 19 digits.
    Unreadable,
    /// More bytes than a body may have.
    TooLarge,
}

/// Why bytes are not a request that can be read.
#[derive(Clone, Copy, Debug, PartialEq, Eq)]
pub enum RequestFault {
    /// They don't start with a head, whatever follows.
    Head,
    /// The body after the head can't be read.
    Body,
    /// The body after the head is too large.
    TooLarge,
}

/// What a session reads from the head of a request. It refers to the bytes of the head.
#[derive(Clone, Copy, Debug)]
pub struct Request {
    pub method: Method,
    /// The position of the target in the head.
    pub target: ByteSpan,
    /// The body may be a batch: it has no content coding, and its type is one of the binary Thrift protocol.
    pub has_batch_type: bool,
    /// The session closes after the response.
    pub closes: bool,
}

/// The head of a request, found at the start of the bytes received.
#[derive(Clone, Copy, Debug)]
pub struct FoundHead {
    pub request: Request,
    /// The length of the head.
    pub len: usize,
    /// The length of the body after it.
    pub body_length: BodyLength,
}

fn method_of(method: &[u8]) -> Method
    ensures { result ≡ method_of method.now }
{
    match method {
        b"GET" => Method::Get,
        b"POST" => Method::Post,
        _ => Method::Other,
    }
}

fn body_of_size(size: u64) -> BodyLength
    ensures length { result ≡ body_of_size size }
    ensures bound { IsBounded result }
{
    if size <= MAX_BODY_BYTES {
        BodyLength::Bytes(size)
    } else {
        BodyLength::TooLarge
    }
}

/// Returns the length of the body by Content-Length alone.
fn length_by(fields: &Fields<'_>) -> BodyLength
    ensures length { result ≡ length_by (values_of (codes "content-length") fields.now) }
    ensures bound { IsBounded result }
{
    match fields.values("content-length") {
        Values::None => BodyLength::Bytes(0),
        Values::One(value) if is_number(value, 19) => body_of_size(value_of(value)),
        Values::One(_) | Values::Many => BodyLength::Unreadable,
    }
}

/// Returns the length of the body by the fields of the head.
fn body_length(fields: &Fields<'_>) -> BodyLength
    ensures length { result ≡ body_by fields.now }
    ensures bound { IsBounded result }
{
    match (
        fields.values("transfer-encoding"),
        fields.values("content-length"),
    ) {
        (Values::None, _) => length_by(fields),
        (Values::One(coding), Values::None) => {
            if is_named(coding, "chunked") {
                BodyLength::Chunked
            } else {
                BodyLength::Unreadable
            }
        }
        (Values::One(_), Values::One(_) | Values::Many) | (Values::Many, _) => {
            BodyLength::Unreadable
        }
    }
}

/// Returns the text before the first `;`, without surrounding white space.
fn media_type(value: &[u8]) -> &[u8]
    ensures { result.now ≡ media_type value.now }
{
    match split_once(value, b';') {
        Some((prefix, _)) => trimmed(prefix),
        None => trimmed(value),
    }
}

fn is_thrift(value: &[u8]) -> bool
    ensures { result ≡ is_thrift (media_type value.now) }
{
    let media = media_type(value);
    is_named(media, "application/x-thrift")
        || is_named(media, "application/vnd.apache.thrift.binary")
}

/// Returns whether the body may be a batch, by the fields of the head.
fn has_batch_type(fields: &Fields<'_>) -> bool
    ensures { result ≡ has_batch_type fields.now }
{
    if !fields.all_are("content-encoding", "identity") {
        return false;
    }
    fields.first("content-type").is_some_and(is_thrift)
}

/// Returns whether the session closes after the response: for HTTP/1.0, or if the request asks for it.
fn closes(version: u8, fields: &Fields<'_>) -> bool
    ensures { result ≡ (version == 0 || closes_by fields.now) }
{
    version == 0 || fields.have_token("connection", "close")
}

/// Returns what the head at the start of the bytes asks, its length, and the length of the body.
pub(crate) fn found_head(bytes: &[u8], headers: &[HeaderSpan], spans: RequestSpans) -> FoundHead
    requires { IsWholeHead bytes.now headers.now spans }
    ensures { Frames bytes.now result }
{
    let prefix = prefix_of(bytes, MAX_HEAD_BYTES);
    let fields = Fields::new(prefix, &headers[..spans.headers]);
    let request = Request {
        method: method_of(spans.method.of(prefix)),
        target: spans.path,
        has_batch_type: has_batch_type(&fields),
        closes: closes(spans.version, &fields),
    };
    FoundHead {
        request,
        len: spans.len,
        body_length: body_length(&fields),
    }
}
