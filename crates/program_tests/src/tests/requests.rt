//! Requests that are refused, and their responses. `trace_samples::exchanges` has those that are accepted, and the
//! responses that other crates test too.

use std::alloc::{AllocError, Global};

/// A request without a type.
pub const UNTYPED: &[u8] = b"POST /api/traces HTTP/1.1\r\nContent-Length: 104\r\n\r\n";

/// A request whose body is a prefix of a batch.
pub const CUT: &[u8] =
    b"POST /api/traces HTTP/1.1\r\nContent-Type: application/x-thrift\r\nContent-Length: 1\r\n\r\n\x0c";

/// A request that announces a body of 5,000,000 bytes.
pub const HUGE: &[u8] =
    b"POST /api/traces HTTP/1.1\r\nContent-Type: application/x-thrift\r\nContent-Length: 5000000\r\n\r\n";

/// A path that no endpoint has.
pub const NOWHERE: &[u8] = b"GET /api/x HTTP/1.1\r\n\r\n";

/// A method that the endpoint doesn't accept.
pub const DELETE: &[u8] = b"DELETE /api/services HTTP/1.1\r\n\r\n";

/// The response to a request without a type.
pub const UNSUPPORTED: &[u8] =
    b"HTTP/1.1 415 Unsupported Media Type\r\nContent-Type: application/json\r\nContent-Length: 101\r\n\r\n\
      {\"data\":null,\"errors\":[{\"code\":415,\"msg\":\"unsupported content type\"}],\"limit\":0,\"offset\":0,\"total\":0}";

/// The response to a body that is a prefix of a batch.
pub const TRUNCATED: &[u8] =
    b"HTTP/1.1 400 Bad Request\r\nContent-Type: application/json\r\nContent-Length: 103\r\n\r\n\
      {\"data\":null,\"errors\":[{\"code\":400,\"msg\":\"batch refused: 1 Truncated\"}],\"limit\":0,\"offset\":0,\"total\":0}";

/// The response to a method that the endpoint of services doesn't accept.
pub const NOT_ALLOWED: &[u8] =
    b"HTTP/1.1 405 Method Not Allowed\r\nContent-Type: application/json\r\nContent-Length: 95\r\nAllow: GET\r\nConnection: close\r\n\r\n\
      {\"data\":null,\"errors\":[{\"code\":405,\"msg\":\"method not allowed\"}],\"limit\":0,\"offset\":0,\"total\":0}";

/// Concatenates the parts.
pub fn joined(alloc: Global, parts: &[&[u8]]) -> Result<Vec<u8>, AllocError> {
    parts.concat(alloc)
}
