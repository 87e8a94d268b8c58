//! Requests that submit a batch and query it, and their responses, as bytes.

/// A batch of service `a` with one span, `op`, of trace 1.
pub const BATCH: &[u8] = b"\
    \x0c\x00\x01\
    \x0b\x00\x01\x00\x00\x00\x01a\x00\
    \x0f\x00\x02\x0c\x00\x00\x00\x01\
    \x0a\x00\x01\x00\x00\x00\x00\x00\x00\x00\x01\
    \x0a\x00\x02\x00\x00\x00\x00\x00\x00\x00\x00\
    \x0a\x00\x03\x00\x00\x00\x00\x00\x00\x00\x02\
    \x0a\x00\x04\x00\x00\x00\x00\x00\x00\x00\x00\
    \x0b\x00\x05\x00\x00\x00\x02op\
    \x08\x00\x07\x00\x00\x00\x01\
    \x0a\x00\x08\x00\x00\x00\x00\x00\x00\x03\xe8\
    \x0a\x00\x09\x00\x00\x00\x00\x00\x00\x002\x00\x00";

/// The head of a request that submits it.
pub const POST: &[u8] =
    b"POST /api/traces HTTP/1.1\r\nContent-Type: application/x-thrift\r\nContent-Length: 104\r\n\r\n";

/// The batch with the `seqNo` 1.
pub const NUMBERED: &[u8] = b"\
    \x0c\x00\x01\
    \x0b\x00\x01\x00\x00\x00\x01a\x00\
    \x0f\x00\x02\x0c\x00\x00\x00\x01\
    \x0a\x00\x01\x00\x00\x00\x00\x00\x00\x00\x01\
    \x0a\x00\x02\x00\x00\x00\x00\x00\x00\x00\x00\
    \x0a\x00\x03\x00\x00\x00\x00\x00\x00\x00\x02\
    \x0a\x00\x04\x00\x00\x00\x00\x00\x00\x00\x00\
    \x0b\x00\x05\x00\x00\x00\x02op\
    \x08\x00\x07\x00\x00\x00\x01\
    \x0a\x00\x08\x00\x00\x00\x00\x00\x00\x03\xe8\
    \x0a\x00\x09\x00\x00\x00\x00\x00\x00\x002\x00\
    \x0a\x00\x03\x00\x00\x00\x00\x00\x00\x00\x01\x00";

/// The head of a request that submits that one.
pub const POST_NUMBERED: &[u8] =
    b"POST /api/traces HTTP/1.1\r\nContent-Type: application/x-thrift\r\nContent-Length: 115\r\n\r\n";

/// The batch with the `seqNo` 1 and another duration.
pub const RENUMBERED: &[u8] = b"\
    \x0c\x00\x01\
    \x0b\x00\x01\x00\x00\x00\x01a\x00\
    \x0f\x00\x02\x0c\x00\x00\x00\x01\
    \x0a\x00\x01\x00\x00\x00\x00\x00\x00\x00\x01\
    \x0a\x00\x02\x00\x00\x00\x00\x00\x00\x00\x00\
    \x0a\x00\x03\x00\x00\x00\x00\x00\x00\x00\x02\
    \x0a\x00\x04\x00\x00\x00\x00\x00\x00\x00\x00\
    \x0b\x00\x05\x00\x00\x00\x02op\
    \x08\x00\x07\x00\x00\x00\x01\
    \x0a\x00\x08\x00\x00\x00\x00\x00\x00\x03\xe8\
    \x0a\x00\x09\x00\x00\x00\x00\x00\x00\x003\x00\
    \x0a\x00\x03\x00\x00\x00\x00\x00\x00\x00\x01\x00";

/// A query for the services.
pub const SERVICES: &[u8] = b"GET /api/services HTTP/1.1\r\n\r\n";

/// A query for trace 1.
pub const TRACE: &[u8] = b"GET /api/traces/1 HTTP/1.1\r\n\r\n";

/// The response to a batch that was accepted.
pub const ACCEPTED: &[u8] = b"HTTP/1.1 202 Accepted\r\nContent-Length: 0\r\n\r\n";

/// The response to a body that is too large.
pub const TOO_LARGE: &[u8] = b"\
    HTTP/1.1 413 Content Too Large\r\nContent-Type: application/json\r\nContent-Length: 91\r\nConnection: close\r\n\r\n\
    {\"data\":null,\"errors\":[{\"code\":413,\"msg\":\"body too large\"}],\"limit\":0,\"offset\":0,\
    \"total\":0}";

/// The response with the services of a store that has no batch.
pub const NO_SERVICES: &[u8] = b"\
    HTTP/1.1 200 OK\r\nContent-Type: application/json\r\nContent-Length: 56\r\n\r\n\
    {\"data\":[],\"errors\":null,\"limit\":0,\"offset\":0,\"total\":0}";

/// The response with the services of a store that has the batch.
pub const ONE_SERVICE: &[u8] = b"\
    HTTP/1.1 200 OK\r\nContent-Type: application/json\r\nContent-Length: 59\r\n\r\n\
    {\"data\":[\"a\"],\"errors\":null,\"limit\":0,\"offset\":0,\"total\":1}";

/// The response with the trace of a store that has the batch once.
pub const ONE_SPAN: &[u8] = b"\
    HTTP/1.1 200 OK\r\nContent-Type: application/json\r\nContent-Length: 351\r\n\r\n\
    {\"data\":[{\"processes\":{\"p1\":{\"serviceName\":\"a\",\"tags\":[]}},\"spans\":[{\"duration\":50,\
    \"flags\":1,\"logs\":[],\"operationName\":\"op\",\"processID\":\"p1\",\"references\":[],\
    \"spanID\":\"0000000000000002\",\"startTime\":1000,\"tags\":[],\"traceID\":\"0000000000000001\",\
    \"warnings\":null}],\"traceID\":\"0000000000000001\",\"warnings\":null}],\"errors\":null,\
    \"limit\":0,\"offset\":0,\"total\":1}";

/// The response to a batch whose `seqNo` another one has.
pub const CONFLICT: &[u8] = b"\
    HTTP/1.1 409 Conflict\r\nContent-Type: application/json\r\nContent-Length: 85\r\n\r\n\
    {\"data\":null,\"errors\":[{\"code\":409,\"msg\":\"conflict\"}],\"limit\":0,\"offset\":0,\
    \"total\":0}";

/// The response to a path that no endpoint has.
pub const NO_SUCH_PATH: &[u8] = b"\
    HTTP/1.1 404 Not Found\r\nContent-Type: application/json\r\nContent-Length: 89\r\n\r\n\
    {\"data\":null,\"errors\":[{\"code\":404,\"msg\":\"no such path\"}],\"limit\":0,\"offset\":0,\
    \"total\":0}";

/// The response to a batch for which the store has no room.
pub const JOURNAL_FULL: &[u8] = b"\
    HTTP/1.1 503 Service Unavailable\r\nContent-Type: application/json\r\nContent-Length: 89\r\n\r\n\
    {\"data\":null,\"errors\":[{\"code\":503,\"msg\":\"journal full\"}],\"limit\":0,\"offset\":0,\
    \"total\":0}";
