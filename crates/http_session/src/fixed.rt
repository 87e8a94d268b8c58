//! The responses 202 and 500, whose bytes are constants: they need no memory.

ghost use Rattle.std.specs.Prelude.{◌≡◌, [], codes};
ghost use Rattle.query_http.specs.Responses.{response};
ghost use Rattle.http_session.specs.Replies.{error_body};

pub(crate) fn accepted(close: bool) -> &'static [u8]
    ensures { result.now ≡ response 202 [] [] close }
{
    if close {
        b"HTTP/1.1 202 Accepted\r\nContent-Length: 0\r\nConnection: close\r\n\r\n"
    } else {
        b"HTTP/1.1 202 Accepted\r\nContent-Length: 0\r\n\r\n"
    }
}

pub(crate) fn out_of_memory(close: bool) -> &'static [u8]
    ensures { result.now ≡ response 500 (error_body 500 (codes "out of memory")) [] close }
{
    if close {
        b"HTTP/1.1 500 Internal Server Error\r\nContent-Type: application/json\r\nContent-Length: 90\r\nConnection: close\r\n\r\n\
            {\"data\":null,\"errors\":[{\"code\":500,\"msg\":\"out of memory\"}],\"limit\":0,\"offset\":0,\"total\":0}"
    } else {
        b"HTTP/1.1 500 Internal Server Error\r\nContent-Type: application/json\r\nContent-Length: 90\r\n\r\n\
            {\"data\":null,\"errors\":[{\"code\":500,\"msg\":\"out of memory\"}],\"limit\":0,\"offset\":0,\"total\":0}"
    }
}

pub(crate) fn internal_error(close: bool) -> &'static [u8]
    ensures { result.now ≡ response 500 (error_body 500 (codes "internal error")) [] close }
{
    if close {
        b"HTTP/1.1 500 Internal Server Error\r\nContent-Type: application/json\r\nContent-Length: 91\r\nConnection: close\r\n\r\n\
            {\"data\":null,\"errors\":[{\"code\":500,\"msg\":\"internal error\"}],\"limit\":0,\"offset\":0,\"total\":0}"
    } else {
        b"HTTP/1.1 500 Internal Server Error\r\nContent-Type: application/json\r\nContent-Length: 91\r\n\r\n\
            {\"data\":null,\"errors\":[{\"code\":500,\"msg\":\"internal error\"}],\"limit\":0,\"offset\":0,\"total\":0}"
    }
}
