ghost use Rattle.std.specs.Prelude.{◌≡◌, IfOk, OnOk, ◌++◌, codes};
ghost use Rattle.query_http.specs.Responses.{response, field};
ghost use Rattle.query_http.specs.Responses as spec;
ghost use Rattle.query_http.specs.Statuses.{code_of};

use crate::status::Status;
use std::alloc::{AllocError, Global};

/// Appends a header field.
#[tactic(auto, unfolding(crate::specs::Responses::field))]
fn push_field(out: &mut Vec<u8>, name: &str, value: &[u8]) -> Result<(), AllocError>
    ensures { OnOk result (out.new.items ≡ out.old.items ++ field name.now value.now) }
{
    out.extend_from_slice(name.as_bytes())?;
    out.extend_from_slice(b": ")?;
    out.extend_from_slice(value)?;
    out.extend_from_slice(b"\r\n")
}

#[tactic(auto, unfolding(crate::specs::Responses::status_line))]
fn status_line(alloc: Global, status: Status) -> Result<Vec<u8>, AllocError>
    ensures { IfOk result (λ v. v.items ≡ spec.status_line (code_of status)) }
{
    let mut out = Vec::new(alloc);
    let digits = status.code().to_string(alloc)?;
    out.extend_from_slice(b"HTTP/1.1 ")?;
    out.extend_from_slice(digits.as_bytes())?;
    out.extend_from_slice(b" ")?;
    out.extend_from_slice(status.reason())?;
    out.extend_from_slice(b"\r\n")?;
    Ok(out)
}

#[tactic(auto, unfolding(crate::specs::Responses::type_line))]
fn push_type(out: &mut Vec<u8>, length: usize) -> Result<(), AllocError>
    ensures { OnOk result (out.new.items ≡ out.old.items ++ spec.type_line length) }
{
    if length == 0 {
        Ok(())
    } else {
        push_field(out, "Content-Type", b"application/json")
    }
}

#[tactic(auto, unfolding(crate::specs::Responses::length_line))]
fn push_length(alloc: Global, out: &mut Vec<u8>, length: usize) -> Result<(), AllocError>
    ensures { OnOk result (out.new.items ≡ out.old.items ++ spec.length_line length) }
{
    let digits = length.to_string(alloc)?;
    push_field(out, "Content-Length", digits.as_bytes())
}

#[tactic(auto, unfolding(crate::specs::Responses::allow_line))]
fn push_allow(out: &mut Vec<u8>, allow: &str) -> Result<(), AllocError>
    ensures { OnOk result (out.new.items ≡ out.old.items ++ spec.allow_line allow.now) }
{
    if allow.is_empty() {
        Ok(())
    } else {
        push_field(out, "Allow", allow.as_bytes())
    }
}

#[tactic(auto, unfolding(crate::specs::Responses::close_line))]
fn push_close(out: &mut Vec<u8>, close: bool) -> Result<(), AllocError>
    ensures { OnOk result (out.new.items ≡ out.old.items ++ spec.close_line close) }
{
    if close {
        push_field(out, "Connection", b"close")
    } else {
        Ok(())
    }
}

/// Returns the head of a response with a body of this length, which needn't exist yet: the status line,
/// `Content-Type: application/json` unless the body is empty, `Content-Length`, `Allow` if its text is given,
/// `Connection: close` if the connection closes, and an empty line.
///
/// # Errors
///
/// Out of memory, and nothing else.
pub fn response_head(
    alloc: Global,
    status: Status,
    length: usize,
    allow: &str,
    close: bool,
) -> Result<Vec<u8>, AllocError>
    ensures { IfOk result (λ v. v.items ≡
        spec.response_head (code_of status) length allow.now close) }
{
    let mut out = status_line(alloc, status)?;
    push_type(&mut out, length)?;
    push_length(alloc, &mut out, length)?;
    push_allow(&mut out, allow)?;
    push_close(&mut out, close)?;
    out.extend_from_slice(b"\r\n")?;
    Ok(out)
}

/// Returns the bytes of a response: its head ([`response_head`]), and then the body.
///
/// # Errors
///
/// Out of memory, and nothing else.
pub fn respond(
    alloc: Global,
    status: Status,
    body: &[u8],
    allow: &str,
    close: bool,
) -> Result<Vec<u8>, AllocError>
    ensures { IfOk result (λ v. v.items ≡ response (code_of status) body.now allow.now close) }
{
    let mut out = response_head(alloc, status, body.len(), allow, close)?;
    out.extend_from_slice(body)?;
    Ok(out)
}
