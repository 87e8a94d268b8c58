ghost use Rattle.std.specs.Prelude.{◌≡◌, ◌≤◌, ◌==◌, length};
ghost use Rattle.std.specs.List.{list_any};
ghost use Rattle.http_requests.specs.LineEnds.{is_due};

/// Returns whether a line ends in the bytes.
fn has_line_end(bytes: &[u8]) -> bool
    ensures { result ≡ list_any (λ byte. byte == 10) bytes.now }
{
    bytes.contains(&b'\n')
}

/// Returns whether it is worth searching the bytes again: a line ended after the first `seen` of them, or the length
/// limit is reached.
pub(crate) fn is_due(bytes: &[u8], seen: usize, most: usize) -> bool
    requires { seen ≤ length bytes.now }
    ensures { result ≡ is_due bytes.now seen most }
{
    bytes.len() >= most || has_line_end(&bytes[seen..])
}
