ghost use Rattle.std.specs.Prelude.{◌≡◌, take};

/// Returns the first `most` bytes, or all if there are fewer.
pub fn prefix_of(bytes: &[u8], most: usize) -> &[u8]
    ensures { result.now ≡ take most bytes.now }
{
    if bytes.len() < most {
        bytes
    } else {
        &bytes[..most]
    }
}
