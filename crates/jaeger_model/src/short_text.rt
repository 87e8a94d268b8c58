ghost use Rattle.std.specs.Prelude.{◌≡◌, ◌≤◌, [], length};

use std::marker::Model;
use std::str;

/// A text of at most 30 bytes, stored inline.
#[derive(Debug, Drop)]
pub(crate) struct ShortText {
    bytes: [u8; ShortText::MAX_LEN],
    len: u8,
}

impl Model for ShortText {
    ghost use Rattle.std.specs.Prelude.{List, ℕ, ◌≤◌, take, IsUtf8};

    ghost Value = { List ℕ };

    ghost view = { λ s. take s.len s.bytes };

    ghost invariant = { λ s. (s.len ≤ 30) × ∥ IsUtf8 (take s.len s.bytes) ∥₁ };
}

impl ShortText {
    /// The greatest number of bytes. Clauses write it out on purpose.
    pub(crate) const MAX_LEN: usize = 30;

    /// Returns the empty text.
    pub(crate) fn empty() -> Self
        ensures { result ≡ [] }
    {
        ShortText {
            bytes: [0; ShortText::MAX_LEN],
            len: 0,
        }
    }

    /// Copies a text of at most 30 bytes.
    pub(crate) fn new(text: &str) -> Self
        requires { length text.now ≤ 30 }
        ensures { result ≡ text.now }
    {
        let len = text.len();
        let mut bytes = [0; ShortText::MAX_LEN];
        bytes[..len].copy_from_slice(text.as_bytes());
        ShortText {
            bytes,
            len: len as u8,
        }
    }

    /// Returns a copy.
    pub(crate) fn copy(&self) -> Self
        ensures { result ≡ self.now }
    {
        ShortText {
            bytes: self.bytes,
            len: self.len,
        }
    }

    /// Returns the text as a `str`.
    pub(crate) fn as_str(&self) -> &str
        ensures { result.now ≡ self.now }
    {
        unsafe { str::from_utf8_unchecked(&self.bytes[..self.len as usize]) }
    }
}
