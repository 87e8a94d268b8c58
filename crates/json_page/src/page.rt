//! The page to which a text is written piece by piece.
ghost use Rattle.std.specs.Prelude.{◌≡◌, ℕ, List, ◌+◌, ◌<◌, ◌≤◌, ◌-◌, ◌^◌, ◌∷◌, ◌++◌, [], false, true, IfOk, OnErr, decimal, drop, length, take};
ghost use Rattle.std.specs.Fmt.{signed_decimal};
ghost use Rattle.std.specs.List.{prefix_len};
ghost use Rattle.std.specs.Str.{IsAscii};
ghost use Rattle.json.specs.Print.{escape, escape_byte, escape_letter, quoted};
ghost use Rattle.json.specs.Run.{is_plain};
ghost use Rattle.jaeger_model.specs.Ids.{low_digits};
ghost use Rattle.jaeger_model.specs.Tags.{hex_text};

use crate::buffer::Buffer;
use crate::plain::needs_no_escape;
use std::alloc::{AllocError, Global};
use std::str;

/// A text that is written piece by piece. The page becomes full if there is no memory for a piece. A full page only
/// counts the bytes that are written to it; [`Page::counting`] returns one. [`Page::finish`] fails if the page is full,
/// so that no call before it has to.
#[derive(Drop)]
pub struct Page {
    bytes: Buffer,
    full: bool,
    /// The number of bytes that were written to the page while it was full.
    counted: usize,
}

impl Page {
    ghost use Rattle.json_page.specs.Page.{Adds, Puts};

    /// Returns a page with the text of a buffer.
    fn of_buffer(bytes: Buffer) -> Page
        ensures bytes { result.bytes ≡ bytes }
        ensures full { result.full ≡ false }
    {
        Page {
            bytes,
            full: false,
            counted: 0,
        }
    }

    /// Returns an empty page. It allocates only once this number of bytes is used up.
    ///
    /// # Errors
    ///
    /// Out of memory, and nothing else.
    pub fn with_room(alloc: Global, room: usize) -> Result<Page, AllocError>
        ensures items { IfOk result (λ p. p.bytes.items ≡ []) }
        ensures room { IfOk result (λ p. p.bytes.room ≡ room) }
        ensures full { IfOk result (λ p. p.full ≡ false) }
    {
        Ok(Page::of_buffer(Buffer::with_room(alloc, room)?))
    }

    /// Returns a page with a finished text.
    pub fn of_text(text: Vec<u8>) -> Page
        ensures items { result.bytes.items ≡ text.items }
        ensures full { result.full ≡ false }
    {
        Page::of_buffer(Buffer::of_bytes(text))
    }

    /// Returns a full page, which only counts bytes. This doesn't allocate.
    pub fn counting(alloc: Global) -> Page
        ensures full { result.full ≡ true }
        ensures counted { result.counted ≡ 0 }
    {
        Page {
            bytes: Buffer::of_bytes(Vec::new(alloc)),
            full: true,
            counted: 0,
        }
    }

    /// Returns the number of bytes that were written to the page while it was full.
    ///
    /// # Errors
    ///
    /// Out of memory if the number doesn't fit.
    pub fn counted(&self) -> Result<usize, AllocError>
        ensures counted { IfOk result (λ n. n ≡ self.now.counted) }
        ensures bound { IfOk result (λ n. n + 1 < 2 ^ 64) }
    {
        if self.counted == usize::MAX {
            // Impossible: no piece has 2^64 bytes.
            return Err(AllocError);
        }
        Ok(self.counted)
    }

    /// Returns the text, unless the page is full.
    ///
    /// # Errors
    ///
    /// Out of memory if the page is full, and nothing else.
    pub fn finish(self) -> Result<Vec<u8>, AllocError>
        ensures ok { IfOk result (λ v. (self.full ≡ false) × (v.items ≡ self.bytes.items)) }
        ensures full { OnErr result (self.full ≡ true) }
    {
        if self.full {
            return Err(AllocError);
        }
        Ok(self.bytes.into_bytes())
    }

    /// Returns the number of bytes on the page.
    pub fn len(&self) -> usize
        ensures { result ≡ length self.now.bytes.items }
    {
        self.bytes.len()
    }

    /// Returns the number of bytes that fit on the page without growing, which it takes in memory.
    pub fn room(&self) -> usize
        ensures { result ≡ self.now.bytes.room }
    {
        self.bytes.room()
    }

    /// Returns the bytes on the page.
    pub fn as_slice(&self) -> &[u8]
        ensures { result.now ≡ self.now.bytes.items }
    {
        self.bytes.as_slice()
    }

    /// Removes all bytes and keeps the room.
    pub fn clear(&mut self)
        ensures items { self.new.bytes.items ≡ [] }
        ensures room { self.new.bytes.room ≡ self.old.bytes.room }
        ensures full { self.new.full ≡ self.old.full }
    {
        self.bytes.clear();
    }

    /// Returns whether the page is full.
    pub fn is_full(&self) -> bool
        ensures { result ≡ self.now.full }
    {
        self.full
    }

    /// Appends bytes, or counts them if the page is full.
    #[inline]
    fn add(&mut self, bytes: &[u8])
        ensures { Adds self.old self.new bytes.now }
    {
        if self.is_full() {
            self.counted = self.counted.saturating_add(bytes.len());
        } else {
            self.full = !self.bytes.append(bytes);
        }
    }

    /// Counts bytes on a full page, without their values.
    fn skip(&mut self, count: usize)
        requires { self.old.full ≡ true }
        ensures { (bytes : List ℕ) → length bytes ≡ count → Adds self.old self.new bytes }
    {
        self.counted = self.counted.saturating_add(count);
    }

    /// Writes a text as it is, without quotes and escapes.
    #[inline]
    pub fn push_str(&mut self, text: &str)
        ensures { Puts self.old self.new text.now }
    {
        self.add(text.as_bytes());
    }

    /// Writes a text as a JSON string.
    pub fn push_quoted(&mut self, text: &str)
        ensures { Puts self.old self.new (quoted text.now) }
    {
        self.add(b"\"");
        self.add_escaped(text.as_bytes());
        self.add(b"\"");
    }

    /// Writes a text inside a JSON string, without the quotes around it.
    pub fn push_escaped(&mut self, text: &str)
        ensures { Puts self.old self.new (escape text.now) }
    {
        self.add_escaped(text.as_bytes());
    }

    /// Writes a text inside a JSON string, in one copy if it needs no escape.
    fn add_escaped(&mut self, text: &[u8])
        ensures { Adds self.old self.new (escape text.now) }
    {
        if needs_no_escape(text) {
            self.add(text);
        } else {
            self.add_with_escapes(text);
        }
    }

    /// Writes a text inside a JSON string, as runs of plain bytes and escapes.
    fn add_with_escapes(&mut self, text: &[u8])
        ensures { Adds self.old self.new (escape text.now) }
    {
        let mut at = 0;
        while at < text.len() {
            let stop = plain_end(text, at);
            self.add(&text[at..stop]);
            if stop == text.len() {
                return;
            }
            let (escape, len) = escape_of(text[stop]);
            self.add(&escape[..len]);
            at = stop + 1;
        }
    }

    /// Writes a signed number.
    pub fn push_signed(&mut self, number: i64)
        ensures { Puts self.old self.new (signed_decimal number) }
    {
        let mut buffer = itoa::Buffer::new();
        self.push_str(buffer.format(number));
    }

    /// Like [`Page::push_signed`]. For the prover: the number is passed by reference, so that the caller doesn't read
    /// it.
    pub fn push_signed_ref(&mut self, number: &i64)
        ensures { Puts self.old self.new (signed_decimal number.now) }
    {
        self.push_signed(*number);
    }

    /// Writes a signed number of 128 bits, such as the delta of a clock.
    pub fn push_delta(&mut self, number: &i128)
        ensures { Puts self.old self.new (signed_decimal number.now) }
    {
        let mut buffer = itoa::Buffer::new();
        self.push_str(buffer.format(*number));
    }

    /// Writes an unsigned number.
    pub fn push_unsigned(&mut self, number: u64)
        ensures { Puts self.old self.new (decimal number) }
    {
        let mut buffer = itoa::Buffer::new();
        self.push_str(buffer.format(number));
    }

    /// Writes the hexadecimal digits of bytes.
    pub fn push_hex(&mut self, bytes: &[u8])
        ensures { Puts self.old self.new (hex_text bytes.now) }
    {
        for &byte in bytes {
            self.add(&hex_of_byte(byte));
        }
    }

    /// Writes the sixteen hexadecimal digits of eight bytes.
    pub fn push_hex_of_eight(&mut self, bytes: &[u8; 8])
        ensures { Puts self.old self.new (hex_text bytes.now) }
    {
        if self.is_full() {
            self.skip(16);
            return;
        }
        self.add(&hex_of_eight(bytes));
    }

    /// Writes the sixteen hexadecimal digits of a number.
    pub fn push_hex_of_number(&mut self, number: u64)
        ensures { Puts self.old self.new (low_digits 16 number) }
    {
        self.push_hex_of_eight(&number.to_be_bytes());
    }

    /// Writes the sixteen hexadecimal digits of a number as a JSON string.
    pub fn push_quoted_hex(&mut self, number: u64)
        ensures { Puts self.old self.new (34 ∷ (low_digits 16 number ++ 34 ∷ [])) }
    {
        if self.is_full() {
            self.skip(18);
            return;
        }
        self.add(&quoted_hex(&number.to_be_bytes()));
    }
}

/// Returns the index of the first byte from `at` on that needs an escape in a string, or the length.
fn plain_end(text: &[u8], at: usize) -> usize
    requires { at ≤ length text.now }
    ensures value { result ≡ at + prefix_len is_plain (drop at text.now) }
    ensures bound { result ≤ length text.now }
{
    let mut end = at;
    while end < text.len() && text[end] != b'"' && text[end] != b'\\' && text[end] >= 0x20 {
        end += 1;
    }
    end
}

/// Returns the escape of a byte in a string, and the escape's length.
fn escape_of(byte: u8) -> ([u8; 6], usize)
    ensures value { take result.1 result.0 ≡ escape_byte byte }
    ensures bound { result.1 ≤ 6 }
{
    let letter = escape_letter(byte);
    if letter > 0 {
        return ([b'\\', letter, 0, 0, 0, 0], 2);
    }
    if byte < 0x20 {
        let [high, low] = hex_of_byte(byte);
        return ([b'\\', b'u', b'0', b'0', high, low], 6);
    }
    ([byte, 0, 0, 0, 0, 0], 1)
}

/// Returns the letter of a byte's short escape, or 0 if it has none.
fn escape_letter(byte: u8) -> u8
    ensures { result ≡ escape_letter byte }
{
    match byte {
        b'"' | b'\\' => byte,
        8 => b'b',
        12 => b'f',
        b'\n' => b'n',
        b'\r' => b'r',
        b'\t' => b't',
        _ => 0,
    }
}

/// Returns the sixteen hexadecimal digits of eight bytes.
fn hex_of_eight(bytes: &[u8; 8]) -> [u8; 16]
    ensures digits { result ≡ hex_text bytes.now }
    ensures ascii { IsAscii result }
{
    let mut digits = [0; 16];
    if hex::encode_to_slice(*bytes, &mut digits).is_err() {
        unreachable!();
    }
    digits
}

/// Returns the sixteen hexadecimal digits of eight bytes, in quotes.
fn quoted_hex(bytes: &[u8; 8]) -> [u8; 18]
    ensures digits { result ≡ 34 ∷ (hex_text bytes.now ++ 34 ∷ []) }
    ensures ascii { IsAscii result }
{
    let mut text = [b'"'; 18];
    if hex::encode_to_slice(*bytes, &mut text[1..17]).is_err() {
        unreachable!();
    }
    text
}

/// Returns the two hexadecimal digits of a byte.
fn hex_of_byte(byte: u8) -> [u8; 2]
    ensures digits { result ≡ hex_text (byte ∷ []) }
    ensures ascii { IsAscii result }
{
    let mut digits = [0; 2];
    if hex::encode_to_slice([byte], &mut digits).is_err() {
        unreachable!();
    }
    digits
}
