ghost use Rattle.std.specs.Prelude.{◌≡◌, ◌==◌, ◌<◌, ◌≤◌, List, ℕ, length, min, take, drop, [], ◌∷◌, ◌++◌, OnOk, IfOk, MatchOption};
ghost use Rattle.std.specs.Int.{w16, w32, w64};
ghost use Rattle.thrift_binary.specs.Spelling.{Beginning, IsBool, IsI32, IsI64, IsDouble, IsString, IsFieldHead, IsListHead};
ghost use Rattle.thrift_binary.specs.Reading.{Reads, bytes_at, byte_at, bool_at, number_at, signed_at, size_at, string_at, field_at, list_at, map_at};

use crate::fault::WireError;
use crate::types::{MAX_LENGTH, STOP, is_code};
use byteorder::{BigEndian, ByteOrder};
use std::marker::Model;

/// Reads values from the front of a byte slice, in the Thrift binary protocol. It doesn't allocate.
///
/// Contracts see a cursor as the list of the remaining bytes. A call that succeeds consumes the bytes of its value.
/// A call that fails leaves no bytes, so every later call returns [`WireError::Truncated`].
///
/// [`Cursor::next`], [`Cursor::prefix`] and [`Cursor::at_most`] are for values whose bytes come in pieces: they wait for
/// no byte that isn't there, and refuse nothing.
///
/// Each clause `exact` names the reading from left to right (`specs/Reading.antt`) that the call is, faults included;
/// each clause `spelled` says that the bytes taken spell the value, by the protocol's rules for whole texts
/// (`specs/Spelling.antt`).
#[derive(Debug, Drop)]
pub struct Cursor<'a> {
    bytes: &'a [u8],
}

impl<'a> Model for Cursor<'a> {
    ghost Value = { List ℕ };

    ghost view = { λ c. c.bytes.now };
}

impl<'a> Cursor<'a> {
    /// Returns a cursor over the bytes.
    #[inline]
    pub fn new(bytes: &'a [u8]) -> Self
        ensures bytes { result ≡ bytes.now }
    {
        Cursor { bytes }
    }

    /// Returns the remaining bytes.
    #[inline]
    pub fn rest(&self) -> &'a [u8]
        ensures bytes { result.now ≡ self.now }
    {
        self.bytes
    }

    /// Returns whether no byte remains.
    #[inline]
    pub fn is_empty(&self) -> bool
        ensures empty { result ≡ (length self.now == 0) }
    {
        self.bytes.is_empty()
    }

    /// Takes the next byte, if there is one.
    #[inline]
    pub fn next(&mut self) -> Option<u8>
        ensures { MatchOption result ((self.old ≡ []) × (self.new ≡ []))
            (λ b. self.old ≡ b ∷ self.new) }
    {
        match self.bytes {
            [] => None,
            [first, rest @ ..] => {
                self.bytes = rest;
                Some(*first)
            }
        }
    }

    /// Takes the first n bytes, or none if there are fewer.
    #[inline]
    pub fn prefix(&mut self, n: usize) -> Option<&'a [u8]>
        ensures parts { MatchOption result (self.new ≡ self.old)
            (λ t. self.old ≡ t.now ++ self.new) }
        ensures size { MatchOption result (length self.old < n) (λ t. length t.now ≡ n) }
    {
        if self.bytes.len() < n {
            return None;
        }
        let (prefix, rest) = self.bytes.split_at(n);
        self.bytes = rest;
        Some(prefix)
    }

    /// Takes the first n bytes, or all if there are fewer.
    #[inline]
    pub fn at_most(&mut self, n: usize) -> &'a [u8]
        ensures parts { self.old ≡ result.now ++ self.new }
        ensures size { length result.now ≡ min n (length self.old) }
    {
        let size = if self.bytes.len() < n {
            self.bytes.len()
        } else {
            n
        };
        let (prefix, rest) = self.bytes.split_at(size);
        self.bytes = rest;
        prefix
    }

    #[cold]
    pub(crate) fn refuse<T>(&mut self, error: WireError) -> Result<T, WireError>
        ensures spent { self.new ≡ [] }
        ensures error { result ≡ Err error }
    {
        self.bytes = &[];
        Err(error)
    }

    /// Takes the first n bytes.
    #[inline]
    pub(crate) fn take(&mut self, n: usize) -> Result<&'a [u8], WireError>
        ensures exact { Reads (λ x. x.now) (bytes_at n) self.old result self.new }
        ensures no_longer { OnOk result (length self.new ≤ length self.old) }
    {
        let Some(front) = self.prefix(n) else {
            return self.refuse(WireError::Truncated);
        };
        Ok(front)
    }

    /// Takes a copy of the first N bytes. (The reference that `take` returns would need a second null test.)
    #[inline]
    fn array<const N: usize>(&mut self) -> Result<[u8; N], WireError>
        ensures exact { Reads (λ x. x) (bytes_at N) self.old result self.new }
        ensures no_longer { OnOk result (length self.new ≤ length self.old) }
    {
        if self.bytes.len() < N {
            return self.refuse(WireError::Truncated);
        }
        let mut bytes = [0; N];
        bytes.copy_from_slice(&self.bytes[..N]);
        self.bytes = &self.bytes[N..];
        Ok(bytes)
    }

    /// Reads a bool: one byte, 1 for true and 0 for false.
    ///
    /// (Thrift binary protocol, base types; Apache's readers take other bytes too.)
    ///
    /// # Errors
    ///
    /// [`WireError::Truncated`] if no byte remains; [`WireError::BadBool`] if the byte is neither 0 nor 1.
    #[tactic(auto, unfolding(crate::specs::Reading::bool_at))]
    #[inline]
    pub fn read_bool(&mut self) -> Result<bool, WireError>
        ensures exact { Reads (λ x. x) bool_at self.old result self.new }
        ensures shorter { OnOk result (length self.new < length self.old) }
        ensures spelled { IfOk result (λ b. Beginning (λ t. IsBool t b) self.old self.new) }
    {
        match self.read_byte()? {
            0 => Ok(false),
            1 => Ok(true),
            _ => self.refuse(WireError::BadBool),
        }
    }

    /// Reads the eight bytes of a double in big-endian order, without interpreting them.
    ///
    /// (Thrift binary protocol, base types.)
    ///
    /// # Errors
    ///
    /// [`WireError::Truncated`] if fewer bytes remain.
    #[inline]
    pub fn read_double(&mut self) -> Result<[u8; 8], WireError>
        ensures exact { Reads (λ x. x) (bytes_at 8) self.old result self.new }
        ensures no_longer { OnOk result (length self.new ≤ length self.old) }
        ensures spelled { IfOk result (λ d. Beginning (λ t. IsDouble t d) self.old self.new) }
    {
        self.array()
    }

    /// Reads a big-endian signed number of 32 bits: an i32 or an enum.
    ///
    /// (Thrift binary protocol, integer and enum encoding.)
    ///
    /// # Errors
    ///
    /// [`WireError::Truncated`] if fewer than four bytes remain.
    #[inline]
    pub fn read_i32(&mut self) -> Result<i32, WireError>
        ensures exact { Reads (λ x. x) (signed_at w32 4) self.old result self.new }
        ensures no_longer { OnOk result (length self.new ≤ length self.old) }
        ensures spelled { IfOk result (λ z. Beginning (λ t. IsI32 t z) self.old self.new) }
    {
        Ok(BigEndian::read_i32(&self.array::<4>()?))
    }

    /// Reads a big-endian signed number of 64 bits: an i64.
    ///
    /// (Thrift binary protocol, integer encoding.)
    ///
    /// # Errors
    ///
    /// [`WireError::Truncated`] if fewer than eight bytes remain.
    #[inline]
    pub fn read_i64(&mut self) -> Result<i64, WireError>
        ensures exact { Reads (λ x. x) (signed_at w64 8) self.old result self.new }
        ensures no_longer { OnOk result (length self.new ≤ length self.old) }
        ensures spelled { IfOk result (λ z. Beginning (λ t. IsI64 t z) self.old self.new) }
    {
        Ok(BigEndian::read_i64(&self.array::<8>()?))
    }

    #[inline]
    fn read_i16(&mut self) -> Result<i16, WireError>
        ensures exact { Reads (λ x. x) (signed_at w16 2) self.old result self.new }
        ensures shorter { OnOk result (length self.new < length self.old) }
    {
        Ok(BigEndian::read_i16(&self.array::<2>()?))
    }

    #[inline]
    fn read_u32(&mut self) -> Result<u32, WireError>
        ensures exact { Reads (λ x. x) (number_at 4) self.old result self.new }
        ensures shorter { OnOk result (length self.new < length self.old) }
    {
        Ok(BigEndian::read_u32(&self.array::<4>()?))
    }

    #[inline]
    fn read_byte(&mut self) -> Result<u8, WireError>
        ensures exact { Reads (λ x. x) byte_at self.old result self.new }
        ensures shorter { OnOk result (length self.new < length self.old) }
    {
        let Some(byte) = self.next() else {
            return self.refuse(WireError::Truncated);
        };
        Ok(byte)
    }

    /// Reads a length or a size: a number of 32 bits that is not negative.
    #[tactic(auto, unfolding(crate::specs::Reading::size_at))]
    #[inline]
    fn read_size(&mut self) -> Result<u32, WireError>
        ensures exact { Reads (λ x. x) size_at self.old result self.new }
        ensures shorter { OnOk result (length self.new < length self.old) }
    {
        let number = self.read_u32()?;
        if number > MAX_LENGTH {
            return self.refuse(WireError::BadLength);
        }
        Ok(number)
    }

    /// Reads a string or binary: a length of four bytes, then that many bytes. It copies nothing.
    ///
    /// (Thrift binary protocol, string and binary encoding.)
    ///
    /// # Errors
    ///
    /// [`WireError::BadLength`] if the length is negative; [`WireError::Truncated`] if bytes are missing.
    #[tactic(auto, unfolding(crate::specs::Reading::string_at))]
    #[inline]
    pub fn read_bytes(&mut self) -> Result<&'a [u8], WireError>
        ensures exact { Reads (λ x. x.now) string_at self.old result self.new }
        ensures shorter { OnOk result (length self.new < length self.old) }
        ensures spelled { IfOk result (λ b. Beginning (λ t. IsString t b.now) self.old self.new) }
    {
        let len = self.read_size()?;
        self.take(len as usize)
    }

    /// Reads the type and the id of a struct's next field. Returns `None` at the stop byte, which it takes too.
    ///
    /// (Thrift binary protocol, struct encoding.)
    ///
    /// # Errors
    ///
    /// [`WireError::Truncated`] if bytes are missing; [`WireError::BadType`] if the type is outside the table
    /// ([`crate::types`]) and the id is complete.
    #[tactic(auto, unfolding(crate::specs::Reading::field_at))]
    #[inline]
    pub fn field(&mut self) -> Result<Option<(u8, i16)>, WireError>
        ensures exact { Reads (λ x. x) field_at self.old result self.new }
        ensures shorter { OnOk result (length self.new < length self.old) }
        ensures spelled { IfOk result (λ f.
            MatchOption f (self.old ≡ STOP ∷ self.new) (λ h.
            Beginning (IsFieldHead h.0 h.1) self.old self.new)) }
    {
        let code = self.read_byte()?;
        if code == STOP {
            return Ok(None);
        }
        let id = self.read_i16()?;
        if !is_code(code) {
            return self.refuse(WireError::BadType);
        }
        Ok(Some((code, id)))
    }

    /// Reads the type and the number of the elements of a list or set.
    ///
    /// (Thrift binary protocol, list and set encoding.)
    ///
    /// # Errors
    ///
    /// [`WireError::Truncated`] if bytes are missing; else [`WireError::BadLength`] if the number is negative; else
    /// [`WireError::BadType`] if the type is outside the table ([`crate::types`]) and the number isn't 0.
    #[tactic(auto, unfolding(crate::specs::Reading::list_at))]
    #[inline]
    pub fn list_head(&mut self) -> Result<(u8, u32), WireError>
        ensures exact { Reads (λ x. x) list_at self.old result self.new }
        ensures shorter { OnOk result (length self.new < length self.old) }
        ensures spelled { IfOk result (λ h. Beginning (IsListHead h.0 h.1) self.old self.new) }
    {
        let code = self.read_byte()?;
        let size = self.read_size()?;
        if size != 0 && !is_code(code) {
            return self.refuse(WireError::BadType);
        }
        Ok((code, size))
    }

    /// Reads the key type, the value type and the number of the pairs of a map.
    #[tactic(auto, unfolding(crate::specs::Reading::map_at))]
    pub(crate) fn map_head(&mut self) -> Result<(u8, u8, u32), WireError>
        ensures exact { Reads (λ x. ((x.0, x.1), x.2)) map_at self.old result self.new }
        ensures shorter { OnOk result (length self.new < length self.old) }
    {
        let key = self.read_byte()?;
        let value = self.read_byte()?;
        let size = self.read_size()?;
        if size != 0 && !(is_code(key) && is_code(value)) {
            return self.refuse(WireError::BadType);
        }
        Ok((key, value, size))
    }
}
