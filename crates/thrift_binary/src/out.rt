ghost use Rattle.std.specs.Prelude.{◌≡◌, Some, List, ℕ, [], length};
ghost use Rattle.thrift_binary.specs.Writing.{Writes, WritesSized, refusal_name, bool_text, i32_text, i64_text, string_text, field_text};
ghost use Rattle.thrift_binary.specs.Writing.{stop_text, list_head_text};
ghost use Rattle.thrift_binary.specs.declared.out.WriteError.TheVariants.{Memory};

use crate::types::{MAX_LENGTH, STOP};
use byteorder::{BigEndian, ByteOrder};
use std::alloc::{AllocError, Global};
use std::error::Error;
use std::fmt;
use std::marker::Model;

/// Why a value could not be written.
#[derive(Clone, Copy, Debug, PartialEq, Eq)]
pub enum WriteError {
    /// A length or a size is above 2,147,483,647.
    BadLength,
    /// The output could not grow.
    Memory,
}

impl From<AllocError> for WriteError {
    ghost from_gives = { λ _ e. e ≡ Memory };

    fn from(_error: AllocError) -> Self {
        WriteError::Memory
    }
}

impl WriteError {
    /// Returns the error's name.
    pub fn name(self) -> &'static str
        ensures name { result.now ≡ refusal_name self }
    {
        match self {
            WriteError::BadLength => "BadLength",
            WriteError::Memory => "NoMemory",
        }
    }
}

/// Writes the name.
impl fmt::Display for WriteError {
    ghost output = { λ e. Some (refusal_name e) };

    fn fmt<W: fmt::Write>(&self, f: &mut fmt::Formatter<W>) -> fmt::Result {
        f.write_str(self.name())
    }
}

impl Error for WriteError {}

/// Appends values to a buffer, in the Thrift binary protocol.
///
/// Contracts see an output as the list of the bytes written so far. A call that fails writes nothing: the output is
/// unchanged. The one text of each value is defined in `specs/Writing.antt`, and
/// [`crate::laws::written_values_spell`] says that it spells the value.
#[derive(Debug, Drop)]
pub struct Out {
    bytes: Vec<u8>,
}

impl Model for Out {
    ghost Value = { List ℕ };

    ghost view = { λ o. o.bytes.items };
}

impl Out {
    /// Returns an empty output.
    pub fn new(alloc: Global) -> Self
        ensures empty { result ≡ [] }
    {
        Out {
            bytes: Vec::new(alloc),
        }
    }

    /// Returns the bytes that were written.
    pub fn into_bytes(self) -> Vec<u8>
        ensures bytes { result.items ≡ self }
    {
        self.bytes
    }

    fn append(&mut self, text: &[u8]) -> Result<(), WriteError>
        ensures appends { Writes text.now self.old result self.new }
    {
        self.bytes.extend_from_slice(text)?;
        Ok(())
    }

    /// Writes the head of a field: the type code of its value ([`crate::types`]) and its id. Write its value next.
    /// (Thrift binary protocol, struct encoding.)
    ///
    /// # Errors
    /// Only [`WriteError::Memory`].
    #[tactic(auto, unfolding(crate::specs::Writing::field_text))]
    pub fn field(&mut self, code: u8, id: i16) -> Result<(), WriteError>
        ensures appends { Writes (field_text code id) self.old result self.new }
    {
        let mut text = [code, 0, 0];
        BigEndian::write_i16(&mut text[1..], id);
        self.append(&text)
    }

    /// Writes the stop byte, which ends a struct after its last field. (Thrift binary protocol, struct encoding.)
    ///
    /// # Errors
    /// Only [`WriteError::Memory`].
    pub fn stop(&mut self) -> Result<(), WriteError>
        ensures appends { Writes stop_text self.old result self.new }
    {
        self.append(&[STOP])
    }

    /// Writes a bool: one byte, 1 for true and 0 for false. (Thrift binary protocol, base types.)
    ///
    /// # Errors
    /// Only [`WriteError::Memory`].
    pub fn bool(&mut self, value: bool) -> Result<(), WriteError>
        ensures appends { Writes (bool_text value) self.old result self.new }
    {
        self.append(&[u8::from(value)])
    }

    /// Writes a big-endian signed number of 32 bits: an i32 or an enum.
    /// (Thrift binary protocol, integer and enum encoding.)
    ///
    /// # Errors
    /// Only [`WriteError::Memory`].
    #[tactic(auto, unfolding(crate::specs::Writing::i32_text))]
    pub fn i32(&mut self, number: i32) -> Result<(), WriteError>
        ensures appends { Writes (i32_text number) self.old result self.new }
    {
        let mut text = [0; 4];
        BigEndian::write_i32(&mut text, number);
        self.append(&text)
    }

    /// Writes a big-endian signed number of 64 bits: an i64. (Thrift binary protocol, integer encoding.)
    ///
    /// # Errors
    /// Only [`WriteError::Memory`].
    #[tactic(auto, unfolding(crate::specs::Writing::i64_text))]
    pub fn i64(&mut self, number: i64) -> Result<(), WriteError>
        ensures appends { Writes (i64_text number) self.old result self.new }
    {
        let mut text = [0; 8];
        BigEndian::write_i64(&mut text, number);
        self.append(&text)
    }

    /// Writes a double, given as its eight bytes in big-endian order. (Thrift binary protocol, base types.)
    ///
    /// # Errors
    /// Only [`WriteError::Memory`].
    pub fn double(&mut self, bytes: [u8; 8]) -> Result<(), WriteError>
        ensures appends { Writes bytes self.old result self.new }
    {
        self.append(&bytes)
    }

    /// Writes a string or binary: its length, then its bytes. (Thrift binary protocol, string and binary encoding.)
    ///
    /// # Errors
    /// [`WriteError::BadLength`] if there are more than 2,147,483,647 bytes, else only [`WriteError::Memory`].
    #[tactic(auto, unfolding(crate::specs::Writing::string_text, crate::specs::Writing::size_text))]
    pub fn bytes(&mut self, bytes: &[u8]) -> Result<(), WriteError>
        ensures appends { WritesSized (length bytes.now) (string_text bytes.now) self.old result
            self.new }
    {
        if bytes.len() > MAX_LENGTH as usize {
            return Err(WriteError::BadLength);
        }
        let start = self.bytes.len();
        let mut size = [0; 4];
        BigEndian::write_u32(&mut size, bytes.len() as u32);
        self.append(&size)?;
        if let Err(error) = self.append(bytes) {
            self.bytes.truncate(start);
            return Err(error);
        }
        Ok(())
    }

    /// Writes the head of a list: the type code ([`crate::types`]) and the number of its elements. Write them next.
    /// (Thrift binary protocol, list encoding.)
    ///
    /// # Errors
    /// [`WriteError::BadLength`] if the number is above 2,147,483,647, else only [`WriteError::Memory`].
    #[tactic(auto, unfolding(crate::specs::Writing::list_head_text, crate::specs::Writing::size_text))]
    pub fn list_head(&mut self, code: u8, size: usize) -> Result<(), WriteError>
        ensures appends { WritesSized size (list_head_text code size) self.old result self.new }
    {
        if size > MAX_LENGTH as usize {
            return Err(WriteError::BadLength);
        }
        let mut text = [code, 0, 0, 0, 0];
        BigEndian::write_u32(&mut text[1..], size as u32);
        self.append(&text)
    }
}
