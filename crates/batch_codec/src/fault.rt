ghost use Rattle.std.specs.Prelude.{◌≡◌, Some, IfOk, string_bytes};
ghost use Rattle.batch_codec.specs.Faults.{number_of, name_of, struct_name, fault_text};
ghost use Rattle.batch_codec.specs.declared.fault.DecodeError.TheVariants.{Memory, Wire};

use std::alloc::{AllocError, AllocFailed, Global};
use std::error::Error;
use std::fmt;
use thrift_binary::WireError;

/// The name of a struct of `jaeger.thrift`.
#[derive(Clone, Copy, Debug, PartialEq, Eq)]
pub enum StructName {
    Batch,
    Process,
    Span,
    SpanRef,
    Log,
    Tag,
}

impl StructName {
    /// Returns the struct's name in `jaeger.thrift`.
    pub fn as_str(self) -> &'static str
        ensures { result.now ≡ struct_name self }
    {
        match self {
            StructName::Batch => "Batch",
            StructName::Process => "Process",
            StructName::Span => "Span",
            StructName::SpanRef => "SpanRef",
            StructName::Log => "Log",
            StructName::Tag => "Tag",
        }
    }
}

/// Why bytes aren't a batch: the first fault from left to right.
#[derive(Clone, Copy, Debug, PartialEq, Eq)]
pub enum DecodeError {
    /// The bytes break the protocol, or the value of a known field isn't of its type.
    Wire(WireError),
    /// A required field is absent at its struct's stop byte. If several are, this has the least id.
    Missing(StructName, u8),
    /// The number of an enum isn't in its table.
    BadEnum,
    /// Bytes follow the batch.
    Trailing,
    /// There was no memory for the batch.
    Memory,
}

/// The result of a reading: a value, or the first fault of the bytes.
pub type Decoded<T> = Result<T, DecodeError>;

impl DecodeError {
    /// Returns the stable number of the fault.
    pub fn number(self) -> u8
        ensures { result ≡ number_of self }
    {
        match self {
            DecodeError::Wire(e) => e.number(),
            DecodeError::Missing(..) => 7,
            DecodeError::BadEnum => 8,
            DecodeError::Trailing => 9,
            DecodeError::Memory => 22,
        }
    }

    /// Returns the name, without the struct and the id of a missing field.
    pub fn name(self) -> &'static str
        ensures { result.now ≡ name_of self }
    {
        match self {
            DecodeError::Wire(e) => e.name(),
            DecodeError::Missing(..) => "Missing",
            DecodeError::BadEnum => "BadEnum",
            DecodeError::Trailing => "Trailing",
            DecodeError::Memory => "NoMemory",
        }
    }

    /// Returns the number and the name, such as `1 Truncated`, and for a missing field also its struct and
    /// id, such as `7 Missing Span 7`.
    ///
    /// # Errors
    ///
    /// Out of memory, and nothing else.
    pub fn text(self, alloc: Global) -> Result<String, AllocError>
        ensures { IfOk result (λ s. string_bytes s ≡ fault_text self) }
    {
        format!(in alloc; "{self}")
    }
}

impl fmt::Display for DecodeError {
    ghost output = { λ e. Some (fault_text e) };

    fn fmt<W: fmt::Write>(&self, f: &mut fmt::Formatter<W>) -> fmt::Result {
        let number = self.number();
        let name = self.name();
        match self {
            DecodeError::Missing(struct_name, id) => {
                let struct_name = struct_name.as_str();
                write!(f, "{number} {name} {struct_name} {id}")
            }
            _ => write!(f, "{number} {name}"),
        }
    }
}

impl Error for DecodeError {}

impl From<WireError> for DecodeError {
    ghost from_gives = { λ x e. e ≡ Wire x };

    fn from(e: WireError) -> DecodeError {
        DecodeError::Wire(e)
    }
}

impl From<AllocError> for DecodeError {
    ghost from_gives = { λ _ e. e ≡ Memory };

    fn from(_e: AllocError) -> DecodeError {
        DecodeError::Memory
    }
}

impl<T: Drop> From<AllocFailed<T>> for DecodeError {
    ghost from_gives = { λ _ e. e ≡ Memory };

    fn from(_e: AllocFailed<T>) -> DecodeError {
        DecodeError::Memory
    }
}
