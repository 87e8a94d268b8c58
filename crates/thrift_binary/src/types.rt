//! The type codes of the protocol, and the sizes of their values. No other code is a type.
ghost use Rattle.std.specs.Prelude.{◌≡◌};
ghost use Rattle.thrift_binary.specs.Reading.{is_code};
ghost use Rattle.thrift_binary.specs.Skipping.{is_container, width};

/// No type. In place of a field's type it is the stop byte, which ends a struct.
pub const STOP: u8 = 0;
/// One byte, 1 for true and 0 for false.
pub const BOOL: u8 = 2;
/// One byte.
pub const BYTE: u8 = 3;
/// Eight bytes, IEEE 754, big-endian.
pub const DOUBLE: u8 = 4;
/// Two bytes in two's complement, big-endian.
pub const I16: u8 = 6;
/// Four bytes in two's complement, big-endian; also an enum.
pub const I32: u8 = 8;
/// Eight bytes in two's complement, big-endian.
pub const I64: u8 = 10;
/// A length of four bytes, then that many bytes; also a binary.
pub const STRING: u8 = 11;
/// Fields, then the stop byte.
pub const STRUCT: u8 = 12;
/// A key type, a value type, a size of four bytes, then that many pairs.
pub const MAP: u8 = 13;
/// An element type, a size of four bytes, then that many elements.
pub const SET: u8 = 14;
/// An element type, a size of four bytes, then that many elements.
pub const LIST: u8 = 15;

/// The greatest length of a string, and the greatest size of a list, set or map.
pub const MAX_LENGTH: u32 = 0x7fff_ffff;

/// Returns whether the code is in this table.
#[inline]
pub fn is_code(code: u8) -> bool
    ensures table { result ≡ is_code code }
{
    matches!(code, BOOL | BYTE | DOUBLE | I16 | I32 | I64 | STRING..=LIST)
}

/// Returns whether a value of the type contains others.
#[inline]
pub fn is_container(code: u8) -> bool
    ensures { result ≡ is_container code }
{
    STRUCT <= code && code <= LIST
}

/// Returns the number of bytes of each value of the type; 0 if they differ in size, or if no type has the code.
#[inline]
pub fn width(code: u8) -> usize
    ensures { result ≡ width code }
{
    match code {
        BOOL | BYTE => 1,
        I16 => 2,
        I32 => 4,
        DOUBLE | I64 => 8,
        _ => 0,
    }
}
