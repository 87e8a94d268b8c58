ghost use Rattle.std.specs.Prelude.{◌≡◌, ◌≤◌, ◌<◌, ℕ, ℤ, List, length, Result, Ok, Err, IsOk, OnOk};
ghost use Rattle.batch_codec.specs.declared.fault.DecodeError.{DecodeError};
ghost use Rattle.batch_codec.specs.Decoding.{Takes, Decodes, required, wire};
ghost use Rattle.thrift_binary.specs.Fields.{fields_at};
ghost use Rattle.batch_codec.specs.Changes.{change};

use crate::fault::{DecodeError, Decoded, StructName};
use std::alloc::Global;
use thrift_binary::Cursor;

/// The fields of a struct that were read so far.
pub(crate) trait Slots<'a>: Drop {
    ghost puts: { Self → ℕ → ℤ → List ℕ → Result (Self × List ℕ) DecodeError };

    /// Reads the value of a field of this type and id.
    fn put(&mut self, alloc: Global, code: u8, id: i16, cursor: &mut Cursor<'a>) -> Decoded<()>
        ensures exact { Takes puts
            (record {
              code = code;
              id = id;
              slots = change self.old self.new;
              cursor = change cursor.old cursor.new;
            })
            result }
        ensures no_longer { OnOk result (length cursor.new ≤ length cursor.old) };
}

/// Reads all fields up to the stop byte.
pub(crate) fn read_fields<'a, S: Slots<'a>>(
    alloc: Global,
    slots: S,
    cursor: &mut Cursor<'a>,
) -> Decoded<S>
    ensures exact { Decodes (λ s. s) (fields_at wire S.puts slots)
        (change cursor.old cursor.new) result }
    ensures shorter { OnOk result (length cursor.new < length cursor.old) }
{
    let mut slots = slots;
    while let Some((code, id)) = cursor.field()? {
        slots.put(alloc, code, id, cursor)?;
    }
    Ok(slots)
}

/// Returns the value of a required field, or the error that it is missing.
#[inline]
pub fn required<T>(slot: Option<T>, struct_name: StructName, id: u8) -> Decoded<T>
    ensures { result ≡ required slot struct_name id }
{
    slot.ok_or(DecodeError::Missing(struct_name, id))
}

/// Stores the value that was read in its slot. For the prover: `put` of a span then holds no list where a call may fail.
pub(crate) fn keep<T: Drop>(slot: &mut T, read: Decoded<T>) -> Decoded<()>
    ensures kept { (x : T) → read ≡ Ok x → slot.new ≡ x }
    ensures same { (x : T) → read ≡ Ok x → IsOk result }
    ensures refused { (e : DecodeError) → read ≡ Err e → result ≡ Err e }
{
    *slot = read?;
    Ok(())
}
