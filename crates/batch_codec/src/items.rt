ghost use Rattle.std.specs.Prelude.{◌≡◌, ◌≤◌, ◌<◌, ◌/◌, ℕ, min, List, length, Result, OnOk};
ghost use Rattle.batch_codec.specs.declared.fault.DecodeError.{DecodeError};
ghost use Rattle.batch_codec.specs.Decoding.{Decodes, wire};
ghost use Rattle.thrift_binary.specs.Lists.{items_at, list_of};
ghost use Rattle.batch_codec.specs.Changes.{change};

use crate::fault::{DecodeError, Decoded};
use jaeger_model::Seq;
use std::alloc::Global;
use thrift_binary::types::STRUCT;
use thrift_binary::{Cursor, WireError};

/// A struct that occurs in lists.
pub(crate) trait Element: Drop + Sized {
    ghost reads: { List ℕ → Result (Self × List ℕ) DecodeError };

    /// Returns the least number of bytes of one item.
    fn min_bytes() -> usize;

    fn read(alloc: Global, cursor: &mut Cursor<'_>) -> Decoded<Self>
        ensures exact { Decodes (λ s. s) reads (change cursor.old cursor.new) result }
        ensures shorter { OnOk result (length cursor.new < length cursor.old) };
}

/// Returns the number of items to reserve for a list that claims `size` items, if `left` bytes remain: as
/// many as these bytes can hold, at `least` bytes an item, and at most 16. A claimed size alone therefore
/// reserves nothing. If `least` is 0, so is the result.
#[inline]
pub fn room(size: u32, left: usize, least: usize) -> usize
    ensures exact { result ≡ min (min size (left / least)) 16 }
{
    let held = left.checked_div(least).unwrap_or(0);
    (size as usize).min(held).min(16)
}

fn read_items<T: Element>(alloc: Global, size: u32, cursor: &mut Cursor<'_>) -> Decoded<Vec<T>>
    ensures exact { Decodes (λ v. v.items) (items_at T.reads size)
        (change cursor.old cursor.new) result }
    ensures no_longer { OnOk result (length cursor.new ≤ length cursor.old) }
{
    let mut items = Vec::with_capacity(alloc, room(size, cursor.rest().len(), T::min_bytes()))?;
    for _ in 0..size {
        let item = T::read(alloc, cursor)?;
        items.push(item)?;
    }
    Ok(items)
}

/// Reads a list of structs. It never allocates by the claimed size alone.
#[tactic(auto, unfolding(thrift_binary::specs::Lists::list_of))]
pub(crate) fn read_list<T: Element>(alloc: Global, cursor: &mut Cursor<'_>) -> Decoded<Seq<T>>
    ensures exact { Decodes (λ v. v) (list_of wire STRUCT T.reads)
        (change cursor.old cursor.new) result }
    ensures no_longer { OnOk result (length cursor.new ≤ length cursor.old) }
{
    let (found, size) = cursor.list_head()?;
    if size != 0 && found != STRUCT {
        return Err(DecodeError::Wire(WireError::BadType));
    }
    Ok(Seq::from_vec(read_items(alloc, size, cursor)?))
}
