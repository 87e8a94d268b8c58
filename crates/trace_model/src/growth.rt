//! Lists that take little more memory than their items.

ghost use Rattle.std.specs.Prelude.{◌≡◌, ◌++◌, ◌∷◌, [], OnErr, OnOk};

use std::alloc::AllocError;

/// The least number of items by which a full list grows.
const LEAST_GROWTH: usize = 64;

/// A full list grows by one in eight of its items and by [`LEAST_GROWTH`] more.
const GROWTH_ONE_IN: usize = 8;

/// Appends an item. A full list grows by an eighth, and not to twice its size as by `Vec::push`: a list of a search is
/// long, and nothing but its items is to be held for long. So an item is moved some eight times as the list grows.
///
/// # Errors
///
/// Out of memory, and nothing else. The list has its items then.
pub fn push_tightly<T: Drop>(list: &mut Vec<T>, item: T) -> Result<(), AllocError>
    ensures items { OnOk result (list.new.items ≡ list.old.items ++ item ∷ []) }
    ensures unchanged { OnErr result (list.new.items ≡ list.old.items) }
{
    if list.len() == list.capacity() {
        list.reserve_exact(list.len() / GROWTH_ONE_IN + LEAST_GROWTH)?;
    }
    list.push(item)?;
    Ok(())
}
