//! Places that are stored by the keys of processes.

ghost use Rattle.std.specs.Prelude.{◌≡◌, ℕ, IfOk, OnOk, option_and_then};
ghost use Rattle.std.specs.BTreeMap.{get};
ghost use Rattle.std.specs.Ordering.{nat_cmp};
ghost use Rattle.trace_model.specs.KeyedPlaces.{stored_under};

use std::alloc::AllocError;
use std::collections::BTreeMap;

/// Converts a place to 32 bits, in which it is stored. A place that doesn't fit is reported as out of memory.
pub fn place_u32(place: usize) -> Result<u32, AllocError>
    ensures { IfOk result (λ n. n ≡ place) }
{
    // Impossible: a store has at most `Limits::MAX_SPANS` spans, and a trace has no more processes than spans.
    u32::try_from(place).map_err(|_| AllocError)
}

/// Returns the place that is stored for the key of a process, if the key is known and has one.
pub fn place_by_key(places: &BTreeMap<u64, u32>, key: Option<u64>) -> Option<u32>
    ensures { result ≡ option_and_then (get nat_cmp places.now) key }
{
    places.get(&key?).copied()
}

/// Stores a place for the key of a process, if the key is known.
///
/// # Errors
///
/// Out of memory, and nothing else.
pub fn store_by_key(
    places: &mut BTreeMap<u64, u32>,
    key: Option<u64>,
    place: u32,
) -> Result<(), AllocError>
    ensures { OnOk result ((k : ℕ) →
        get nat_cmp places.new k ≡ stored_under key place (get nat_cmp places.old) k) }
{
    if let Some(key) = key {
        places.insert(key, place)?;
    }
    Ok(())
}
