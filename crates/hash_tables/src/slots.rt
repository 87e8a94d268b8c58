//! Walks over places: a free one has 0, any other a row plus one.

ghost use Rattle.std.specs.Prelude.{◌≡◌, ℕ, ◌+◌, ◌*◌, ◌^◌, ◌<◌, ◌≤◌, List, [], ◌∷◌, ◌++◌, length, get_or, count_by};
ghost use Rattle.hash_tables.specs.RowPlaces.{start_of, place_after, is_taken, steps, AreTaken, Walked, LeadsIn};

use crate::sought::Sought;

/// Returns the place at which the walk for a hash begins.
pub(crate) fn first_place(places: usize, hash: u64) -> usize
    requires { 0 < places }
    ensures value { result ≡ start_of hash places }
    ensures within { result < places }
{
    (hash % places as u64) as usize
}

/// Returns the place after this one; the first one comes after the last.
fn next_place(places: usize, at: usize) -> usize
    requires { at < places }
    ensures value { result ≡ place_after places at }
    ensures within { result < places }
{
    if at + 1 == places { 0 } else { at + 1 }
}

/// Walks over the places, each at most once, to a row that is sought or to a free place.
pub(crate) fn walk<S: Sought>(slots: &[u32], start: usize, sought: &S) -> Option<u32>
    requires can_read { S.can_read sought.now }
    requires start { start < length slots.now }
    requires known { (k : ℕ) → get_or slots.now k 0 ≤ length (S.hashes sought.now) }
    ensures { Walked slots.now start (length (S.hashes sought.now)) (S.is_sought sought.now)
        result }
{
    let mut at = start;
    for _passed in 0..slots.len() {
        let slot = slots[at];
        if slot == 0 {
            return None;
        }
        let row = slot - 1;
        if sought.is_sought(row as usize) {
            return Some(row);
        }
        at = next_place(slots.len(), at);
    }
    // Impossible in a table, which has a free place. The contract doesn't ask for one.
    None
}

/// Walks to the first free place.
fn free_place(slots: &[u32], start: usize) -> usize
    requires start { start < length slots.now }
    requires free { count_by is_taken slots.now < length slots.now }
    ensures within { result < length slots.now }
    ensures free { get_or slots.now result 0 ≡ 0 }
    ensures taken { AreTaken slots.now start (steps (length slots.now) start result) }
{
    let mut at = start;
    for _passed in 0..slots.len() {
        if slots[at] == 0 {
            return at;
        }
        at = next_place(slots.len(), at);
    }
    unreachable!()
}

/// Marks a place for the row after all others, by its hash.
pub(crate) fn mark_row(slots: &mut [u32], hash: u64, row: u32)
    requires fits { row + 1 < 2 ^ 32 }
    requires half { 2 * row + 2 < length slots.old }
    requires taken { count_by is_taken slots.old ≡ row }
    ensures length { length slots.new ≡ length slots.old }
    ensures leads { (hashes : List ℕ) → length hashes ≡ row → LeadsIn hashes slots.old
        → LeadsIn (hashes ++ hash ∷ []) slots.new }
{
    let start = first_place(slots.len(), hash);
    let at = free_place(slots, start);
    slots[at] = row + 1;
}
