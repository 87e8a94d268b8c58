//! The number of places of a table, and the table that is prepared for the next growth.

ghost use Rattle.std.specs.Prelude.{◌≡◌, ◌+◌, ◌-◌, ◌*◌, ◌^◌, ◌<◌, ◌≤◌, [], ◌++◌, length, take, replicate, vec_capacity};
ghost use Rattle.hash_tables.specs.RowPlaces.{LeadsIn, IsPrepared};
ghost use Rattle.hash_tables.specs.Sizes.{places_before};

use crate::slots::mark_row;
use crate::sought::Sought;
use std::mem;

/// Preparation begins when there is a row for every 16 places of the next table. Then about a quarter of the places
/// in use are taken.
const PLACES_PER_ROW: usize = 16;

/// The number of free places that one step adds.
const FREE_STEP: usize = 64;

/// The number of rows that one step moves. With three, all rows are moved before half of the places in use are
/// taken.
const ROW_STEP: usize = 3;

/// Returns the number of places while this number of growths is still to come.
pub(crate) fn places_before(room: u32, growths: u32) -> usize
    requires { growths ≤ 16 }
    ensures { result ≡ places_before room growths }
{
    (2 * room as usize + 1) >> (2 * growths)
}

/// Returns the total number of growths. The first table has at most three places.
#[tactic(auto, using(crate::proofs::Sizes::places_fourth))]
pub(crate) fn growths_for(room: u32) -> u32
    ensures few { result ≤ 16 }
    ensures some { 0 < places_before room result }
{
    for growths in 0..16 {
        if places_before(room, growths) < 4 {
            return growths;
        }
    }
    16
}

/// Adds free places up to this number.
pub(crate) fn add_free(slots: &mut Vec<u32>, places: usize)
    requires within { length slots.old.items ≤ places }
    requires capacity { places ≤ vec_capacity slots.old }
    ensures items { slots.new.items ≡
        slots.old.items ++ replicate (places - length slots.old.items) 0 }
    ensures capacity { vec_capacity slots.new ≡ vec_capacity slots.old }
{
    for _added in slots.len()..places {
        slots.push_reserved(0);
    }
}

/// The table that is prepared for the next growth. First its places are added, all of them free; then the rows are
/// moved to it in order.
#[derive(Drop)]
pub(crate) struct NextPlaces {
    pub(crate) slots: Vec<u32>,
    /// The number of rows moved so far, from the first one on.
    pub(crate) moved: u32,
}

impl NextPlaces {
    /// Moves the rows before `end` that aren't moved yet.
    fn move_rows<S: Sought>(&mut self, rows: &S, end: usize)
        requires can_read { S.can_read rows.now }
        requires fits { length (S.hashes rows.now) < 2 ^ 32 }
        requires half { 2 * length (S.hashes rows.now) < length self.old.slots.items }
        requires end { self.old.moved ≤ end }
        requires within { end ≤ length (S.hashes rows.now) }
        requires leads { LeadsIn (take self.old.moved (S.hashes rows.now)) self.old.slots.items }
        ensures moved { self.new.moved ≡ end }
        ensures length { length self.new.slots.items ≡ length self.old.slots.items }
        ensures leads { LeadsIn (take end (S.hashes rows.now)) self.new.slots.items }
        ensures capacity { vec_capacity self.new.slots ≡ vec_capacity self.old.slots }
    {
        for row in self.moved as usize..end {
            mark_row(&mut self.slots, rows.hash_at(row), row as u32);
        }
        self.moved = end as u32;
    }

    /// Does one step: adds a few free places, or moves a few rows. Does nothing while there are few rows.
    pub(crate) fn prepare<S: Sought>(&mut self, rows: &S, places: usize)
        requires can_read { S.can_read rows.now }
        requires fits { length (S.hashes rows.now) < 2 ^ 32 }
        requires capacity { places ≤ vec_capacity self.old.slots }
        requires half { 2 * length (S.hashes rows.now) < places }
        requires prepared { IsPrepared (S.hashes rows.now) places self.old.slots.items
            self.old.moved }
        ensures prepared { IsPrepared (S.hashes rows.now) places self.new.slots.items
            self.new.moved }
        ensures capacity { vec_capacity self.new.slots ≡ vec_capacity self.old.slots }
    {
        if PLACES_PER_ROW * rows.rows() < places {
            return;
        }
        let free = self.slots.len();
        if free < places {
            add_free(&mut self.slots, (free + FREE_STEP).min(places));
        } else {
            self.move_rows(rows, (self.moved as usize + ROW_STEP).min(rows.rows()));
        }
    }

    /// Does the remaining steps, and swaps this table with the one in use, which it empties.
    pub(crate) fn replace<S: Sought>(&mut self, used: &mut Vec<u32>, rows: &S, places: usize)
        requires can_read { S.can_read rows.now }
        requires fits { length (S.hashes rows.now) < 2 ^ 32 }
        requires capacity { places ≤ vec_capacity self.old.slots }
        requires half { 2 * length (S.hashes rows.now) < places }
        requires prepared { IsPrepared (S.hashes rows.now) places self.old.slots.items
            self.old.moved }
        ensures places { length used.new.items ≡ places }
        ensures leads { LeadsIn (S.hashes rows.now) used.new.items }
        ensures used_capacity { vec_capacity used.new ≡ vec_capacity self.old.slots }
        ensures none { self.new.slots.items ≡ [] }
        ensures none_moved { self.new.moved ≡ 0 }
        ensures capacity { vec_capacity self.new.slots ≡ vec_capacity used.old }
    {
        add_free(&mut self.slots, places);
        self.move_rows(rows, rows.rows());
        mem::swap(used, &mut self.slots);
        self.slots.clear();
        self.moved = 0;
    }
}
