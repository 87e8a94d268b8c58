ghost use Rattle.std.specs.Prelude.{◌≡◌, ℕ, ◌+◌, ◌*◌, ◌<◌, true, [], ◌∷◌, ◌++◌, length, get_or, IfOk};
ghost use Rattle.hash_tables.specs.RowPlaces.{LeadsTo, Found};

use crate::growing::{NextPlaces, add_free, growths_for, places_before};
use crate::slots::{first_place, mark_row, walk};
use crate::sought::Sought;
use std::alloc::{AllocError, Global};
use std::marker::Model;

/// Places that lead to rows, with room for a fixed number of rows.
#[derive(Drop)]
pub struct RowPlaces {
    room: u32,
    /// The number of growths still to come.
    growths: u32,
    /// The table in use, which leads to all rows: at the first place that was free from where its hash points, the
    /// row plus one; 0 at a free place.
    slots: Vec<u32>,
    /// The table after the next growth. Its preparation begins when a quarter of the places in use are taken, and
    /// ends before half of them are.
    next: NextPlaces,
}

impl Model for RowPlaces {
    ghost use Rattle.std.specs.Prelude.{vec_capacity, length, ◌-◌};
    ghost use Rattle.hash_tables.specs.RowPlaces.{Places};
    ghost use Rattle.hash_tables.specs.Sizes.{places_before, IsSized};

    ghost Value = { Places };

    ghost view = { λ p. record {
      slots = record {
        used = p.slots.items;
        next = p.next.slots.items;
        places = places_before p.room (p.growths - 1);
        moved = p.next.moved;
      };
      room = p.room;
    } };

    ghost invariant = { λ p. IsSized p.room p.growths (length p.slots.items)
        (vec_capacity p.slots) (vec_capacity p.next.slots) };
}

impl RowPlaces {
    /// Makes places that lead to no row, with room for `room` rows. Touches at most three places.
    ///
    /// # Errors
    ///
    /// Out of memory, and nothing else.
    pub fn with_room(alloc: Global, room: u32) -> Result<Self, AllocError>
        ensures leads { IfOk result (λ places. LeadsTo [] places.slots) }
        ensures room { IfOk result (λ places. places.room ≡ room) }
    {
        let growths = growths_for(room);
        let mut slots = Vec::with_capacity(alloc, places_before(room, growths % 2))?;
        let next = Vec::with_capacity(alloc, places_before(room, 1 - growths % 2))?;
        add_free(&mut slots, places_before(room, growths));
        Ok(RowPlaces {
            room,
            growths,
            slots,
            next: NextPlaces {
                slots: next,
                moved: 0,
            },
        })
    }

    /// Finds a row that is sought, by its hash. All rows that are sought have this hash.
    pub fn find<S: Sought>(&self, hash: u64, sought: &S) -> Option<u32>
        requires can_read { S.can_read sought.now }
        requires leads { LeadsTo (S.hashes sought.now) self.now.slots }
        requires hash { (row : ℕ) → row < length (S.hashes sought.now)
            → S.is_sought sought.now row ≡ true → get_or (S.hashes sought.now) row 0 ≡ hash }
        ensures { Found (length (S.hashes sought.now)) (S.is_sought sought.now) result }
    {
        walk(&self.slots, first_place(self.slots.len(), hash), sought)
    }

    /// Does one step of the next growth. Grows if one more row would take half of the places.
    fn make_place<S: Sought>(&mut self, rows: &S)
        requires can_read { S.can_read rows.now }
        requires leads { LeadsTo (S.hashes rows.now) self.old.slots }
        requires room { length (S.hashes rows.now) < self.old.room }
        ensures half { 2 * length (S.hashes rows.now) + 2 < length self.new.slots.used }
        ensures leads { LeadsTo (S.hashes rows.now) self.new.slots }
        ensures room { self.new.room ≡ self.old.room }
    {
        if self.growths == 0 {
            return;
        }
        let growths = self.growths - 1;
        let places = places_before(self.room, growths);
        self.next.prepare(rows, places);
        if self.slots.len() <= 2 * (rows.rows() + 1) {
            self.next.replace(&mut self.slots, rows, places);
            self.growths = growths;
        }
    }

    /// Marks a place for the row after all others, by its hash. Allocates nothing.
    pub fn mark<S: Sought>(&mut self, hash: u64, rows: &S)
        requires can_read { S.can_read rows.now }
        requires leads { LeadsTo (S.hashes rows.now) self.old.slots }
        requires room { length (S.hashes rows.now) < self.old.room }
        ensures leads { LeadsTo (S.hashes rows.now ++ hash ∷ []) self.new.slots }
        ensures room { self.new.room ≡ self.old.room }
    {
        self.make_place(rows);
        mark_row(&mut self.slots, hash, rows.rows() as u32);
    }
}
