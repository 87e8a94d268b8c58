ghost use Rattle.std.specs.Prelude.{◌≡◌, ◌<◌, ◌≤◌, [], ◌∷◌, ◌++◌, None, Some, length, IfOk, position};
ghost use Rattle.std.specs.Bool.{OnTrue};
ghost use Rattle.jaeger_model.specs.Parents.{same_trace};
ghost use Rattle.hash_tables.specs.IdRows.{id_at, IsEntered};

use crate::places::RowPlaces;
use crate::sought_id::{SoughtId, id_hash};
use jaeger_model::TraceId;
use std::alloc::{AllocError, Global};
use std::hash::RandomState;
use std::marker::Model;

/// The row of an id that was entered.
#[derive(Clone, Copy, Debug, PartialEq, Eq)]
pub enum Entered {
    /// The id was in the table.
    Known(u32),
    /// The id was added.
    Added(u32),
}

/// Ids in the order in which they were added.
#[derive(Drop)]
pub struct IdTable {
    keys: RandomState,
    /// Leads to the rows of the ids by their hashes.
    places: RowPlaces,
    ids: Vec<TraceId>,
}

impl Model for IdTable {
    ghost use Rattle.std.specs.Prelude.{vec_capacity};
    ghost use Rattle.hash_tables.specs.IdRows.{Rows};
    ghost use Rattle.hash_tables.specs.IdProbes.{IsHoused};

    ghost Value = { Rows };

    ghost view = { λ t. record { ids = t.ids.items; room = t.places.room } };

    ghost invariant = { λ t. IsHoused t.keys t.places (vec_capacity t.ids) t.ids.items };
}

impl IdTable {
    /// Makes an empty table with room for `room` ids.
    ///
    /// # Errors
    ///
    /// Out of memory, and nothing else.
    pub fn with_room(alloc: Global, keys: RandomState, room: u32) -> Result<Self, AllocError>
        ensures ids { IfOk result (λ table. table.ids ≡ []) }
        ensures room { IfOk result (λ table. table.room ≡ room) }
    {
        let places = RowPlaces::with_room(alloc, room)?;
        let ids = Vec::with_capacity(alloc, room as usize)?;
        Ok(IdTable { keys, places, ids })
    }

    /// Returns the number of ids.
    pub fn used(&self) -> u32
        ensures used { result ≡ length self.now.ids }
        ensures within { result ≤ self.now.room }
    {
        self.ids.len() as u32
    }

    /// Returns the id of a row.
    pub fn id(&self, row: u32) -> TraceId
        requires { row < length self.now.ids }
        ensures { result ≡ id_at self.now.ids row }
    {
        self.ids[row as usize]
    }

    /// Returns the row of the id, if it was added.
    pub fn find(&self, id: TraceId) -> Option<u32>
        ensures { result ≡ position (same_trace id) self.now.ids }
    {
        let sought = SoughtId {
            keys: self.keys,
            ids: &self.ids,
            id,
        };
        self.places.find(id_hash(self.keys, id), &sought)
    }

    /// Returns whether the id has this row, without a lookup.
    fn has_row(&self, row: u32, id: TraceId) -> bool
        ensures { OnTrue result (position (same_trace id) self.now.ids ≡ Some row) }
    {
        (row as usize) < self.ids.len() && self.ids[row as usize] == id
    }

    /// Returns the row of the id, if it was added. The given row is a guess; if it is right, there is no lookup.
    pub fn find_with_guess(&self, row: u32, id: TraceId) -> Option<u32>
        ensures { result ≡ position (same_trace id) self.now.ids }
    {
        if self.has_row(row, id) {
            Some(row)
        } else {
            self.find(id)
        }
    }

    /// Adds an id unless it is in the table. Allocates nothing. The given row is a guess; if it is right, there is
    /// no lookup. Hashes the id at most once.
    pub fn enter_with_guess(&mut self, row: u32, id: TraceId) -> Entered
        requires { length self.old.ids < self.old.room }
        ensures entered { IsEntered self.old.ids id result self.new.ids }
        ensures room { self.new.room ≡ self.old.room }
    {
        if self.has_row(row, id) {
            return Entered::Known(row);
        }
        let new_row = self.used();
        let hash = id_hash(self.keys, id);
        let rows = SoughtId {
            keys: self.keys,
            ids: &self.ids,
            id,
        };
        match self.places.find(hash, &rows) {
            Some(row) => return Entered::Known(row),
            None => self.places.mark(hash, &rows),
        }
        self.ids.push_reserved(id);
        Entered::Added(new_row)
    }
}
