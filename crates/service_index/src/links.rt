//! Rows of services, each linked to the row before it of the same service.

ghost use Rattle.std.specs.Prelude.{◌≡◌, ◌+◌, ◌<◌, ◌≤◌, [], ◌∷◌, ◌++◌, length, get_or, IfOk};
ghost use Rattle.service_index.specs.LinkedRows.{newest_with};

use std::alloc::{AllocError, Global};
use std::marker::Model;

/// Rows in the order of adding, each of one service, with all memory allocated once. The newest row of a service
/// leads to the others, one after the other. A link is a row plus one, so that 0 is none. Services have rows of their
/// own here, from 0 in the order of their first rows.
#[derive(Drop)]
pub struct RowLinks {
    room: u32,
    /// For each service the link to its newest row.
    newest: Vec<u32>,
    /// For each row the link to the row before it of the same service.
    earlier: Vec<u32>,
}

impl Model for RowLinks {
    ghost use Rattle.std.specs.Prelude.{vec_capacity, ◌≤◌};
    ghost use Rattle.service_index.specs.LinkedRows.{LinkedRows};

    ghost Value = { LinkedRows };

    ghost view = { λ l. record { newest = l.newest.items; earlier = l.earlier.items; room = l.room } };

    ghost invariant = { λ l. (l.room ≤ vec_capacity l.newest) × (l.room ≤ vec_capacity l.earlier) };
}

impl RowLinks {
    /// Makes an empty list, with room for `room` rows.
    ///
    /// # Errors
    ///
    /// Out of memory, and nothing else.
    pub fn with_room(alloc: Global, room: u32) -> Result<Self, AllocError>
        ensures newest { IfOk result (λ links. links.newest ≡ []) }
        ensures earlier { IfOk result (λ links. links.earlier ≡ []) }
        ensures room { IfOk result (λ links. links.room ≡ room) }
    {
        let newest = Vec::with_capacity(alloc, room as usize)?;
        let earlier = Vec::with_capacity(alloc, room as usize)?;
        Ok(RowLinks {
            room,
            newest,
            earlier,
        })
    }

    /// Adds a row of a service that has rows, or of the next service. Allocates nothing.
    pub fn add_row(&mut self, service: usize)
        requires fewer { length self.old.newest ≤ length self.old.earlier }
        requires room { length self.old.earlier < self.old.room }
        ensures newest { self.new.newest ≡
            newest_with self.old.newest service (length self.old.earlier + 1) }
        ensures earlier { self.new.earlier ≡
            self.old.earlier ++ get_or self.old.newest service 0 ∷ [] }
        ensures room { self.new.room ≡ self.old.room }
    {
        let link = self.earlier.len() as u32 + 1;
        let before = self.newest_link(service);
        self.earlier.push_reserved(before);
        if service < self.newest.len() {
            self.newest[service] = link;
        } else {
            self.newest.push_reserved(link);
        }
    }

    /// Returns the link to the newest row of a service, or 0 if there is no such service.
    pub fn newest_link(&self, service: usize) -> u32
        ensures { result ≡ get_or self.now.newest service 0 }
    {
        if service < self.newest.len() {
            self.newest[service]
        } else {
            0
        }
    }

    /// Returns for each row the link to the row before it of the same service.
    pub fn earlier_links(&self) -> &[u32]
        ensures { result.now ≡ self.now.earlier }
    {
        &self.earlier
    }

    /// Returns the number of services that have a row.
    pub fn services(&self) -> usize
        ensures { result ≡ length self.now.newest }
    {
        self.newest.len()
    }

    /// Returns the number of rows.
    pub fn rows(&self) -> usize
        ensures { result ≡ length self.now.earlier }
    {
        self.earlier.len()
    }
}
