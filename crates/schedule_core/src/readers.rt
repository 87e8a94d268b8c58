//! The states of the readers.

ghost use Rattle.std.specs.Prelude.{◌≡◌, ◌<◌, IfOk, IfSome, None, length, replicate, slice_get, slice_set};
ghost use Rattle.std.specs.List.{position};
ghost use Rattle.schedule_core.specs.ReaderStates.{is_held};

use std::alloc::{AllocError, Global};
use std::marker::Model;

/// The number of readers.
const READERS: usize = 64;

/// The visit of a reader inside.
#[derive(Clone, Copy)]
pub(crate) struct Inside {
    /// The number of entries of the list that it entered.
    pub front: u64,
    /// The number of publishes at that time.
    pub publishes: u64,
}

/// The state of a reader.
#[derive(Clone, Copy)]
pub(crate) struct ReaderState {
    /// The number of entries of the longest list that it has seen.
    pub seen: u64,
    pub inside: Option<Inside>,
}

impl ReaderState {
    /// Returns whether it has been inside since before the last of `publishes` publishes.
    fn is_held(&self, publishes: u64) -> bool
        ensures { result ≡ is_held publishes self.now }
    {
        self.inside
            .is_some_and(|inside| inside.publishes < publishes)
    }
}

/// The states of all readers.
#[derive(Drop)]
pub(crate) struct Readers {
    places: Vec<ReaderState>,
}

impl Model for Readers {
    ghost use Rattle.std.specs.Prelude.{◌≡◌, List, length};
    ghost use Rattle.schedule_core.specs.declared.readers.ReaderState.{ReaderState};
    ghost use Rattle.schedule_core.specs.declared.readers.TheConstants.{READERS};

    ghost Value = { List ReaderState };

    ghost view = { λ s. s.places.items };

    ghost invariant = { λ s. length s.places.items ≡ READERS };
}

impl Readers {
    /// Makes readers that are all outside and have seen nothing.
    ///
    /// # Errors
    ///
    /// Out of memory, and nothing else.
    pub fn new(alloc: Global) -> Result<Readers, AllocError>
        ensures { IfOk result (λ s. s ≡ replicate READERS (record { seen = 0; inside = None })) }
    {
        let outside = ReaderState {
            seen: 0,
            inside: None,
        };
        Ok(Readers {
            places: vec![in alloc; outside; READERS]?,
        })
    }

    /// Returns the reader's state, if there is such a reader.
    pub fn get(&self, reader: u32) -> Option<ReaderState>
        ensures { result ≡ slice_get self.now reader }
    {
        self.places.get(reader as usize).copied()
    }

    /// Sets the reader's state.
    pub fn set(&mut self, reader: u32, place: ReaderState)
        requires { reader < length self.old }
        ensures { self.new ≡ slice_set self.old reader place }
    {
        self.places[reader as usize] = place;
    }

    /// Returns the first reader that has been inside since before the last of `publishes` publishes.
    pub fn first_held(&self, publishes: u64) -> Option<u32>
        ensures { result ≡ position (is_held publishes) self.now }
    {
        let first = self.place_of_held(publishes)?;
        Some(first as u32)
    }

    fn place_of_held(&self, publishes: u64) -> Option<usize>
        ensures first { result ≡ position (is_held publishes) self.now }
        ensures bound { IfSome result (λ first. first < READERS) }
    {
        self.places
            .iter()
            .position(|place| place.is_held(publishes))
    }
}
