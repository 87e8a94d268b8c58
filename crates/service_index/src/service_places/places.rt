ghost use Rattle.std.specs.Prelude.{◌≡◌, ◌<◌, ◌≤◌, [], map, length, get_or, IfOk};
ghost use Rattle.std.specs.Arc.{arc_value};
ghost use Rattle.service_index.specs.Probes.{row_of};
ghost use Rattle.trace_model.specs.Histories.{before_last};
ghost use Rattle.service_index.specs.ServicePlaces.{ArePlacesKept, places_of, service_number_of};
ghost use Rattle.service_index.specs.ServicePlaces.{service_label, service_labels};

use crate::label_table::LabelTable;
use crate::links::RowLinks;
use crate::service_places::along::Places;
use crate::service_places::reporters::{Reporters, service_label};
use std::alloc::{AllocError, Global};
use std::hash::RandomState;
use std::marker::Model;
use std::sync::Arc;
use trace_model::Entry;

/// The places of the entries of each service in a list of entries that grows at its end, and a number for each
/// service: the number of entries before the first one of it.
#[derive(Drop)]
pub struct ServicePlaces {
    batches: u32,
    /// For each service the number of entries before the first one of it.
    services: LabelTable,
    /// The entries, linked for each service: the link to an entry, which is its row plus one, is its place.
    links: RowLinks,
    /// For each entry the number of its service.
    service_numbers: Vec<u32>,
}

impl Model for ServicePlaces {
    ghost use Rattle.std.specs.Prelude.{◌≡◌, ◌≤◌, vec_capacity};
    ghost use Rattle.service_index.specs.ServicePlaces.{ServicePlacesValue};

    ghost Value = { ServicePlacesValue };

    ghost view = { λ p. record {
      services = p.services;
      newest = p.links.newest;
      earlier = p.links.earlier;
      service_numbers = p.service_numbers.items;
      batches = p.batches;
    } };

    ghost invariant = { λ p. (p.links.room ≡ p.batches)
        × (p.batches ≤ vec_capacity p.service_numbers) };
}

impl ServicePlaces {
    /// Makes an index of no entry, with room for `batches` entries. The keys are those of the hash by which
    /// services are found.
    ///
    /// # Errors
    ///
    /// Out of memory, and nothing else.
    pub fn with_room(alloc: Global, keys: RandomState, batches: u32) -> Result<Self, AllocError>
        ensures kept { IfOk result (λ places. ArePlacesKept [] places) }
        ensures batches { IfOk result (λ places. places.batches ≡ batches) }
    {
        let services = LabelTable::with_room(alloc, keys, batches)?;
        let links = RowLinks::with_room(alloc, batches)?;
        let service_numbers = Vec::with_capacity(alloc, batches as usize)?;
        Ok(ServicePlaces {
            batches,
            services,
            links,
            service_numbers,
        })
    }

    /// Adds the last entry of the list, which is one entry longer. Allocates nothing.
    pub fn add(&mut self, entries: &[Arc<Entry>])
        requires some { 0 < length entries.now }
        requires kept { ArePlacesKept (before_last (map arc_value entries.now)) self.old }
        requires batches { length entries.now ≤ self.old.batches }
        ensures kept { ArePlacesKept (map arc_value entries.now) self.new }
        ensures batches { self.new.batches ≡ self.old.batches }
    {
        let entry_index = (entries.len() - 1) as u32;
        let service = self.services.add(&Reporters { entries }, entry_index) as usize;
        self.service_numbers
            .push_reserved(self.services.numbers()[service]);
        self.links.add_row(service);
    }

    /// Returns the places of a service's entries, the newest first.
    pub fn places_of(&self, entries: &[Arc<Entry>], service: &str) -> Places<'_>
        requires { ArePlacesKept (map arc_value entries.now) self.now }
        ensures { result ≡ places_of (map arc_value entries.now) service.now }
    {
        let row = self.row_of(entries, service);
        Places {
            earlier: self.links.earlier_links(),
            at: self.links.newest_link(row),
        }
    }

    /// Returns the number of the service of the entry at an index, which counts from 0.
    pub fn service_number_at(&self, entry_index: u32) -> u32
        requires { entry_index < length self.now.service_numbers }
        ensures { result ≡ get_or self.now.service_numbers entry_index 0 }
    {
        self.service_numbers[entry_index as usize]
    }

    /// Returns the number of a service, or none if no entry is of it.
    pub fn service_number_of(&self, entries: &[Arc<Entry>], service: &str) -> Option<u32>
        requires { ArePlacesKept (map arc_value entries.now) self.now }
        ensures { result ≡ service_number_of (map arc_value entries.now) service.now }
    {
        let numbers = self.services.numbers();
        let row = self.row_of(entries, service);
        if row < numbers.len() {
            Some(numbers[row])
        } else {
            None
        }
    }

    /// Returns the row of a service, or the number of services if no entry is of it.
    fn row_of(&self, entries: &[Arc<Entry>], service: &str) -> usize
        requires { ArePlacesKept (map arc_value entries.now) self.now }
        ensures { result ≡ row_of (service_labels (map arc_value entries.now))
            self.now.services.numbers (service_label service.now) }
    {
        self.services
            .row_of(&Reporters { entries }, service_label(service)) as usize
    }
}
