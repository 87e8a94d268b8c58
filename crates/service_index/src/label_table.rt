//! Numbers by labels that are stored elsewhere.

ghost use Rattle.std.specs.Prelude.{◌≡◌, ◌<◌, [], length, IfOk};
ghost use Rattle.std.specs.Bool.{OnTrue};
ghost use Rattle.service_index.specs.Labels.{Labelling, label_value};
ghost use Rattle.service_index.specs.Probes.{IsLabelTable, row_of, with_number};

use crate::guesses::Guesses;
use crate::labels::{Label, Labels, is_label};
use crate::sought_label::{SoughtLabel, label_hash};
use hash_tables::RowPlaces;
use std::alloc::{AllocError, Global};
use std::hash::RandomState;
use std::marker::Model;

/// Numbers of different labels, in the order of adding. The row of a number is the number of rows before it.
#[derive(Drop)]
pub struct LabelTable {
    keys: RandomState,
    /// Leads to the rows of the numbers by the hashes of their labels.
    places: RowPlaces,
    numbers: Vec<u32>,
    /// Rows that are tried before the label is hashed.
    guesses: Guesses,
}

impl Model for LabelTable {
    ghost use Rattle.std.specs.Prelude.{vec_capacity, ◌≤◌};
    ghost use Rattle.service_index.specs.Probes.{Table};

    ghost Value = { Table };

    ghost view = { λ t. record { numbers = t.numbers.items; room = t.places.room; keys = t.keys; slots = t.places.slots } };

    ghost invariant = { λ t. t.places.room ≤ vec_capacity t.numbers };
}

impl LabelTable {
    /// Makes an empty table, with room for `room` numbers.
    ///
    /// # Errors
    ///
    /// Out of memory, and nothing else.
    pub fn with_room(alloc: Global, keys: RandomState, room: u32) -> Result<Self, AllocError>
        ensures numbers { IfOk result (λ table. table.numbers ≡ []) }
        ensures room { IfOk result (λ table. table.room ≡ room) }
        ensures leads { IfOk result (λ table. (labels : Labelling) → IsLabelTable labels table) }
    {
        let places = RowPlaces::with_room(alloc, room)?;
        let numbers = Vec::with_capacity(alloc, room as usize)?;
        Ok(LabelTable {
            keys,
            places,
            numbers,
            guesses: Guesses::new(),
        })
    }

    /// Returns the numbers, by their rows.
    pub fn numbers(&self) -> &[u32]
        ensures { result.now ≡ self.now.numbers }
    {
        &self.numbers
    }

    /// Returns the row of a label, or the number of rows if the label is not known.
    pub fn row_of<L: Labels>(&self, labels: &L, label: Label<'_>) -> u32
        requires { IsLabelTable (L.labels labels.now) self.now }
        ensures { result ≡ row_of (L.labels labels.now) self.now.numbers (label_value label.entry) }
    {
        let sought = SoughtLabel {
            keys: self.keys,
            labels,
            numbers: &self.numbers,
            label,
        };
        match self.places.find(label_hash(self.keys, label), &sought) {
            Some(row) => row,
            None => self.numbers.len() as u32,
        }
    }

    /// Returns whether a label has this row, without a lookup.
    fn has_row<L: Labels>(&self, labels: &L, row: u32, label: Label<'_>) -> bool
        requires { IsLabelTable (L.labels labels.now) self.now }
        ensures { OnTrue result ((row < length self.now.numbers)
            × (row ≡ row_of (L.labels labels.now) self.now.numbers (label_value label.entry))) }
    {
        let numbers = self.numbers();
        (row as usize) < numbers.len() && is_label(labels, numbers[row as usize], label)
    }

    /// Adds a number unless a number with its label is there, and returns the row of the label. Allocates nothing.
    /// If the label equals the one that was last found in its class, there is no lookup.
    pub fn add<L: Labels>(&mut self, labels: &L, n: u32) -> u32
        requires leads { IsLabelTable (L.labels labels.now) self.old }
        requires held { n < (L.labels labels.now).count }
        requires room { length self.old.numbers < self.old.room }
        ensures row { result ≡ row_of (L.labels labels.now) self.old.numbers
            ((L.labels labels.now).at n) }
        ensures numbers { self.new.numbers ≡ with_number (L.labels labels.now) self.old.numbers n }
        ensures room { self.new.room ≡ self.old.room }
        ensures leads { IsLabelTable (L.labels labels.now) self.new }
    {
        let label = labels.label_at(n);
        let guess = self.guesses.row(label);
        if self.has_row(labels, guess, label) {
            return guess;
        }
        let hash = label_hash(self.keys, label);
        let sought = SoughtLabel {
            keys: self.keys,
            labels,
            numbers: &self.numbers,
            label,
        };
        match self.places.find(hash, &sought) {
            Some(row) => {
                self.guesses.keep(label, row);
                return row;
            }
            None => self.places.mark(hash, &sought),
        }
        let row = self.numbers.len() as u32;
        self.numbers.push_reserved(n);
        self.guesses.keep(label, row);
        row
    }
}
