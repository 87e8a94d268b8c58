//! The deltas of the spans of a trace, as far as they are known.

ghost use Rattle.std.specs.Prelude.{◌≡◌, ◌<◌, IfOk, IsSome, None, is_some, get_or, length, map, replicate, set};
ghost use Rattle.trace_adjust.specs.KnownDeltas.{delta_or_zero, known_by, mark_when};

use std::alloc::{AllocError, Global};
use std::marker::Model;

/// The delta of the clock of a span, in microseconds, and whether it moves the span.
#[derive(Clone, Copy)]
pub(crate) struct KnownDelta {
    pub(crate) delta: i128,
    /// Stored with the delta, because computing it reads each log of the span.
    pub(crate) moves: bool,
}

/// Whether the delta of a span is known, and whether it moves the span. It takes one byte, an `Option<bool>` two.
#[derive(Clone, Copy)]
enum Mark {
    Unknown,
    /// The delta doesn't move the span.
    Stays,
    /// The delta moves the span.
    Moves,
}

const _: () = prove!(size_of::<Mark>() == 1);

/// Returns the mark of a known delta.
fn mark_when(moves: bool) -> Mark
    ensures { result ≡ mark_when moves }
{
    if moves { Mark::Moves } else { Mark::Stays }
}

/// Returns the delta if the mark says that it is known.
fn known_by(mark: Mark, delta: i128) -> Option<KnownDelta>
    ensures { result ≡ known_by mark delta }
{
    match mark {
        Mark::Unknown => None,
        Mark::Stays => Some(KnownDelta {
            delta,
            moves: false,
        }),
        Mark::Moves => Some(KnownDelta { delta, moves: true }),
    }
}

/// For each span of a trace the delta of its clock, or none as long as that is not known. It takes 17 bytes a span,
/// where an `Option<i128>` takes 32.
#[derive(Drop)]
pub(crate) struct KnownDeltas {
    marks: Vec<Mark>,
    /// 0 where no delta is known.
    deltas: Vec<i128>,
}

impl Model for KnownDeltas {
    ghost use Rattle.std.specs.Prelude.{List, Option};
    ghost use Rattle.trace_adjust.specs.declared.known_deltas.KnownDelta.{KnownDelta};
    ghost use Rattle.trace_adjust.specs.KnownDeltas.{known_where, AreParts};

    ghost Value = { List (Option KnownDelta) };

    ghost view = { λ k. known_where k.marks.items k.deltas.items };

    ghost invariant = { λ k. AreParts k.marks.items k.deltas.items };
}

impl KnownDeltas {
    /// Returns `count` deltas, none of them known.
    pub(crate) fn none(alloc: Global, count: usize) -> Result<KnownDeltas, AllocError>
        ensures { IfOk result (λ k. k ≡ replicate count None) }
    {
        let marks = vec![in alloc; Mark::Unknown; count]?;
        let deltas = vec![in alloc; 0; count]?;
        Ok(KnownDeltas { marks, deltas })
    }

    pub(crate) fn is_known(&self, place: usize) -> bool
        requires { place < length self.now }
        ensures { result ≡ is_some (get_or self.now place None) }
    {
        !matches!(self.marks[place], Mark::Unknown)
    }

    /// Returns the delta of the span at the place, if that is known.
    pub(crate) fn get(&self, place: usize) -> Option<KnownDelta>
        ensures delta { result ≡ get_or self.now place None }
        ensures within { IsSome result → place < length self.now }
    {
        if place >= self.marks.len() {
            return None;
        }
        known_by(self.marks[place], self.deltas[place])
    }

    /// Stores the delta of the span at the place, which has none yet, if there is one. Returns whether there is.
    pub(crate) fn store(&mut self, place: usize, known: Option<KnownDelta>) -> bool
        requires place { place < length self.old }
        requires unknown { get_or self.old place None ≡ None }
        ensures after { self.new ≡ set self.old place known }
        ensures stored { result ≡ is_some known }
    {
        let Some(known) = known else {
            return false;
        };
        self.marks[place] = mark_when(known.moves);
        self.deltas[place] = known.delta;
        true
    }

    /// Returns the delta of each span, 0 where none is known. Allocates nothing.
    pub(crate) fn into_deltas(self) -> Vec<i128>
        ensures { result.items ≡ map delta_or_zero self }
    {
        self.deltas
    }
}
