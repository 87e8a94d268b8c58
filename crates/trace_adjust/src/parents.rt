//! The places of the parents of spans.

ghost use Rattle.std.specs.Prelude.{◌≡◌, ℕ, IfOk, map};
ghost use Rattle.std.specs.Ordering.{nat_cmp};
ghost use Rattle.std.specs.BTreeMap.{get};
ghost use Rattle.trace_adjust.specs.KnownClocks.{first_at, parent_at, place_in};
ghost use Rattle.trace_adjust.specs.SpanDeltas.{AreRepeated};

use crate::lent_placed::LentPlaced;
use std::alloc::{AllocError, Global};
use std::collections::BTreeMap;
use trace_model::place_u32;

/// For each span of a trace the place of its parent, and whether a span before it has its id.
#[derive(Drop)]
pub(crate) struct ParentPlaces {
    pub(crate) parents: Vec<Option<u32>>,
    pub(crate) repeated: Vec<bool>,
}

/// The place of the first span with each id, and for each span whether one before it has its id.
#[derive(Drop)]
struct FirstPlaces {
    places: BTreeMap<u64, u32>,
    repeated: Vec<bool>,
}

/// Returns the place of the first span with each id, and which ids are repeated.
fn first_places(alloc: Global, trace: &[LentPlaced]) -> Result<FirstPlaces, AllocError>
    ensures places { IfOk result (λ f.
        (id : ℕ) → get nat_cmp f.places id ≡ first_at id trace.now) }
    ensures repeated { IfOk result (λ f. AreRepeated trace.now f.repeated.items) }
{
    let mut places = BTreeMap::new(alloc);
    let mut repeated = Vec::with_capacity(alloc, trace.len())?;
    for (place, placed) in trace.iter().enumerate() {
        let id = placed.id().0;
        let is_repeated = places.contains_key(&id);
        repeated.push(is_repeated)?;
        if !is_repeated {
            places.insert(id, place_u32(place)?)?;
        }
    }
    Ok(FirstPlaces { places, repeated })
}

/// Returns the place of a span's parent.
fn place_of_parent(first: &BTreeMap<u64, u32>, placed: &LentPlaced) -> Option<u32>
    ensures { result ≡ parent_at (λ id. get nat_cmp first.now id) placed.now }
{
    let parent = placed.parent();
    if parent.0 == 0 {
        return None;
    }
    first.get(&parent.0).copied()
}

/// Returns the places of the parents of the spans.
fn parent_places(
    alloc: Global,
    trace: &[LentPlaced],
    first: &BTreeMap<u64, u32>,
) -> Result<Vec<Option<u32>>, AllocError>
    requires { (id : ℕ) → get nat_cmp first.now id ≡ first_at id trace.now }
    ensures { IfOk result (λ v. v.items ≡ map (place_in trace.now) trace.now) }
{
    let mut parents = Vec::with_capacity(alloc, trace.len())?;
    for placed in trace {
        parents.push(place_of_parent(first, placed))?;
    }
    Ok(parents)
}

impl ParentPlaces {
    /// Finds the places of the parents of the spans, and which ids are repeated. The table of first places is dropped.
    pub(crate) fn of(alloc: Global, trace: &[LentPlaced]) -> Result<ParentPlaces, AllocError>
        ensures parents { IfOk result (λ p.
            p.parents.items ≡ map (place_in trace.now) trace.now) }
        ensures repeated { IfOk result (λ p. AreRepeated trace.now p.repeated.items) }
    {
        let first = first_places(alloc, trace)?;
        let parents = parent_places(alloc, trace, &first.places)?;
        Ok(ParentPlaces {
            parents,
            repeated: first.repeated,
        })
    }
}
