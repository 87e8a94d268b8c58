//! The clock of each span of a trace, by its delta.

ghost use Rattle.std.specs.Prelude.{◌≡◌, ◌<◌, ◌≤◌, ◌+◌, false, true, IfOk, OnOk, Some, map, option_map, length, get_or, cond};
ghost use Rattle.jaeger_model.specs.declared.placed.Placed.{Placed};
ghost use Rattle.trace_model.specs.Adjusting.{host_of};
ghost use Rattle.trace_adjust.specs.KnownClocks.{place_in};
ghost use Rattle.trace_adjust.specs.Hosts.{hosts_of, number_in, AreHostNumbers};

use crate::clock::{HostedSpan, delta_below};
use crate::known_deltas::{KnownDelta, KnownDeltas};
use crate::lent_placed::LentPlaced;
use std::alloc::{AllocError, Global};

/// Returns the places of the spans in an order in which parents come before their children, unless a cycle prevents
/// it: from each span up to one that was reached before, and back. The order only decides how soon all deltas are
/// known.
fn downward_order(alloc: Global, parents: &[Option<u32>]) -> Result<Vec<usize>, AllocError> {
    let mut order = Vec::with_capacity(alloc, parents.len())?;
    let mut reached = vec![in alloc; false; parents.len()]?;
    for start in 0..parents.len() {
        let lowest = order.len();
        climb(parents, start, &mut reached, &mut order)?;
        order[lowest..].reverse();
    }
    Ok(order)
}

/// Climbs from a span to its ancestors, and appends each place that was not reached before.
fn climb(
    parents: &[Option<u32>],
    start: usize,
    reached: &mut Vec<bool>,
    order: &mut Vec<usize>,
) -> Result<(), AllocError>
    ensures { OnOk result (length order.old.items ≤ length order.new.items) }
{
    let mut at = start;
    while at < reached.len() && !reached[at] {
        reached[at] = true;
        order.push(at)?;
        match parents.get(at) {
            Some(Some(parent)) => at = *parent as usize,
            _ => break,
        }
    }
    Ok(())
}

/// A trace with the places of its spans' parents and the numbers of their hosts.
#[derive(Clone, Copy)]
pub(crate) struct ClockedTrace<'t, 's> {
    pub(crate) spans: &'t [LentPlaced<'s>],
    pub(crate) parents: &'t [Option<u32>],
    pub(crate) host_numbers: &'t [u32],
    /// The greatest clock skew that is adjusted, in microseconds.
    pub(crate) max_skew: u64,
    ghost parents_found: { parents.now ≡ map (place_in spans.now) spans.now },
    ghost hosts_numbered: { AreHostNumbers (hosts_of spans.now) spans.now host_numbers.now },
}

impl<'t, 's> ClockedTrace<'t, 's> {
    ghost use Rattle.std.specs.Prelude.{IfSome};
    ghost use Rattle.trace_adjust.specs.KnownClocks.{unset_count, clock_near, clock_with, clocks_with};
    ghost use Rattle.trace_adjust.specs.KnownClocks.{IsClosed, AreClosed, AreSet, AreAllSet, IsMarked, AreMarked};
    ghost use Rattle.trace_adjust.specs.KnownDeltas.{delta_of, deltas_in};

    /// Returns the span at the place, with the number of its host.
    fn hosted(&self, place: usize) -> HostedSpan<'t, 's>
        requires { place < length self.now.spans.now }
        ensures span { (d : Placed) → result.placed.now ≡ get_or self.now.spans.now place d }
        ensures number { number_in (hosts_of self.now.spans.now) (host_of result.placed.now)
            ≡ Some result.host_number }
    {
        HostedSpan {
            placed: &self.spans[place],
            host_number: self.host_numbers[place],
        }
    }

    /// Returns the delta of the span at the place by that of its parent, if that is known.
    fn delta_near(&self, deltas: &KnownDeltas, place: usize, parent: Option<u32>) -> Option<i128>
        requires many { length deltas.now ≡ length self.now.spans.now }
        requires marked { AreMarked self.now.max_skew self.now.spans.now deltas.now }
        requires within { place < length self.now.spans.now }
        ensures { (d : Placed) →
            option_map (clock_with self.now.max_skew (get_or self.now.spans.now place d)) result ≡
            clock_near self.now.max_skew
            (clocks_with self.now.max_skew self.now.spans.now (deltas_in deltas.now))
            (get_or self.now.spans.now place d) parent }
    {
        let Some(parent) = parent else {
            return Some(0);
        };
        let above = parent as usize;
        let known = deltas.get(above)?;
        let above = self.hosted(above);
        Some(delta_below(above, known, self.hosted(place)))
    }

    /// Returns the delta, if there is one, with the mark that says whether it moves the span at the place. Reads the logs
    /// of that span, and of no other.
    fn marked(&self, place: usize, delta: Option<i128>) -> Option<KnownDelta>
        requires { place < length self.now.spans.now }
        ensures delta { delta_of result ≡ delta }
        ensures mark { (d : Placed) → IfSome result
            (IsMarked self.now.max_skew (get_or self.now.spans.now place d).span) }
    {
        match delta {
            Some(delta) => Some(KnownDelta {
                delta,
                moves: self.spans[place].is_moved(self.max_skew, delta),
            }),
            None => None,
        }
    }

    /// Stores the delta of the span at the place and its mark, if the delta is not known and its parent's is. Returns
    /// whether it was stored by this call. A call that stores none reads no log, so the logs of each span are read once.
    fn set_delta(&self, deltas: &mut KnownDeltas, place: usize) -> bool
        requires set { AreSet self.now.max_skew self.now.spans.now (deltas_in deltas.old) }
        requires marked { AreMarked self.now.max_skew self.now.spans.now deltas.old }
        requires within { place < length self.now.spans.now }
        ensures set { AreSet self.now.max_skew self.now.spans.now (deltas_in deltas.new) }
        ensures marked { AreMarked self.now.max_skew self.now.spans.now deltas.new }
        ensures closed { result ≡ false → (deltas_in deltas.new ≡ deltas_in deltas.old)
            × IsClosed self.now.max_skew self.now.spans.now place
            (clocks_with self.now.max_skew self.now.spans.now (deltas_in deltas.new)) }
        ensures fewer { unset_count (deltas_in deltas.new) + cond result 1 0
            ≡ unset_count (deltas_in deltas.old) }
    {
        if deltas.is_known(place) {
            return false;
        }
        let delta = self.delta_near(deltas, place, self.parents[place]);
        deltas.store(place, self.marked(place, delta))
    }

    /// Stores each delta that can be known, from the first span to the last, and returns whether there was one.
    fn set_all_deltas(&self, deltas: &mut KnownDeltas) -> bool
        requires set { AreSet self.now.max_skew self.now.spans.now (deltas_in deltas.old) }
        requires marked { AreMarked self.now.max_skew self.now.spans.now deltas.old }
        ensures set { AreSet self.now.max_skew self.now.spans.now (deltas_in deltas.new) }
        ensures marked { AreMarked self.now.max_skew self.now.spans.now deltas.new }
        ensures closed { result ≡ false → AreClosed self.now.max_skew self.now.spans.now
            (length self.now.spans.now)
            (clocks_with self.now.max_skew self.now.spans.now (deltas_in deltas.new)) }
        ensures fewer { result ≡ true →
            unset_count (deltas_in deltas.new) < unset_count (deltas_in deltas.old) }
    {
        let mut changed = false;
        for place in 0..self.spans.len() {
            if self.set_delta(deltas, place) {
                changed = true;
            }
        }
        changed
    }

    /// Returns the delta of the clock of each span. Spans that reach a root have one; those on a cycle and below one
    /// have none.
    ///
    /// The deltas are stored in the order of [`downward_order`], each by its parent's. The pass after that stores none,
    /// which shows that the others have none.
    pub(crate) fn clock_deltas(&self, alloc: Global) -> Result<KnownDeltas, AllocError>
        ensures { IfOk result (λ v. AreAllSet self.now.max_skew self.now.spans.now (deltas_in v)) }
    {
        let order = downward_order(alloc, self.parents)?;
        let mut deltas = KnownDeltas::none(alloc, self.spans.len())?;
        for place in order {
            // Impossible: a place past the spans, since the order is of their places. No clause says so.
            if place < self.spans.len() {
                self.set_delta(&mut deltas, place);
            }
        }
        loop {
            if !self.set_all_deltas(&mut deltas) {
                return Ok(deltas);
            }
        }
    }
}
