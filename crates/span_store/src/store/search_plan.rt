//! Which traces a search considers. It finds the same among these as among all: these decisions only affect speed,
//! and no answer. There are four ways:
//!
//! * A search by a common service alone considers all traces of that service (`candidates_reported`). A service is
//!   common if many entries are of it. Most traces have a span of it then, so that reading each trace once is cheaper
//!   than reading each span of the service.
//! * Another search reads the spans of the service's entries, and considers the traces of those that may meet it
//!   (`candidates_met`).
//! * Without tags and with a window of starts, it considers the traces that may have a span there, if they are few
//!   (`candidates_within`).
//! * Without tags and with a limit, it tries the traces that start last first (`latest`).
//!
//! A single trace may have most of the spans of a store. So in the last two ways the spans of the traces are counted
//! before these are judged (`have_few_spans`).
//!
//! What it considers it judges there, or after the store is left (`is_judged_outside`).

ghost use Rattle.std.specs.Prelude.{◌≡◌, ◌<◌, Some, IfOk, IfSome};
ghost use Rattle.std.specs.Bool.{OnTrue};
ghost use Rattle.service_index.specs.ServicePlaces.{service_number_of};
ghost use Rattle.span_store.specs.FoundAnswers.{FindsTheSame};

use super::store_search::StoreSearch;
use crate::finding;
use find_traces::PreparedSearch;
use journal_traces::{search_window, spots_after, spots_along, spots_reported, spots_within};
use std::alloc::AllocError;
use trace_assembly::Spots;
use trace_model::Find;

/// A service is common if more than one entry in eight is of it.
const COMMON_ONE_IN: u64 = 8;

/// Returns whether a search has a condition on the service, and no other on spans.
fn is_by_service_alone(query: &Find) -> bool {
    // Each field is named, so that the compiler stops here when a search has a new condition.
    let Find {
        service: _,
        operation,
        tags,
        start_min,
        start_max,
        duration_min,
        duration_max,
        limit: _,
    } = query;
    operation.as_str().is_empty()
        && tags.as_slice().is_empty()
        && start_min.is_none()
        && start_max.is_none()
        && *duration_min == 0
        && *duration_max == 0
}

/// Returns whether a search has a window of starts.
fn has_window(query: &Find) -> bool {
    // Each field is named, so that the compiler stops here when a search has a new condition.
    let Find {
        service: _,
        operation: _,
        tags: _,
        start_min,
        start_max,
        duration_min: _,
        duration_max: _,
        limit: _,
    } = query;
    start_min.is_some() || start_max.is_some()
}

/// The traces of a try, or of a window, may have this number of spans in any store.
const FEW_SPANS: u32 = 65_536;

/// Returns the number of spots that were added, of all traces, since the first one of these traces was: they have no
/// more together. `used` is the number that were added in all.
fn count_since(traces: &[Spots<'_>], used: u32) -> u32 {
    let mut since = 0u32;
    for spots in traces {
        if !spots.is_empty() {
            let after_first = used.saturating_sub(spots.added_estimate());
            since = since.max(after_first.saturating_add(1));
        }
    }
    since
}

/// Counts the spots, up to a number.
fn count_up_to(spots: Spots<'_>, most: usize) -> usize {
    let mut count = 0usize;
    for _spot in spots {
        if count == most {
            return count;
        }
        count = count.saturating_add(1);
    }
    count
}

/// Returns whether traces have fewer spans together than `most` or than [`FEW_SPANS`], whichever is greater, of the `used`
/// that were added in all. No more than twice as many spots are visited, and none if the traces are so new that all
/// spans since the first of theirs are as few. No span is read.
fn have_few_spans(traces: &[Spots<'_>], used: u32, most: u32) -> bool {
    let most = most.max(FEW_SPANS);
    if count_since(traces, used) < most {
        return true;
    }
    let mut count = 0usize;
    for spots in traces {
        count = count.saturating_add(count_up_to(spots.duplicate(), most as usize));
        if count >= most as usize {
            return false;
        }
    }
    true
}

/// The factor by which each try has more traces than the one before.
const TRY_GROWTH: usize = 8;

/// The greatest number of tries.
const MAX_TRIES: u32 = 16;

/// A try has at most one in sixteen of all traces, and of all spans, those of traces that left included, or
/// [`FEW_SPANS`] spans. Each try has eight times as many traces as the one
/// before, so all tries together judge at most 8/7 of one in sixteen traces. That is little compared with a search of all
/// traces, even if they find none, as when the latest traces are of a sender whose clock is ahead.
const TRIED_ONE_IN: usize = 16;

/// The traces of a window are read if they have at most one in four of all spans, or [`FEW_SPANS`].
const WINDOW_ONE_IN: u32 = 4;

/// A try pays if the service has more than one entry for each eight of its traces.
const TRACES_PER_ENTRY: usize = 8;

/// Reading the traces of a window pays if the service has more than four entries for each of them.
const ENTRIES_PER_TRACE: usize = 4;

/// Returns the number of traces, of those that start last, in the first try: a few for each that is requested.
fn first_try(limit: u64) -> usize {
    (limit as usize).saturating_mul(4).max(64)
}

/// Returns whether this number of traces is small compared with all.
fn are_few(count: usize, all: usize) -> bool {
    count <= all / TRIED_ONE_IN
}

/// Up to this number of candidates a search without tags judges them inside the store, whatever its limit is.
const ALWAYS_JUDGED_INSIDE: usize = 4_096;

/// More candidates, however many, are judged inside the store if the limit is less than one in 128 of them. What the
/// search finds is collected there, which costs more than judging a candidate.
const FOUND_ONE_IN: usize = 128;

/// Returns whether a search judges its candidates after the store is left, so that it doesn't hold up the writer
/// meanwhile. One by tags does, since tags are read. One without tags is judged by numbers alone. It is judged outside
/// if it has many candidates and may find a large part of them: else it is quicker to judge them here, and to collect
/// only what it finds.
pub(super) fn is_judged_outside(query: &Find, candidates: usize) -> bool {
    if !query.tags.as_slice().is_empty() {
        return true;
    }
    let many = (candidates / FOUND_ONE_IN) as u64;
    candidates > ALWAYS_JUDGED_INSIDE && (query.limit == 0 || query.limit >= many)
}

/// Returns whether a search has reached its limit.
fn is_full(limit: u64, count: usize) -> bool
    ensures { OnTrue result ((0 < limit) × (count ≡ limit)) }
{
    limit != 0 && count as u64 == limit
}

impl<'s, 'q> StoreSearch<'s, 'q> {
    /// Returns the number of the service of a search that has no other condition, if many entries are of it: most
    /// traces have a span of it then.
    fn common_service(&self) -> Option<u32>
        ensures { IfSome result (λ n. Some n ≡
            service_number_of self.now.held.entries self.now.query.service) }
    {
        if !is_by_service_alone(self.query) {
            return None;
        }
        let mut places = self.places();
        // A service is common if it has at least one place more than this number.
        places.nth((self.store.journal.len() / COMMON_ONE_IN) as usize)?;
        self.requested.service
    }

    /// Returns the spots of the shown traces of which entries of the service with this number brought a span.
    fn candidates_reported(&self, service: u32) -> Result<Vec<Spots<'s>>, AllocError>
        requires { Some service ≡ service_number_of self.now.held.entries self.now.query.service }
        ensures { IfOk result (λ v. FindsTheSame self.now.held self.now.query v.items) }
    {
        let store = self.store;
        // For the prover: the binding lets the clauses of `spots_reported` be used for the result.
        let spots = spots_reported(
            self.alloc,
            store.assembly,
            store.journal,
            store.by_service,
            service,
        )?;
        Ok(spots)
    }

    /// Returns the spots of the shown traces of which an entry of the search's service has a span that meets the
    /// search except for its tags, unless the outline of the entry says that it has no span with these tags.
    fn candidates_met(&self) -> Result<Vec<Spots<'s>>, AllocError>
        ensures { IfOk result (λ v. FindsTheSame self.now.held self.now.query v.items) }
    {
        let places = self.places();
        // For the prover: the binding lets the clauses of `spots_along` be used for the result.
        let spots = spots_along(self.alloc, self.store, self.requested, places, self.query)?;
        Ok(spots)
    }

    /// Returns the spots of the shown traces that a search considers, those of the one opened first at the front.
    /// The search finds the same among these traces as among all. No tag is read.
    fn candidates(&self) -> Result<Vec<Spots<'s>>, AllocError>
        ensures { IfOk result (λ v. FindsTheSame self.now.held self.now.query v.items) }
    {
        if !self.may_find {
            return Ok(Vec::new(self.alloc));
        }
        match self.common_service() {
            Some(service) => self.candidates_reported(service),
            None => self.candidates_met(),
        }
    }

    /// Returns whether a search has a window of starts in which few traces may have a span, compared with the entries
    /// of its service, so that it pays to read these traces.
    fn should_try_window(&self) -> bool {
        if !has_window(self.query) || !self.may_find {
            return false;
        }
        let count = self.store.starts.estimate_within(search_window(self.query));
        self.places()
            .nth(count.saturating_mul(ENTRIES_PER_TRACE))
            .is_some()
    }

    /// Returns the spots of the shown traces that may have a span in the window of a search.
    fn candidates_within(&self) -> Result<Vec<Spots<'s>>, AllocError>
        ensures { IfOk result (λ v. FindsTheSame self.now.held self.now.query v.items) }
    {
        let window = search_window(self.query);
        let store = self.store;
        // For the prover: the binding lets the clauses of `spots_within` be used for the result.
        let spots = spots_within(self.alloc, store.assembly, store.starts, window)?;
        Ok(spots)
    }

    /// Returns the spots of the shown traces that a search without tags considers, if it doesn't pay to try those
    /// that start last: those of its window if they are few and have few spans.
    fn candidates_timed(&self) -> Result<Vec<Spots<'s>>, AllocError>
        ensures { IfOk result (λ v. FindsTheSame self.now.held self.now.query v.items) }
    {
        if self.should_try_window() {
            let spots = self.candidates_within()?;
            let used = self.store.assembly.used();
            if have_few_spans(&spots, used, used / WINDOW_ONE_IN) {
                return Ok(spots);
            }
        }
        self.candidates()
    }

    /// Returns whether it pays to try the `count` traces that start last: they are few, and the search's service has
    /// many entries.
    fn should_try_latest(&self, count: usize) -> bool {
        if !are_few(count, self.store.starts.len()) || !self.may_find {
            return false;
        }
        self.places().nth(count / TRACES_PER_ENTRY).is_some()
    }

    /// Returns the spots of at most `count` shown traces that start last, those of the one opened first at the front,
    /// if they have few spans and the search reaches its limit among them: it finds the same among all then.
    fn latest(&self, count: usize) -> Result<Option<Vec<Spots<'s>>>, AllocError>
        ensures { IfOk result (λ r. IfSome r (λ v.
            FindsTheSame self.now.held self.now.query v.items)) }
    {
        let store = self.store;
        let Some(time) = store.starts.threshold(self.alloc, count)? else {
            return Ok(None);
        };
        let spots = spots_after(self.alloc, store.assembly, store.starts, time)?;
        let used = store.assembly.used();
        if !have_few_spans(&spots, used, used / TRIED_ONE_IN as u32) {
            return Ok(None);
        }
        let prepared = PreparedSearch::new(self.alloc, self.query)?;
        let mut latest = self.among(&prepared, &spots);
        let found = finding::count_found(self.alloc, &mut latest)?;
        if is_full(self.query.limit, found) {
            return Ok(Some(spots));
        }
        Ok(None)
    }

    /// Returns the spots of the shown traces that a search without tags considers, those of the one opened first at
    /// the front. The search finds the same among these traces as among all. A search with a limit tries those that
    /// start last first. If it finds fewer than its limit, it tries more, while that pays.
    fn narrowed(&self) -> Result<Vec<Spots<'s>>, AllocError>
        ensures { IfOk result (λ v. FindsTheSame self.now.held self.now.query v.items) }
    {
        if self.query.limit == 0 {
            return self.candidates_timed();
        }
        let mut count = first_try(self.query.limit);
        for _tried in 0..MAX_TRIES {
            if !self.should_try_latest(count) {
                break;
            }
            if let Some(spots) = self.latest(count)? {
                return Ok(spots);
            }
            count = count.saturating_mul(TRY_GROWTH);
        }
        self.candidates_timed()
    }

    /// Returns the spots of the shown traces that a search considers, those of the one opened first at the front. The
    /// search finds the same among these traces as among all.
    pub(super) fn considered(&self) -> Result<Vec<Spots<'s>>, AllocError>
        ensures { IfOk result (λ v. FindsTheSame self.now.held self.now.query v.items) }
    {
        if self.query.tags.as_slice().is_empty() {
            self.narrowed()
        } else {
            self.candidates()
        }
    }
}
