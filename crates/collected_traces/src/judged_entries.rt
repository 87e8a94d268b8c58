//! What a search judged of collected entries.

ghost use Rattle.std.specs.Prelude.{◌≡◌, IfOk};
ghost use Rattle.collected_traces.specs.TakenSearch.{may_number_meet, HasJudgedNothing};

use find_traces::JudgedProcess;
use std::alloc::{AllocError, Global};
use std::collections::BTreeMap;

/// Processes that were judged, by the numbers of entries that have them; `None` for one that is not of the search's
/// service.
pub(crate) type JudgedProcesses<'a> = BTreeMap<usize, Option<JudgedProcess<'a>>>;

/// What a search judged of entries, by their numbers, so that it judges the process of each entry at most once.
#[derive(Drop)]
pub(crate) struct JudgedEntries<'a> {
    /// For each entry whether one of its spans may meet the search.
    pub(crate) flags: Vec<bool>,
    /// The processes that were judged of entries that may meet the search.
    pub(crate) processes: JudgedProcesses<'a>,
}

impl<'a> JudgedEntries<'a> {
    /// Makes an empty list, with room for the flags of this number of entries.
    ///
    /// # Errors
    ///
    /// Out of memory, and nothing else.
    pub(crate) fn with_capacity(
        alloc: Global,
        entries: usize,
    ) -> Result<JudgedEntries<'a>, AllocError>
        ensures { IfOk result HasJudgedNothing }
    {
        let flags = Vec::with_capacity(alloc, entries)?;
        Ok(JudgedEntries {
            flags,
            processes: BTreeMap::new(alloc),
        })
    }

    /// Returns whether a span of the entry with a number may meet the search.
    pub(crate) fn may_meet(&self, number: usize) -> bool
        ensures { result ≡ may_number_meet self.now.flags.items number }
    {
        match self.flags.get(number) {
            Some(may_meet) => *may_meet,
            // Impossible: the number is that of a collected entry. No clause says so.
            None => false,
        }
    }
}
