//! Why a job was not acknowledged, and by which list.

use read_side::{HistoryPrefix, StoreName};
use trace_model::Refusal;

/// Why a job was not acknowledged.
///
/// A refusal by the keeper comes with the list by which it judged, a prefix of the store's history. By that list
/// [`Refusal::Conflict`], [`Refusal::Stale`] and [`Refusal::JournalFull`] are the right refusals of the job's
/// entry. After [`Refusal::NoMemory`] nothing was added, and after [`Refusal::Deferred`] the entry was added, or its
/// batch was before, and a later publish shows it. Of these two the list shows only that it would have taken the entry,
/// or has its batch.
#[derive(Drop)]
pub struct Denial<N: StoreName> {
    pub refusal: Refusal,
    /// All that the keeper had accepted when it judged; None if the clerk ended without judging the job.
    pub list: Option<HistoryPrefix<N>>,
}
