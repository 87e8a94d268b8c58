//! What became of a job.

use trace_model::Refusal;

/// The result of a job: the place of the entry that answers for it, or the keeper's refusal.
#[derive(Drop)]
pub struct Account {
    /// The seat that submitted the job.
    pub seat: u16,
    /// The job's number there, counted from 1.
    pub number: u64,
    /// The place in the list, counted from 1, of the job's entry or of the one that had its batch before; or why
    /// there is none.
    pub answer: Result<u64, Refusal>,
}
