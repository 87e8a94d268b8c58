//! The interface between a session and its store, which is its own or shared.
//!
//! Contracts see a store by what it knows: lists of entries that are prefixes of one growing history, and which of them
//! refused a batch. The relations of a [`Backend`] say what its calls do, and the laws of the trait say what that means
//! for what it knows. An accepted batch is at its place in a list that is known from then on. An answer is the plain
//! store's, for a list that starts with every list known before. A batch that is refused by `JournalFull`, `Stale` or
//! `Conflict` is refused by a list, and the store knows this from then on.

ghost use Rattle.std.specs.Prelude.{◌≡◌, ℕ, Result};
ghost use Rattle.jaeger_model.specs.declared.batch.Batch.{Batch as BatchValue};
ghost use Rattle.trace_model.specs.declared.limits.Limits.{Limits};
ghost use Rattle.trace_model.specs.declared.query.Query.{Query as QueryValue};
ghost use Rattle.trace_model.specs.declared.answer.Answer.{Answer as AnswerValue};
ghost use Rattle.trace_model.specs.declared.refusal.Refusal.{Refusal as RefusalValue};
ghost use Rattle.trace_model.specs.StoreKnowledge.{KnownList, SubmitKnows, ReadKnows};

use crate::answer::Answer;
use crate::query::Query;
use crate::refusal::Refusal;
use jaeger_model::Batch;
use std::alloc::Global;

/// A store. Its calls take a handle of type `T`, which only some stores use.
pub trait Backend<T> {
    /// The limits of its histories.
    ghost limits: { Self → Limits };

    /// The store knows that its history has reached a list of entries, or that such a list refused a batch.
    ghost knows: { Self → KnownList → Type 0 };

    /// What submitting a batch may do. A store that promises no more than the law below repeats the law here.
    ghost submits: { Self → BatchValue → Result ℕ RefusalValue → Self → Type 0 };

    /// What a query may do.
    ghost reads: { Self → QueryValue → Result AnswerValue RefusalValue → Self → Type 0 };

    /// Submits a batch. Returns the place of its entry, counted from 1.
    ///
    /// # Errors
    ///
    /// Why the batch was not accepted.
    fn submit(&mut self, rt: &T, alloc: Global, batch: Batch) -> Result<u64, Refusal>
        ensures { submits self.old batch result self.new };

    /// Answers a query.
    ///
    /// # Errors
    ///
    /// Why there is no answer.
    fn read(&mut self, alloc: Global, query: &Query) -> Result<Answer, Refusal>
        ensures { reads self.old query.now result self.new };

    /// Nothing known is forgotten. An accepted batch is in a list that is known then, and if a list is the reason of a
    /// refusal (`JournalFull`, `Stale` or `Conflict`), this is known then.
    ghost submit_knows: { (s : Self) (b : BatchValue) (r : Result ℕ RefusalValue) (t : Self) →
        submits s b r t → SubmitKnows limits knows s b r t };

    /// Nothing known is forgotten, and an answer is the plain store's, for a list that starts with every list known
    /// before and is known then.
    ghost read_knows: { (s : Self) (q : QueryValue) (r : Result AnswerValue RefusalValue)
        (t : Self) → reads s q r t → ReadKnows limits knows s q r t };
}
