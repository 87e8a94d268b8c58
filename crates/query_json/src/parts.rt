//! The text of an answer, in parts.
ghost use Rattle.std.specs.Prelude.{◌≡◌, ◌+◌, ◌≤◌, ◌<◌, ◌^◌, [], ◌++◌, IfOk, length};
ghost use Rattle.serde_json.specs.Written.{compact_text};
ghost use Rattle.query_json.specs.AnswerPages.{part_of, rest_of, IsReady};
ghost use Rattle.query_json.specs.Parts.{to_come, IsEmptyOnlyAtEnd};
ghost use Rattle.answer_trees.specs.Trees.{answer_tree};

use crate::paging::PagedAnswer;
use std::alloc::{AllocError, Global};
use std::marker::Model;
use trace_model::Answer;

/// The compact text of an answer's tree, in parts. It owns its data, so it may be kept for as long as a client takes
/// to read it. Contracts see the bytes that are still to come.
#[derive(Drop)]
pub struct AnswerParts {
    paged: PagedAnswer,
    /// The number of bytes that are still to come.
    remaining: usize,
}

impl Model for AnswerParts {
    ghost use Rattle.std.specs.Prelude.{◌≡◌, ◌<◌, ◌^◌, length};
    ghost use Rattle.query_json.specs.AnswerPages.{part_of, rest_of, IsReady};
    ghost use Rattle.query_json.specs.Parts.{Parted, to_come, IsEmptyOnlyAtEnd};

    ghost Value = { Parted };

    ghost view = { λ s. record { part = part_of s.paged; rest = rest_of s.paged } };

    ghost invariant = { λ s. IsReady s.paged × IsEmptyOnlyAtEnd (part_of s.paged) (rest_of s.paged)
        × (s.remaining ≡
        length (to_come (record { part = part_of s.paged; rest = rest_of s.paged })))
        × (s.remaining < 2 ^ 63) };
}

/// Returns the number of bytes that are still to come. One of 2^63 or more is reported as out of memory.
fn total(part_len: usize, rest_len: u64) -> Result<usize, AllocError>
    ensures total { IfOk result (λ n. n ≡ part_len + rest_len) }
    ensures bound { IfOk result (λ n. n < 2 ^ 63) }
{
    match (part_len as u64).checked_add(rest_len) {
        Some(total) if total <= i64::MAX as u64 => Ok(total as usize),
        // Impossible: no answer's text has 2^63 bytes.
        _ => Err(AllocError),
    }
}

impl AnswerParts {
    /// Walks the answer once, and allocates all that sending it needs. A text of at most about 256 KB is one part. The
    /// first part of a larger one has about 256 KB, a later one about 16 KB, and at most one piece more; a piece is a
    /// name, an operation, an id, a link, or a span or a process of a trace.
    ///
    /// # Errors
    ///
    /// Out of memory, and nothing else.
    pub fn new(alloc: Global, answer: Answer) -> Result<AnswerParts, AllocError>
        ensures { IfOk result (λ p. to_come p ≡ compact_text (answer_tree answer)) }
    {
        let paged = PagedAnswer::new(alloc, answer)?;
        let remaining = total(paged.part().len(), paged.rest_len())?;
        Ok(AnswerParts { paged, remaining })
    }

    /// Returns the number of bytes that are still to come.
    pub fn remaining(&self) -> usize
        ensures length { result ≡ length (to_come self.now) }
        ensures bound { result < 2 ^ 63 }
    {
        self.remaining
    }

    /// Returns the next part: the first bytes that are still to come. It is empty only if nothing is left.
    pub fn part(&self) -> &[u8]
        ensures part { result.now ≡ self.now.part }
        ensures some { self.now.part ≡ [] → self.now.rest ≡ [] }
    {
        self.paged.part()
    }

    /// Returns the number of bytes that its pages take in memory. A page has room for the largest piece, so that may be
    /// far more than the part.
    pub fn room(&self) -> usize
        ensures { length self.now.part ≤ result }
    {
        self.paged.room().max(self.paged.part().len())
    }

    /// Continues after that part. It doesn't allocate.
    pub fn advance(&mut self)
        ensures { to_come self.new ≡ self.old.rest }
    {
        self.remaining -= self.paged.part().len();
        self.paged.advance();
    }
}
