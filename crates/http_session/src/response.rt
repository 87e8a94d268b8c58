//! A response that is written in parts.

ghost use Rattle.std.specs.Prelude.{◌≡◌, ◌≤◌, ◌++◌, ◌<◌, ◌^◌, [], IfOk, length};
ghost use Rattle.query_json.specs.Parts.{to_come};

use query_json::AnswerParts;
use std::alloc::AllocError;
use std::marker::Model;

/// A response that is written part by part, so the text of a large answer is never held as a whole. Contracts see the
/// next part, and the bytes after it.
#[derive(Drop)]
pub struct Response {
    /// The head, or all of a response without more parts. Empty once it was written.
    head: Vec<u8>,
    answer: Option<AnswerParts>,
}

impl Model for Response {
    ghost use Rattle.std.specs.Prelude.{◌<◌, ◌^◌, length};
    ghost use Rattle.query_json.specs.Parts.{Parted, to_come};
    ghost use Rattle.http_session.specs.Responses.{parted_by};

    ghost Value = { Parted };

    ghost view = { λ r. parted_by r.head.items r.answer };

    ghost invariant = { λ r. length (to_come (parted_by r.head.items r.answer)) < 2 ^ 63 };
}

impl Response {
    /// Creates a response of one part.
    pub fn whole(bytes: Vec<u8>) -> Response
        ensures { to_come result ≡ bytes.items }
    {
        Response {
            head: bytes,
            answer: None,
        }
    }

    /// Creates a response of a head and an answer.
    ///
    /// # Errors
    ///
    /// More than `i64::MAX` bytes count as out of memory.
    pub fn in_parts(head: Vec<u8>, answer: AnswerParts) -> Result<Response, AllocError>
        ensures { IfOk result (λ r. to_come r ≡ head.items ++ to_come answer) }
    {
        if head.len() + answer.remaining() > i64::MAX as usize {
            // Impossible: no answer's text has 2^63 bytes.
            return Err(AllocError);
        }
        Ok(Response {
            head,
            answer: Some(answer),
        })
    }

    /// Returns the number of bytes still to come.
    pub fn remaining(&self) -> usize
        ensures length { result ≡ length (to_come self.now) }
        ensures bound { result < 2 ^ 63 }
    {
        match &self.answer {
            Some(parts) => self.head.len() + parts.remaining(),
            None => self.head.len(),
        }
    }

    /// Returns the next part: the first bytes still to come, none only if nothing is left.
    pub fn part(&self) -> &[u8]
        ensures part { result.now ≡ self.now.part }
        ensures some { self.now.part ≡ [] → self.now.rest ≡ [] }
    {
        if !self.head.is_empty() {
            return self.head.as_slice();
        }
        match &self.answer {
            Some(parts) => parts.part(),
            None => &[],
        }
    }

    /// Returns the number of bytes that the response takes in memory as text, with the room of its pages.
    pub fn room(&self) -> usize
        ensures { length self.now.part ≤ result }
    {
        let of_answer = match &self.answer {
            Some(parts) => parts.room(),
            None => 0,
        };
        self.head.len().saturating_add(of_answer)
    }

    /// Moves past the current part. Allocates nothing.
    pub fn advance(&mut self)
        ensures { to_come self.new ≡ self.old.rest }
    {
        if !self.head.is_empty() {
            self.head.clear();
            return;
        }
        if let Some(parts) = &mut self.answer {
            parts.advance();
        }
    }
}
