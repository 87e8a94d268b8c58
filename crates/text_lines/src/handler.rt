ghost use Rattle.std.specs.Prelude.{◌≡◌, ℕ, List, [], IfOk};
ghost use Rattle.text_lines.specs.HandledLines.{LineReply};

use std::alloc::{AllocError, Global};

/// Handles the lines of an input one by one and replies to each.
pub trait LineHandler {
    /// Relates the states before and after handling a line with this number, and the reply to it.
    ghost takes: { Self → ℕ → List ℕ → LineReply → Self → Type 0 };

    /// Handles a line without its end and writes the reply into the empty `reply`. It may change `line`. The first line
    /// has the number 1. Returns whether the line is a fault.
    ///
    /// # Errors
    ///
    /// Out of memory.
    fn handle_line(
        &mut self,
        alloc: Global,
        number: u64,
        line: &mut Vec<u8>,
        reply: &mut Vec<u8>,
    ) -> Result<bool, AllocError>
        requires { reply.old.items ≡ [] }
        ensures { IfOk result (λ faulty. takes self.old number line.old.items
            (record { text = reply.new.items; faulty = faulty }) self.new) };
}
