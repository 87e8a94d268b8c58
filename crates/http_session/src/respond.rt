//! Connections that take complete responses.

ghost use Rattle.std.specs.Prelude.{◌≡◌, ◌<◌, true, OnOk, IfErr, length, take};
ghost use Rattle.std.specs.Io.KnownBytes.{Appends};
ghost use Rattle.query_json.specs.Parts.{to_come};
ghost use Rattle.http_session.specs.Sessions.{part_sent};

use crate::response::Response;
use crate::writing::write_parts;
use session_devices::{Connection, Input, Join, Output};

/// A connection that takes complete responses. It may keep what can't be written yet, and write it later.
pub trait Respond: Connection {
    /// Writes a response, or keeps it to be written later.
    ///
    /// # Errors
    ///
    /// The output failed. Returns how many of the bytes it took before, which is never all of them.
    fn send_response(&mut self, response: Response) -> Result<(), usize>
        ensures ok { OnOk result (Appends (Self.contents self.old) (Self.contents self.new)
            (to_come response)) }
        ensures took { Self.takes self.old (part_sent (to_come response) result) self.new }
        ensures same { OnOk result
            (Self.Output.has_failed self.new ≡ Self.Output.has_failed self.old) }
        ensures err { IfErr result (λ n. (n < length (to_come response))
            × Appends (Self.contents self.old) (Self.contents self.new)
            (take n (to_come response))
            × (Self.Output.has_failed self.new ≡ true)) };
}

/// Writes all of the response before it returns. Allocates nothing.
impl<'a, R: Input, W: Output> Respond for Join<'a, R, W> {
    fn send_response(&mut self, response: Response) -> Result<(), usize> {
        write_parts(self, response)
    }
}
