ghost use Rattle.std.specs.Prelude.{IfOk, IfErr};
ghost use Rattle.http_requests.specs.Requests.{AwaitsBody};
ghost use Rattle.http_requests.specs.AwaitedReads.{source_of};
ghost use Rattle.http_requests.specs.ReceivedBytes.{KnowsItsEnd, StopsWhile, SameUnlessReading, read_moment, failed_call};
ghost use Rattle.http_requests.specs.Bodies.{ReadsBody, body_call, body_moment};

use crate::body_reader::{BodyReader, BodyStatus};
use crate::read_buffer::{ReadBuffer, ReadError};
use crate::request::{BodyLength, RequestFault};
use crate::sink::Sink;
use session_devices::Input;

/// Reads the body that the head announces, and pushes it into the sink piece by piece. The body is never held as a
/// whole. If it is malformed, the sink got a part of what was received. Nothing is read once the bytes received decide:
/// the body is complete, too large, or can't be read.
///
/// Only tests call it: a session calls [`BodyReader::take_from`] after each read.
///
/// # Errors
///
/// The input failed, or memory ran out for the buffer of a read, before the read.
pub fn read_body<R: Input, S: Sink>(
    input: &mut R,
    received: &mut ReadBuffer,
    sink: &mut S,
    body_length: BodyLength,
) -> Result<Result<(), RequestFault>, ReadError>
    requires end { KnowsItsEnd received.old.ended (R.remaining input.old) }
    ensures body { IfOk result (ReadsBody
        (body_call S.takes (source_of R.remaining R.gives) body_length)
        (body_moment input.old received.old sink.old)
        (body_moment input.new received.new sink.new)) }
    ensures err { IfErr result (λ why. StopsWhile (source_of R.remaining R.gives)
        (AwaitsBody body_length) (read_moment input.old received.old)
        (failed_call input.new (R.has_failed input.new) why)) }
    ensures same { SameUnlessReading (R.has_failed input.old) (R.has_failed input.new) result }
{
    let mut reader = BodyReader::new(body_length);
    // For the prover: its proof names the loop by the label.
    'reads: loop {
        match reader.take_from(received, sink) {
            BodyStatus::Complete => return Ok(Ok(())),
            BodyStatus::Invalid(why) => return Ok(Err(why)),
            BodyStatus::Partial if received.has_ended() => return Ok(Err(RequestFault::Body)),
            BodyStatus::Partial => received.read_more(input)?,
        }
    }
}
