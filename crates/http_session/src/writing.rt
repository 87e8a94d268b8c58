ghost use Rattle.std.specs.Prelude.{◌≡◌, ◌<◌, ◌^◌, true, OnOk, IfErr, length, take};
ghost use Rattle.std.specs.Io.KnownBytes.{Appends};
ghost use Rattle.query_json.specs.Parts.{to_come};
ghost use Rattle.http_session.specs.Sessions.{part_sent};

use crate::response::Response;
use session_devices::Output;

/// Writes all of the bytes.
///
/// # Errors
///
/// The output failed. Returns how many of the bytes it took before, which is never all of them.
pub(crate) fn write_all<W: Output>(output: &mut W, bytes: &[u8]) -> Result<(), usize>
    ensures ok { OnOk result (Appends (W.contents output.old) (W.contents output.new) bytes.now) }
    ensures took { W.takes output.old (part_sent bytes.now result) output.new }
    ensures same { OnOk result (W.has_failed output.new ≡ W.has_failed output.old) }
    ensures err { IfErr result (λ n. (n < length bytes.now)
        × Appends (W.contents output.old) (W.contents output.new) (take n bytes.now)
        × (W.has_failed output.new ≡ true)) }
{
    let mut done = 0;
    while done < bytes.len() {
        match output.write(&bytes[done..]) {
            Ok(count) => done += count,
            Err(_) => return Err(done),
        }
    }
    Ok(())
}

/// Writes all of a response, part by part. Allocates nothing.
///
/// # Errors
///
/// The output failed. Returns how many of the bytes it took before, which is never all of them.
pub(crate) fn write_parts<W: Output>(output: &mut W, mut response: Response) -> Result<(), usize>
    ensures ok { OnOk result (Appends (W.contents output.old) (W.contents output.new)
        (to_come response)) }
    ensures took { W.takes output.old (part_sent (to_come response) result) output.new }
    ensures same { OnOk result (W.has_failed output.new ≡ W.has_failed output.old) }
    ensures err { IfErr result (λ n. (n < length (to_come response))
        × Appends (W.contents output.old) (W.contents output.new) (take n (to_come response))
        × (W.has_failed output.new ≡ true)) }
{
    let all = response.remaining();
    while response.remaining() > 0 {
        let sent = all - response.remaining();
        if let Err(written) = write_all(output, response.part()) {
            return Err(sent + written);
        }
        response.advance();
    }
    Ok(())
}
