//! The lines of a server's output.

ghost use Rattle.std.specs.Prelude.{◌≡◌, false, min, string_bytes, sum_by, IfOk};
ghost use Rattle.std.specs.List.{list_any};
ghost use Rattle.session_devices.specs.Traffic.{traffic_of};
ghost use Rattle.text_lines.specs.RunErrors.{WritesText};
ghost use Rattle.trace_server.specs.ServerRuns.{listening_line, served_line, books_line, last_lines, Ends, StopsIn};

use crate::ending::Totals;
use crate::worker::{EndedWorker, WorkerOutcome};
use read_side::StoreName;
use serve_options::Host;
use server_notices::{end_unwritten, end_with};
use session_devices::Output;
use std::alloc::{AllocError, Global};
use text_lines::{ExitStatus, RunError, write_text};

/// Returns the line with the address on which the server listens.
fn listening_line(alloc: Global, host: Host, port: u16) -> Result<String, AllocError>
    ensures { IfOk result (λ line. string_bytes line ≡ listening_line host port) }
{
    let address = host.in_url();
    format!(in alloc; "listening {address}:{port}\n")
}

/// Returns the line with the number of connections accepted.
fn served_line(alloc: Global, served: u64) -> Result<String, AllocError>
    ensures { IfOk result (λ line. string_bytes line ≡ served_line served) }
{
    format!(in alloc; "served {served}\n")
}

/// Returns the line with the totals of the batches.
fn books_line(alloc: Global, totals: Totals) -> Result<String, AllocError>
    ensures { IfOk result (λ line. string_bytes line ≡
        books_line totals.acknowledged totals.refused totals.unanswered) }
{
    let Totals {
        acknowledged,
        refused,
        unanswered,
    } = totals;
    format!(in alloc; "books {acknowledged} {refused} {unanswered}\n")
}

/// Writes the address on which the server listens.
pub(crate) fn write_listening<W: Output>(
    alloc: Global,
    output: &mut W,
    host: Host,
    port: u16,
) -> Result<(), RunError>
    requires { W.has_failed output.old ≡ false }
    ensures { WritesText (traffic_of W.contents W.has_failed output.old output.new)
        (listening_line host port) result }
{
    let line = listening_line(alloc, host, port)?;
    write_text(alloc, output, line.as_bytes())
}

/// Writes the number of connections accepted.
fn write_served<W: Output>(alloc: Global, output: &mut W, served: u64) -> Result<(), RunError>
    requires { W.has_failed output.old ≡ false }
    ensures { WritesText (traffic_of W.contents W.has_failed output.old output.new)
        (served_line served) result }
{
    let line = served_line(alloc, served)?;
    write_text(alloc, output, line.as_bytes())
}

/// Writes the totals of the batches.
fn write_books<W: Output>(alloc: Global, output: &mut W, totals: Totals) -> Result<(), RunError>
    requires { W.has_failed output.old ≡ false }
    ensures { WritesText (traffic_of W.contents W.has_failed output.old output.new)
        (books_line totals.acknowledged totals.refused totals.unanswered) result }
{
    let line = books_line(alloc, totals)?;
    write_text(alloc, output, line.as_bytes())
}

/// Returns the sum of the workers' outcomes. A count that overflows stays at its maximum.
pub(crate) fn total_outcome<N: StoreName>(workers: &[EndedWorker<N>]) -> WorkerOutcome
    ensures served { result.served ≡ min (sum_by (λ w. w.outcome.served) workers.now)
        18446744073709551615 }
    ensures failed { result.failed ≡ list_any (λ w. w.outcome.failed) workers.now }
{
    let mut all = WorkerOutcome {
        served: 0,
        failed: false,
    };
    for worker in workers {
        all.served = all.served.saturating_add(worker.outcome.served);
        all.failed = all.failed || worker.outcome.failed;
    }
    all
}

/// Writes the number of connections accepted, and then the totals of the batches.
fn write_last_lines<W: Output>(
    alloc: Global,
    output: &mut W,
    served: u64,
    totals: Totals,
) -> Result<(), RunError>
    requires { W.has_failed output.old ≡ false }
    ensures { WritesText (traffic_of W.contents W.has_failed output.old output.new)
        (last_lines served totals.acknowledged totals.refused totals.unanswered) result }
{
    // For the prover: the match takes the cases of `write_served`'s clause apart.
    match write_served(alloc, output, served) {
        Ok(()) => write_books(alloc, output, totals),
        Err(error) => Err(error),
    }
}

/// Writes the number of connections accepted and the totals of the batches, and returns the exit status. A status other
/// than `Success` is explained to the operator.
pub(crate) fn end_with_totals<W: Output, R: Eprint>(
    rt: &R,
    alloc: Global,
    output: &mut W,
    all: WorkerOutcome,
    totals: Totals,
) -> ExitStatus
    requires { W.has_failed output.old ≡ false }
    ensures { Ends (traffic_of W.contents W.has_failed output.old output.new)
        (last_lines all.served totals.acknowledged totals.refused totals.unanswered)
        all.failed result }
{
    match write_last_lines(alloc, output, all.served, totals) {
        Ok(()) if all.failed => {
            end_with(
                rt,
                RunError::Device,
                "a worker could accept no more connections",
            )
        }
        Ok(()) => ExitStatus::Success,
        Err(error) => end_unwritten(rt, error),
    }
}

/// Writes the number of connections accepted after memory ran out for closing the books, and returns the exit status.
pub(crate) fn end_unclosed<W: Output, R: Eprint>(
    rt: &R,
    alloc: Global,
    output: &mut W,
    all: WorkerOutcome,
) -> ExitStatus
    requires { W.has_failed output.old ≡ false }
    ensures { StopsIn (traffic_of W.contents W.has_failed output.old output.new)
        (served_line all.served) result }
{
    match write_served(alloc, output, all.served) {
        Ok(()) => end_unwritten(rt, RunError::Memory),
        Err(error) => end_unwritten(rt, error),
    }
}
