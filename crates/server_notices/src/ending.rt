//! The lines at the end of a worker and of a server, with the server's exit status.

ghost use Rattle.std.specs.Prelude.{◌≡◌};
ghost use Rattle.text_lines.specs.RunErrors.{status_by};

use std::io;
use text_lines::{ExitStatus, RunError};

/// Prints why a worker accepts no more connections.
pub fn print_accepts_no_more<R: Eprint>(rt: &R, worker: u32, error: &io::Error) {
    let _lost = eprintln!(rt;
        "worker {worker} accepts no more connections: {error}; a restart brings it back"
    );
}

/// Prints why the server ends, and returns the exit status.
pub fn end_with<R: Eprint>(rt: &R, error: RunError, why: &str) -> ExitStatus
    ensures { result ≡ status_by error }
{
    let status = error.status();
    let code = status.code();
    let _lost = eprintln!(rt; "ends with status {code}: {why}");
    status
}

/// Prints that the server ends because a line of its output couldn't be written, and returns the exit status.
pub fn end_unwritten<R: Eprint>(rt: &R, error: RunError) -> ExitStatus
    ensures { result ≡ status_by error }
{
    let why = match error {
        RunError::Device => "the output failed",
        RunError::Memory => "out of memory",
    };
    end_with(rt, error, why)
}
