//! The lines at the start of a server.

ghost use Rattle.std.specs.Prelude.{◌≤◌};

use crate::lines::{LimitUnit, noun};
use libc::types::rlimit;
use libc::{RLIMIT_NOFILE, getrlimit};
use serve_options::Host;
use trace_model::Limits;

/// An upper bound of the measured size of a span with one tag, in bytes, in batches of 10 and of 100 whose processes have
/// four tags.
const BYTES_WITH_ONE_TAG: u64 = 420;

/// An upper bound of the measured size of a span with five tags, in bytes, in the same batches.
const BYTES_WITH_FIVE_TAGS: u64 = 710;

/// Prints a warning if other machines can reach the host.
pub fn print_reachable<R: Eprint>(rt: &R, host: Host) {
    if !host.is_loopback() {
        let address = host.in_url();
        let _lost = eprintln!(rt;
            "{address} takes connections from other machines: anyone who reaches it may read all traces and send spans, with no password and no TLS"
        );
    }
}

/// Returns the megabytes that this number of spans takes.
fn megabytes(spans: u32, bytes: u64) -> u64
    requires { bytes ≤ 1000 }
{
    (u64::from(spans) * bytes).div_ceil(1_000_000)
}

/// Prints the limits of the store, and the memory that they may take.
pub fn print_limits<R: Eprint>(rt: &R, limits: &Limits) {
    let Limits {
        batches,
        spans,
        traces,
        max_skew: _,
    } = *limits;
    let few = megabytes(spans, BYTES_WITH_ONE_TAG);
    let many = megabytes(spans, BYTES_WITH_FIVE_TAGS);
    let batch_noun = LimitUnit::Batches.noun(batches);
    let span_noun = LimitUnit::Spans.noun(spans);
    let trace_noun = noun(u64::from(traces), "trace", "traces");
    let _lost = match traces {
        0 => eprintln!(rt;
            "holds at most {batches} {batch_noun} and {spans} {span_noun}, and shows every trace"
        ),
        newest => eprintln!(rt;
            "holds at most {batches} {batch_noun} and {spans} {span_noun}, and shows the newest {newest} {trace_noun}"
        ),
    };
    let _lost = eprintln!(rt;
        "that may take {few} MB with one tag a span, {many} MB with five; more if tags are long, up to 8 times with one span a batch and twenty process tags"
    );
}

/// The files that are open beside one for each connection and one for each worker.
const OTHER_FILES: u64 = 4;

/// Prints a warning if the system allows fewer open files than the server may need.
pub fn print_few_files<R: Eprint>(rt: &R, connections: u32, workers: u16) {
    let mut limit = rlimit {
        rlim_cur: 0,
        rlim_max: 0,
    };
    let needed = u64::from(connections) + u64::from(workers) + OTHER_FILES;
    if getrlimit(RLIMIT_NOFILE, &mut limit) == 0 && limit.rlim_cur < needed {
        let files = limit.rlim_cur;
        let _lost = eprintln!(rt;
            "the system lets {files} files be open (ulimit -n), and --connections {connections} needs {needed}: raise it, or give fewer"
        );
    }
}
