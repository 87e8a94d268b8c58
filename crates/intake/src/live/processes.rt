//! Shares the process of consecutive batches, so that equal ones are held once.

ghost use Rattle.std.specs.Prelude.{◌≡◌};

use jaeger_model::{Batch, SharedProcess};

/// Returns the last process if both are equal, so that `process` is dropped. Otherwise returns `process`, which is the
/// last one from then on.
fn share(last: &mut Option<SharedProcess>, process: SharedProcess) -> SharedProcess
    ensures { result ≡ process }
{
    if let Some(before) = last {
        if before.is_same(&process) {
            return before.clone().unwrap_or(process);
        }
    }
    *last = process.clone().ok();
    process
}

/// Returns the batch. It shares its process with the last one if both are equal.
pub(crate) fn share_process(last: &mut Option<SharedProcess>, batch: Batch) -> Batch
    ensures { result ≡ batch }
{
    let Batch {
        process,
        spans,
        seq_no,
    } = batch;
    Batch {
        process: share(last, process),
        spans,
        seq_no,
    }
}
