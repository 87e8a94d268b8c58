//! The logs of a borrowed span as they are shown.

ghost use Rattle.std.specs.Prelude.{◌≡◌, ◌==◌, ◌<◌, ◌+ℤ◌, length, slice_get, IsTrue, Some};
ghost use Rattle.trace_model.specs.Adjusting.{fits, move_log};
ghost use Rattle.trace_adjust.specs.LentSpans.{logs_by, lent_log, LogsCanMove};

use jaeger_model::{Log, Tag};
use span_steps::moved_by;
use std::marker::Model;

/// A log of a borrowed span as it is shown.
#[derive(Clone, Copy)]
pub struct LentLog<'a> {
    /// Microseconds since 1970.
    pub at: i64,
    pub fields: &'a [Tag],
}

/// The logs of a borrowed span. Contracts see them as they are shown.
#[derive(Drop)]
pub struct LentLogs<'a> {
    logs: &'a [Log],
    delta: Option<i128>,
}

impl<'a> Model for LentLogs<'a> {
    ghost use Rattle.std.specs.Prelude.{List};
    ghost use Rattle.jaeger_model.specs.declared.span.Log.{Log};
    ghost use Rattle.trace_adjust.specs.LentSpans.{logs_by, LogsCanMove};

    ghost Value = { List Log };

    ghost view = { λ l. logs_by l.delta l.logs.now };

    ghost invariant = { λ l. LogsCanMove l.delta l.logs.now };
}

/// Returns the log unchanged.
fn unmoved(log: &Log) -> LentLog
    ensures { lent_log result ≡ log.now }
{
    LentLog {
        at: log.at,
        fields: log.fields.as_slice(),
    }
}

/// Returns the log moved by the delta.
fn moved(log: &Log, delta: i128) -> LentLog
    requires { IsTrue (fits (log.now.at +ℤ delta)) }
    ensures { lent_log result ≡ move_log delta log.now }
{
    LentLog {
        at: moved_by(log.at, delta),
        fields: log.fields.as_slice(),
    }
}

/// Returns the log at the index, moved if there is a delta.
fn log_at(logs: &[Log], delta: Option<i128>, index: usize) -> LentLog
    requires can_move { LogsCanMove delta logs.now }
    requires within { index < length logs.now }
    ensures { slice_get (logs_by delta logs.now) index ≡ Some (lent_log result) }
{
    let log = &logs[index];
    match delta {
        Some(delta) => moved(log, delta),
        None => unmoved(log),
    }
}

impl<'a> LentLogs<'a> {
    /// Borrows the logs, to be moved if there is a delta.
    pub(crate) fn new(logs: &'a [Log], delta: Option<i128>) -> LentLogs<'a>
        requires { LogsCanMove delta logs.now }
        ensures { result ≡ logs_by delta logs.now }
    {
        LentLogs { logs, delta }
    }

    /// Returns the number of logs.
    pub fn len(&self) -> usize
        ensures { result ≡ length self.now }
    {
        self.logs.len()
    }

    /// Returns whether there is no log.
    pub fn is_empty(&self) -> bool
        ensures { result ≡ (length self.now == 0) }
    {
        self.len() == 0
    }

    /// Returns the log at the index.
    pub fn log(&self, index: usize) -> LentLog<'a>
        requires { index < length self.now }
        ensures { slice_get self.now index ≡ Some (lent_log result) }
    {
        log_at(self.logs, self.delta, index)
    }
}
