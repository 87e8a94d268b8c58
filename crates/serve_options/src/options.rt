ghost use Rattle.std.specs.Prelude.{◌≡◌, ◌↔◌, IfSome, IsSome};
ghost use Rattle.serve_options.specs.Ranges.{AreOptionsWithin};

use crate::host::Host;
use trace_model::Limits;

/// The greatest number of threads that serve connections. A desk has as many seats (`intake`), and a store as many
/// readers (`read_side`): a proof of `trace_server` fails where one of them has fewer.
pub const MAX_WORKERS: u16 = 64;

/// The greatest number of batches that may wait to be accepted. A queue of `intake` has room for as many: a proof of
/// `trace_server` fails where it hasn't.
pub const MAX_QUEUE: u16 = 4_096;

/// The greatest number of connections that may be open at a time.
pub const MAX_CONNECTIONS: u32 = 65_536;

/// The greatest number of seconds of an option: a day.
pub const MAX_SECONDS: u32 = 86_400;

/// The options that are asked for: those of [`ServeOptions`], and some of them may be out of their ranges.
#[derive(Clone, Copy, Debug)]
pub struct RequestedOptions {
    pub limits: Limits,
    pub host: Host,
    pub port: u16,
    pub workers: u16,
    pub queue: u16,
    pub sessions: u32,
    pub connections: u32,
    pub idle: u32,
    pub report: u32,
}

/// The options of a server. Each value is within its range.
#[derive(Clone, Copy, Debug)]
pub struct ServeOptions {
    /// The limits of its store.
    pub limits: Limits,
    /// The address that it listens on.
    pub host: Host,
    /// The port of that address; 0 for any free one.
    pub port: u16,
    /// The number of threads that serve connections, 1 to 64.
    pub workers: u16,
    /// The number of batches that may wait to be accepted, 1 to 4,096.
    pub queue: u16,
    /// The number of connections after which it ends; 0 for never.
    pub sessions: u32,
    /// The number of connections that may be open at a time, 1 to 65,536.
    pub connections: u32,
    /// The number of seconds after which a connection is closed that is silent or doesn't read its response, up to
    /// 86,400; 0 for never.
    pub idle: u32,
    /// The number of seconds between two reports of its counts on standard error, up to 86,400; 0 for none.
    pub report: u32,
    ghost within: { AreOptionsWithin (record {
      limits = limits;
      host = host;
      port = port;
      workers = workers;
      queue = queue;
      sessions = sessions;
      connections = connections;
      idle = idle;
      report = report;
    }) },
}

impl ServeOptions {
    /// Returns the options, or `None` if one is out of its range.
    pub fn new(requested: RequestedOptions) -> Option<ServeOptions>
        ensures within { IsSome result ↔ AreOptionsWithin requested }
        ensures keeps { IfSome result (λ o. o.limits ≡ requested.limits) }
        ensures listens { IfSome result (λ o. (o.host ≡ requested.host)
            × (o.port ≡ requested.port)) }
        ensures holds { IfSome result (λ o. (o.workers ≡ requested.workers)
            × (o.queue ≡ requested.queue)) }
        ensures admits { IfSome result (λ o. o.connections ≡ requested.connections) }
        ensures ends { IfSome result (λ o. (o.sessions ≡ requested.sessions)
            × (o.idle ≡ requested.idle)) }
        ensures reports { IfSome result (λ o. o.report ≡ requested.report) }
    {
        let RequestedOptions {
            limits,
            host,
            port,
            workers,
            queue,
            sessions,
            connections,
            idle,
            report,
        } = requested;
        if workers < 1
            || workers > MAX_WORKERS
            || queue < 1
            || queue > MAX_QUEUE
            || connections < 1
            || connections > MAX_CONNECTIONS
            || idle > MAX_SECONDS
            || report > MAX_SECONDS
        {
            return None;
        }
        Some(ServeOptions {
            limits,
            host,
            port,
            workers,
            queue,
            sessions,
            connections,
            idle,
            report,
        })
    }
}
