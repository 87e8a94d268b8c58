//! The subcommand `serve`: its options, and how they are read.
ghost use Rattle.std.specs.Prelude.{◌≡◌, IfErr, IfOk, IfSome, IsOk, IsSome, OnOk, false, map};
ghost use Rattle.clap.specs.Words.{app_of, found_of, rows_of, rule_of};
ghost use Rattle.serve_options.specs.declared.host.Host.{Host as HostValue};
ghost use Rattle.serve_options.specs.declared.options.ServeOptions.{ServeOptions as ServeOptionsValue};
ghost use Rattle.commands.specs.declared.arguments.Command.TheVariants.{Serve};
ghost use Rattle.commands.specs.Arguments.{HasHost, HasServeOptions, Makes, connections_rule, host_rule, idle_rule, port_rule, queue_rule};
ghost use Rattle.commands.specs.Arguments.{report_rule, serve_app, sessions_rule, with_serving as serving_on, workers_rule};
ghost use Rattle.text_lines.specs.declared.exit_status.ExitStatus.TheVariants.{OutOfMemory};
ghost use Rattle.commands.specs.CommandArguments.{ReadsArguments, TakesArguments};

use crate::arguments::{limits_of, matches_of, number, with_limits};
use clap::{Arg, ArgMatches, value_parser};
use serve_options::{
    Host, MAX_CONNECTIONS, MAX_QUEUE, MAX_SECONDS, MAX_WORKERS, RequestedOptions, ServeOptions,
};
use std::alloc::{AllocError, Global};
use std::convert::AsStr;
use std::io;
use std::io::Write;
use text_lines::ExitStatus;

/// The upper ends of the options' ranges, as clap takes them. The help texts repeat them as digits: a text made of a
/// constant would need memory. `cases/arguments` compares the texts.
const WORKERS_END: i64 = MAX_WORKERS as i64;

const QUEUE_END: i64 = MAX_QUEUE as i64;

const CONNECTIONS_END: i64 = MAX_CONNECTIONS as i64;

const SECONDS_END: i64 = MAX_SECONDS as i64;

/// Defines the option `--host`.
fn host_option<'a>(alloc: Global) -> Arg<'a>
    ensures rule { rule_of result ≡ host_rule }
    ensures own { result.global ≡ false }
{
    Arg::new(alloc, "host")
        .long("host")
        .value_name("ADDRESS")
        .default_value("127.0.0.1")
        .help("Which address to listen on: 127.0.0.1, 0.0.0.0, ::1 or ::")
}

/// Defines the option `--port`.
fn port_option<'a>(alloc: Global) -> Arg<'a>
    ensures rule { rule_of result ≡ port_rule }
    ensures own { result.global ≡ false }
{
    let help = "Which port to listen on; 0 for any free one";
    number(alloc, "port", value_parser!(u16), "0", help)
}

/// Defines the option `--workers`.
fn workers_option<'a>(alloc: Global) -> Arg<'a>
    ensures rule { rule_of result ≡ workers_rule }
    ensures own { result.global ≡ false }
{
    let workers = value_parser!(u16).range(1..=WORKERS_END);
    let help = "How many threads serve connections, 1 to 64";
    number(alloc, "workers", workers, "4", help)
}

/// Defines the option `--queue`.
fn queue_option<'a>(alloc: Global) -> Arg<'a>
    ensures rule { rule_of result ≡ queue_rule }
    ensures own { result.global ≡ false }
{
    let queue = value_parser!(u16).range(1..=QUEUE_END);
    let help = "How many batches may wait to be accepted, 1 to 4096";
    number(alloc, "queue", queue, "256", help)
}

/// Defines the option `--sessions`.
fn sessions_option<'a>(alloc: Global) -> Arg<'a>
    ensures rule { rule_of result ≡ sessions_rule }
    ensures own { result.global ≡ false }
{
    let help = "After how many connections the program ends; 0 for never";
    number(alloc, "sessions", value_parser!(u32), "0", help)
}

/// Defines the option `--connections`.
fn connections_option<'a>(alloc: Global) -> Arg<'a>
    ensures rule { rule_of result ≡ connections_rule }
    ensures own { result.global ≡ false }
{
    let connections = value_parser!(u32).range(1..=CONNECTIONS_END);
    let help = "How many connections may be open at a time, 1 to 65536";
    number(alloc, "connections", connections, "1024", help)
}

/// Defines the option `--idle`.
fn idle_option<'a>(alloc: Global) -> Arg<'a>
    ensures rule { rule_of result ≡ idle_rule }
    ensures own { result.global ≡ false }
{
    let idle = value_parser!(u32).range(0..=SECONDS_END);
    let help =
        "After how many seconds without a byte a connection is closed, up to 86400; 0 for never";
    number(alloc, "idle", idle, "300", help).value_name("SECONDS")
}

/// Defines the option `--report`.
fn report_option<'a>(alloc: Global) -> Arg<'a>
    ensures rule { rule_of result ≡ report_rule }
    ensures own { result.global ≡ false }
{
    let report = value_parser!(u32).range(0..=SECONDS_END);
    let help = "How often to print counts to standard error, in seconds, up to 86400; 0 for never";
    number(alloc, "report", report, "0", help).value_name("SECONDS")
}

/// Adds the options that only `serve` has.
fn with_serving(alloc: Global, command: clap::Command<'_>) -> Result<clap::Command<'_>, AllocError>
    ensures { IfOk result (λ c. app_of c ≡ serving_on (app_of command.entry)) }
{
    command
        .arg(host_option(alloc))?
        .arg(port_option(alloc))?
        .arg(workers_option(alloc))?
        .arg(queue_option(alloc))?
        .arg(sessions_option(alloc))?
        .arg(connections_option(alloc))?
        .arg(idle_option(alloc))?
        .arg(report_option(alloc))
}

/// Defines the subcommand `serve`.
pub(crate) fn serve_command<'a>(alloc: Global) -> Result<clap::Command<'a>, AllocError>
    ensures { Makes result serve_app }
{
    let command = clap::Command::new(alloc, "serve")
        .bin_name("jaeger_one serve")?
        .about(
            "Takes batches and answers queries over HTTP; traces are kept in memory, and nothing is persisted",
        )
        .after_help("Example:\n  jaeger_one serve --port 14268 --batches 1000000 --spans 2000000");
    let command = with_serving(alloc, command)?;
    with_limits(alloc, command)
}

/// Returns the host of the option, if the text names one.
fn asked_host(matches: &ArgMatches<'_>) -> Option<Host>
    ensures named { IfSome result (HasHost (rows_of (found_of matches.now))) }
    ensures found { (host : HostValue) → HasHost (rows_of (found_of matches.now)) host →
        IsSome result }
{
    Host::parse(matches.get_str("host")?)
}

/// Writes that the text names no host, like clap's error for a value that is not among the possible ones. The tip is for
/// host names, which are never resolved.
fn write_bad_host<W: Write>(writer: &mut W, text: &str) -> io::Result<()> {
    writeln!(
        writer,
        "error: invalid value '{text}' for '--host <ADDRESS>'\n  \
         [possible values: 127.0.0.1, 0.0.0.0, ::1, ::]\n\n  \
         tip: host names aren't resolved: use '127.0.0.1' for 'localhost'\n\n\
         For more information, try '--help'."
    )
}

/// Returns the host of the option. Otherwise writes the fault and returns the exit status.
fn host_of<W: Write>(matches: &ArgMatches<'_>, writer: &mut W) -> Result<Host, ExitStatus>
    ensures host { IfOk result (HasHost (rows_of (found_of matches.now))) }
    ensures found { (host : HostValue) → HasHost (rows_of (found_of matches.now)) host →
        IsOk result }
    ensures silent { OnOk result (W.contents writer.new ≡ W.contents writer.old) }
{
    match asked_host(matches) {
        Some(host) => Ok(host),
        // Impossible: no text, since clap gives the option its default.
        None => match write_bad_host(writer, matches.get_str("host").unwrap_or("")) {
            Ok(()) => Err(ExitStatus::Usage),
            Err(_) => Err(ExitStatus::DeviceFailed),
        },
    }
}

/// Returns the options of a server on this host.
fn serve_options_of(matches: &ArgMatches<'_>, host: Host) -> Option<ServeOptions>
    requires { HasHost (rows_of (found_of matches.now)) host }
    ensures given { IfSome result (HasServeOptions (rows_of (found_of matches.now))) }
    ensures found { (options : ServeOptionsValue)
        → HasServeOptions (rows_of (found_of matches.now)) options → IsSome result }
{
    let limits = limits_of(matches)?;
    let port = matches.get_one::<u16>("port")?;
    let workers = matches.get_one::<u16>("workers")?;
    let queue = matches.get_one::<u16>("queue")?;
    let sessions = matches.get_one::<u32>("sessions")?;
    let connections = matches.get_one::<u32>("connections")?;
    let idle = matches.get_one::<u32>("idle")?;
    let report = matches.get_one::<u32>("report")?;
    ServeOptions::new(RequestedOptions {
        limits,
        host,
        port,
        workers,
        queue,
        sessions,
        connections,
        idle,
        report,
    })
}

/// Reads the options of `serve`. The first of the arguments is the subcommand's name.
pub(crate) fn read_serve<S: AsStr, W: Write>(
    alloc: Global,
    arguments: &[S],
    writer: &mut W,
) -> Result<ServeOptions, ExitStatus>
    ensures asked { IfOk result (λ options.
        ReadsArguments (Serve options) (map S.text arguments.now)) }
    ensures silent { OnOk result (W.contents writer.new ≡ W.contents writer.old) }
    ensures accepted { (options : ServeOptionsValue) →
        TakesArguments (Serve options) (map S.text arguments.now) → IfErr result (λ e. e ≡ OutOfMemory) }
{
    let matches = matches_of(serve_command(alloc), arguments, writer)?;
    let host = host_of(&matches, writer)?;
    // Impossible: None, since clap has read each option in its range.
    serve_options_of(&matches, host).ok_or(ExitStatus::Usage)
}
