//! The command that the arguments name, and the reply to arguments that name none.
ghost use Rattle.std.specs.Prelude.{◌≡◌, ◌⊎◌, IfOk, IfErr, IfSome, IsSome, None, OnOk, Some, codes, map, false, true};
ghost use Rattle.std.specs.Io.KnownBytes.{Appends};
ghost use Rattle.clap.specs.Words.{App, app_of, first_value, found_of, kind_of, matches_of, rows_of, rule_of};
ghost use Rattle.trace_model.specs.declared.limits.Limits.{Limits as LimitsValue};
ghost use Rattle.jaeger_model.specs.declared.ids.TraceId.{TraceId as TraceIdValue};
ghost use Rattle.commands.specs.declared.arguments.Command.{Command as CommandValue};
ghost use Rattle.commands.specs.declared.arguments.Command.TheVariants.{Get};
ghost use Rattle.commands.specs.Arguments.{HasLimits, IsFaultOf, Makes, TakesGet, TakesLimits, are_taken, get_app, number_rule, pipe_app, play_app, trace_in};
ghost use Rattle.commands.specs.Arguments.{with_limits as limits_on};
ghost use Rattle.text_lines.specs.declared.exit_status.ExitStatus.TheVariants.{Usage, DeviceFailed, OutOfMemory};
ghost use Rattle.commands.specs.CommandArguments.{Accepts, AsksCommand, ReadsArguments, TakesArguments};

use crate::serve_arguments::{read_serve, serve_command};
use clap::builder::ValueParser;
use clap::error::ErrorKind;
use clap::{Arg, ArgMatches, Error, value_parser};
use jaeger_model::{TraceId, parse_trace};
use serve_options::ServeOptions;
use session_devices::Output;
use std::alloc::{AllocError, Global};
use std::convert::AsStr;
use std::io;
use std::io::Write;
use text_lines::{ExitStatus, write_text};
use trace_model::{Limits, TraceLimit};

/// The version of the program, as in `CHANGELOG.md`.
const VERSION: &str = "0.1.0";

/// The upper ends of the options' ranges, as clap takes them.
const BATCHES_END: i64 = Limits::MAX_BATCHES as i64;

const SPANS_END: i64 = Limits::MAX_SPANS as i64;

const TRACES_END: i64 = TraceLimit::MAX as i64;

const SKEW_END: i64 = Limits::MAX_SKEW as i64;

/// A subcommand with its options. To add one, add a variant, a function that makes its `clap::Command`, one that reads
/// its arguments, and a line in [`judge_arguments`] and in `program`.
#[derive(Drop)]
pub enum Command {
    /// Prints the spans of a trace.
    Get { limits: Limits, trace: TraceId },
    /// Prints the responses to a session's requests.
    Pipe { limits: Limits },
    /// Prints the outcomes of steps.
    Play { limits: Limits },
    /// Serves many connections.
    Serve { options: ServeOptions },
}

/// Defines an option whose value is a number.
pub(crate) fn number<'a>(
    alloc: Global,
    name: &'a str,
    numbers: ValueParser<'a>,
    default: &'a str,
    help: &'a str,
) -> Arg<'a>
    ensures rule { rule_of result ≡ number_rule name.entry.now numbers.entry default.entry.now }
    ensures own { result.global ≡ false }
{
    Arg::new(alloc, name)
        .long(name)
        .value_name("N")
        .value_parser(numbers)
        .default_value(default)
        .help(help)
}

/// Adds the options that every subcommand has.
pub(crate) fn with_limits(
    alloc: Global,
    command: clap::Command<'_>,
) -> Result<clap::Command<'_>, AllocError>
    ensures { IfOk result (λ c. app_of c ≡ limits_on (app_of command.entry)) }
{
    let batches = value_parser!(u32).range(1..=BATCHES_END);
    let spans = value_parser!(u32).range(1..=SPANS_END);
    let traces = value_parser!(u32).range(0..=TRACES_END);
    let skew = value_parser!(u64).range(0..=SKEW_END);
    command
        .arg(number(
            alloc,
            "batches",
            batches,
            "1000",
            "How many batches are kept, 1 to 1000000",
        ))?
        .arg(number(
            alloc,
            "spans",
            spans,
            "100000",
            "How many spans are kept, 1 to 10000000",
        ))?
        .arg(number(
            alloc,
            "traces",
            traces,
            "0",
            "How many of the newest traces are shown, up to 1000000; 0 for all",
        ))?
        .arg(number(
            alloc,
            "max-skew",
            skew,
            "0",
            "By how many microseconds a span may be moved; keep 0 if senders give no ip tag",
        ))
}

/// Defines the subcommand `get`.
fn get_command<'a>(alloc: Global) -> Result<clap::Command<'a>, AllocError>
    ensures { Makes result get_app }
{
    let trace = Arg::new(alloc, "TRACE")
        .required(true)
        .help("The trace's id, 1 to 32 hexadecimal digits");
    let command = clap::Command::new(alloc, "get")
        .bin_name("jaeger_one get")?
        .about(
            "Reads batches from standard input, a line of hexadecimal text each, and prints the spans of a trace",
        )
        .after_help("Example:\n  jaeger_one get 1 < samples/first.hex")
        .arg(trace)?;
    with_limits(alloc, command)
}

/// Defines the subcommand `pipe`.
fn pipe_command<'a>(alloc: Global) -> Result<clap::Command<'a>, AllocError>
    ensures { Makes result pipe_app }
{
    let command = clap::Command::new(alloc, "pipe")
        .bin_name("jaeger_one pipe")?
        .about("Answers the HTTP requests of standard input on standard output")
        .after_help(
            "Example:\n  printf 'GET /api/services HTTP/1.1\\r\\n\\r\\n' | jaeger_one pipe",
        );
    with_limits(alloc, command)
}

/// Defines the subcommand `play`.
fn play_command<'a>(alloc: Global) -> Result<clap::Command<'a>, AllocError>
    ensures { Makes result play_app }
{
    let command = clap::Command::new(alloc, "play")
        .bin_name("jaeger_one play")?
        .about("Plays the steps of standard input, a line each, and prints what came of each")
        .after_help(
            "Example:\n  printf 'enter 0\\nread 0 /api/services\\nleave 0\\n' | jaeger_one play",
        );
    with_limits(alloc, command)
}

/// Adds a subcommand to the program. For the prover: it takes `program` by value, so that no value is alive across a
/// call that may fail.
fn with_subcommand<'a>(
    program: clap::Command<'a>,
    made: Result<clap::Command<'a>, AllocError>,
) -> Result<clap::Command<'a>, AllocError> {
    match made {
        Ok(made) => program.subcommand(made),
        Err(error) => {
            // For the prover: an explicit drop is cheaper than one at the end of the block.
            drop(program);
            Err(error)
        }
    }
}

/// Defines the program with its subcommands, for the texts of help and faults.
fn program<'a>(alloc: Global) -> Result<clap::Command<'a>, AllocError> {
    let program = clap::Command::new(alloc, "jaeger_one")
        .bin_name("jaeger_one")?
        .version(VERSION)
        .about(
            "Collects traces of Jaeger clients in memory and answers queries on them; nothing is persisted",
        )
        .after_help("Example:\n  jaeger_one serve --port 14268 --batches 1000000 --spans 2000000")
        .subcommand_required(true);
    let program = with_subcommand(program, get_command(alloc))?;
    let program = with_subcommand(program, pipe_command(alloc))?;
    let program = with_subcommand(program, play_command(alloc))?;
    with_subcommand(program, serve_command(alloc))
}

/// Writes what is wrong with the arguments, or the help that they ask for, and returns the exit status.
fn explain<W: Write>(writer: &mut W, error: &Error) -> ExitStatus
    ensures memory { kind_of error.now ≡ ErrorKind.OutOfMemory → result ≡ OutOfMemory }
{
    if error.kind() == ErrorKind::OutOfMemory {
        return ExitStatus::OutOfMemory;
    }
    match write!(writer, "{error}") {
        Ok(()) => ExitStatus::Usage,
        Err(_) => ExitStatus::DeviceFailed,
    }
}

/// Reads the arguments of a subcommand by clap, or writes what is wrong with them and returns the exit status.
pub(crate) fn matches_of<'a, S: AsStr, W: Write>(
    made: Result<clap::Command<'a>, AllocError>,
    arguments: &'a [S],
    writer: &mut W,
) -> Result<ArgMatches<'a>, ExitStatus>
    ensures rows { (app : App) → Makes made.entry app →
        IfOk result (λ m. rows_of (found_of m) ≡ matches_of app (map S.text arguments.entry.now)) }
    ensures silent { OnOk result (W.contents writer.new ≡ W.contents writer.old) }
    ensures taken { (app : App) → Makes made.entry app →
        are_taken app (map S.text arguments.entry.now) ≡ true → IfErr result (λ e. e ≡ OutOfMemory) }
{
    let Ok(command) = made else {
        return Err(ExitStatus::OutOfMemory);
    };
    // For the prover: the match takes the cases of the clauses of `try_get_matches_from` apart.
    match command.try_get_matches_from(arguments) {
        Ok(matches) => Ok(matches),
        Err(error) => Err(explain(writer, &error)),
    }
}

/// Returns the limits of the options.
pub(crate) fn limits_of(matches: &ArgMatches<'_>) -> Option<Limits>
    ensures given { IfSome result (HasLimits (rows_of (found_of matches.now))) }
    ensures found { (limits : LimitsValue) → HasLimits (rows_of (found_of matches.now)) limits →
        IsSome result }
{
    let batches = matches.get_one::<u32>("batches")?;
    let spans = matches.get_one::<u32>("spans")?;
    let traces = matches.get_one::<u32>("traces")?;
    let max_skew = matches.get_one::<u64>("max-skew")?;
    Limits::new(batches, spans, traces, max_skew)
}

/// Returns the trace's id, if the text is one.
fn asked_trace(matches: &ArgMatches<'_>) -> Option<TraceId>
    ensures { result ≡ trace_in (first_value (found_of matches.now) (codes "TRACE")) }
{
    parse_trace(matches.get_str("TRACE")?)
}

/// Writes that the trace's id can't be read.
fn write_bad_trace<W: Write>(writer: &mut W) -> io::Result<()>
    ensures { OnOk result (Appends (W.contents writer.old) (W.contents writer.new)
        (codes "bad trace id\n")) }
{
    writeln!(writer, "bad trace id")
}

/// Returns the trace's id. Otherwise writes the fault and returns the exit status.
fn trace_of<W: Write>(matches: &ArgMatches<'_>, writer: &mut W) -> Result<TraceId, ExitStatus>
    ensures trace { IfOk result (λ id. trace_in
        (first_value (found_of matches.now) (codes "TRACE")) ≡ Some id) }
    ensures silent { OnOk result (W.contents writer.new ≡ W.contents writer.old) }
    ensures none { IfErr result (λ e. trace_in
        (first_value (found_of matches.now) (codes "TRACE")) ≡ None) }
    ensures said { IfErr result (λ e. (e ≡ DeviceFailed)
        ⊎ ((e ≡ Usage) × Appends (W.contents writer.old) (W.contents writer.new)
        (codes "bad trace id\n"))) }
{
    match asked_trace(matches) {
        Some(trace) => Ok(trace),
        None => match write_bad_trace(writer) {
            Ok(()) => Err(ExitStatus::Usage),
            Err(_) => Err(ExitStatus::DeviceFailed),
        },
    }
}

/// Reads the limits and the trace of `get`. The first of the arguments is the subcommand's name.
fn read_get<S: AsStr, W: Write>(
    alloc: Global,
    arguments: &[S],
    writer: &mut W,
) -> Result<(Limits, TraceId), ExitStatus>
    ensures asked { IfOk result (λ r. ReadsArguments (Get r.0 r.1) (map S.text arguments.now)) }
    ensures silent { OnOk result (W.contents writer.new ≡ W.contents writer.old) }
    ensures accepted { (limits : LimitsValue) (id : TraceIdValue) →
        TakesArguments (Get limits id) (map S.text arguments.now) → IfErr result (λ e. e ≡ OutOfMemory) }
    ensures bad_trace { (limits : LimitsValue) → TakesLimits limits (map S.text arguments.now) →
        IfErr result (λ e. e ≡ Usage → Appends (W.contents writer.old) (W.contents writer.new)
        (codes "bad trace id\n")) }
{
    let matches = matches_of(get_command(alloc), arguments, writer)?;
    // Impossible: None, since clap has read each option in its range.
    let limits = limits_of(&matches).ok_or(ExitStatus::Usage)?;
    let trace = trace_of(&matches, writer)?;
    Ok((limits, trace))
}

/// Reads the limits of a subcommand without other options. The first of the arguments is the subcommand's name.
fn read_limits<'a, S: AsStr, W: Write>(
    made: Result<clap::Command<'a>, AllocError>,
    arguments: &'a [S],
    writer: &mut W,
) -> Result<Limits, ExitStatus>
    ensures asked { (app : App) → Makes made.entry app →
        IfOk result (HasLimits (matches_of app (map S.text arguments.now))) }
    ensures silent { OnOk result (W.contents writer.new ≡ W.contents writer.old) }
    ensures accepted { (app : App) (limits : LimitsValue) → Makes made.entry app →
        are_taken app (map S.text arguments.now) ≡ true →
        HasLimits (matches_of app (map S.text arguments.now)) limits →
        IfErr result (λ e. e ≡ OutOfMemory) }
{
    let matches = matches_of(made, arguments, writer)?;
    // Impossible: None, since clap has read each option in its range.
    limits_of(&matches).ok_or(ExitStatus::Usage)
}

/// Reads the command of the arguments: the program's name, the subcommand's name, and its own arguments. A reply to
/// the arguments goes to the writer.
fn judge_arguments<S: AsStr, W: Write>(
    alloc: Global,
    arguments: &[S],
    writer: &mut W,
) -> Result<Command, ExitStatus>
    ensures asked { IfOk result (AsksCommand (map S.text arguments.now)) }
    ensures silent { OnOk result (W.contents writer.new ≡ W.contents writer.old) }
    ensures accepted { (command : CommandValue) → Accepts (map S.text arguments.now) command →
        IfErr result (λ e. e ≡ OutOfMemory) }
    ensures bad_trace { (limits : LimitsValue) → TakesGet (map S.text arguments.now) limits
        → IfErr result (λ e. e ≡ Usage → Appends (W.contents writer.old) (W.contents writer.new)
        (codes "bad trace id\n")) }
{
    if let Some((_, rest)) = arguments.split_first() {
        if let Some(name) = rest.first() {
            if name.as_str() == "get" {
                let (limits, trace) = read_get(alloc, rest, writer)?;
                return Ok(Command::Get { limits, trace });
            }
            if name.as_str() == "pipe" {
                let limits = read_limits(pipe_command(alloc), rest, writer)?;
                return Ok(Command::Pipe { limits });
            }
            if name.as_str() == "play" {
                let limits = read_limits(play_command(alloc), rest, writer)?;
                return Ok(Command::Play { limits });
            }
            if name.as_str() == "serve" {
                let options = read_serve(alloc, rest, writer)?;
                return Ok(Command::Serve { options });
            }
        }
    }
    Err(explain_arguments(alloc, arguments, writer))
}

/// Writes what is wrong with arguments that name no subcommand, and returns the exit status.
fn explain_arguments<S: AsStr, W: Write>(
    alloc: Global,
    arguments: &[S],
    writer: &mut W,
) -> ExitStatus {
    match matches_of(program(alloc), arguments, writer) {
        // Impossible: arguments that clap takes name a subcommand, and `judge_arguments` has read those.
        Ok(_) => ExitStatus::Usage,
        Err(status) => status,
    }
}

/// Writes the reply to arguments that name no command, and returns the exit status.
#[tactic(auto, using(crate::proofs::ArgumentReplies::stopped, crate::proofs::ArgumentReplies::stopped_no_fault))]
fn answer<W: Output>(alloc: Global, output: &mut W, text: &[u8], status: ExitStatus) -> ExitStatus
    requires { W.has_failed output.old ≡ false }
    ensures status { IsFaultOf result (W.has_failed output.new) }
    ensures memory { status ≡ OutOfMemory → result ≡ OutOfMemory }
    ensures text { result ≡ Usage → (status ≡ Usage)
        × Appends (W.contents output.old) (W.contents output.new) text.now }
{
    match status {
        ExitStatus::Usage => {}
        // Impossible: `Success`, `NotFound` and `FaultyLine`, which `judge_arguments` never returns. No clause says so.
        // `DeviceFailed` is a lack of memory too: the arguments were judged over memory, where no other write fails.
        ExitStatus::Success
        | ExitStatus::NotFound
        | ExitStatus::FaultyLine
        | ExitStatus::DeviceFailed
        | ExitStatus::OutOfMemory => return ExitStatus::OutOfMemory,
    }
    match write_text(alloc, output, text) {
        Ok(()) => ExitStatus::Usage,
        Err(error) => error.status(),
    }
}

/// Reads the command of the arguments. The first argument is the program's name.
///
/// The second argument is the subcommand, and clap reads those after it. A fault of the arguments, or a request for
/// help, is answered on the output.
///
/// # Errors
///
/// The exit status: `Usage` for a fault of the arguments, a request for help, or a trace's id that can't be read;
/// `DeviceFailed` if the output failed; `OutOfMemory` if memory ran out.
pub fn read_words<S: AsStr, W: Output>(
    alloc: Global,
    arguments: &[S],
    output: &mut W,
) -> Result<Command, ExitStatus>
    requires { W.has_failed output.old ≡ false }
    ensures asked { IfOk result (AsksCommand (map S.text arguments.now)) }
    ensures silent { OnOk result (W.contents output.new ≡ W.contents output.old) }
    ensures works { OnOk result (W.has_failed output.new ≡ false) }
    ensures status { IfErr result (λ e. IsFaultOf e (W.has_failed output.new)) }
    ensures accepted { (command : CommandValue) → Accepts (map S.text arguments.now) command →
        IfErr result (λ e. e ≡ OutOfMemory) }
    ensures bad_trace { (limits : LimitsValue) → TakesGet (map S.text arguments.now) limits
        → IfErr result (λ e. e ≡ Usage →
        Appends (W.contents output.old) (W.contents output.new) (codes "bad trace id\n")) }
{
    let mut said = Vec::new(alloc);
    // For the prover: the match takes the cases of the clauses of `judge_arguments` apart.
    match judge_arguments(alloc, arguments, &mut said) {
        Ok(command) => Ok(command),
        Err(status) => Err(answer(alloc, output, said.as_slice(), status)),
    }
}
