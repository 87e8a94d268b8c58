//! The program: a trace collector for `jaeger.thrift` batches.
//!
//! `commands` runs the command of its arguments over standard input and output, and `serve` over sockets. Nothing is
//! proved about the bytes that a real file, terminal or socket carried.
#![tactic(auto)]

use commands::run;
use session_devices::Watched;
use std::process::ExitCode;
use std::{env, io};
use text_lines::ExitStatus;

fn arguments(rt: &HostRuntime) -> io::Result<Vec<String>> {
    let arguments: Vec<String> = env::args(rt)?.collect(rt.alloc())?;
    Ok(arguments)
}

fn main(rt: HostRuntime) -> ExitCode {
    let Ok(arguments) = arguments(&rt) else {
        return ExitCode::from(ExitStatus::OutOfMemory.code());
    };
    let mut input = Watched::new(rt.stdin());
    let mut output = Watched::new(rt.stdout());
    let status = run(
        &rt,
        rt.alloc(),
        arguments.as_slice(),
        &mut input,
        &mut output,
    );
    ExitCode::from(status.code())
}
