//! Runs the program: the command of its arguments, over an input and an output.
//!
//! The contract of [`run`] says what the command wrote and its status, and how arguments that name no command are
//! answered. [`read_words`] is proved to return the command that clap reads in the arguments. [`run_get`],
//! [`run_play`] and [`run_pipe`] have the contracts of their commands.
//!
//! * `command`: runs the command of the arguments.
//! * `arguments`: the command that the arguments name, and the reply to arguments that name none.
//! * `serve_arguments`: the arguments of the subcommand `serve`, which has more options than the others.
//! * `get`, `play`, `pipe`, `serve`: the subcommands.
#![tactic(auto)]

mod arguments;
mod command;
mod get;
mod pipe;
mod play;
mod serve;
mod serve_arguments;

pub use arguments::{Command, read_words};
pub use command::run;
pub use get::run_get;
pub use pipe::run_pipe;
pub use play::run_play;
