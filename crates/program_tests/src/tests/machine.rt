//! The machine that a run of the program needs.
use std::process::Abort;
use std::random::RandomSource;
use std::sync::Wait;
use std::thread::Threads;
use std::time::Clock;

/// What the program needs from its machine, except sockets.
pub(crate) trait Machine: Abort + Threads + Wait + Clock + Eprint + RandomSource + Sync {}

impl<H: Abort + Threads + Wait + Clock + Eprint + RandomSource + Sync> Machine for H {}
