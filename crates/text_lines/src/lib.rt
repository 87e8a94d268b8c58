//! Answers the lines of an input one by one on an output.
//!
//! [`answer_lines`] reads the lines of an [`Input`](session_devices::Input) and passes each to a [`LineHandler`]. The
//! reply is written before the next read, so a user at a terminal sees the answer to a line at once. If it succeeds,
//! all of the input was read, and the replies to its lines were written in order. If a device fails or memory runs
//! out, a prefix of that was written.
//!
//! * `answering`: answers the lines of an input one by one.
//! * `exit_status`: how the program ends.
//! * `handler`: handles lines.
//! * `line_buffer`: reads the lines of an input one at a time.
//! * `output_buffer`: text that waits to be written.
//! * `run_error`: why a run stopped before the end of its input.
#![tactic(auto)]

mod answering;
mod exit_status;
mod handler;
mod line_buffer;
mod output_buffer;
mod run_error;

pub use answering::answer_lines;
pub use exit_status::ExitStatus;
pub use handler::LineHandler;
pub use output_buffer::{OutputBuffer, write_text};
pub use run_error::RunError;
pub use session_devices::MAX_READS;
