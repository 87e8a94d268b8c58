ghost use Rattle.std.specs.Prelude.{◌≡◌};
ghost use Rattle.text_lines.specs.ExitStatuses.{exit_code};

/// How the program ends. Its numbers are in [`code`](ExitStatus::code) alone.
#[derive(Clone, Copy, Debug, PartialEq, Eq)]
pub enum ExitStatus {
    /// All of the work was done.
    Success,
    /// The trace wasn't found.
    NotFound,
    /// The command line can't be used, or asks for help or the version.
    Usage,
    /// Some line of the input was answered with a fault.
    FaultyLine,
    /// A read, a write or a socket failed, or the limit of reads was reached.
    DeviceFailed,
    /// Memory, threads or another resource of the system ran out.
    OutOfMemory,
}

impl ExitStatus {
    /// Returns the number for the operating system.
    pub fn code(self) -> u8
        ensures { result ≡ exit_code self }
    {
        match self {
            ExitStatus::Success => 0,
            ExitStatus::NotFound => 1,
            ExitStatus::Usage => 2,
            ExitStatus::FaultyLine => 3,
            ExitStatus::DeviceFailed => 4,
            ExitStatus::OutOfMemory => 5,
        }
    }
}
