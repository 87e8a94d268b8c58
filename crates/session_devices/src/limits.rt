/// The number of reads that a run may make of its input: that of a session's requests, or of lines. One more counts as
/// a failed read.
pub const MAX_READS: u64 = 1_099_511_627_776;

/// How many interruptions by a signal make a call count as failed.
pub const MAX_INTERRUPTIONS: u32 = 1_000_000;
