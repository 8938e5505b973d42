//! How long a worker waits for another one, in reads of what that one sets.

/// How often a worker reads whether another one came.
pub const READS: u32 = 100_000_000;

/// Once it came, a worker that is held longer reads so often more.
pub const MORE_READS: u32 = 1_000_000;

/// After this many reads it lets other threads run.
pub const READS_TO_YIELD: u32 = 1_024;
