//! The limits of reads.

/// The bytes of a side's memory.
pub const MEMORY_BYTES: u64 = 4096;

/// The most bytes that a read asks for.
pub const MOST_READ_BYTES: u32 = 512;

/// The most bytes of a memory that a text shows at once.
pub const MOST_SHOW_BYTES: u32 = 64;

/// The bytes that a completion brings; the last one of a read brings the rest.
pub const COMPLETION_BYTES: usize = 128;
