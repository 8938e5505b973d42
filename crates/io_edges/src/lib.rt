//! The outside: sources and sinks of bytes, each with a count of its faults.
//!
//! A contract can say "this error comes only if the outside failed in this call", since the count rises at each fault
//! and code on top can't raise it. The count rises up to the last value of a `u64`.
#![tactic(auto)]

mod gate;
mod memory_sink;
mod memory_source;
mod plain_source;
mod plan;
mod std_streams;
mod streams;
mod whole;

pub use gate::{Gate, NoGate};
pub use memory_sink::MemorySink;
pub use memory_source::MemorySource;
pub use plain_source::PlainSource;
pub use std_streams::{StdSink, StdSource, StdStream};
pub use streams::{Failed, Sink, Source};
pub use whole::{ReadError, WriteFault, read_all, write_all};
