//! The memory of a host, as bytes at addresses from 0, and the translation windows through which its peer reaches it.
//!
//! A memory is kept in pages of [`PAGE_SIZE`] bytes. A page that was never promised reads as zeros and takes at most a
//! place in a table, so a large memory of which little is written is cheap.
//!
//! An access says by its `requires` that it lies in the memory, and a write that its pages were promised, so none
//! fails. Words are little-endian.
#![tactic(auto)]

pub mod laws;
mod memory;
mod pages;
mod window;

pub use memory::{Memory, PAGE_SIZE};
pub use window::Window;
