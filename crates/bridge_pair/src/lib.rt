//! A pair in bytes: two hosts and the non-transparent bridge between them.
//!
//! Each side has memory, sixteen scratchpads and a doorbell of 32 bits, and reaches those of its peer through the
//! bridge alone (Linux `Documentation/driver-api/ntb.rst`). What a side writes there is posted: it is in flight until
//! it lands, and may be overtaken on the way (PCI Express Base 4.0, section 2.4). A write is translated as it is
//! posted, from a window and an offset to an address of the peer's memory. So landing it only stores its bytes or sets
//! its register.
//!
//! The pair knows what a side has reached in the handshake as plain numbers, and nothing of rings and frames but a
//! side's index words.
//!
//! Room for a write is promised before it is posted, and so are the pages of memory that it lands on. The pair keeps it
//! that each write in flight has its place at the peer, on promised pages: landing takes no memory and never fails.
#![tactic(auto)]

mod book;
mod endpoint;
mod flying_bytes;
mod flying_write;
mod fresh;
pub mod laws;
mod pair;
mod same;
mod write;

pub use book::SideBook;
pub use pair::Pair;
pub use write::{Target, Write, WriteBytes};
