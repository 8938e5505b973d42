//! What the two sides of a pair may know, as definitions over lists and numbers.
//!
//! They say what a script can declare, and of a pair without its history its rings' sizes by version, orders, labels,
//! pieces, link, scratchpads, devices and macros. They say where rings stand in the memories of a pair, what their
//! bytes say and what was stored there. And they say what a learning switch does, with the laws of its database. They
//! know no ledger and no log.
#![tactic(auto)]

pub mod examples;
pub mod laws;

/// Where the link of a pair stands. That a link is enabled by both sides and may be lost is Linux
/// `include/linux/ntb.h`. The state between a loss and the drop of what was in flight is this project's own.
#[derive(Clone, Copy, Debug, PartialEq, Eq)]
pub enum LinkState {
    /// Nothing is in flight, and a write that is posted is lost.
    Down,
    /// A write that is posted is in flight, and lands where it may pass those before it.
    Up,
    /// The link was lost: what is in flight may still land, until it is dropped, and a write that is posted is lost.
    Closing,
}

/// Why a step of the link was refused. A refused step changes nothing. These rules are this project's own: a link that
/// was lost comes up again only once both sides have forgotten the session, and then in the next session.
#[derive(Clone, Copy, Debug, PartialEq, Eq)]
pub enum LinkRefusal {
    /// The link isn't down. Of enable, train and clean, and the first that they test.
    NotDown,
    /// The side has not been cleaned since the link was lost. Of enable.
    Dirty,
    /// A side has not enabled the link. Of train.
    NotEnabled,
    /// The link isn't up. Of break.
    NotUp,
    /// The link isn't closing. Of drop.
    NotClosing,
    /// All 65,535 sessions of the pair were used. Of train, and the last that it tests.
    SessionsSpent,
}

/// A station: a device that was seen as the source of a frame.
#[derive(Clone, Copy, Debug, PartialEq, Eq)]
pub struct Station {
    /// Its address, six bytes with an even first one.
    pub address: [u8; 6],
    /// The port on which it was seen last, counted from 0.
    pub port: u32,
}

/// What came of a relay: what the switch did with the first frame of a port's inbox.
#[derive(Clone, Copy, Debug, PartialEq, Eq)]
pub enum RelayAnswer {
    /// The inbox has no frame.
    Nothing,
    /// The frame has `len` bytes, fewer than the 14 of an Ethernet header. It was dropped.
    Short { len: u32 },
    /// The frame's destination is a station on the port that it came from. It was dropped.
    Filtered,
    /// The frame's destination is a station on this port, for which it waits.
    To { port: u32 },
    /// The frame waits for all ports but the one that it came from, `count` of them, since its destination is a
    /// multicast address or no station that is known.
    Flood { count: u32 },
}
