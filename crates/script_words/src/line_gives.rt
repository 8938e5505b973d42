//! What one line of a script gives beside steps.

use crate::parts::{PairHosts, QueueName};
use step_kinds::{DevPlan, Frame, LaneName, Name, PairPlan, SwitchPlan};

/// What one line gives beside steps.
#[derive(Drop)]
pub enum Given {
    /// The header, a comment or a line without words.
    Nothing,
    /// A host.
    Host {
        name: Name,
    },
    /// A pair, in a box: it is far larger than what any other line gives; and its hosts.
    Pair {
        pair: Box<PairPlan>,
        hosts: PairHosts,
    },
    /// A device.
    Device {
        dev: DevPlan,
    },
    /// The class of a queue.
    Class {
        queue: QueueName,
        class: u32,
    },
    /// A switch.
    Switch {
        switch: SwitchPlan,
    },
    /// The steps begin.
    StepsBegin,
    /// The traffic begins.
    TrafficBegins,
    /// One frame of the traffic.
    Frame {
        lane: LaneName,
        frame: Frame,
    },
    /// This many frames of the traffic, each of this many bytes.
    Flood {
        lane: LaneName,
        count: u32,
        len: u32,
    },
    /// One link loss beside the traffic.
    Break {
        pair: u32,
    },
}
