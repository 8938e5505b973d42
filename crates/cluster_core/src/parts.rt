//! Which part of a cluster makes a step.

ghost use Rattle.std.specs.Prelude.{◌≡◌};
ghost use Rattle.cluster_core.specs.Parts.{part_of as part_by_step};

use step_kinds::{LaneName, Step};

/// The part of a cluster that makes a step.
#[derive(Clone, Copy)]
pub enum StepPart {
    /// A switch relays the first frame that arrived on one of its ports.
    Relays { switch: u32, port: u32 },
    /// The first frame that waits at the port on a side and a queue is sent. These are named as the lane from them.
    Sends { own: LaneName },
    /// A part of a frame is copied on a side and a queue, and a frame that is delivered with it may arrive at the port
    /// there.
    Copies { own: LaneName },
    /// The bridges alone.
    OnBridges,
}

/// Returns the part that makes a step.
#[inline(always)]
pub fn part_of(step: &Step) -> StepPart
    ensures { result ≡ part_by_step step.now }
{
    if let Step::Relay { switch, port, .. } = *step {
        return StepPart::Relays { switch, port };
    }
    if let Step::Xnext {
        pair,
        side,
        queue,
        ..
    } = *step
    {
        return StepPart::Sends {
            own: LaneName {
                pair,
                from: side,
                queue,
            },
        };
    }
    if let Step::Copy { pair, side, queue } = *step {
        return StepPart::Copies {
            own: LaneName {
                pair,
                from: side,
                queue,
            },
        };
    }
    StepPart::OnBridges
}
