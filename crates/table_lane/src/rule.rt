//! The rule of the table that a lane stands on.

use crate::parts::LaneView;
use atomic_table::TableRule;
use step_kinds::Frame;

/// The rule of a lane's table. Its key is the number of entries of the ring.
pub struct LaneRule;

impl TableRule<Option<Frame>, LaneView, u64> for LaneRule {
    ghost use Rattle.table_lane.specs.Rule.{ShowsALane};
    ghost use Rattle.table_lane.specs.Views.{all_parts};

    ghost holds = { λ entries. ShowsALane entries };

    ghost first = { λ entries. all_parts entries };
}
