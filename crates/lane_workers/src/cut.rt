//! The pass of the worker that cuts.
ghost use Rattle.std.specs.Prelude.{◌≡◌};
ghost use Rattle.table_lane.specs.Knowledge.{link_cut};

use crate::turn_gate::TurnGate;
use table_lane::CutEnd;

/// Makes the one turn of the worker that cuts the link, and returns 1. Before it the pass passes the gate with the
/// number `first`, which has to let it. It takes no memory and never waits for another worker.
pub fn cut_pass<G: TurnGate>(end: &mut CutEnd, gate: &G, worker: u32, first: u64) -> u32
    requires gate { G.lets gate.now worker first }
    ensures one { result ≡ 1 }
    ensures lane { end.new.lane ≡ end.old.lane }
    ensures cuts { end.new.part ≡ link_cut end.old.part }
{
    gate.admit(worker, first);
    end.cut();
    1
}
