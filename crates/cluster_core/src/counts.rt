//! What a cluster counts of its lanes and devices, gathered.

ghost use Rattle.std.specs.Prelude.{◌≡◌, ◌∷◌, [], IfOk, OnOk};
ghost use Rattle.std.specs.List.{flat_map};
ghost use Rattle.pair_model.specs.PlanParts.{declared_part};
ghost use Rattle.pair_model.specs.DeclaredPlans.{IsDeclared};
ghost use Rattle.ledger_model.specs.PlanLog.{lane_count, sessions_of_lane};
ghost use Rattle.cluster_core.specs.Cluster.{plan_held};
ghost use Rattle.cluster_core.specs.Counts.{AddsCounts, AreDeviceCounts, AreLaneCounts, HasQueues, IsLaneOf, lanes_from};

use crate::cluster::Cluster;
use std::alloc::{AllocError, Global};
use step_kinds::{Counters, LaneCount, LaneName, Plan, Side};

/// Returns what the lanes of all pairs accepted and delivered, in each session where either isn't 0, by the log of
/// whatever steps the cluster has made. The plan is one that a script can declare, and its pairs, devices and switches
/// are the cluster's. It may be out of memory.
pub fn lane_counts(
    alloc: Global,
    plan: &Plan,
    cluster: &Cluster,
) -> Result<Vec<LaneCount>, AllocError>
    requires declared { IsDeclared plan.now }
    requires held { plan_held cluster.now ≡ declared_part plan.now }
    ensures { IfOk result (λ counts. AreLaneCounts cluster.now counts.items) }
{
    let mut counts = Vec::new(alloc);
    for (pair, sides) in plan.pairs.as_slice().iter().enumerate() {
        let queues = sides.a.queues.min(sides.b.queues);
        push_lanes(&mut counts, cluster, pair as u32, Side::A, queues)?;
        push_lanes(&mut counts, cluster, pair as u32, Side::B, queues)?;
    }
    Ok(counts)
}

// Adds the counts of the lanes of a pair from a side, on this many queues.
fn push_lanes(
    counts: &mut Vec<LaneCount>,
    cluster: &Cluster,
    pair: u32,
    from: Side,
    queues: u32,
) -> Result<(), AllocError>
    requires { HasQueues (plan_held cluster.now) pair queues }
    ensures { OnOk result (AddsCounts cluster.now counts.old.items counts.new.items (λ plan log. flat_map (sessions_of_lane plan log) (lanes_from pair from queues))) }
{
    for queue in 0..queues {
        push_sessions(counts, cluster, LaneName { pair, from, queue })?;
    }
    Ok(())
}

// Adds the counts of a lane in each session.
fn push_sessions(
    counts: &mut Vec<LaneCount>,
    cluster: &Cluster,
    lane: LaneName,
) -> Result<(), AllocError>
    requires { IsLaneOf (plan_held cluster.now) lane }
    ensures { OnOk result (AddsCounts cluster.now counts.old.items counts.new.items (λ plan log. sessions_of_lane plan log lane)) }
{
    for before in 0..cluster.sessions(lane.pair) {
        push_session(counts, cluster, lane, before + 1)?;
    }
    Ok(())
}

// Adds the counts of a lane in a session, if either isn't 0.
fn push_session(
    counts: &mut Vec<LaneCount>,
    cluster: &Cluster,
    lane: LaneName,
    session: u32,
) -> Result<(), AllocError>
    requires { IsLaneOf (plan_held cluster.now) lane }
    ensures { OnOk result (AddsCounts cluster.now counts.old.items counts.new.items (λ plan log. lane_count plan log lane session ∷ [])) }
{
    let (accepted, delivered) = cluster.ledger(lane, session);
    if accepted != 0 || delivered != 0 {
        counts.push(LaneCount {
            name: lane,
            session,
            accepted,
            delivered,
        })?;
    }
    Ok(())
}

/// Returns what the devices of a plan counted, by the log of whatever steps the cluster has made. The plan is one that
/// a script can declare, and its pairs, devices and switches are the cluster's. It may be out of memory.
pub fn device_counts(
    alloc: Global,
    plan: &Plan,
    cluster: &Cluster,
) -> Result<Vec<Counters>, AllocError>
    requires declared { IsDeclared plan.now }
    requires held { plan_held cluster.now ≡ declared_part plan.now }
    ensures { IfOk result (λ counts. AreDeviceCounts cluster.now counts.items) }
{
    let mut counts = Vec::new(alloc);
    for dev in 0..plan.devs.len() {
        counts.push(cluster.counters(dev as u32))?;
    }
    Ok(counts)
}
