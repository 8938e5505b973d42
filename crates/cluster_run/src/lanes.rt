//! A lane at work: its sessions, one after another.

ghost use Rattle.std.specs.Prelude.{◌≡◌, ◌≤◌, ◌<◌, true, length, IfOk};
ghost use Rattle.step_kinds.specs.Runs.{lane_shown};
ghost use Rattle.step_kinds.specs.Limits.{most_traffic_entries};
ghost use Rattle.io_edges.specs.Gates.{LetsWorkers};
ghost use Rattle.table_lane.specs.ShownLane.{most_lane_frames};
ghost use Rattle.lane_workers.specs.Passes.{HaveBytes};
ghost use Rattle.cluster_run.specs.LaneKeys.{ComesTo};
ghost use Rattle.cluster_run.specs.Lanes.{most_lanes, most_workers};

use crate::rounds::RoundWork;
use crate::session::{Session, SessionEnd};
use io_edges::Gate;
use lane_workers::Way;
use std::alloc::{AllocError, Global};
use std::marker::Model;
use std::thread::Threads;
use step_kinds::{FrameList, Items, LaneName, LaneRun, SessionRun};
use table_lane::LaneProof;

/// A lane at work. Contracts see what its work comes to, and whether its last session is whole.
#[derive(Drop)]
pub(crate) struct LaneWork {
    name: LaneName,
    number: u32,
    entries: u32,
    /// How many losses of the pair's link are ahead.
    ahead: u32,
    session: Session,
    /// The sessions that ended, and their proofs.
    runs: Vec<SessionRun>,
    proofs: Vec<LaneProof>,
}

impl LaneWork {
    ghost use Rattle.cluster_run.specs.LaneKeys.{LaneKey};

    /// Returns a lane in its first session. Returns an error if memory runs out.
    pub(crate) fn new(
        alloc: Global,
        name: LaneName,
        number: u32,
        entries: u32,
        losses: u32,
        frames: FrameList,
    ) -> Result<LaneWork, AllocError>
        requires number { number < most_lanes }
        requires ring { (2 ≤ entries) × (entries ≤ most_traffic_entries) }
        requires bytes { HaveBytes frames.frames }
        requires few { length frames.frames < most_lane_frames }
        ensures { IfOk result (λ work. work.key ≡ record { name = name; number = number; entries = entries; losses = losses; traffic = frames.frames }) }
    {
        Ok(LaneWork {
            name,
            number,
            entries,
            ahead: losses,
            session: Session::new(alloc, number, entries, frames)?,
            runs: Vec::new(alloc),
            proofs: Vec::new(alloc),
        })
    }

    // With how many frames received the session is cut: its share of the frames, if a loss of the link is ahead.
    fn cut_after(&self) -> Option<usize> {
        match self.ahead {
            0 => None,
            ahead => Some(self.session.total() / (ahead as usize + 1)),
        }
    }

    /// A round, in which its workers make their passes in this way. A lane that is over does nothing.
    pub(crate) fn pass<R: Threads + Sync, G: Gate>(&mut self, rt: &R, gate: &G, way: Way)
        requires { LetsWorkers (G.lets gate.now) most_workers }
        ensures { self.new.key ≡ self.old.key }
    {
        if self.is_over() {
            return;
        }
        let cut_after = self.cut_after();
        self.session.pass(rt, gate, way, cut_after);
    }

    /// Ends a lane that is over: its record, and the proofs of its sessions. Returns an error if memory runs out.
    pub(crate) fn ended(self, alloc: Global) -> Result<(LaneRun, Vec<LaneProof>), AllocError>
        requires { self.over ≡ true }
        ensures { IfOk result (λ end. ComesTo self.key (lane_shown end.0) end.1.items) }
    {
        let LaneWork {
            name,
            session,
            mut runs,
            mut proofs,
            ..
        } = self;
        let SessionEnd { run, proof, .. } = session.ended(alloc)?;
        runs.push(run)?;
        proofs.push(proof)?;
        let sessions = Items::of_vec(runs);
        Ok((LaneRun { name, sessions }, proofs))
    }
}

impl RoundWork for LaneWork {
    ghost key = { λ work. work.key };

    ghost over = { λ work. work.over };

    fn is_over(&self) -> bool {
        self.ahead == 0 && self.session.is_whole() && !self.session.is_cut()
    }

    fn is_cut(&self) -> bool {
        self.session.is_cut()
    }

    // Only frames of a stream take memory in a session.
    fn is_wanting(&self) -> bool {
        false
    }

    // The next session has the frames to send that were not accepted.
    fn renewed(self, alloc: Global) -> Result<LaneWork, AllocError> {
        if self.ahead == 0 || !self.session.is_cut() {
            return Ok(self);
        }
        let LaneWork {
            name,
            number,
            entries,
            ahead,
            session,
            mut runs,
            mut proofs,
        } = self;
        let SessionEnd { run, proof, rest } = session.ended(alloc)?;
        runs.push(run)?;
        proofs.push(proof)?;
        Ok(LaneWork {
            name,
            number,
            entries,
            ahead: ahead - 1,
            session: Session::new(alloc, number, entries, rest)?,
            runs,
            proofs,
        })
    }
}

impl Model for LaneWork {
    ghost use Rattle.cluster_run.specs.LaneKeys.{LaneState};

    ghost Value = { LaneState };

    ghost use Rattle.cluster_run.specs.LaneFields.{state_of, IsWork};

    ghost view = { state_of };

    ghost invariant = { IsWork };
}
