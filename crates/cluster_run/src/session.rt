//! A session of a lane: the life of one table lane, from `make` to `finish`.

ghost use Rattle.std.specs.Prelude.{◌≡◌, ◌+◌, ◌*◌, ◌≤◌, ◌<◌, ◌++◌, ◌==◌, [], length, IfOk};
ghost use Rattle.step_kinds.specs.Limits.{most_traffic_entries};
ghost use Rattle.io_edges.specs.Gates.{LetsWorker, LetsWorkers};
ghost use Rattle.table_lane.specs.ShownLane.{most_lane_frames};
ghost use Rattle.lane_workers.specs.Passes.{HaveBytes};
ghost use Rattle.cluster_run.specs.Sessions.{new_session, EndsWith};
ghost use Rattle.cluster_run.specs.Lanes.{most_lanes};

use crate::clock::Clock;
use crate::workers::{Cutting, Moving, Receiving, Sending, room_for};
use io_edges::Gate;
use lane_workers::{Aim, Team, Way};
use std::alloc::{AllocError, Global};
use std::marker::Model;
use std::thread::Threads;
use step_kinds::{FrameList, SessionRun};
use table_lane::{LaneEnd, LaneProof, finish, make};

/// A session of a lane: its four workers, at one table.
#[derive(Drop)]
pub(crate) struct Session {
    team: Team<Sending, Moving, Receiving, Cutting>,
    entries: u32,
    total: usize,
}

/// What a session leaves.
#[derive(Drop)]
pub(crate) struct SessionEnd {
    /// What it delivered and what it left.
    pub(crate) run: SessionRun,
    /// What its lane did.
    pub(crate) proof: LaneProof,
    /// The frames that it did not accept.
    pub(crate) rest: FrameList,
}

/// For this many frames more than a session has there is room to receive: a pass then makes as many turns at least.
const SPARE_ROOM: usize = 1_024;

// Returns the frames of a list with room for this many in all. If they are fewer than half of these, they are moved
// into a list of their own length.
fn trimmed(alloc: Global, mut list: FrameList, room: usize) -> Result<FrameList, AllocError>
    ensures { IfOk result (λ r. r.frames ≡ list.frames) }
{
    if list.len() >= room / 2 {
        return Ok(list);
    }
    let mut own = FrameList::new(alloc);
    own.promise(list.len())?;
    while let Some(frame) = list.take_first() {
        own.push(frame);
    }
    Ok(own)
}

impl Session {
    /// Returns a session of the lane with this number, in a ring of this many entries, that has these frames to send:
    /// each has a byte. Returns an error if memory runs out.
    pub(crate) fn new(
        alloc: Global,
        number: u32,
        entries: u32,
        todo: FrameList,
    ) -> Result<Session, AllocError>
        requires number { number < most_lanes }
        requires ring { (2 ≤ entries) × (entries ≤ most_traffic_entries) }
        requires bytes { HaveBytes todo.frames }
        requires few { length todo.frames < most_lane_frames }
        ensures { IfOk result (λ s. s ≡ new_session (4 * number) entries todo.frames) }
    {
        let total = todo.len();
        let room = total + SPARE_ROOM;
        let got = room_for(alloc, room)?;
        let (send, mover, recv, back, cut) = make(alloc, entries)?;
        let first = 4 * number;
        let team = Team {
            giver: Sending {
                end: send,
                todo,
                clock: Clock::new(first),
                apart: [0; 16],
            },
            mover: Moving::new(mover, back, first + 1),
            taker: Receiving::new(recv, got, room, first + 2),
            cutter: Cutting::new(cut, first + 3),
        };
        Ok(Session {
            team,
            entries,
            total,
        })
    }

    /// A round of the session. Its workers make their passes in this way.
    pub(crate) fn pass<R, G>(&mut self, rt: &R, gate: &G, way: Way, cut_after: Option<usize>)
    where
        R: Threads + Sync,
        G: Gate,
        requires { LetsWorkers (G.lets gate.now) (self.old.worker + 4) }
        ensures worker { self.new.worker ≡ self.old.worker }
        ensures entries { self.new.entries ≡ self.old.entries }
        ensures frames { self.new.frames ≡ self.old.frames }
    {
        let aim = Aim {
            total: self.total,
            cut_after,
            entries: self.entries,
        };
        self.team.round(rt, gate, way, aim);
    }

    /// Returns how many frames the session may accept.
    pub(crate) fn total(&self) -> usize
        ensures { result ≡ length self.now.frames }
    {
        self.total
    }

    /// Returns whether all its frames were received.
    pub(crate) fn is_whole(&self) -> bool
        ensures { result ≡ (length self.now.got == length self.now.frames) }
    {
        self.team.taker.count() == self.total
    }

    /// Returns whether the link was cut.
    pub(crate) fn is_cut(&self) -> bool
        ensures { result ≡ self.now.cut }
    {
        self.team.cutter.is_cut()
    }

    /// Ends the session. Returns an error if memory runs out.
    pub(crate) fn ended(self, alloc: Global) -> Result<SessionEnd, AllocError>
        ensures { IfOk result (λ end. EndsWith self end.run end.proof end.rest) }
    {
        let Session {
            team,
            entries,
            total,
        } = self;
        let Team {
            giver: sending,
            mover: moving,
            taker: receiving,
            cutter: cutting,
        } = team;
        let Sending {
            end: send,
            todo,
            ..
        } = sending;
        let (mover, back) = moving.into_ends();
        let (recv, got) = receiving.into_parts();
        let LaneEnd { left, proof } = finish(send, mover, recv, back, cutting.into_end());
        let run = SessionRun {
            delivered: trimmed(alloc, got, total + SPARE_ROOM)?,
            left: trimmed(alloc, left, entries as usize)?,
        };
        Ok(SessionEnd {
            run,
            proof,
            rest: todo,
        })
    }
}

impl Model for Session {
    ghost use Rattle.cluster_run.specs.Workers.{SessionState};

    ghost Value = { SessionState };

    ghost use Rattle.cluster_run.specs.SessionFields.{session_of, IsRunSession};

    ghost view = { session_of };

    ghost invariant = { IsRunSession };
}
