//! A stream at work: its sessions, one after another.

ghost use Rattle.std.specs.Prelude.{◌≡◌, ◌≤◌, true, IfOk};
ghost use Rattle.io_edges.specs.Gates.{LetsWorkers};
ghost use Rattle.cluster_run.specs.Lanes.{most_lanes};
ghost use Rattle.cluster_run.specs.stream.Keys.{StreamComesTo, stream_numbers};
ghost use Rattle.cluster_run.specs.stream.Streams.{stream_shown};
ghost use Rattle.cluster_run.specs.stream.Workers.{most_stream_workers};

use crate::rounds::RoundWork;
use crate::stream::exchange::{StreamEnds, laws_of_sessions, next_ends};
use crate::stream::numbers::LaneNumbers;
use crate::stream::record::StreamRun;
use crate::stream::session::Session;
use crate::tasks::{LaneTask, TaskParts};
use io_edges::Gate;
use lane_workers::Way;
use resume_stream::{StreamReceiver, StreamSender};
use std::alloc::{AllocError, Global};
use std::marker::Model;
use std::thread::Threads;
use step_kinds::LaneName;
use table_lane::LaneProof;

/// A stream at work. Contracts see what its work comes to, and whether its last session is whole.
#[derive(Drop)]
pub(crate) struct StreamWork {
    name: LaneName,
    numbers: LaneNumbers,
    entries: u32,
    /// How many losses the pair's link sees.
    losses: u32,
    /// How many of them are ahead.
    ahead: u32,
    session: Session,
    /// The proofs of the sessions that ended.
    proofs: Vec<LaneProof>,
}

impl StreamWork {
    /// Returns a stream in its first session, if this many lanes have traffic: after their numbers come those of the
    /// lanes of acknowledgements. Returns an error if memory runs out.
    pub(crate) fn new(alloc: Global, lanes: u32, task: LaneTask) -> Result<StreamWork, AllocError>
        requires { lanes ≤ most_lanes }
        ensures key { IfOk result (λ work. work.key ≡ task) }
        ensures numbers { IfOk result (λ work. work.numbers ≡ stream_numbers lanes work.key.number) }
    {
        let TaskParts {
            name,
            number,
            entries,
            losses,
            frames,
        } = task.into_parts();
        let numbers = LaneNumbers {
            items: number,
            acks: lanes + number,
        };
        let total = frames.len();
        let sender = StreamSender::new(alloc, frames);
        let receiver = StreamReceiver::new(alloc);
        Ok(StreamWork {
            name,
            numbers,
            entries,
            losses,
            ahead: losses,
            session: Session::new(alloc, numbers, entries, sender, receiver, total)?,
            proofs: Vec::new(alloc),
        })
    }

    // With how many items kept the session is cut: its share of those that the stream lacks, if a loss of the link is
    // ahead.
    fn cut_after(&self) -> Option<usize> {
        let total = self.session.total();
        match self.ahead {
            0 => None,
            ahead => {
                let lacking = total.saturating_sub(self.session.begun());
                Some(total - lacking + lacking / (ahead as usize + 1))
            }
        }
    }

    /// A round, in which its workers make their passes in this way. A stream that is over does nothing.
    pub(crate) fn pass<R: Threads + Sync, G: Gate>(&mut self, rt: &R, gate: &G, way: Way)
        requires { LetsWorkers (G.lets gate.now) most_stream_workers }
        ensures key { self.new.key ≡ self.old.key }
        ensures numbers { self.new.numbers ≡ self.old.numbers }
    {
        if self.is_over() {
            return;
        }
        let cut_after = self.cut_after();
        self.session.pass(rt, gate, way, cut_after);
    }

    /// Ends a stream that is over: its record, and the proofs of its sessions. Returns an error if memory runs out.
    pub(crate) fn ended(self) -> Result<(StreamRun, Vec<LaneProof>), AllocError>
        requires { self.over ≡ true }
        ensures { IfOk result (λ end. StreamComesTo self.key (stream_shown end.0) end.1.items) }
    {
        let StreamWork {
            name,
            losses,
            session,
            mut proofs,
            ..
        } = self;
        laws_of_sessions();
        if let Err(error) = proofs.reserve(2) {
            // One call drops all its fields: dropped at the return, each would be a step of this function's proof.
            drop(session);
            return Err(error);
        }
        let end = session.ended()?;
        proofs.push_reserved(end.item_proof);
        proofs.push_reserved(end.ack_proof);
        let items = end.receiver.into_items();
        let sessions = losses + 1;
        Ok((
            StreamRun {
                name,
                items,
                sessions,
            },
            proofs,
        ))
    }
}

impl RoundWork for StreamWork {
    ghost key = { λ work. work.key };

    ghost over = { λ work. work.over };

    fn is_over(&self) -> bool {
        self.ahead == 0 && self.session.kept() == self.session.total() && !self.session.is_cut()
    }

    fn is_cut(&self) -> bool {
        self.session.is_cut()
    }

    fn is_wanting(&self) -> bool {
        self.session.is_wanting()
    }

    // The next session begins from the item that was acknowledged.
    fn renewed(self, alloc: Global) -> Result<StreamWork, AllocError>
        ensures key { IfOk result (λ work. work.key ≡ self.key) }
        ensures numbers { IfOk result (λ work. work.numbers ≡ self.numbers) }
    {
        if self.ahead == 0 || !self.session.is_cut() {
            return Ok(self);
        }
        let StreamWork {
            name,
            numbers,
            entries,
            losses,
            ahead,
            session,
            mut proofs,
        } = self;
        laws_of_sessions();
        let total = session.total();
        if let Err(error) = proofs.reserve(2) {
            // One call drops all its fields: dropped at the return, each would be a step of this function's proof.
            drop(session);
            return Err(error);
        }
        let end = session.ended()?;
        proofs.push_reserved(end.item_proof);
        proofs.push_reserved(end.ack_proof);
        let StreamEnds { sender, receiver } = next_ends(end.sender, end.receiver, end.acks);
        Ok(StreamWork {
            name,
            numbers,
            entries,
            losses,
            ahead: ahead - 1,
            session: Session::new(alloc, numbers, entries, sender, receiver, total)?,
            proofs,
        })
    }
}

impl Model for StreamWork {
    ghost use Rattle.cluster_run.specs.LaneKeys.{LaneState};

    ghost Value = { LaneState };

    ghost use Rattle.cluster_run.specs.stream.LaneFields.{stream_state_of, IsStreamWork};

    ghost view = { stream_state_of };

    ghost invariant = { IsStreamWork };
}
