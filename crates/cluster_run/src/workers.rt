//! The four workers of a lane in a session, each with the end or the ends that it makes its turns with.

ghost use Rattle.std.specs.Prelude.{◌≡◌, ◌≢◌, ◌+◌, ◌≤◌, [], true, false, length, min, take, IfOk};
ghost use Rattle.table_lane.specs.Tries.{tries};
ghost use Rattle.cluster_run.specs.Workers.{first_turn, LetsPass};

use crate::clock::Clock;
use lane_workers::workers::{Giver, Taker, Worker};
use lane_workers::{TurnGate, cut_pass, move_pass, recv_pass, send_pass};
use std::alloc::{AllocError, Global};
use std::marker::Model;
use step_kinds::FrameList;
use table_lane::{BackEnd, CutEnd, MoveEnd, RecvEnd, SendEnd};

/// Numbers that nobody reads, between what one worker changes and what the next one does: so each has cache lines of
/// its own.
pub(crate) type Apart = [u64; 16];

/// The worker that sends the frames of a session.
#[derive(Drop)]
pub(crate) struct Sending {
    pub(crate) end: SendEnd,
    pub(crate) todo: FrameList,
    pub(crate) clock: Clock,
    pub(crate) apart: Apart,
}

impl Sending {
    /// Makes at least 1 and at most this many turns, and returns how many. What it was given to send stays, sent or
    /// not. A turn with a frame left loads the link word once. Turns go on from those of the passes before, and the
    /// gate has to let the worker pass before each.
    pub(crate) fn pass<G: TurnGate>(&mut self, gate: &G, turns: u32) -> u32
        requires some { 1 ≤ turns }
        requires gate { LetsPass (G.lets gate.now) self.old.key.worker self.old.turn turns }
        ensures key { self.new.key ≡ self.old.key }
        ensures some { 1 ≤ result }
        ensures at_most { result ≤ turns }
        ensures one_each { self.new.loads ≤ self.old.loads + result }
        ensures tries { self.new.left ≢ 0 → self.new.loads ≡ self.old.loads + result }
        ensures turn { self.new.turn ≡ first_turn self.old.turn turns + result }
    {
        let first = self.clock.first(turns);
        let worker = self.clock.worker();
        let made = send_pass(&mut self.end, &mut self.todo, gate, worker, first, turns);
        self.clock = self.clock.after(first, made);
        made
    }
}

impl Worker for Sending {
    ghost use Rattle.io_edges.specs.Gates.{LetsWorker};
    ghost use Rattle.cluster_run.specs.Workers.{SendingKey};

    ghost Key = { SendingKey };

    ghost key = { λ w. w.key };

    ghost Lets = { λ lets key. LetsWorker lets key.worker };

    fn pass<G: TurnGate>(&mut self, gate: &G, turns: u32) -> u32 {
        Sending::pass(self, gate, turns)
    }
}

impl Giver for Sending {
    fn left(&self) -> usize {
        self.todo.len()
    }
}

impl Model for Sending {
    ghost use Rattle.cluster_run.specs.Workers.{SendingShown};

    ghost Value = { SendingShown };

    ghost use Rattle.cluster_run.specs.WorkerFields.{sending_of, IsSending};

    ghost view = { sending_of };

    ghost invariant = { IsSending };
}

/// The worker that moves frames and brings indices back. Contracts see its number, the lane that its ends stand at, the
/// number of its next turn, how often it tried to move, and the loads on the way back.
#[derive(Drop)]
pub struct Moving {
    mover: MoveEnd,
    back: BackEnd,
    clock: Clock,
    apart: Apart,
}

impl Moving {
    /// Returns the worker with this number, before its first turn in a session. Both ends are those of one lane.
    pub fn new(mover: MoveEnd, back: BackEnd, worker: u32) -> Moving
        requires { back.lane ≡ mover.lane }
        ensures { result ≡ record { key = record { worker = worker; lane = mover.lane }; turn = 0; tries = tries mover.part; loads = back.part.loads } }
    {
        Moving {
            mover,
            back,
            clock: Clock::new(worker),
            apart: [0; 16],
        }
    }

    /// Makes at least 1 and at most this many turns, and returns how many; `turns` is at least 1. In each it tries to
    /// move, and loads once on the way back. The worker's number is the seed of its choices. Turns go on from those of
    /// the passes before, and the gate has to let it pass before each.
    pub fn pass<G: TurnGate>(&mut self, gate: &G, turns: u32) -> u32
        requires some { 1 ≤ turns }
        requires gate { LetsPass (G.lets gate.now) self.old.key.worker self.old.turn turns }
        ensures key { self.new.key ≡ self.old.key }
        ensures some { 1 ≤ result }
        ensures at_most { result ≤ turns }
        ensures tries { self.old.tries + result ≤ self.new.tries }
        ensures back_tries { self.new.loads ≡ self.old.loads + result }
        ensures turn { self.new.turn ≡ first_turn self.old.turn turns + result }
    {
        let first = self.clock.first(turns);
        let worker = self.clock.worker();
        let made = move_pass(
            &mut self.mover,
            &mut self.back,
            u64::from(worker),
            gate,
            worker,
            first,
            turns,
        );
        self.clock = self.clock.after(first, made);
        made
    }

    /// The two ends of the moving worker, at the end of a session.
    pub fn into_ends(self) -> (MoveEnd, BackEnd)
        ensures mover { result.0.lane ≡ self.key.lane }
        ensures back { result.1.lane ≡ self.key.lane }
    {
        (self.mover, self.back)
    }
}

impl Worker for Moving {
    ghost use Rattle.io_edges.specs.Gates.{LetsWorker};
    ghost use Rattle.cluster_run.specs.Workers.{WorkerKey};

    ghost Key = { WorkerKey };

    ghost key = { λ w. w.key };

    ghost Lets = { λ lets key. LetsWorker lets key.worker };

    fn pass<G: TurnGate>(&mut self, gate: &G, turns: u32) -> u32 {
        Moving::pass(self, gate, turns)
    }
}

impl Model for Moving {
    ghost use Rattle.cluster_run.specs.Workers.{MovingShown};

    ghost Value = { MovingShown };

    ghost use Rattle.cluster_run.specs.WorkerFields.{moving_of, IsMoving};

    ghost view = { moving_of };

    ghost invariant = { IsMoving };
}

/// Returns a list with room for this many frames. Returns an error if memory runs out.
pub fn room_for(alloc: Global, frames: usize) -> Result<FrameList, AllocError>
    ensures { IfOk result (λ list. (list.frames ≡ []) × (list.spare ≡ frames)) }
{
    let mut list = FrameList::new(alloc);
    list.promise(frames)?;
    Ok(list)
}

/// The worker that receives frames into a list with room for `room` of them. Contracts see its number, the lane that
/// its end stands at, and the number of its next turn. They see the frames that were received, for how many more there
/// is room, and its loads of flags.
#[derive(Drop)]
pub struct Receiving {
    end: RecvEnd,
    got: FrameList,
    room: usize,
    clock: Clock,
    apart: Apart,
}

impl Receiving {
    /// Returns the worker with this number, before its first turn in a session, with an empty list that has room for
    /// just this many frames. Its end has received nothing.
    pub fn new(end: RecvEnd, got: FrameList, room: usize, worker: u32) -> Receiving
        requires received { end.part.got ≡ [] }
        requires none { got.frames ≡ [] }
        requires room { got.spare ≡ room }
        ensures { result ≡ record { key = record { worker = worker; lane = end.lane }; turn = 0; got = []; spare = room; loads = end.part.loads } }
    {
        Receiving {
            end,
            got,
            room,
            clock: Clock::new(worker),
            apart: [0; 16],
        }
    }

    /// Makes at most this many turns, and no more than the list has room for. Returns how many: at least one, if
    /// there is room and `turns` isn't 0. Each turn loads a flag once, and what was received before stays in front.
    /// Turns go on from those of the passes before, and the gate has to let the worker pass before each.
    pub fn pass<G: TurnGate>(&mut self, gate: &G, turns: u32) -> u32
        requires gate { LetsPass (G.lets gate.now) self.old.key.worker self.old.turn (min turns self.old.spare) }
        ensures key { self.new.key ≡ self.old.key }
        ensures kept { take (length self.old.got) self.new.got ≡ self.old.got }
        ensures room { self.new.spare + length self.new.got ≡ self.old.spare + length self.old.got }
        ensures some { 1 ≤ turns → 1 ≤ self.old.spare → 1 ≤ result }
        ensures at_most { result ≤ turns }
        ensures tries { self.new.loads ≡ self.old.loads + result }
        ensures turn { self.new.turn ≡ first_turn self.old.turn (min turns self.old.spare) + result }
    {
        let spare = self.room - self.got.len();
        let turns = turns.min(u32::try_from(spare).unwrap_or(u32::MAX));
        if turns == 0 {
            return 0;
        }
        let first = self.clock.first(turns);
        let worker = self.clock.worker();
        let made = recv_pass(&mut self.end, &mut self.got, gate, worker, first, turns);
        self.clock = self.clock.after(first, made);
        made
    }

    /// Returns how many frames were received.
    pub fn count(&self) -> usize
        ensures { result ≡ length self.now.got }
    {
        self.got.len()
    }

    /// Returns the end of the receiving worker, and the frames that were received, in order.
    pub fn into_parts(self) -> (RecvEnd, FrameList)
        ensures lane { result.0.lane ≡ self.key.lane }
        ensures received { result.0.part.got ≡ self.got }
        ensures got { result.1.frames ≡ self.got }
    {
        (self.end, self.got)
    }
}

impl Worker for Receiving {
    ghost use Rattle.io_edges.specs.Gates.{LetsWorker};
    ghost use Rattle.cluster_run.specs.Workers.{WorkerKey};

    ghost Key = { WorkerKey };

    ghost key = { λ w. w.key };

    ghost Lets = { λ lets key. LetsWorker lets key.worker };

    fn pass<G: TurnGate>(&mut self, gate: &G, turns: u32) -> u32 {
        Receiving::pass(self, gate, turns)
    }
}

impl Taker for Receiving {
    fn taken(&self) -> usize {
        self.count()
    }
}

impl Model for Receiving {
    ghost use Rattle.cluster_run.specs.Workers.{ReceivingShown};

    ghost Value = { ReceivingShown };

    ghost use Rattle.cluster_run.specs.WorkerFields.{receiving_of, IsReceiving};

    ghost view = { receiving_of };

    ghost invariant = { IsReceiving };
}

/// The worker that cuts the link. Contracts see its number, the lane that its end stands at, the number of its next
/// turn, and whether the link was cut.
#[derive(Drop)]
pub struct Cutting {
    end: CutEnd,
    is_cut: bool,
    clock: Clock,
}

impl Cutting {
    /// Returns the worker with this number, before its turn in a session. The link isn't cut.
    pub fn new(end: CutEnd, worker: u32) -> Cutting
        requires { end.part.cut ≡ false }
        ensures { result ≡ record { key = record { worker = worker; lane = end.lane }; turn = 0; cut = false } }
    {
        Cutting {
            end,
            is_cut: false,
            clock: Clock::new(worker),
        }
    }

    /// Makes its one turn: the link is cut. The gate has to let the worker pass before it.
    pub fn pass<G: TurnGate>(&mut self, gate: &G)
        requires gate { G.lets gate.now self.old.key.worker (first_turn self.old.turn 1) }
        ensures key { self.new.key ≡ self.old.key }
        ensures cut { self.new.cut ≡ true }
        ensures turn { self.new.turn ≡ first_turn self.old.turn 1 + 1 }
    {
        let first = self.clock.first(1);
        let made = cut_pass(&mut self.end, gate, self.clock.worker(), first);
        self.is_cut = true;
        self.clock = self.clock.after(first, made);
    }

    /// Returns whether the link was cut.
    pub fn is_cut(&self) -> bool
        ensures { result ≡ self.now.cut }
    {
        self.is_cut
    }

    /// Returns the end of the cutting worker, at the end of a session.
    pub fn into_end(self) -> CutEnd
        ensures lane { result.lane ≡ self.key.lane }
        ensures cut { result.part.cut ≡ self.cut }
    {
        self.end
    }
}

impl Worker for Cutting {
    ghost use Rattle.io_edges.specs.Gates.{LetsWorker};
    ghost use Rattle.cluster_run.specs.Workers.{WorkerKey};

    ghost Key = { WorkerKey };

    ghost key = { λ w. w.key };

    ghost Lets = { λ lets key. LetsWorker lets key.worker };

    fn pass<G: TurnGate>(&mut self, gate: &G, turns: u32) -> u32 {
        Cutting::pass(self, gate);
        turns.min(1)
    }
}

impl Model for Cutting {
    ghost use Rattle.cluster_run.specs.Workers.{CuttingShown};

    ghost Value = { CuttingShown };

    ghost use Rattle.cluster_run.specs.WorkerFields.{cutting_of, IsCutting};

    ghost view = { cutting_of };

    ghost invariant = { IsCutting };
}
