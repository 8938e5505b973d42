//! A row of the workers' passes over one lane.

ghost use Rattle.std.specs.Prelude.{◌≡◌, ◌+◌, ◌≤◌, ◌∷◌, [], length, IfOk};
ghost use Rattle.io_edges.specs.Gates.{LetsWorkers};
ghost use Rattle.lane_workers.specs.Passes.{HaveBytes};

use io_edges::{Gate, NoGate};
use lane_workers::{cut_pass, move_pass, recv_pass, send_pass};
use std::alloc::{AllocError, Global};
use std::sync::atomic::{AtomicU64, Ordering};
use step_kinds::{Frame, FrameList};
use table_lane::{BackEnd, CutEnd, MoveEnd, RecvEnd, SendEnd, make};

// Returns a frame of one byte.
fn frame_of(alloc: Global, byte: u8) -> Result<Frame, AllocError>
    ensures { IfOk result (λ frame. frame ≡ byte ∷ []) }
{
    Ok(Frame::of_vec(vec![in alloc; byte]?))
}

// The ends of a lane, what is to be sent, and what came.
#[derive(Drop)]
struct Lane {
    send: SendEnd,
    mover: MoveEnd,
    recv: RecvEnd,
    back: BackEnd,
    cut: CutEnd,
    todo: FrameList,
    got: FrameList,
}

// Two frames of one byte each.
#[tactic(auto, using(crate::proofs::OneByte::two_have_bytes))]
fn two_frames(alloc: Global) -> Result<FrameList, AllocError>
    ensures bytes { IfOk result (λ list. HaveBytes list.frames) }
    ensures two { IfOk result (λ list. length list.frames ≡ 2) }
{
    let mut list = FrameList::new(alloc);
    list.promise(2)?;
    list.push(frame_of(alloc, b'a')?);
    list.push(frame_of(alloc, b'b')?);
    Ok(list)
}

// Returns a lane with two entries and two frames to send.
fn new_lane(alloc: Global) -> Result<Lane, AllocError>
    ensures bytes { IfOk result (λ lane. HaveBytes lane.todo.frames) }
    ensures few { IfOk result (λ lane. length lane.send.part.sent + length lane.todo.frames ≡ 2) }
    ensures room { IfOk result (λ lane. lane.got.spare ≡ 5) }
{
    let todo = two_frames(alloc)?;
    let mut got = FrameList::new(alloc);
    got.promise(5)?;
    let (send, mover, recv, back, cut) = make(alloc, 2)?;
    Ok(Lane {
        send,
        mover,
        recv,
        back,
        cut,
        todo,
        got,
    })
}

// Returns a pass of each worker; the turns that they made.
fn go_round<G: Gate>(lane: &mut Lane, gate: &G) -> [u32; 4]
    requires bytes { HaveBytes lane.old.todo.frames }
    requires few { length lane.old.send.part.sent + length lane.old.todo.frames ≡ 2 }
    requires room { 2 ≤ lane.old.got.spare }
    requires gate { LetsWorkers (G.lets gate.now) 4 }
    ensures bytes { HaveBytes lane.new.todo.frames }
    ensures few { length lane.new.send.part.sent + length lane.new.todo.frames ≡ 2 }
    ensures room { lane.new.got.spare + length lane.new.got.frames ≡ lane.old.got.spare + length lane.old.got.frames }
{
    let sent = send_pass(&mut lane.send, &mut lane.todo, gate, 0, 0, 2);
    let moved = move_pass(&mut lane.mover, &mut lane.back, 8, gate, 1, 0, 3);
    let received = recv_pass(&mut lane.recv, &mut lane.got, gate, 2, 0, 2);
    let cut = cut_pass(&mut lane.cut, gate, 3, 5);
    [sent, moved, received, cut]
}

// A gate for four workers. It adds up the numbers of the turns of each, counted from 1.
#[derive(Drop)]
struct Sums {
    of: [AtomicU64; 4],
}

impl Sums {
    // Before any turn.
    fn new() -> Sums {
        Sums {
            of: [
                AtomicU64::new(0),
                AtomicU64::new(0),
                AtomicU64::new(0),
                AtomicU64::new(0),
            ],
        }
    }

    // Returns the sums by worker.
    fn all(&self) -> [u64; 4] {
        let [sender, mover, receiver, cutter] = &self.of;
        [
            sender.load(Ordering::SeqCst),
            mover.load(Ordering::SeqCst),
            receiver.load(Ordering::SeqCst),
            cutter.load(Ordering::SeqCst),
        ]
    }
}

impl Gate for Sums {
    ghost use Rattle.std.specs.Prelude.{◌<◌};

    ghost lets = { λ _ worker _. worker < 4 };

    fn at(&self, worker: u32, turn: u64) {
        self.of[worker as usize].fetch_add(turn.wrapping_add(1), Ordering::SeqCst);
    }
}

/// Returns whether of two frames one goes round a ring of two entries, before the link is cut and the other one stays.
/// Turns 0 and 1 of worker 0, 0 to 2 of worker 1, 0 and 1 of worker 2, and 5 of worker 3 pass the gate. Returns an
/// error if memory runs out.
pub fn one_of_two_frames_goes_round(alloc: Global) -> Result<bool, AllocError> {
    let mut lane = new_lane(alloc)?;
    Ok(goes_round(&mut lane) && lane.got.len() == 1 && stays_after_the_cut(&mut lane))
}

// Returns whether the first frame goes round.
fn goes_round(lane: &mut Lane) -> bool
    requires bytes { HaveBytes lane.old.todo.frames }
    requires few { length lane.old.send.part.sent + length lane.old.todo.frames ≡ 2 }
    requires room { 5 ≤ lane.old.got.spare }
    ensures bytes { HaveBytes lane.new.todo.frames }
    ensures few { length lane.new.send.part.sent + length lane.new.todo.frames ≡ 2 }
    ensures room { 5 ≤ lane.new.got.spare + length lane.new.got.frames }
{
    let gate = Sums::new();
    let turns = go_round(lane, &gate);
    turns == [2, 3, 2, 1] && gate.all() == [3, 6, 3, 6]
}

// Returns whether the second frame stays, since the link is cut.
fn stays_after_the_cut(lane: &mut Lane) -> bool
    requires bytes { HaveBytes lane.old.todo.frames }
    requires few { length lane.old.send.part.sent + length lane.old.todo.frames ≡ 2 }
    requires room { 2 ≤ lane.old.got.spare }
{
    let turns = go_round(lane, &NoGate);
    turns == [1, 3, 2, 1] && lane.todo.len() == 1
}
