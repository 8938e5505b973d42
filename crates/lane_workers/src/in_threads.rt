//! A round of a session in which each worker has a thread of its own.

ghost use Rattle.std.specs.Prelude.{◌≡◌, ◌≤◌};

use crate::aim::Aim;
use crate::idling::IDLE_TURNS;
use crate::progress::{Progress, Role};
use crate::team::Team;
use crate::workers::{Giver, Taker, Worker};
use io_edges::Gate;
use std::thread::{Threads, join_mut};

/// The most passes that a worker makes in a round.
const PASSES: u32 = 16_777_216;

/// The most turns of a pass of the mover.
const MOVER_TURNS: u32 = 4_096;

// The giver's part of a round. It leaves once nothing is left to give, or where it gave nothing for a while.
fn give_in_thread<S: Giver, G: Gate>(giver: &mut S, gate: &G, progress: &Progress)
    requires { S.Lets (G.lets gate.now) (S.key giver.old) }
    ensures key { S.key giver.new ≡ S.key giver.old }
    ensures reach { S.reach giver.old ≤ S.reach giver.new }
{
    let turns = progress.giver_turns();
    let mut idle: u32 = 0;
    for _ in 0..PASSES {
        let told = progress.told(Role::Giver);
        let before = giver.left();
        let made = giver.pass(gate, turns);
        let left = giver.left();
        if left < before {
            progress.tell(Role::Giver);
            idle = 0;
        } else {
            idle = idle.saturating_add(1);
        }
        if left == 0 || progress.is_stuck(idle) || progress.is_over() {
            break;
        }
        if made < turns {
            progress.pause(Role::Giver, told, idle);
        }
    }
    progress.giver_leaves();
}

// The mover's part of a round. Once the giver has left it makes passes until one ends with idle turns, and leaves too.
fn move_in_thread<M: Worker, G: Gate>(mover: &mut M, gate: &G, progress: &Progress)
    requires { M.Lets (G.lets gate.now) (M.key mover.old) }
    ensures { M.key mover.new ≡ M.key mover.old }
{
    let mut idle: u32 = 0;
    for _ in 0..PASSES {
        let told = progress.told(Role::Mover);
        let is_last = progress.has_giver_left();
        let made = mover.pass(gate, MOVER_TURNS);
        if made > IDLE_TURNS {
            progress.tell(Role::Mover);
            idle = 0;
        } else {
            idle = idle.saturating_add(1);
        }
        if progress.is_over() || (is_last && made < MOVER_TURNS) {
            break;
        }
        if made < MOVER_TURNS {
            progress.pause(Role::Mover, told, idle);
        }
    }
    progress.mover_leaves();
}

// The taker's part of a round. It is over once all frames of the aim were taken; else, once the mover has left, the
// taker makes passes until one ends with idle turns, and leaves too.
fn take_in_thread<T: Taker, G: Gate>(taker: &mut T, gate: &G, progress: &Progress, aim: Aim)
    requires { T.Lets (G.lets gate.now) (T.key taker.old) }
    ensures { T.key taker.new ≡ T.key taker.old }
{
    let turns = aim.taker_turns(taker.taken());
    let mut idle: u32 = 0;
    for _ in 0..PASSES {
        let told = progress.told(Role::Taker);
        let is_last = progress.has_mover_left();
        let before = taker.taken();
        let made = taker.pass(gate, turns);
        let taken = taker.taken();
        if taken > before {
            progress.count(taken);
            progress.tell(Role::Taker);
            idle = 0;
        } else {
            idle = idle.saturating_add(1);
        }
        if taken >= aim.total {
            progress.end();
        }
        if progress.is_over() || (is_last && made < turns) {
            break;
        }
        if made < turns {
            progress.pause(Role::Taker, told, idle);
        }
    }
}

// The cutting worker's part: the link is cut once this many frames were taken, or after a while.
fn cut_in_thread<C: Worker, G: Gate>(
    cutter: &mut C,
    gate: &G,
    progress: &Progress,
    cut_after: usize,
)
    requires { C.Lets (G.lets gate.now) (C.key cutter.old) }
    ensures { C.key cutter.new ≡ C.key cutter.old }
{
    progress.await_taken(cut_after);
    cutter.pass(gate, 1);
    progress.end();
}

// The three workers that carry frames. If no thread can be made the giver makes its passes first, then the mover, then
// the taker.
fn carry_in_threads<R: Threads + Sync, G: Gate, S: Giver, M: Worker, T: Taker>(
    rt: &R,
    gate: &G,
    giver: &mut S,
    mover: &mut M,
    taker: &mut T,
    progress: &Progress,
    aim: Aim,
)
    requires giver { S.Lets (G.lets gate.now) (S.key giver.old) }
    requires mover { M.Lets (G.lets gate.now) (M.key mover.old) }
    requires taker { T.Lets (G.lets gate.now) (T.key taker.old) }
    ensures giver { S.key giver.new ≡ S.key giver.old }
    ensures reach { S.reach giver.old ≤ S.reach giver.new }
    ensures mover { M.key mover.new ≡ M.key mover.old }
    ensures taker { T.key taker.new ≡ T.key taker.old }
{
    join_mut(
        rt,
        &mut ||
            requires { T.Lets (G.lets gate.now) (T.key taker.now) }
        { take_in_thread(taker, gate, progress, aim) },
        &mut ||
            requires { M.Lets (G.lets gate.now) (M.key mover.now) × S.Lets (G.lets gate.now) (S.key giver.now) }
        {
            join_mut(
                rt,
                &mut ||
                    requires { M.Lets (G.lets gate.now) (M.key mover.now) }
                { move_in_thread(mover, gate, progress) },
                &mut ||
                    requires { S.Lets (G.lets gate.now) (S.key giver.now) }
                { give_in_thread(giver, gate, progress) },
            );
        },
    );
}

impl<S: Giver, M: Worker, T: Taker, C: Worker> Team<S, M, T, C> {
    /// A round in which each worker has a thread of its own. It is over once all frames of the aim were taken, if no
    /// worker gets on for a while, or after the cut. If the aim has a cut, the link is cut once this many frames were
    /// taken, or after a while.
    pub(crate) fn round_in_threads<R: Threads + Sync, G: Gate>(
        &mut self,
        rt: &R,
        gate: &G,
        aim: Aim,
    )
        requires gate { ⟦<Self as Worker>⟧.Lets (G.lets gate.now) (⟦<Self as Worker>⟧.key self.old) }
        ensures key { ⟦<Self as Worker>⟧.key self.new ≡ ⟦<Self as Worker>⟧.key self.old }
        ensures reach { ⟦<Self as Worker>⟧.reach self.old ≤ ⟦<Self as Worker>⟧.reach self.new }
    {
        let progress = Progress::new(aim.entries);
        let told = &progress;
        let giver = &mut self.giver;
        let mover = &mut self.mover;
        let taker = &mut self.taker;
        let cutter = &mut self.cutter;
        let Some(cut_after) = aim.cut_after else {
            carry_in_threads(rt, gate, giver, mover, taker, told, aim);
            return;
        };
        join_mut(
            rt,
            &mut ||
                requires { C.Lets (G.lets gate.now) (C.key cutter.now) }
            { cut_in_thread(cutter, gate, told, cut_after) },
            &mut ||
                requires { S.Lets (G.lets gate.now) (S.key giver.now) × M.Lets (G.lets gate.now) (M.key mover.now) × T.Lets (G.lets gate.now) (T.key taker.now) }
            { carry_in_threads(rt, gate, giver, mover, taker, told, aim) },
        );
    }
}
