//! Rounds of the workers of lanes, or of streams, that are open together.

ghost use Rattle.std.specs.Prelude.{◌≡◌, ◌≤◌, Bool, true, All, IfOk, IsTrue, map};
ghost use Rattle.cluster_run.specs.LaneKeys.{LaneKey, KeepsKey};

use std::alloc::{AllocError, Global};
use std::sync::Wait;
use std::thread;
use std::thread::Threads;

/// Work at one lane, or at one stream, that goes on in rounds until it is over.
pub trait RoundWork: Send + Drop {
    /// What it comes to, which never changes.
    ghost key: { Self → LaneKey };

    /// Whether its last session is whole.
    ghost over: { Self → Bool };

    /// Returns whether its last session is whole.
    fn is_over(&self) -> bool
        ensures { result ≡ over self.now };

    /// Returns whether its session was cut.
    fn is_cut(&self) -> bool;

    /// Returns whether a session lacked memory.
    fn is_wanting(&self) -> bool;

    /// If its session was cut and is not the last, ends it and begins the next one.
    ///
    /// # Errors
    ///
    /// [`AllocError`] if memory runs out.
    fn renewed(self, alloc: Global) -> Result<Self, AllocError>
        ensures { IfOk result (λ work. key work ≡ key self) };
}

/// The most lanes whose workers have threads. Of more lanes a thread makes the passes of several in turn.
const FEW_LANES: usize = 4;

/// The threads that carry lanes if the number of processors isn't known.
const SOME_THREADS: usize = 4;

// Returns how many threads carry lanes: as many as there are processors.
fn thread_count<R: Threads>(rt: &R) -> usize
    ensures { 1 ≤ result }
{
    match thread::available_parallelism(rt) {
        Ok(count) => count.get().max(1),
        Err(_) => SOME_THREADS,
    }
}

// A round of works. The workers of few have threads; of more each of this many threads makes the passes of several in
// turn.
fn round<W, R, F, I>(rt: &R, threads: usize, works: &mut [W], in_threads: &F, in_turn: &I)
where
    W: RoundWork,
    R: Threads + Sync,
    F: Fn(usize, &mut W) + Sync,
    I: Fn(usize, &mut W) + Sync,
    requires some { 1 ≤ threads }
    requires in_threads { KeepsKey W.key F.Fn in_threads.now }
    requires in_turn { KeepsKey W.key I.Fn in_turn.now }
    ensures { map W.key works.new ≡ map W.key works.old }
{
    if works.len() <= FEW_LANES {
        thread::for_each_mut(rt, works, FEW_LANES, in_threads);
    } else {
        thread::for_each_mut(rt, works, threads, in_turn);
    }
}

// Returns whether all works are over.
fn are_over<W: RoundWork>(works: &[W]) -> bool
    ensures { IsTrue result → All (λ work. W.over work ≡ true) works.now }
{
    works.iter().all(|work| work.is_over())
}

// Begins the next session of each work whose session was cut. Returns an error if memory runs out, also in a session.
fn renewed<W: RoundWork>(alloc: Global, works: Vec<W>) -> Result<Vec<W>, AllocError>
    ensures { IfOk result (λ next. map W.key next.items ≡ map W.key works.items) }
{
    if works.iter().any(|work| work.is_wanting()) {
        return Err(AllocError);
    }
    if !works.iter().any(|work| work.is_cut()) {
        return Ok(works);
    }
    let mut next = Vec::with_capacity(alloc, works.len())?;
    for work in works {
        next.push(work.renewed(alloc)?)?;
    }
    Ok(next)
}

/// Rounds of these works, until all are over. What each comes to stays. It may wait without end, since rounds have no
/// bound.
///
/// A round makes the passes of each work: of up to four works by `in_threads`, beside one another; of more by
/// `in_turn`, and a thread for each processor takes several. Both are given the work's place and the work, and have to
/// keep its key. Where no thread can be made the caller makes all passes.
///
/// # Errors
///
/// [`AllocError`] if memory runs out.
pub fn finished<W, R, F, I>(
    rt: &R,
    alloc: Global,
    mut works: Vec<W>,
    in_threads: &F,
    in_turn: &I,
) -> Result<Vec<W>, AllocError>
where
    W: RoundWork,
    R: Threads + Wait + Sync,
    F: Fn(usize, &mut W) + Sync,
    I: Fn(usize, &mut W) + Sync,
    requires in_threads { KeepsKey W.key F.Fn in_threads.now }
    requires in_turn { KeepsKey W.key I.Fn in_turn.now }
    ensures keys { IfOk result (λ done. map W.key done.items ≡ map W.key works.items) }
    ensures over { IfOk result (λ done. All (λ work. W.over work ≡ true) done.items) }
{
    let threads = thread_count(rt);
    for _ in rt.forever() {
        if are_over(&works) {
            return Ok(works);
        }
        round(rt, threads, &mut works, in_threads, in_turn);
        works = renewed(alloc, works)?;
    }
    unreachable!()
}
