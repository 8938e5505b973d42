//! Changes of a pair's link and of its writes in flight, by what a step says of them.

ghost use Rattle.std.specs.Prelude.{◌≡◌, if◌then◌else◌, slice_index_or};
ghost use Rattle.pair_model.specs.Plans.{no_pair};
ghost use Rattle.ledger_model.specs.Reading.{has_window as is_there};
ghost use Rattle.step_kinds.specs.declared.steps.Step.TheVariants.{Land, Train};
ghost use Rattle.ring_geometry.specs.Geometry.{window_of};
ghost use Rattle.pair_model.specs.Sizes.{layout_of};
ghost use Rattle.trace_command.specs.Writes.{change_by, class_on as class_of_pair, goes_through as is_through, queue_posts};
ghost use Rattle.trace_command.specs.declared.changes.Change.TheVariants.{Nothing, Posts};

use plan_numbers::side_plan;
use step_kinds::{Answer, Label, PairPlan, Side};

/// What a step, as it was answered, changes of its pair's link and of the writes in flight there.
#[derive(Clone, Copy, Debug, PartialEq, Eq)]
pub enum Change {
    /// The link comes up in a session.
    Trains {
        /// The session, from 1.
        session: u32,
    },
    /// The link is lost.
    Breaks,
    /// What is in flight on both sides is dropped, and the link is down.
    Drops,
    /// The side posts a write of this traffic class.
    Posts {
        /// The side that posts.
        side: Side,
        /// The traffic class, 0 to 7.
        class: u32,
    },
    /// A write is posted, and is lost whatever the link: the peer of a raw pair lacks the window that it goes through.
    Loses,
    /// The write at a place in flight lands.
    Lands {
        /// The side that posted it.
        side: Side,
        /// The place, 0 for the write that was posted first.
        place: u32,
    },
    /// The write at a place in flight may not land yet.
    Waits {
        /// The side that posted it.
        side: Side,
        /// The place, 0 for the write that was posted first.
        place: u32,
    },
    /// Neither the link nor a write in flight changes.
    Nothing,
}

/// Returns the change by a step that was made, and nothing where it wasn't.
pub fn only_if(made: bool, change: Change) -> Change
    ensures { result ≡ (if made then change else Nothing) }
{
    if made { change } else { Change::Nothing }
}

/// Returns the change by a step that posts a write of this class where it is made.
pub fn posts_if(made: bool, side: Side, class: u32) -> Change
    ensures { result ≡ (if made then Posts side class else Nothing) }
{
    only_if(made, Change::Posts { side, class })
}

/// Returns the change by the training of a link.
pub fn trained(answer: &Answer) -> Change
    ensures { result ≡ change_by no_pair (Train 0) answer.now }
{
    if let Answer::OkSession { session } = answer {
        Change::Trains { session: *session }
    } else {
        Change::Nothing
    }
}

/// Returns the change by a landing at a place.
pub fn landing(side: Side, place: u32, answer: &Answer) -> Change
    ensures { result ≡ change_by no_pair (Land 0 side place) answer.now }
{
    if let Answer::Landed { .. } = answer {
        Change::Lands { side, place }
    } else if let Answer::Blocked = answer {
        Change::Waits { side, place }
    } else {
        Change::Nothing
    }
}

/// Returns the change by the post of a queue's write. It is lost where the pair is raw and the peer lacks the write's
/// window.
pub fn queue_post(pairs: &[PairPlan], pair: u32, side: Side, queue: u32, label: &Label) -> Change
    ensures { result ≡ queue_posts (slice_index_or pairs.now pair no_pair) side queue label.now }
{
    if goes_through(pairs, pair, side, label) {
        Change::Posts {
            side,
            class: class_on(pairs, pair, side, queue),
        }
    } else {
        Change::Loses
    }
}

// Returns whether a write that a side posts is in flight then, if the link is up.
fn goes_through(pairs: &[PairPlan], pair: u32, side: Side, label: &Label) -> bool
    ensures { result ≡ is_through (slice_index_or pairs.now pair no_pair) side label.now }
{
    match pairs.get(pair as usize) {
        Some(plan) => !plan.raw || has_window(plan, side, label),
        None => true,
    }
}

// Returns whether the peer has the window that a side's write goes through. A doorbell and a scratchpad go through
// none.
fn has_window(plan: &PairPlan, side: Side, label: &Label) -> bool
    ensures { result ≡ is_there plan.now side label.now }
{
    let window = match label {
        Label::Chunk { queue, .. }
        | Label::Len { queue, .. }
        | Label::Ver { queue, .. }
        | Label::Flag { queue, .. }
        | Label::Down { queue, .. }
        | Label::Index { queue, .. } => window_on(plan, side, *queue),
        Label::Raw { window, .. } => *window,
        Label::Bell { .. } | Label::Pad { .. } => 0,
    };
    window < side_plan(plan, side.other()).windows
}

// Returns the window that a side sends through on a queue. A side without windows, which no script declares, has the
// queue's.
fn window_on(plan: &PairPlan, side: Side, queue: u32) -> u32
    ensures { result ≡ window_of (layout_of plan.now side queue) }
{
    queue
        .checked_rem(side_plan(plan, side).windows)
        .unwrap_or(queue)
}

/// The traffic class of a side's writes on a queue. It is 0 past the queues and past the pairs.
pub fn class_on(pairs: &[PairPlan], pair: u32, side: Side, queue: u32) -> u32
    ensures { result ≡ class_of_pair (slice_index_or pairs.now pair no_pair) side queue }
{
    let Some(plan) = pairs.get(pair as usize) else {
        return 0;
    };
    let classes = match side {
        Side::A => &plan.class_a,
        Side::B => &plan.class_b,
    };
    classes.get(queue as usize).copied().unwrap_or(0)
}
