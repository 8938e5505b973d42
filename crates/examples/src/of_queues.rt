//! A row of queue pairs.

ghost use Rattle.std.specs.Prelude.{◌≡◌, ◌<◌, length, IfOk, OnOk};
ghost use Rattle.examples.specs.Queues.{IsQueueOn};
ghost use Rattle.queue_pair.specs.Queue.{fresh_queue};
ghost use Rattle.step_kinds.specs.declared.names.Side.TheVariants.{A};
ghost use Rattle.traffic_plan.specs.Load.{load_pair};

use bridge_pair::Pair;
use queue_pair::{BeginAnswer, QueuePair};
use std::alloc::{AllocError, Global};
use step_kinds::{Frame, Label, Side};
use traffic_plan::load_without_steps;

// Returns the pair of a load, which starts up.
fn new_pair(alloc: Global) -> Result<Pair, AllocError>
    ensures { IfOk result (λ pair. pair.plan ≡ load_pair) }
{
    let plan = load_without_steps(alloc)?;
    Pair::new(alloc, &plan.pairs.as_slice()[0])
}

// Returns the queue of its side A.
fn new_queue(alloc: Global, pair: &Pair) -> QueuePair
    requires { pair.now.plan ≡ load_pair }
    ensures { result ≡ fresh_queue load_pair A 0 }
{
    QueuePair::new(alloc, pair.plan(), Side::A, 0)
}

// Returns a frame of the byte `a`.
fn one_byte(alloc: Global) -> Result<Frame, AllocError>
    ensures { IfOk result (λ frame. length frame ≡ 1) }
{
    Ok(Frame::of_vec(vec![in alloc; b'a']?))
}

// The writes of the first frame of queue 0, which has one byte.
const WRITES: [Label; 5] = [
    Label::Chunk {
        queue: 0,
        number: 0,
        part: 0,
    },
    Label::Len {
        queue: 0,
        number: 0,
    },
    Label::Ver {
        queue: 0,
        number: 0,
    },
    Label::Flag {
        queue: 0,
        number: 0,
    },
    Label::Bell { queue: 0 },
];

/// Returns whether a frame of one byte is begun on a pair that starts up, and its five writes are posted in order.
/// Before that another begin has to be refused, and after it nothing may be left to post. It may be out of memory.
pub fn begun_frame_is_posted(alloc: Global) -> Result<bool, AllocError> {
    let mut pair = new_pair(alloc)?;
    is_posted_on(alloc, &mut pair)
}

// Returns whether the first queue of side A shows it.
fn is_posted_on(alloc: Global, pair: &mut Pair) -> Result<bool, AllocError>
    requires { pair.old.plan ≡ load_pair }
{
    let mut queue = new_queue(alloc, pair);
    is_posted(alloc, &mut queue, pair)
}

// Returns whether a queue shows it on which nothing was begun.
fn is_posted(alloc: Global, queue: &mut QueuePair, pair: &mut Pair) -> Result<bool, AllocError>
    requires { IsQueueOn pair.old queue.old }
{
    let first = begin(alloc, queue, pair)?;
    let second = begin(alloc, queue, pair)?;
    Ok(
        first == BeginAnswer::Ok { number: 0 }
            && second == BeginAnswer::Busy
            && posts(queue, pair, &WRITES)
            && post(queue, pair) == None,
    )
}

// Begins a frame of one byte.
fn begin(alloc: Global, queue: &mut QueuePair, pair: &mut Pair) -> Result<BeginAnswer, AllocError>
    requires { IsQueueOn pair.old queue.old }
    ensures { OnOk result (IsQueueOn pair.new queue.new) }
{
    let frame = one_byte(alloc)?;
    let begun = queue.begin(pair, frame)?;
    Ok(begun)
}

// Posts the next write.
fn post(queue: &mut QueuePair, pair: &mut Pair) -> Option<Label>
    requires { IsQueueOn pair.old queue.old }
    ensures { IsQueueOn pair.new queue.new }
{
    queue.post(pair)
}

// Returns whether these are the next writes that are posted.
fn posts(queue: &mut QueuePair, pair: &mut Pair, writes: &[Label]) -> bool
    requires { IsQueueOn pair.old queue.old }
    ensures { IsQueueOn pair.new queue.new }
{
    let mut are_all = true;
    for label in writes {
        are_all &= post(queue, pair) == Some(*label);
    }
    are_all
}
