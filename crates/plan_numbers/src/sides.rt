//! What a plan says to one side of its pair: its numbers and its memory, and how its writes are ordered.

ghost use Rattle.std.specs.Prelude.{◌≡◌, ◌+◌, ◌*◌, ◌/◌, ◌%◌, ◌<◌, ◌≤◌, ℕ, if◌then◌else◌};
ghost use Rattle.pair_model.specs.DeclaredPlans.{AreClasses, IsPair};
ghost use Rattle.pair_model.specs.Orders.{class_of as order_class, classes_of as plan_classes, kind_of as order_kind};
ghost use Rattle.pair_model.specs.Pads.{word};
ghost use Rattle.pair_model.specs.Plans.{side_plan as side_plan_of};
ghost use Rattle.pair_model.specs.Sizes.{agreed_version, header_bytes as bytes_of_header};
ghost use Rattle.plan_numbers.specs.Memories.{memory_size};

use order_rules::{RELAXED, STRICT};
use step_kinds::{Label, Name, PairPlan, Side, SidePlan};

// A scratchpad has 32 bits.
const WORD: u64 = 1 << 32;

/// Returns the numbers of a side.
pub fn side_plan(plan: &PairPlan, side: Side) -> SidePlan
    ensures { result ≡ side_plan_of plan.now side }
{
    match side {
        Side::A => plan.a,
        Side::B => plan.b,
    }
}

/// Returns whether the pair speaks version 5: both sides declare it.
pub fn speaks_five(pair: &PairPlan) -> bool
    ensures { agreed_version pair.now ≡ (if result then 5 else 4) }
{
    pair.a.version == 5 && pair.b.version == 5
}

/// Returns the bytes of a header: 16 where both sides speak version 5, else 12.
pub fn header_bytes(plan: &PairPlan) -> u32
    ensures { result ≡ bytes_of_header plan.now }
{
    if speaks_five(plan) { 16 } else { 12 }
}

/// The traffic classes of the writes that a side of a declared pair posts, by queue. Each is below 8.
pub fn classes_of(plan: &PairPlan, side: Side) -> &[u32; 16]
    requires { IsPair plan.now }
    ensures value { result.now ≡ plan_classes plan.now side }
    ensures classes { AreClasses result.now }
{
    match side {
        Side::A => &plan.class_a,
        Side::B => &plan.class_b,
    }
}

/// Returns the traffic class of a write, by those of its side's queues, each below 8: that of its queue. A write of no
/// queue has class 0.
pub fn class_among(classes: &[u32; 16], label: Label) -> u32
    requires { AreClasses classes.now }
    ensures value { result ≡ order_class classes.now label }
    ensures small { result < 8 }
{
    match label {
        Label::Chunk { queue, .. }
        | Label::Len { queue, .. }
        | Label::Ver { queue, .. }
        | Label::Flag { queue, .. }
        | Label::Bell { queue }
        | Label::Down { queue, .. }
        | Label::Index { queue, .. } => classes.get(queue as usize).copied().unwrap_or(0),
        Label::Pad { .. } | Label::Raw { .. } => 0,
    }
}

/// How bridges order a write: on a strict pair each write is strict; elsewhere the chunks, length and version of an
/// entry and raw bytes are relaxed. All other writes are strict on every pair.
pub fn kind_of(is_strict: bool, label: Label) -> usize
    ensures value { result ≡ order_kind is_strict label }
    ensures small { result < 2 }
{
    match label {
        Label::Chunk { .. } | Label::Len { .. } | Label::Ver { .. } | Label::Raw { .. }
            if !is_strict => RELAXED,
        _ => STRICT,
    }
}

/// Returns a plan with the same numbers.
pub fn copy_of(plan: &PairPlan) -> PairPlan
    ensures { result ≡ plan.now }
{
    PairPlan {
        name: Name::of_bytes(plan.name.bytes()),
        a: plan.a,
        b: plan.b,
        mtu: plan.mtu,
        up: plan.up,
        strict: plan.strict,
        raw: plan.raw,
        class_a: plan.class_a,
        class_b: plan.class_b,
    }
}

/// Returns the bytes of the memory of a side of a declared pair: its windows, each as large as the memory gives them.
pub fn memory_bytes(plan: &PairPlan, side: Side) -> u64
    requires { IsPair plan.now }
    ensures { result ≡ memory_size plan.now side }
{
    let own = side_plan(plan, side);
    u64::from(own.windows) * own.cap
}

/// Returns the address of a place in one of the windows of a side's own memory, which follow one another. The pair has
/// to be a declared one, the window one of the side's, and the offset at most the side's `cap`.
pub fn own_address(plan: &PairPlan, side: Side, window: u32, offset: u64) -> u64
    requires declared { IsPair plan.now }
    requires among { window < (side_plan_of plan.now side).windows }
    requires offset { offset ≤ (side_plan_of plan.now side).cap }
    ensures value { result ≡ window * (side_plan_of plan.now side).cap + offset }
    ensures within { (len : ℕ) → offset + len ≤ (side_plan_of plan.now side).cap → result + len ≤ memory_size plan.now side }
{
    u64::from(window) * side_plan(plan, side).cap + offset
}

/// Returns the high half of a window's size, as it is in a scratchpad of 32 bits.
pub fn high_half(size: u64) -> u32
    ensures { result ≡ size / word }
{
    (size / WORD) as u32
}

/// Returns the low half of a window's size, as it is in a scratchpad of 32 bits.
pub fn low_half(size: u64) -> u32
    ensures { result ≡ size % word }
{
    (size % WORD) as u32
}
