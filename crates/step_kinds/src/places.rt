//! Which part of its pair a step touches, and what it does there.
//!
//! What makes steps of one part is handed these alone, and matches them whole. Frames and addresses are borrowed from
//! the step, so that none is copied.

ghost use Rattle.std.specs.Prelude.{◌≡◌};
ghost use Rattle.step_kinds.specs.Places.{by_value, step_place};
ghost use Rattle.step_kinds.specs.declared.places.StepPlace.TheVariants.{OnBridge, OnQueue, OnSwitch};

use crate::frame::Frame;
use crate::names::Side;
use crate::steps::Step;

/// What a step does on one queue of a side: each variant is the [`Step`] of its name, without pair, side and queue.
#[derive(Clone, Copy, Debug)]
pub enum QueueStep<'a> {
    /// [`Step::Begin`]: the frame has 1 to 65,536 bytes.
    Begin {
        frame: &'a Frame,
    },
    /// [`Step::QpDown`].
    QpDown,
    /// [`Step::Xbegin`]: the payload has 1 to 65,522 bytes.
    Xbegin {
        dev: u32,
        dst: &'a [u8; 6],
        kind: u16,
        payload: &'a Frame,
    },
    /// [`Step::Post`].
    Post,
    /// [`Step::Look`].
    Look,
    /// [`Step::Copy`].
    Copy,
    /// [`Step::Clear`].
    Clear,
    /// [`Step::Ack`].
    Ack,
    /// [`Step::Wake`].
    Wake {
        dev: u32,
    },
}

/// What a step does on all queues of a side.
#[derive(Clone, Copy, Debug)]
pub enum SideStep {
    /// [`Step::Clean`].
    Clean,
}

/// What a step does on the bridge alone: each variant is the [`Step`] of its name, without the pair.
#[derive(Clone, Copy, Debug)]
pub enum BridgeStep<'a> {
    /// [`Step::Enable`].
    Enable {
        side: Side,
    },
    /// [`Step::Train`].
    Train,
    /// [`Step::Break`].
    Break,
    /// [`Step::DropDone`].
    DropDone,
    /// [`Step::Offer`].
    Offer {
        side: Side,
    },
    /// [`Step::Check`].
    Check {
        side: Side,
    },
    /// [`Step::Ready`].
    Ready {
        side: Side,
        queue: u32,
    },
    /// [`Step::Join`].
    Join {
        side: Side,
        queue: u32,
    },
    /// [`Step::Land`].
    Land {
        side: Side,
        place: u32,
    },
    /// [`Step::Irq`].
    Irq {
        side: Side,
    },
    /// [`Step::Mask`].
    Mask {
        side: Side,
        bits: u32,
    },
    /// [`Step::Unmask`].
    Unmask {
        side: Side,
        bits: u32,
    },
    /// [`Step::Spad`].
    Spad {
        side: Side,
        index: u32,
        value: u32,
    },
    /// [`Step::Poke`]: 1 to 128 bytes.
    Poke {
        side: Side,
        window: u32,
        offset: u64,
        bytes: &'a Frame,
    },
    /// [`Step::ShowMem`].
    ShowMem {
        side: Side,
        at: u64,
        len: u32,
    },
    /// [`Step::ShowPad`].
    ShowPad {
        side: Side,
        index: u32,
    },
    /// [`Step::ShowQueue`].
    ShowQueue {
        side: Side,
        place: u32,
    },
}

/// What a step does on a switch, above all pairs: each variant is the [`Step`] of its name, without the pair.
#[derive(Clone, Copy, Debug)]
pub enum SwitchStep {
    /// [`Step::Relay`].
    Relay {
        side: Side,
        queue: u32,
        switch: u32,
        port: u32,
    },
    /// [`Step::Xnext`].
    Xnext {
        side: Side,
        queue: u32,
        dev: u32,
    },
}

/// The part of its pair that a step touches, with what it does there.
#[derive(Clone, Copy, Debug)]
pub enum StepPlace<'a> {
    /// One queue of a side, and the bridge.
    OnQueue {
        side: Side,
        queue: u32,
        step: QueueStep<'a>,
    },
    /// All queues of a side, and the bridge.
    OnSide {
        side: Side,
        step: SideStep,
    },
    /// The bridge alone.
    OnBridge {
        step: BridgeStep<'a>,
    },
    /// No part of a pair: a switch makes the step, above all pairs. The frame that [`Step::Xnext`] sends is begun on a
    /// queue as by [`Step::Begin`].
    OnSwitch {
        step: SwitchStep,
    },
}

impl Step {
    /// The part of its pair that the step touches, with what it does there.
    #[inline(always)]
    pub fn place(&self) -> StepPlace<'_>
        ensures { by_value result ≡ step_place self.now }
    {
        match *self {
            Step::Begin {
                side,
                queue,
                ref frame,
                ..
            } => on_queue(side, queue, QueueStep::Begin { frame }),
            Step::QpDown { side, queue, .. } => on_queue(side, queue, QueueStep::QpDown),
            Step::Xbegin {
                side,
                queue,
                dev,
                ref dst,
                kind,
                ref payload,
                ..
            } => {
                let begin = QueueStep::Xbegin {
                    dev,
                    dst,
                    kind,
                    payload,
                };
                on_queue(side, queue, begin)
            }
            Step::Post { side, queue, .. } => on_queue(side, queue, QueueStep::Post),
            Step::Look { side, queue, .. } => on_queue(side, queue, QueueStep::Look),
            Step::Copy { side, queue, .. } => on_queue(side, queue, QueueStep::Copy),
            Step::Clear { side, queue, .. } => on_queue(side, queue, QueueStep::Clear),
            Step::Ack { side, queue, .. } => on_queue(side, queue, QueueStep::Ack),
            Step::Wake {
                side,
                queue,
                dev,
                ..
            } => on_queue(side, queue, QueueStep::Wake { dev }),
            Step::Clean { side, .. } => StepPlace::OnSide {
                side,
                step: SideStep::Clean,
            },
            Step::Enable { side, .. } => on_bridge(BridgeStep::Enable { side }),
            Step::Train { .. } => on_bridge(BridgeStep::Train),
            Step::Break { .. } => on_bridge(BridgeStep::Break),
            Step::DropDone { .. } => on_bridge(BridgeStep::DropDone),
            Step::Offer { side, .. } => on_bridge(BridgeStep::Offer { side }),
            Step::Check { side, .. } => on_bridge(BridgeStep::Check { side }),
            Step::Ready { side, queue, .. } => on_bridge(BridgeStep::Ready { side, queue }),
            Step::Join { side, queue, .. } => on_bridge(BridgeStep::Join { side, queue }),
            Step::Land { side, place, .. } => on_bridge(BridgeStep::Land { side, place }),
            Step::Irq { side, .. } => on_bridge(BridgeStep::Irq { side }),
            Step::Mask { side, bits, .. } => on_bridge(BridgeStep::Mask { side, bits }),
            Step::Unmask { side, bits, .. } => on_bridge(BridgeStep::Unmask { side, bits }),
            Step::Spad {
                side,
                index,
                value,
                ..
            } => on_bridge(BridgeStep::Spad { side, index, value }),
            Step::Poke {
                side,
                window,
                offset,
                ref bytes,
                ..
            } => on_bridge(BridgeStep::Poke {
                side,
                window,
                offset,
                bytes,
            }),
            Step::ShowMem { side, at, len, .. } => on_bridge(BridgeStep::ShowMem { side, at, len }),
            Step::ShowPad { side, index, .. } => on_bridge(BridgeStep::ShowPad { side, index }),
            Step::ShowQueue { side, place, .. } => on_bridge(BridgeStep::ShowQueue { side, place }),
            Step::Relay {
                side,
                queue,
                switch,
                port,
                ..
            } => on_switch(SwitchStep::Relay {
                side,
                queue,
                switch,
                port,
            }),
            Step::Xnext {
                side,
                queue,
                dev,
                ..
            } => on_switch(SwitchStep::Xnext { side, queue, dev }),
        }
    }
}

// Returns a step on a queue of a side.
#[inline(always)]
fn on_queue(side: Side, queue: u32, step: QueueStep<'_>) -> StepPlace<'_>
    ensures { result ≡ OnQueue side queue step.entry }
{
    StepPlace::OnQueue { side, queue, step }
}

// Returns a step on the bridge alone.
#[inline(always)]
fn on_bridge(step: BridgeStep<'_>) -> StepPlace<'_>
    ensures { result ≡ OnBridge step.entry }
{
    StepPlace::OnBridge { step }
}

// Returns a step on a switch.
#[inline(always)]
fn on_switch(step: SwitchStep) -> StepPlace<'static>
    ensures { result ≡ OnSwitch step }
{
    StepPlace::OnSwitch { step }
}
