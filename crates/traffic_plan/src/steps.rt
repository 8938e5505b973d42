//! Steps of a frame of a load, as the macros of a script.

ghost use Rattle.std.specs.Prelude.{◌≡◌, ◌∷◌, ◌++◌, [], OnOk};
ghost use Rattle.pair_model.specs.Macros.{send, land_all, receive};
ghost use Rattle.step_list.specs.Compact.{line_steps_of, lines_with};
ghost use Rattle.step_kinds.specs.declared.names.Side.TheVariants.{A, B};
ghost use Rattle.step_kinds.specs.declared.steps.Step.TheVariants.{Land};
ghost use Rattle.traffic_plan.specs.Load.{load_pair, landings_of};

use plan_numbers::writes_in;
use std::alloc::AllocError;
use step_kinds::{Frame, Side, Step};
use step_list::{Macro, Repeated, StepList};

/// Side A begins a frame and posts all its writes.
pub fn send(frame: Frame) -> Macro
    ensures { line_steps_of result ≡ send load_pair 0 A 0 frame }
{
    let (pair, side, queue) = (0, Side::A, 0);
    let count = writes_in(frame.len());
    Macro::Posted {
        begin: Step::Begin {
            pair,
            side,
            queue,
            frame,
        },
        repeated: Repeated::Post { pair, side, queue },
        count,
    }
}

/// The write of a side that stands at a place in flight lands once.
#[inline]
pub fn land(side: Side, place: u32) -> Macro
    ensures { line_steps_of result ≡ Land 0 side place ∷ [] }
{
    Macro::Again {
        repeated: Repeated::Land {
            pair: 0,
            side,
            place,
        },
        count: 1,
    }
}

/// The first write of side A in flight lands, this many times.
pub fn land_all(count: u32) -> Macro
    ensures { line_steps_of result ≡ land_all 0 A count }
{
    Macro::Again {
        repeated: Repeated::Land {
            pair: 0,
            side: Side::A,
            place: 0,
        },
        count,
    }
}

/// Side B receives a frame in this many copies.
pub fn receive(copies: u32) -> Macro
    ensures { line_steps_of result ≡ receive 0 B 0 copies }
{
    Macro::Received {
        pair: 0,
        side: Side::B,
        queue: 0,
        copies,
    }
}

/// Adds the eight landings that a word says. Returns an error if memory runs out.
pub fn push_landings(steps: &mut StepList, line: u32, word: u64) -> Result<(), AllocError>
    ensures { OnOk result (steps.new ≡ steps.old ++ lines_with line (landings_of word)) }
{
    for i in 0..8u32 {
        let place = ((word >> (8 * i)) % 4) as u32;
        steps.push(line, land(Side::A, place))?;
    }
    Ok(())
}
