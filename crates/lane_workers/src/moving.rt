//! The passes of the worker that moves frames and brings indices back.
ghost use Rattle.std.specs.Prelude.{◌≡◌, ◌+◌, ◌%◌, ◌≤◌, ◌<◌, ◌^◌};
ghost use Rattle.table_lane.specs.MoveChoice.{Moves};
ghost use Rattle.table_lane.specs.Tries.{tries};
ghost use Rattle.table_lane.specs.declared.mover.MoveAnswer.{MoveAnswer};
ghost use Rattle.lane_workers.specs.Choices.{choice_of, chosen, noted, ChosenMoves};
ghost use Rattle.lane_workers.specs.Passes.{LetsTurns};

use crate::choices::Choices;
use crate::idling::{Idling, Turn};
use crate::turn_gate::TurnGate;
use table_lane::laws::{each_move_is_a_try, each_step_back_is_a_load};
use table_lane::{BackAnswer, BackEnd, MoveAnswer, MoveEnd};

/// One turn: one step of the mover, by the next choice, and one of the way back.
fn move_turn(mover: &mut MoveEnd, back: &mut BackEnd, choices: &mut Choices) -> Turn
    ensures lane { mover.new.lane ≡ mover.old.lane }
    ensures back_lane { back.new.lane ≡ back.old.lane }
    ensures entries { mover.new.part.entries ≡ mover.old.part.entries }
    ensures back_entries { back.new.part.entries ≡ back.old.part.entries }
    ensures tries { tries mover.old.part + 1 ≤ tries mover.new.part }
    ensures back_tries { back.new.part.loads ≡ back.old.part.loads + 1 }
    ensures chosen { (answer : MoveAnswer) × Moves mover.old.part (choice_of choices.old) answer mover.new.part × (choices.new ≡ noted (chosen choices.old) answer) }
{
    // Each of both steps is a try.
    each_move_is_a_try();
    each_step_back_is_a_load();
    let moved = mover.step(choices.choice());
    choices.note(moved);
    let returned = back.step();
    if moved == MoveAnswer::Idle && returned == BackAnswer::Idle {
        return Turn::Idle;
    }
    Turn::Useful
}

/// Makes at least 1 and at most `turns` turns of the worker that moves frames and brings indices back, and returns how
/// many. Before each it passes the gate with the turn's number, counted from `first`. A turn is one [`MoveEnd::step`]
/// and one [`BackEnd::step`]. The mover takes up to eight entries, stores their headers, and then their flags. In which
/// order it stores headers is chosen by words of the generator SplitMix64, so that they overtake one another. Its seed
/// is the sum of `choices` and `first` modulo 2^64.
///
/// The pass may end early, if its turns did nothing for a while. It takes no memory and never waits for another worker.
///
/// `turns` has to be at least 1, and `first + turns` fits a `u64`. The gate has to let the worker pass before each
/// turn.
pub fn move_pass<G: TurnGate>(
    mover: &mut MoveEnd,
    back: &mut BackEnd,
    choices: u64,
    gate: &G,
    worker: u32,
    first: u64,
    turns: u32,
) -> u32
    requires some { 1 ≤ turns }
    requires fits { first + turns < 2 ^ 64 }
    requires gate { LetsTurns (G.lets gate.now) worker first turns }
    ensures lane { mover.new.lane ≡ mover.old.lane }
    ensures back_lane { back.new.lane ≡ back.old.lane }
    ensures entries { mover.new.part.entries ≡ mover.old.part.entries }
    ensures back_entries { back.new.part.entries ≡ back.old.part.entries }
    ensures some { 1 ≤ result }
    ensures at_most { result ≤ turns }
    ensures tries { tries mover.old.part + result ≤ tries mover.new.part }
    ensures back_tries { back.new.part.loads ≡ back.old.part.loads + result }
    ensures chosen { ChosenMoves ((choices + first) % 2 ^ 64) result mover.old.part mover.new.part }
{
    let mut choices = Choices::new(choices.wrapping_add(first));
    let mut idling = Idling::new();
    let mut made = 0;
    while made < turns {
        gate.admit(worker, first + u64::from(made));
        let turn = move_turn(mover, back, &mut choices);
        made += 1;
        if idling.ends_with(turn) {
            break;
        }
    }
    made
}
