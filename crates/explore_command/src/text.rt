//! The text of an exploration.

ghost use Rattle.std.specs.Prelude.{◌≡◌, ◌++◌, ◌∷◌, ◌<◌, [], IfOk, List, OnOk, length, map};
ghost use Rattle.std.specs.List.{All, flat_map, range_with_len};
ghost use Rattle.explore_command.specs.Landings.{LandsOnPairs};
ghost use Rattle.explore_model.specs.Texts.{
  agree_on as agree_by_answers,
  outcome_answer_at as answer_by_place,
  common_line,
  differing_line,
  explored_text as text_of_outcomes,
  first_answer as answer_of_first,
  head_line,
  land_text,
  landing_line,
  line_at as line_by_place,
  outcome_lines,
  place_in_line as place_among_steps,
  place_text,
  step_numbers,
  text_line,
};
ghost use Rattle.explore_model.specs.declared.outcome.Landing.{Landing as LandingValue};
ghost use Rattle.explore_model.specs.declared.outcome.Outcome.{Outcome as OutcomeValue};
ghost use Rattle.pair_model.specs.DeclaredPlans.{IsPairOf};
ghost use Rattle.report_text.specs.Report.{side_text};

use explore_model::{Landing, Outcome};
use itoa::Buffer;
use report_text::append::{push_numbers, push_word};
use std::alloc::{AllocError, Global};
use step_kinds::{Line, Plan, Side};

/// Returns the text of the outcomes of a plan's schedules, and of how many states they reach. Each further landing of
/// an outcome has to be of a pair of the plan. Returns an error if memory runs out.
pub fn explored_text(
    alloc: Global,
    plan: &Plan,
    outcomes: &[Outcome],
    states: u64,
) -> Result<Vec<u8>, AllocError>
    requires { All (LandsOnPairs plan.now) outcomes.now }
    ensures { IfOk result (λ text. text.items ≡ text_of_outcomes plan.now outcomes.now states) }
{
    let agreed = agreed_steps(alloc, outcomes, plan.steps.len())?;
    let mut text = Vec::new(alloc);
    push_head(&mut text, outcomes, states)?;
    push_outcomes(&mut text, plan, outcomes, &agreed)?;
    push_common(&mut text, plan, outcomes, &agreed)?;
    push_word(&mut text, "end\n")?;
    Ok(text)
}

// Returns whether all outcomes have the same answer, for each of this many steps.
fn agreed_steps(alloc: Global, outcomes: &[Outcome], count: usize) -> Result<Vec<bool>, AllocError>
    ensures { IfOk result (λ agreed. agreed.items ≡ map (agree_by_answers outcomes.now) (range_with_len 0 count)) }
{
    (0..count).map(|k| agree_on(outcomes, k)).collect(alloc)
}

// Returns whether all outcomes have the same answer to the step with a number.
fn agree_on(outcomes: &[Outcome], k: usize) -> bool
    ensures { result ≡ agree_by_answers outcomes.now k }
{
    let first = first_answer(outcomes, k);
    outcomes
        .iter()
        .all(|outcome| answer_at(outcome, k) == first)
}

// Returns the answer of the first outcome to the step with a number.
fn first_answer(outcomes: &[Outcome], k: usize) -> &[u8]
    ensures { result.now ≡ answer_of_first outcomes.now k }
{
    match outcomes.first() {
        Some(outcome) => answer_at(outcome, k),
        None => &[],
    }
}

// Returns the answer of an outcome to the step with a number.
fn answer_at(outcome: &Outcome, k: usize) -> &[u8]
    ensures { result.now ≡ answer_by_place outcome.now k }
{
    match outcome.answers.as_slice().get(k) {
        Some(answer) => answer.as_slice(),
        None => &[],
    }
}

// Adds the first line.
fn push_head(text: &mut Vec<u8>, outcomes: &[Outcome], states: u64) -> Result<(), AllocError>
    ensures { OnOk result (text.new.items ≡ text.old.items ++ head_line outcomes.now states) }
{
    push_word(text, "outcomes")?;
    push_numbers(text, &[outcomes.len() as u64])?;
    push_word(text, " states")?;
    push_numbers(text, &[states])?;
    push_word(text, "\n")
}

// Adds the lines of all outcomes.
fn push_outcomes(
    text: &mut Vec<u8>,
    plan: &Plan,
    outcomes: &[Outcome],
    agreed: &[bool],
) -> Result<(), AllocError>
    requires pairs { All (LandsOnPairs plan.now) outcomes.now }
    requires agreed { agreed.now ≡ map (agree_by_answers outcomes.now) (step_numbers plan.now) }
    ensures { OnOk result (text.new.items ≡ text.old.items ++ flat_map (outcome_lines plan.now outcomes.now) (range_with_len 0 (length outcomes.now))) }
{
    for k in 0..outcomes.len() {
        push_outcome(text, plan, outcomes, agreed, k)?;
    }
    Ok(())
}

// Adds the lines of the outcome with a number.
fn push_outcome(
    text: &mut Vec<u8>,
    plan: &Plan,
    outcomes: &[Outcome],
    agreed: &[bool],
    k: usize,
) -> Result<(), AllocError>
    requires among { k < length outcomes.now }
    requires pairs { All (LandsOnPairs plan.now) outcomes.now }
    requires agreed { agreed.now ≡ map (agree_by_answers outcomes.now) (step_numbers plan.now) }
    ensures { OnOk result (text.new.items ≡ text.old.items ++ outcome_lines plan.now outcomes.now k) }
{
    let outcome = &outcomes[k];
    push_word(text, "outcome")?;
    push_numbers(text, &[k as u64 + 1])?;
    push_word(text, "\n")?;
    push_landings(text, plan, outcome.landings.as_slice())?;
    push_differing(text, plan, outcomes, agreed, outcome)
}

// Adds the lines of further landings.
fn push_landings(text: &mut Vec<u8>, plan: &Plan, landings: &[Landing]) -> Result<(), AllocError>
    requires { All (λ (landing : LandingValue). IsPairOf plan.now landing.pair) landings.now }
    ensures { OnOk result (text.new.items ≡ text.old.items ++ flat_map (landing_line plan.now) landings.now) }
{
    for landing in landings {
        push_landing(text, plan, landing)?;
    }
    Ok(())
}

// Adds the line of a further landing.
fn push_landing(text: &mut Vec<u8>, plan: &Plan, landing: &Landing) -> Result<(), AllocError>
    requires { IsPairOf plan.now landing.now.pair }
    ensures { OnOk result (text.new.items ≡ text.old.items ++ landing_line plan.now landing.now) }
{
    push_place(text, plan, landing.at)?;
    push_land(text, plan, landing)?;
    push_word(text, "\n")
}

// Adds the step of the script before which a further landing is made.
fn push_place(text: &mut Vec<u8>, plan: &Plan, at: usize) -> Result<(), AllocError>
    ensures { OnOk result (text.new.items ≡ text.old.items ++ place_text plan.now at) }
{
    let steps = plan.steps.as_slice();
    let line = line_at(steps, at);
    let numbers = [u64::from(line), place_in_line(steps, line, at)];
    push_word(text, "by")?;
    push_numbers(text, &numbers)
}

// Adds a landing as a script writes it.
fn push_land(text: &mut Vec<u8>, plan: &Plan, landing: &Landing) -> Result<(), AllocError>
    requires { IsPairOf plan.now landing.now.pair }
    ensures { OnOk result (text.new.items ≡ text.old.items ++ land_text plan.now landing.now) }
{
    push_word(text, " land ")?;
    text.extend_from_slice(plan.pairs.as_slice()[landing.pair as usize].name.bytes())?;
    push_word(text, side_word(landing.side))?;
    push_numbers(text, &[u64::from(landing.place)])
}

// Returns a side after a space.
fn side_word(side: Side) -> &'static str
    ensures { result.now ≡ 32 ∷ side_text side }
{
    match side {
        Side::A => " A",
        Side::B => " B",
    }
}

// Returns the line of the script from which the step with a number comes, 0 where there is none.
fn line_at(steps: &[Line], k: usize) -> u32
    ensures { result ≡ line_by_place steps.now k }
{
    match steps.get(k) {
        Some(made) => made.line,
        None => 0,
    }
}

// Returns which step of its line the step with a number is, from 1.
fn place_in_line(steps: &[Line], line: u32, k: usize) -> u64
    requires { line ≡ line_by_place steps.now k }
    ensures { result ≡ place_among_steps steps.now k }
{
    let before = &steps[..k.min(steps.len())];
    before.iter().filter(|made| made.line == line).count() as u64 + 1
}

// Adds the answers of an outcome to the steps on which outcomes differ.
fn push_differing(
    text: &mut Vec<u8>,
    plan: &Plan,
    outcomes: &[Outcome],
    agreed: &[bool],
    outcome: &Outcome,
) -> Result<(), AllocError>
    requires { agreed.now ≡ map (agree_by_answers outcomes.now) (step_numbers plan.now) }
    ensures { OnOk result (text.new.items ≡ text.old.items ++ flat_map (differing_line plan.now outcomes.now outcome.now) (step_numbers plan.now)) }
{
    for k in 0..plan.steps.len() {
        push_unless(
            text,
            plan,
            was_agreed(plan, outcomes, agreed, k),
            outcome,
            k,
        )?;
    }
    Ok(())
}

// Adds the answer of an outcome to the step with a number, unless all outcomes agree there.
fn push_unless(
    text: &mut Vec<u8>,
    plan: &Plan,
    is_agreed: bool,
    outcome: &Outcome,
    k: usize,
) -> Result<(), AllocError>
    ensures { (outcomes : List OutcomeValue) → is_agreed ≡ agree_by_answers outcomes k →
        OnOk result (text.new.items ≡ text.old.items ++ differing_line plan.now outcomes outcome.now k) }
{
    if is_agreed {
        return Ok(());
    }
    push_answer(text, plan, k, answer_at(outcome, k))
}

// Adds the answers on which all outcomes agree.
fn push_common(
    text: &mut Vec<u8>,
    plan: &Plan,
    outcomes: &[Outcome],
    agreed: &[bool],
) -> Result<(), AllocError>
    requires { agreed.now ≡ map (agree_by_answers outcomes.now) (step_numbers plan.now) }
    ensures { OnOk result (text.new.items ≡ text.old.items ++ flat_map (common_line plan.now outcomes.now) (step_numbers plan.now)) }
{
    for k in 0..plan.steps.len() {
        push_where(
            text,
            plan,
            was_agreed(plan, outcomes, agreed, k),
            outcomes,
            k,
        )?;
    }
    Ok(())
}

// Adds the answer of all outcomes to the step with a number, if they agree there.
fn push_where(
    text: &mut Vec<u8>,
    plan: &Plan,
    is_agreed: bool,
    outcomes: &[Outcome],
    k: usize,
) -> Result<(), AllocError>
    requires { is_agreed ≡ agree_by_answers outcomes.now k }
    ensures { OnOk result (text.new.items ≡ text.old.items ++ common_line plan.now outcomes.now k) }
{
    if !is_agreed {
        return Ok(());
    }
    push_word(text, "always ")?;
    push_answer(text, plan, k, first_answer(outcomes, k))
}

// Returns whether all outcomes agree on the step with a number, as it was found before.
fn was_agreed(plan: &Plan, outcomes: &[Outcome], agreed: &[bool], k: usize) -> bool
    requires among { k < length plan.now.steps }
    requires agreed { agreed.now ≡ map (agree_by_answers outcomes.now) (step_numbers plan.now) }
    ensures { result ≡ agree_by_answers outcomes.now k }
{
    agreed[k]
}

// Adds an answer after the number of its line.
fn push_answer(text: &mut Vec<u8>, plan: &Plan, k: usize, answer: &[u8]) -> Result<(), AllocError>
    ensures { OnOk result (text.new.items ≡ text.old.items ++ text_line plan.now k answer.now) }
{
    let mut digits = Buffer::new();
    let line = line_at(plan.steps.as_slice(), k);
    push_word(text, digits.format(line))?;
    push_word(text, " ")?;
    text.extend_from_slice(answer)?;
    push_word(text, "\n")
}
