//! What a search needs of a machine.

ghost use Rattle.std.specs.Prelude.{◌≡◌, ◌≤◌, ◌∷◌, ◌++◌, ℕ, [], false, true, IfOk, IsTrue, List, OnOk};
ghost use Rattle.pair_model.specs.PlanParts.{declared_part};
ghost use Rattle.step_kinds.specs.declared.plan.Plan.{Plan as PlanValue};
ghost use Rattle.step_kinds.specs.declared.steps.Answer.TheVariants.{Nothing};
ghost use Rattle.step_kinds.specs.declared.steps.Step.{Step as StepValue};
ghost use Rattle.step_kinds.specs.declared.steps.Step.TheVariants.{Land};
ghost use Rattle.pair_model.specs.DeclaredPlans.{IsDeclared, IsPairOf};
ghost use Rattle.pair_model.specs.Switches.{AreSwitches, IsMakeable};
ghost use Rattle.explore_model.specs.declared.outcome.Landing.{Landing as LandingValue};
ghost use Rattle.ledger_model.specs.Memory.{memory_of};
ghost use Rattle.ledger_model.specs.NetworkLog.{answer_after};
ghost use Rattle.explore_model.specs.Schedules.{is_landed, landing_step};
ghost use Rattle.explore_search.specs.Machines.{HaveSameKeys, HaveSameSteps};

use explore_model::Landing;
use std::alloc::{AllocError, Global};
use step_kinds::{Answer, Plan, Side, Step};

/// A machine that makes the steps of a script.
pub trait Machine: Drop {
    // it has made these steps of a plan
    ghost has_made: { Self → PlanValue → List StepValue → Type 0 };

    // what it keeps of its plan
    ghost plan_held: { Self → PlanValue };

    // a few bytes of its state
    ghost key_of: { Self → List ℕ };

    // those bytes without the write of a landing
    ghost key_without: { Self → LandingValue → List ℕ };

    /// Returns a machine that has made no step of the plan, which is one that a script can declare. Returns an error if
    /// memory runs out.
    fn fresh(alloc: Global, plan: &Plan) -> Result<Self, AllocError>
        requires declared { IsDeclared plan.now }
        requires switches { AreSwitches plan.now }
        ensures made { IfOk result (λ machine. has_made machine plan.now []) }
        ensures plan { IfOk result (λ machine. plan_held machine ≡ declared_part plan.now) };

    /// Returns a machine in the same state. Returns an error if memory runs out.
    fn copy_of(&self, alloc: Global) -> Result<Self, AllocError>
        ensures { IfOk result (λ copy. copy ≡ self.now) };

    /// Makes a step, which has to be one that a script of the machine's plan may make, and returns its answer. After a
    /// landing that isn't answered `landed` it has also made the steps without it. Returns an error if memory runs out,
    /// and then nothing is promised of the steps that it has made.
    fn step(&mut self, step: &Step) -> Result<Answer, AllocError>
        requires { IsMakeable (plan_held self.old) step.now }
        ensures answer { (plan : PlanValue) (steps : List StepValue) → has_made self.old plan steps →
            IfOk result (λ answer. answer ≡ answer_after plan (memory_of plan) steps step.now) }
        ensures made { (plan : PlanValue) (steps : List StepValue) → has_made self.old plan steps →
            OnOk result (has_made self.new plan (steps ++ step.now ∷ [])) }
        ensures rests { (plan : PlanValue) (steps : List StepValue) → has_made self.old plan steps → (landing : LandingValue) → step.now ≡ landing_step landing →
            IfOk result (λ answer. is_landed answer ≡ false → has_made self.new plan steps) }
        ensures plan { plan_held self.new ≡ plan_held self.old };

    /// Returns whether two machines of one plan are in the same state: no later step tells them apart.
    fn is_same(&self, other: &Self) -> bool
        requires { plan_held self.now ≡ plan_held other.now }
        ensures merges { IsTrue result → (plan : PlanValue) (steps : List StepValue) → has_made self.now plan steps → has_made other.now plan steps }
        ensures apart { (plan : PlanValue) (steps : List StepValue) → has_made self.now plan steps → has_made other.now plan steps → IsTrue result };

    /// Returns whether the write of a landing may land, and the machine is then in the same state as another of its
    /// plan. It is found out without making the landing. The landing's pair has to be one of the plan's.
    fn lands_as(&self, landing: Landing, other: &Self) -> bool
        requires plans { plan_held self.now ≡ plan_held other.now }
        requires pair { IsPairOf (plan_held self.now) landing.pair }
        ensures merges { IsTrue result → (plan : PlanValue) (steps : List StepValue) → has_made self.now plan steps → has_made other.now plan (steps ++ landing_step landing ∷ []) }
        ensures apart { (plan : PlanValue) (steps : List StepValue) → has_made self.now plan steps → is_landed (answer_after plan (memory_of plan) steps (landing_step landing)) ≡ true → has_made other.now plan (steps ++ landing_step landing ∷ []) → IsTrue result };

    /// Returns how many writes a side of a pair has in flight. From this place on no landing finds a write. The pair
    /// has to be one of the plan's.
    fn in_flight(&self, pair: u32, side: Side) -> usize
        requires { IsPairOf (plan_held self.now) pair }
        ensures { (plan : PlanValue) (steps : List StepValue) (place : ℕ) → has_made self.now plan steps → result ≤ place →
            answer_after plan (memory_of plan) steps (Land pair side place) ≡ Nothing };

    /// Adds a few bytes of the machine's state, by which a search looks among few. Machines that have made one list of
    /// steps have the same. Returns an error if memory runs out.
    fn push_key(&self, key: &mut Vec<u8>) -> Result<(), AllocError>
        ensures { OnOk result (key.new.items ≡ key.old.items ++ key_of self.now) };

    /// Adds the key without the write of a landing, by which a search looks for the state in which the landing leaves
    /// the machine. The landing's pair has to be one of the plan's. Returns an error if memory runs out.
    fn push_key_without(&self, landing: Landing, key: &mut Vec<u8>) -> Result<(), AllocError>
        requires { IsPairOf (plan_held self.now) landing.pair }
        ensures { OnOk result (key.new.items ≡ key.old.items ++ key_without self.now landing) };

    ghost same_steps: { HaveSameSteps has_made };

    ghost same_keys: { HaveSameKeys has_made key_of };
}
