//! The steps that the lines so far give, in which a step that a line repeats is kept once.

ghost use Rattle.std.specs.Prelude.{◌≡◌, ◌∷◌, ◌++◌, [], replicate, IfOk, OnErr, OnOk};
ghost use Rattle.step_list.specs.Compact.{lines_with, step_again, line_steps_of};
ghost use Rattle.step_list.specs.StepLists.{all_lines, lines_in};

use crate::macros::{Macro, Repeated};
use std::alloc::{AllocError, Global};
use std::marker::Model;
use step_kinds::{Items, Line, Side, Step};

/// Steps of a line that stand in a row.
#[derive(Drop)]
pub enum Stretch {
    /// One step.
    One {
        /// The line's number.
        line: u32,
        /// The step, which may have many numbers or bytes.
        step: Box<Step>,
    },
    /// The same step, this many times.
    Again {
        /// The line's number.
        line: u32,
        /// The step.
        repeated: Repeated,
        /// How often it stands here.
        count: u32,
    },
    /// A frame is received: a look, this many copies, a clear and an ack.
    Received {
        /// The line's number.
        line: u32,
        /// The pair's number, from 0.
        pair: u32,
        /// The side that receives.
        side: Side,
        /// The queue.
        queue: u32,
        /// How many copies.
        copies: u32,
    },
}

/// Steps with their lines, macros as the lines have them: a step that a line repeats takes no more room than one.
/// Contracts see the list of all steps.
#[derive(Drop)]
pub struct StepList {
    stretches: Vec<Stretch>,
    alloc: Global,
}

impl StepList {
    /// No steps.
    pub fn new(alloc: Global) -> StepList
        ensures { result ≡ [] }
    {
        StepList {
            stretches: Vec::new(alloc),
            alloc,
        }
    }

    /// Returns the steps as they are kept, in order.
    pub fn stretches(&self) -> &[Stretch]
        ensures { all_lines result.now ≡ self.now }
    {
        &self.stretches
    }

    /// Adds a step of line `line`, in a box: one that a line may repeat is better pushed as a [`Macro`]. Returns an
    /// error if memory runs out, and then nothing is added.
    pub fn push_step(&mut self, line: u32, step: Step) -> Result<(), AllocError>
        ensures ok { OnOk result (self.new ≡ self.old ++ lines_with line (step ∷ [])) }
        ensures err { OnErr result (self.new ≡ self.old) }
    {
        let one = self.one(line, step)?;
        self.push_stretch(one)
    }

    /// Adds the steps of line `line`. Returns an error if memory runs out, and then nothing is added.
    #[inline(always)]
    pub fn push(&mut self, line: u32, more: Macro) -> Result<(), AllocError>
        ensures ok { OnOk result (self.new ≡ self.old ++ lines_with line (line_steps_of more)) }
        ensures err { OnErr result (self.new ≡ self.old) }
    {
        match more {
            Macro::One { step } => self.push_step(line, step),
            Macro::Posted {
                begin,
                repeated,
                count,
            } => {
                let one = self.one(line, begin)?;
                self.stretches.reserve(2)?;
                self.stretches.push_reserved(one);
                self.stretches.push_reserved(again(line, repeated, count));
                Ok(())
            }
            Macro::Again { repeated, count } => self.push_stretch(again(line, repeated, count)),
            Macro::Received {
                pair,
                side,
                queue,
                copies,
            } => self.push_stretch(Stretch::Received {
                line,
                pair,
                side,
                queue,
                copies,
            }),
        }
    }

    // Adds a stretch. Running out of memory adds nothing.
    fn push_stretch(&mut self, stretch: Stretch) -> Result<(), AllocError>
        ensures ok { OnOk result (self.new ≡ self.old ++ lines_in stretch) }
        ensures err { OnErr result (self.new ≡ self.old) }
    {
        self.stretches.push(stretch)?;
        Ok(())
    }

    // Returns a stretch of one step.
    fn one(&self, line: u32, step: Step) -> Result<Stretch, AllocError>
        ensures { IfOk result (λ stretch. lines_in stretch ≡ lines_with line (step ∷ [])) }
    {
        let step = Box::new(self.alloc, step)?;
        Ok(Stretch::One { line, step })
    }

    /// Takes all steps out; the room stays.
    pub fn clear(&mut self)
        ensures { self.new ≡ [] }
    {
        self.stretches.clear();
    }

    /// Returns all steps, one by one. Returns an error if memory runs out.
    pub fn into_items(self, alloc: Global) -> Result<Items<Line>, AllocError>
        ensures { IfOk result (λ lines. lines ≡ self) }
    {
        let mut lines = Vec::new(alloc);
        let mut stretches = self.stretches.into_iter();
        while let Some(stretch) = stretches.next() {
            push_lines(&mut lines, stretch)?;
        }
        Ok(Items::of_vec(lines))
    }
}

impl Model for StepList {
    ghost use Rattle.std.specs.Prelude.{List};
    ghost use Rattle.step_kinds.specs.declared.plan.Line.{Line};
    ghost use Rattle.step_list.specs.StepLists.{all_lines};

    ghost Value = { List Line };

    ghost view = { λ list. all_lines list.stretches.items };
}

// Returns a step of a line, this many times.
fn again(line: u32, repeated: Repeated, count: u32) -> Stretch
    ensures { lines_in result ≡ lines_with line (replicate count (step_again repeated)) }
{
    Stretch::Again {
        line,
        repeated,
        count,
    }
}

/// Adds the steps of a stretch, one by one.
fn push_lines(lines: &mut Vec<Line>, stretch: Stretch) -> Result<(), AllocError>
    ensures { OnOk result (lines.new.items ≡ lines.old.items ++ lines_in stretch) }
{
    match stretch {
        Stretch::One { line, step } => {
            let step = Box::into_inner(step);
            lines.push(Line { line, step })?;
            Ok(())
        }
        Stretch::Again {
            line,
            repeated,
            count,
        } => push_again(lines, line, repeated, count),
        Stretch::Received {
            line,
            pair,
            side,
            queue,
            copies,
        } => {
            let step = Step::Look { pair, side, queue };
            lines.push(Line { line, step })?;
            push_again(lines, line, Repeated::Copy { pair, side, queue }, copies)?;
            let step = Step::Clear { pair, side, queue };
            lines.push(Line { line, step })?;
            let step = Step::Ack { pair, side, queue };
            lines.push(Line { line, step })?;
            Ok(())
        }
    }
}

/// Adds a step of a line this many times.
#[tactic(auto, using(crate::proofs::Repeats::repeats_more))]
fn push_again(
    lines: &mut Vec<Line>,
    line: u32,
    repeated: Repeated,
    count: u32,
) -> Result<(), AllocError>
    ensures { OnOk result (lines.new.items ≡ lines.old.items ++ lines_with line (replicate count (step_again repeated))) }
{
    lines.reserve(count as usize)?;
    for _ in 0..count {
        let step = repeated.step();
        lines.push_reserved(Line { line, step });
    }
    Ok(())
}
