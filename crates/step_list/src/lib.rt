//! The steps of a script as they are kept: a step that a line repeats stands once, with its number.
//!
//! A [`Macro`] is the steps of one line, a [`StepList`] those of all lines. Contracts see both as lists of steps.
#![tactic(auto)]

mod macros;
mod step_list;

pub use macros::{Macro, Repeated};
pub use step_list::{StepList, Stretch};
