//! The options of a pair, as a script or code gives them, and the pair that they declare with its defaults.
//!
//! A [`Setting`] is one option: a word, or a key with a number. How options are spelled is for the crates above.
#![tactic(auto)]

mod pair;
mod settings;

pub use pair::{agrees, goes_together, has_setting, pair_with};
pub use settings::{Range, Setting, SideKey};
