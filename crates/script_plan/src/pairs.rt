//! The pairs that are declared so far.

ghost use Rattle.std.specs.Prelude.{◌≡◌, ◌<◌, length, slice_set, slice_index_or};
ghost use Rattle.pair_model.specs.Plans.{no_pair};
ghost use Rattle.script_words.specs.Before.{with_class};

use crate::by_name::{Declared, Named};
use step_kinds::{PairPlan, Side};

/// The pairs that are declared so far, in order. A pair is found by its name.
pub type Pairs = Declared<PairPlan>;

impl Declared<PairPlan> {
    /// Gives one queue of a side of a pair its class. The pair is one that is declared, and the queue's number is below
    /// 16.
    pub fn set_class(&mut self, number: u32, side: Side, queue: u32, class: u32)
        requires number { number < length self.old }
        requires queue { queue < 16 }
        ensures { self.new ≡ slice_set self.old number (with_class (slice_index_or self.old number no_pair) side queue class) }
    {
        set_class(&mut self.items[number as usize], side, queue, class);
    }
}

impl Named for PairPlan {
    ghost called = { λ pair. pair.name };

    fn name(&self) -> &[u8] {
        self.name.bytes()
    }
}

/// Gives one queue of a side of a pair its class.
fn set_class(pair: &mut PairPlan, side: Side, queue: u32, class: u32)
    requires { queue < 16 }
    ensures { pair.new ≡ with_class pair.old side queue class }
{
    match side {
        Side::A => pair.class_a[queue as usize] = class,
        Side::B => pair.class_b[queue as usize] = class,
    }
}
