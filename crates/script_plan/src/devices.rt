//! The devices that are declared so far.

ghost use Rattle.std.specs.Prelude.{◌≡◌};
ghost use Rattle.std.specs.List.{list_any};
ghost use Rattle.script_words.specs.Declarations.{sits_on};

use crate::by_name::{Declared, Named};
use script_words::QueueName;
use step_kinds::DevPlan;

/// The devices that are declared so far, in order. A device is found by its name.
pub type Devices = Declared<DevPlan>;

impl Declared<DevPlan> {
    /// Returns whether a device sits on the queue.
    pub fn any_on(&self, name: QueueName) -> bool
        ensures { result ≡ list_any (sits_on name.pair name.side name.queue) self.now }
    {
        self.items.iter().any(|dev| sits_on(name, dev))
    }
}

impl Named for DevPlan {
    ghost called = { λ dev. dev.name };

    fn name(&self) -> &[u8] {
        self.name.bytes()
    }
}

/// Returns whether the device sits on the queue.
fn sits_on(name: QueueName, dev: &DevPlan) -> bool
    ensures { result ≡ sits_on name.pair name.side name.queue dev.now }
{
    dev.pair == name.pair && dev.side.is(name.side) && dev.queue == name.queue
}
