//! The switches that are declared so far.

ghost use Rattle.std.specs.Prelude.{◌≡◌};
ghost use Rattle.std.specs.List.{list_any};
ghost use Rattle.script_words.specs.Ports.{is_among};

use crate::by_name::{Declared, Named};
use step_kinds::SwitchPlan;

/// The switches that are declared so far, in order. A switch is found by its name.
pub type Switches = Declared<SwitchPlan>;

impl Declared<SwitchPlan> {
    /// Returns whether the device is a port of one of them.
    pub fn any_port(&self, dev: u32) -> bool
        ensures { result ≡ list_any (λ switch. is_among switch.ports dev) self.now }
    {
        self.items
            .iter()
            .any(|switch| is_among(switch.ports.as_slice(), dev))
    }
}

impl Named for SwitchPlan {
    ghost called = { λ switch. switch.name };

    fn name(&self) -> &[u8] {
        self.name.bytes()
    }
}

/// Returns whether the device is one of these.
pub fn is_among(devs: &[u32], dev: u32) -> bool
    ensures { result ≡ is_among devs.now dev }
{
    devs.iter().any(|other| *other == dev)
}
