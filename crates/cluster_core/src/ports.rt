//! The ports of a plan's switches.

ghost use Rattle.std.specs.Prelude.{◌≡◌, ◌<◌, ◌≤◌, IfSome, length, option_map};
ghost use Rattle.std.specs.List.{All, position_from};
ghost use Rattle.step_kinds.specs.Limits.{most_ports, most_switches};
ghost use Rattle.ledger_model.specs.Log.{is_on as is_on_lane};
ghost use Rattle.ledger_model.specs.Ports.{port_from};
ghost use Rattle.cluster_core.specs.Parts.{HasFewPorts, IsPortAmong, is_device_on, cluster_port_seen};

use step_kinds::{DevPlan, LaneName, SwitchPlan};

/// A port of a switch, by the numbers of both.
#[derive(Clone, Copy, Debug, PartialEq, Eq)]
pub struct PortPlace {
    /// The number of the switch in its plan.
    pub switch: u32,
    /// The number of the port.
    pub port: u32,
}

/// Returns the port whose device is on a side and a queue of a pair, which are named as the lane on which the side
/// sends there. Of several it is the first, by switches and then by ports, and `None` is returned if and only if there
/// is none.
///
/// There are at most as many switches, and ports of each, as a script can declare, and each port is one of the devices.
pub fn port_on(devs: &[DevPlan], plans: &[SwitchPlan], own: LaneName) -> Option<PortPlace>
    requires few { length plans.now ≤ most_switches }
    requires ports { All (HasFewPorts (length devs.now)) plans.now }
    ensures value { option_map cluster_port_seen result ≡ port_from devs.now own 0 plans.now }
    ensures among { IfSome result (λ place. IsPortAmong plans.now place.switch place.port) }
{
    for (switch, plan) in plans.iter().enumerate() {
        if let Some(port) = place_on(devs, plan.ports.as_slice(), own) {
            return Some(PortPlace {
                switch: switch as u32,
                port,
            });
        }
    }
    None
}

// Returns the place, among the ports of a switch, of the device on a side and a queue.
fn place_on(devs: &[DevPlan], ports: &[u32], own: LaneName) -> Option<u32>
    requires few { length ports.now ≤ most_ports }
    requires declared { All (λ dev. dev < length devs.now) ports.now }
    ensures value { result ≡ position_from (is_device_on devs.now own) 0 ports.now }
    ensures among { IfSome result (λ place. place < length ports.now) }
{
    for (place, dev) in ports.iter().enumerate() {
        if is_on(&devs[*dev as usize], own) {
            return Some(place as u32);
        }
    }
    None
}

// Returns whether a device is on a side and a queue.
fn is_on(dev: &DevPlan, own: LaneName) -> bool
    ensures { result ≡ is_on_lane own dev.now.pair dev.now.side dev.now.queue }
{
    dev.pair == own.pair && dev.side.is(own.from) && dev.queue == own.queue
}
