//! What the lines of a script so far give: the plan that grows line by line, the names by which it is looked up, and
//! the counters of its limits.
#![tactic(auto)]

mod by_name;
mod devices;
mod names;
mod pairs;
mod reader;
mod script;
mod switches;
mod traffic;

pub use by_name::{Declared, Named};
pub use devices::Devices;
pub use names::Names;
pub use pairs::Pairs;
pub use reader::Reader;
pub use script::Script;
pub use switches::{Switches, is_among};
pub use traffic::TrafficList;
