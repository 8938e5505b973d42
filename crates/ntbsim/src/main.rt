//! `ntbsim`: replays scripts of hosts that are joined in pairs by PCI Express non-transparent bridges, and sends their
//! traffic by threads.
#![tactic(auto)]

use io_edges::{NoGate, StdSink, StdSource};
use ntb_top::run_arguments;
use std::env;
use std::process::ExitCode;

/// Makes the real objects, and ends with the status of the run of its arguments over them.
fn main(rt: HostRuntime) -> ExitCode {
    let mut source = StdSource::new(rt.stdin());
    let mut sink = StdSink::new(rt.stdout());
    let arguments = env::args(&rt);
    let ended = run_arguments(&rt, rt.alloc(), arguments, &mut source, &mut sink, &NoGate);
    ExitCode::from(ended.status)
}
