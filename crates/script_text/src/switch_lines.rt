//! Declarations of switches.
#![tactic(auto, unfolding(script_words::specs::Tests::and_then))]

ghost use Rattle.std.specs.Prelude.{◌≡◌, ◌∷◌, ◌++◌, ◌<◌, ◌≤◌, [], length, map};
ghost use Rattle.std.specs.List.{All};
ghost use Rattle.script_words.specs.Compact.{given_of};
ghost use Rattle.script_words.specs.Declarations as rules;
ghost use Rattle.script_words.specs.Ports.{on_one_host, ports_from, script_with_port};
ghost use Rattle.script_words.specs.Reads.{ReadsLine, result_map};

use crate::lines::LineResult;
use crate::lookups::{new_switch, read_device};
use script_plan::{Reader, is_among};
use script_words::{Cause, Given, LineError, LineFault, at, unknown_line};
use std::alloc::Global;
use step_kinds::limits::{LEAST_PORTS, MOST_PORTS, MOST_SWITCHES};
use step_kinds::{Items, SwitchPlan};

/// Returns the device that a word names, which is neither a port yet nor one of these.
fn new_port(before: &Reader, devs: &[u32], word: &[u8]) -> Result<u32, LineFault>
    requires { length devs.now ≤ 16 }
    ensures { result_map (λ dev. devs.now ++ dev ∷ []) result ≡ script_with_port before.now devs.now word.now }
{
    let place = 3 + devs.len() as u32;
    let dev = at(place, read_device(before, word))?;
    if before.is_port(dev) || is_among(devs, dev) {
        return Err(Cause::Repeated.at(place));
    }
    Ok(dev)
}

/// Returns the devices that words name as ports of one switch, in order.
fn read_ports(alloc: Global, before: &Reader, words: &[&[u8]]) -> Result<Items<u32>, LineError>
    requires { length words.now ≤ 16 }
    ensures { ReadsLine result (ports_from before.now [] (map (λ word. word.now) words.now)) }
{
    let mut ports = Items::new(alloc);
    for word in words {
        let dev = new_port(before, ports.as_slice(), word)?;
        ports.push(dev)?;
    }
    Ok(ports)
}

/// Returns whether devices stand on one host: each on that of the first.
fn on_one_host(before: &Reader, devs: &[u32]) -> bool
    requires { All (λ dev. dev < length before.now.plan.devs) devs.now }
    ensures { result ≡ on_one_host before.now devs.now }
{
    let [first, rest @ ..] = devs else {
        return true;
    };
    let host = before.host_of(*first);
    for dev in rest {
        if before.host_of(*dev) != host {
            return false;
        }
    }
    true
}

/// `switch NAME DEV DEV..`
fn switch_line(alloc: Global, before: &Reader, name: &[u8], devs: &[&[u8]]) -> LineResult
    requires { length devs.now ≤ 16 }
    ensures { ReadsLine (result_map given_of result) (rules.switch_line before.now name.now (map (λ word. word.now) devs.now)) }
{
    let name = at(2, new_switch(before, name))?;
    let ports = read_ports(alloc, before, devs)?;
    if !on_one_host(before, ports.as_slice()) {
        return Err(LineError::Fault(Cause::BadSwitch.of_line()));
    }
    if before.switches().len() >= MOST_SWITCHES {
        return Err(LineError::Fault(Cause::TooMany.of_line()));
    }
    Ok(Given::Switch {
        switch: SwitchPlan { name, ports },
    })
}

/// Returns whether a switch may have this many ports.
fn is_ports(ports: usize) -> bool
    ensures { result ≡ rules.is_ports ports }
{
    LEAST_PORTS <= ports && ports <= MOST_PORTS
}

/// Returns the words after `switch`.
pub fn switch_words(alloc: Global, before: &Reader, words: &[&[u8]]) -> LineResult
    ensures { ReadsLine (result_map given_of result) (rules.switch_words before.now (map (λ word. word.now) words.now)) }
{
    let [name, devs @ ..] = words else {
        return Err(LineError::Fault(unknown_line()));
    };
    if is_ports(devs.len()) {
        switch_line(alloc, before, name, devs)
    } else {
        Err(LineError::Fault(unknown_line()))
    }
}
