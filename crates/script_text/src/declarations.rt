//! Declarations: hosts, pairs, devices and classes. Those of switches stand in `switch_lines`.
#![tactic(auto, unfolding(script_words::specs::Tests::and_then))]

ghost use Rattle.std.specs.Prelude.{◌≡◌, ◌∷◌, map, codes, IfOk};
ghost use Rattle.script_words.specs.Compact.{given_of};
ghost use Rattle.script_words.specs.Declarations as rules;
ghost use Rattle.script_words.specs.Reads.{ReadsLine, result_map};
ghost use Rattle.script_words.specs.Words.{hex_of};

use crate::lines::{LineResult, or_fault};
use crate::lookups::{QueueWords, new_device, new_host, new_pair, read_host, read_queue_name};
use crate::switch_lines::switch_words;
use pair_settings::{goes_together, pair_with};
use script_plan::Reader;
use script_words::options::read_settings;
use script_words::settings::behind_key;
use script_words::words::{read_array, read_number, read_number_in};
use script_words::{
    Cause, Given, LineError, LineFault, PairHosts, Range, at, unknown_line, within,
};
use std::alloc::{AllocError, Global};
use step_kinds::limits::{MOST_DEVICES, MOST_HOSTS, MOST_PAIRS, MOST_THRESHOLD};
use step_kinds::{DevPlan, PairPlan};

/// `host NAME`
fn host_line(before: &Reader, name: &[u8]) -> Result<Given, LineFault>
    ensures { result_map given_of result ≡ rules.host_line before.now name.now }
{
    let name = at(2, new_host(before, name))?;
    if before.hosts().len() >= MOST_HOSTS {
        return Err(Cause::TooMany.of_line());
    }
    Ok(Given::Host { name })
}

/// Returns a pair in a box.
fn boxed(alloc: Global, pair: PairPlan) -> Result<Box<PairPlan>, AllocError>
    ensures { IfOk result (λ boxed. boxed.value ≡ pair) }
{
    Ok(Box::new(alloc, pair)?)
}

/// `pair NAME HOST HOST OPTION..`
fn pair_line(
    alloc: Global,
    before: &Reader,
    name: &[u8],
    host_a: &[u8],
    host_b: &[u8],
    options: &[&[u8]],
) -> LineResult
    ensures { ReadsLine (result_map given_of result) (rules.pair_line before.now name.now host_a.now host_b.now (map (λ word. word.now) options.now)) }
{
    let name = at(2, new_pair(before, name))?;
    let a = at(3, read_host(before, host_a))?;
    let b = at(4, read_host(before, host_b))?;
    let settings = read_settings(alloc, options)?;
    if a.bytes() == b.bytes() {
        return Err(LineError::Fault(Cause::Repeated.of_line()));
    }
    let pair = pair_with(name, settings.as_slice());
    if !goes_together(&pair) {
        return Err(LineError::Fault(Cause::BadGeometry.of_line()));
    }
    if before.pairs().len() >= MOST_PAIRS {
        return Err(LineError::Fault(Cause::TooMany.of_line()));
    }
    Ok(Given::Pair {
        pair: boxed(alloc, pair)?,
        hosts: PairHosts { a, b },
    })
}

/// Returns a device's threshold.
fn threshold_of(digits: &[u8]) -> Result<u32, Cause>
    ensures { result ≡ rules.threshold_of digits.now }
{
    let number = read_number(digits)?;
    if number > MOST_THRESHOLD {
        return Err(Cause::BadGeometry);
    }
    Ok(number)
}

/// Returns the same after its key, in word `n` of the line.
fn read_threshold(n: u32, key: &[u8], word: &[u8]) -> Result<u32, LineFault>
    ensures { result ≡ rules.threshold_word n key.now word.now }
{
    let digits = at(n, behind_key(key, word).ok_or(Cause::UnknownWord))?;
    let range = Range {
        least: 0,
        most: MOST_THRESHOLD,
    };
    within(n, range, threshold_of(digits))
}

/// `dev NAME PAIR SIDE QUEUE ADDRESS stop=K start=K`
fn dev_line(before: &Reader, words: DevWords<'_>) -> Result<Given, LineFault>
    ensures { result_map given_of result ≡ rules.dev_line before.now words.entry.name.now words.entry.on.pair.now words.entry.on.side.now words.entry.on.queue.now words.entry.address.now words.entry.stop.now words.entry.start.now }
{
    let name = at(2, new_device(before, words.name))?;
    let on = read_queue_name(before, 3, words.on)?;
    let address = at(6, read_array(words.address))?;
    let stop = read_threshold(7, b"stop=", words.stop)?;
    let start = read_threshold(8, b"start=", words.start)?;
    if before.devs().any_on(on) {
        return Err(Cause::Repeated.of_line());
    }
    if start < stop {
        return Err(Cause::BadGeometry.of_line());
    }
    if before.devs().len() >= MOST_DEVICES {
        return Err(Cause::TooMany.of_line());
    }
    Ok(Given::Device {
        dev: DevPlan {
            name,
            pair: on.pair,
            side: on.side,
            queue: on.queue,
            address,
            stop,
            start,
        },
    })
}

/// The words of a device's line after the first.
#[derive(Clone, Copy)]
struct DevWords<'a> {
    name: &'a [u8],
    on: QueueWords<'a>,
    address: &'a [u8],
    stop: &'a [u8],
    start: &'a [u8],
}

/// `class PAIR SIDE QUEUE CLASS`
fn class_line(before: &Reader, on: QueueWords<'_>, class: &[u8]) -> Result<Given, LineFault>
    ensures { result_map given_of result ≡ rules.class_line before.now on.entry.pair.now on.entry.side.now on.entry.queue.now class.now }
{
    let queue = read_queue_name(before, 2, on)?;
    let class = read_number_in(5, 0, 7, class)?;
    if before.is_classed(queue) {
        return Err(Cause::Repeated.of_line());
    }
    Ok(Given::Class { queue, class })
}

/// Returns the words after `host`.
fn host_words(before: &Reader, words: &[&[u8]]) -> Result<Given, LineFault>
    ensures { result_map given_of result ≡ rules.host_words before.now (map (λ word. word.now) words.now) }
{
    match words {
        [name] => host_line(before, name),
        _ => Err(unknown_line()),
    }
}

/// Returns the words after `pair`.
fn pair_words(alloc: Global, before: &Reader, words: &[&[u8]]) -> LineResult
    ensures { ReadsLine (result_map given_of result) (rules.pair_words before.now (map (λ word. word.now) words.now)) }
{
    match words {
        [name, host_a, host_b, options @ ..] => {
            pair_line(alloc, before, name, host_a, host_b, options)
        }
        _ => Err(LineError::Fault(unknown_line())),
    }
}

/// Returns the words after `dev`.
fn dev_words(before: &Reader, words: &[&[u8]]) -> Result<Given, LineFault>
    ensures { result_map given_of result ≡ rules.dev_words before.now (map (λ word. word.now) words.now) }
{
    match words {
        [name, pair, side, queue, address, stop, start] => dev_line(
            before,
            DevWords {
                name,
                on: QueueWords { pair, side, queue },
                address,
                stop,
                start,
            },
        ),
        _ => Err(unknown_line()),
    }
}

/// Returns the words after `class`.
fn class_words(before: &Reader, words: &[&[u8]]) -> Result<Given, LineFault>
    ensures { result_map given_of result ≡ rules.class_words before.now (map (λ word. word.now) words.now) }
{
    match words {
        [pair, side, queue, class] => class_line(before, QueueWords { pair, side, queue }, class),
        _ => Err(unknown_line()),
    }
}

/// Returns a line without further words.
fn lone_word(words: &[&[u8]], given: Given) -> Result<Given, LineFault>
    ensures { result_map given_of result ≡ rules.lone_word (map (λ word. word.now) words.now) (given_of given) }
{
    match words {
        [] => Ok(given),
        _ => Err(unknown_line()),
    }
}

/// Returns a line among the declarations.
pub fn declaration_line(alloc: Global, before: &Reader, word: &[u8], words: &[&[u8]]) -> LineResult
    ensures { ReadsLine (result_map given_of result) (rules.declaration_line before.now word.now (map (λ word. word.now) words.now)) }
{
    if word == b"host".as_slice() {
        or_fault(host_words(before, words))
    } else if word == b"pair".as_slice() {
        pair_words(alloc, before, words)
    } else if word == b"dev".as_slice() {
        or_fault(dev_words(before, words))
    } else if word == b"class".as_slice() {
        or_fault(class_words(before, words))
    } else if word == b"switch".as_slice() {
        switch_words(alloc, before, words)
    } else if word == b"steps".as_slice() {
        or_fault(lone_word(words, Given::StepsBegin))
    } else if word == b"traffic".as_slice() {
        or_fault(lone_word(words, Given::TrafficBegins))
    } else {
        Err(LineError::Fault(unknown_line()))
    }
}
