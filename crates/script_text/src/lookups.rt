//! Words that name what is declared.
#![tactic(auto, unfolding(script_words::specs::Tests::and_then))]

ghost use Rattle.std.specs.Prelude.{◌≡◌, ◌<◌, ◌≤◌, length, IfOk};
ghost use Rattle.pair_model.specs.Plans.{side_plan, pair_plan, dev_plan};
ghost use Rattle.script_words.specs.Before.{pair_word, dev_word, switch_word, queue_word, named_side, named_queue, pair_names, dev_names, switch_names};
ghost use Rattle.script_words.specs.Declarations.{host_word, new_name};

use plan_numbers::side_plan;
use script_plan::{Names, Reader};
use script_words::words::{is_name, read_name, read_number, read_side};
use script_words::{Cause, LineFault, QueueName, SideName, at};
use step_kinds::{Name, Side};

/// The words that name a side of a pair.
#[derive(Clone, Copy)]
pub struct SideWords<'a> {
    pub pair: &'a [u8],
    pub side: &'a [u8],
}

/// The words that name a queue of a side of a pair.
#[derive(Clone, Copy)]
pub struct QueueWords<'a> {
    pub pair: &'a [u8],
    pub side: &'a [u8],
    pub queue: &'a [u8],
}

/// Returns a name that isn't among these yet.
fn new_among(names: &Names, word: &[u8]) -> Result<Name, Cause>
    ensures { result ≡ new_name names.now word.now }
{
    let name = read_name(word)?;
    if names.contains(name.bytes()) {
        return Err(Cause::Repeated);
    }
    Ok(name)
}

/// Returns a host that isn't declared yet. The error is [`Cause::BadName`] if the word is no name, and else
/// [`Cause::Repeated`] if a host has that name.
pub fn new_host(before: &Reader, word: &[u8]) -> Result<Name, Cause>
    ensures { result ≡ new_name before.now.hosts word.now }
{
    new_among(before.hosts(), word)
}

/// Returns a pair that isn't declared yet. The error is [`Cause::BadName`] if the word is no name, and else
/// [`Cause::Repeated`] if a pair has that name.
pub fn new_pair(before: &Reader, word: &[u8]) -> Result<Name, Cause>
    ensures { result ≡ new_name (pair_names before.now) word.now }
{
    new_among(before.pairs().names(), word)
}

/// Returns a device that isn't declared yet. The error is [`Cause::BadName`] if the word is no name, and else
/// [`Cause::Repeated`] if a device has that name.
pub fn new_device(before: &Reader, word: &[u8]) -> Result<Name, Cause>
    ensures { result ≡ new_name (dev_names before.now) word.now }
{
    new_among(before.devs().names(), word)
}

/// Returns a switch that isn't declared yet. The error is [`Cause::BadName`] if the word is no name, and else
/// [`Cause::Repeated`] if a switch has that name.
pub fn new_switch(before: &Reader, word: &[u8]) -> Result<Name, Cause>
    ensures { result ≡ new_name (switch_names before.now) word.now }
{
    new_among(before.switches().names(), word)
}

/// Returns a host that is declared. The error is [`Cause::BadName`] if the word is no name, and else
/// [`Cause::UnknownName`] if no host has that name.
pub fn read_host(before: &Reader, word: &[u8]) -> Result<Name, Cause>
    ensures { result ≡ host_word before.now word.now }
{
    let name = read_name(word)?;
    if !before.hosts().contains(name.bytes()) {
        return Err(Cause::UnknownName);
    }
    Ok(name)
}

/// Returns the number of the pair that a word names. The error is [`Cause::BadName`] if the word is no name, and else
/// [`Cause::UnknownName`] if no pair has that name.
pub fn read_pair(before: &Reader, word: &[u8]) -> Result<u32, Cause>
    ensures value { result ≡ pair_word before.now word.now }
    ensures declared { IfOk result (λ pair. pair < length before.now.plan.pairs) }
    ensures small { IfOk result (λ pair. pair < 16) }
{
    if !is_name(word) {
        return Err(Cause::BadName);
    }
    before.pairs().number(word).ok_or(Cause::UnknownName)
}

/// Returns the number of the device that a word names. The error is [`Cause::BadName`] if the word is no name, and else
/// [`Cause::UnknownName`] if no device has that name.
pub fn read_device(before: &Reader, word: &[u8]) -> Result<u32, Cause>
    ensures value { result ≡ dev_word before.now word.now }
    ensures declared { IfOk result (λ dev. dev < length before.now.plan.devs) }
{
    if !is_name(word) {
        return Err(Cause::BadName);
    }
    before.devs().number(word).ok_or(Cause::UnknownName)
}

/// Returns the number of the switch that a word names. The error is [`Cause::BadName`] if the word is no name, and else
/// [`Cause::UnknownName`] if no switch has that name.
pub fn read_switch(before: &Reader, word: &[u8]) -> Result<u32, Cause>
    ensures value { result ≡ switch_word before.now word.now }
    ensures declared { IfOk result (λ switch. switch < length before.now.plan.switches) }
{
    if !is_name(word) {
        return Err(Cause::BadName);
    }
    before.switches().number(word).ok_or(Cause::UnknownName)
}

/// Returns the side of a pair that two words name, the first of which is word `n` of the line, at most 6. The error is
/// that of [`read_pair`] at word `n`, and else [`Cause::BadName`] at word `n + 1`, if that is neither `A` nor `B`.
pub fn read_side_name(before: &Reader, n: u32, words: SideWords<'_>) -> Result<SideName, LineFault>
    requires { n ≤ 6 }
    ensures value { result ≡ named_side before.now n words.entry.pair.now words.entry.side.now }
    ensures declared { IfOk result (λ name. name.pair < length before.now.plan.pairs) }
{
    let pair = at(n, read_pair(before, words.pair))?;
    let side = at(n + 1, read_side(words.side))?;
    Ok(SideName { pair, side })
}

/// Returns the queue of a side that a word names.
fn read_queue(before: &Reader, pair: u32, side: Side, word: &[u8]) -> Result<u32, Cause>
    requires { pair < length before.now.plan.pairs }
    ensures value { result ≡ queue_word before.now pair side word.now }
    ensures below { IfOk result (λ queue. queue < (side_plan (pair_plan before.now.plan pair) side).queues) }
{
    let queue = read_number(word)?;
    if queue >= side_plan(before.pair(pair), side).queues {
        return Err(Cause::UnknownName);
    }
    Ok(queue)
}

/// Returns the queue of a side of a pair that three words name, the first of which is word `n` of the line, at most 6.
/// An error of [`read_side_name`] comes first. Else the error is, at word `n + 2`, [`Cause::BadNumber`] if that spells
/// no number, and else [`Cause::UnknownName`] if the side has no queue of that number.
pub fn read_queue_name(
    before: &Reader,
    n: u32,
    words: QueueWords<'_>,
) -> Result<QueueName, LineFault>
    requires { n ≤ 6 }
    ensures value { result ≡ named_queue before.now n words.entry.pair.now words.entry.side.now words.entry.queue.now }
    ensures declared { IfOk result (λ name. name.pair < length before.now.plan.pairs) }
    ensures among { IfOk result (λ name. name.queue < (side_plan (pair_plan before.now.plan name.pair) name.side).queues) }
{
    let QueueWords { pair, side, queue } = words;
    let SideName { pair, side } = read_side_name(before, n, SideWords { pair, side })?;
    let queue = at(n + 2, read_queue(before, pair, side, queue))?;
    Ok(QueueName { pair, side, queue })
}
