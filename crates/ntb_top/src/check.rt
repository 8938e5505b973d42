//! The reply of `check`.

ghost use Rattle.std.specs.Prelude.{◌≡◌, ◌++◌, ◌∷◌, ◌+◌, ◌≤◌, IfOk, OnOk, decimal, length, map, sum};
ghost use Rattle.step_kinds.specs.Limits.{most_script_bytes, most_steps};
ghost use Rattle.pair_model.specs.TrafficPlans.{IsWhole, frames_in as frames_of_item};
ghost use Rattle.script_plan.specs.Scripts.{plan_in};
ghost use Rattle.step_list.specs.StepLists.{all_lines};
ghost use Rattle.ntb_top.specs.Checks.{IsCheckOf, count_text, check_counts_text, check_place_text, plan_counts_text};

use arrayvec::ArrayString;
use command_reply::Reply;
use itoa::Buffer;
use report_text::append::{push_numbers, push_word};
use script_text::{ParseError, Reader, Script, read_declared};
use script_words::LineFault;
use std::alloc::{AllocError, Global};
use step_kinds::Traffic;
use step_list::Stretch;

/// The most bytes of what is said of a line's fault: its word's number, its cause, and the two numbers of a range.
const MOST_PLACE_BYTES: usize = 64;

/// Returns the reply of `check` to a script of at most 16,777,216 bytes. If the script has no fault, the status is 0,
/// and the text is `ok` and how much it declares. Otherwise the status is 3, and the text has its first line with a
/// fault, the word and the cause. The range of the number that should stand there follows, if it has one. Returns an
/// error if memory runs out.
pub fn check_reply(alloc: Global, bytes: &[u8]) -> Result<Reply, AllocError>
    requires { length bytes.now ≤ most_script_bytes }
    ensures { IfOk result (λ reply. IsCheckOf bytes.now reply) }
{
    match read_declared(alloc, bytes) {
        Ok(declared) => Ok(Reply::done(counts_of(alloc, declared)?)),
        Err(ParseError::Fault(fault)) => {
            Ok(Reply::refused_at(fault.line, place_of(fault.fault).as_str()))
        }
        Err(ParseError::OutOfMemory) => Err(AllocError),
    }
}

// How much a script declares, as one line.
fn counts_of(alloc: Global, declared: Reader) -> Result<Vec<u8>, AllocError>
    requires { IsWhole declared.plan }
    ensures { IfOk result (λ text. text.items ≡ check_counts_text declared) }
{
    let hosts = declared.hosts().len();
    let script = declared.into_script(alloc);
    counts_line(alloc, &script, hosts)
}

// How much a script declares that has this many hosts, as one line.
fn counts_line(alloc: Global, script: &Script, hosts: usize) -> Result<Vec<u8>, AllocError>
    requires { IsWhole (plan_in script.now) }
    ensures { IfOk result (λ text. text.items ≡ plan_counts_text (plan_in script.now) hosts) }
{
    let plan = &script.declared;
    let frames = frames_in(plan.traffic.as_slice());
    let mut text = Vec::new(alloc);
    push_count(&mut text, "ok pairs", plan.pairs.len())?;
    push_count(&mut text, " devices", plan.devs.len())?;
    push_count(&mut text, " switches", plan.switches.len())?;
    push_count(&mut text, " steps", steps_in(script.steps.stretches()))?;
    push_count(&mut text, " frames", frames)?;
    push_count(&mut text, " breaks", plan.traffic.len() - frames)?;
    push_count(&mut text, " hosts", hosts)?;
    push_word(&mut text, "\n")?;
    Ok(text)
}

// Returns how many steps stretches are, which are no more than a script may have.
fn steps_in(stretches: &[Stretch]) -> usize
    requires { length (all_lines stretches.now) ≤ most_steps }
    ensures { result ≡ length (all_lines stretches.now) }
{
    let mut steps = 0;
    for stretch in stretches {
        steps += match stretch {
            Stretch::One { .. } => 1,
            Stretch::Again { count, .. } => *count as usize,
            // a look, the copies, a clear and an ack
            Stretch::Received { copies, .. } => *copies as usize + 3,
        };
    }
    steps
}

// Returns how many frames are among the traffic.
fn frames_in(traffic: &[Traffic]) -> usize
    ensures frames { result ≡ sum (map frames_of_item traffic.now) }
    ensures few { result ≤ length traffic.now }
{
    traffic
        .iter()
        .filter(|item| matches!(item, Traffic::Send { .. }))
        .count()
}

// Adds a count after a word.
fn push_count(text: &mut Vec<u8>, word: &str, count: usize) -> Result<(), AllocError>
    ensures { OnOk result (text.new.items ≡ text.old.items ++ count_text word.now count) }
{
    push_word(text, word)?;
    push_numbers(text, &[count as u64])
}

// If a line's fault was found, and what it is.
fn place_of(fault: LineFault) -> ArrayString<MOST_PLACE_BYTES>
    ensures text { result.bytes ≡ check_place_text fault }
    ensures short { length result.bytes ≤ 64 }
{
    let mut digits = Buffer::new();
    let mut text = ArrayString::new();
    text.push_str("word ");
    text.push_str(digits.format(fault.word));
    text.push_str(" ");
    text.push_str(fault.cause.word());
    if let Some(range) = fault.range {
        push_number(&mut text, range.least);
        push_number(&mut text, range.most);
    }
    text
}

// Adds a number after a space, if there is room for the longest.
fn push_number(text: &mut ArrayString<MOST_PLACE_BYTES>, number: u32)
    requires { length text.old.bytes + 11 ≤ 64 }
    ensures text { text.new.bytes ≡ text.old.bytes ++ 32 ∷ decimal number }
    ensures short { length text.new.bytes ≤ length text.old.bytes + 11 }
{
    let mut digits = Buffer::new();
    text.push_str(" ");
    text.push_str(digits.format(number));
}
