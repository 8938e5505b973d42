//! Lines of steps and macros, grouped by their arguments. Each adds its steps to those of the lines before.
#![tactic(auto, unfolding(script_words::specs::Tests::and_then))]

ghost use Rattle.std.specs.Prelude.{◌≡◌, ◌<◌, ◌≤◌, ◌+◌, ◌∷◌, [], map, length};
ghost use Rattle.step_kinds.specs.Limits.{most_frame_bytes};
ghost use Rattle.pair_model.specs.DeclaredPlans.{IsPair};
ghost use Rattle.pair_model.specs.Ethernet.{ethernet_header};
ghost use Rattle.pair_model.specs.Plans.{side_plan, pair_plan};
ghost use Rattle.step_list.specs.Compact.{line_steps_of};
ghost use Rattle.script_words.specs.StepLines as rules;
ghost use Rattle.script_words.specs.StepWords.{pair_step_of, side_steps_of, queue_steps_of, numbered_of, frame_steps_of};
ghost use Rattle.script_text.specs.ParseClauses.{Adds};

use crate::lines::AddResult;
use crate::lookups::{
    QueueWords, SideWords, read_device, read_pair, read_queue_name, read_side_name, read_switch,
};
use net_dev::HEADER_BYTES;
use plan_numbers::{posts_in, side_plan};
use script_plan::Reader;
use script_words::step_words::{
    FrameWord, NumberWord, PairWord, QueueWord, SideWord, frame_word_of, number_word_of,
    pair_word_of, queue_word_of, side_word_of,
};
use script_words::words::{read_array, read_bytes_at, read_kind, read_number, read_number_in};
use script_words::{Cause, Given, LineError, QueueName, SideName, at, unknown_line};
use std::alloc::Global;
use step_kinds::limits::{MOST_FRAME_BYTES, MOST_POKE_BYTES, MOST_STEPS};
use step_kinds::{Frame, PairPlan, Side, Step};
use step_list::{Macro, Repeated};

/// Adds the steps of a line, if they don't pass the script's limit.
#[inline(always)]
fn add_steps(before: &mut Reader, line: u32, steps: Macro) -> AddResult
    ensures { Adds line before.old before.new result (rules.steps_within before.old (line_steps_of steps)) }
{
    if before.step_count() as u64 + steps.count() > MOST_STEPS as u64 {
        return Err(LineError::Fault(Cause::TooMany.of_line()));
    }
    before.add_steps(line, steps)?;
    Ok(())
}

/// Adds the step of a line, if it doesn't pass the script's limit.
fn add_step(before: &mut Reader, line: u32, step: Step) -> AddResult
    ensures { Adds line before.old before.new result (rules.steps_within before.old (step ∷ [])) }
{
    if before.step_count() >= MOST_STEPS as usize {
        return Err(LineError::Fault(Cause::TooMany.of_line()));
    }
    before.add_step(line, step)?;
    Ok(())
}

/// P
fn pair_step_line(before: &mut Reader, line: u32, word: PairWord, pair: &[u8]) -> AddResult
    ensures { Adds line before.old before.new result (rules.pair_step_line before.old (pair_step_of word) pair.now) }
{
    let pair = at(2, read_pair(before, pair))?;
    add_step(before, line, word.step(pair))
}

/// P S
fn side_line(before: &mut Reader, line: u32, word: SideWord, of: SideWords<'_>) -> AddResult
    ensures { Adds line before.old before.new result (rules.side_line before.old (side_steps_of word) of.entry.pair.now of.entry.side.now) }
{
    let SideName { pair, side } = read_side_name(before, 2, of)?;
    let windows = side_plan(before.pair(pair), side).windows;
    add_steps(before, line, word.steps(windows, pair, side))
}

/// P S Q
fn queue_line(before: &mut Reader, line: u32, word: QueueWord, on: QueueWords<'_>) -> AddResult
    ensures { Adds line before.old before.new result (rules.queue_line before.old (queue_steps_of word) on.entry.pair.now on.entry.side.now on.entry.queue.now) }
{
    let QueueName { pair, side, queue } = read_queue_name(before, 2, on)?;
    add_steps(before, line, word.steps(pair, side, queue))
}

/// `recv P S Q COPIES`
fn receive_line(before: &mut Reader, line: u32, on: QueueWords<'_>, copies: &[u8]) -> AddResult
    ensures { Adds line before.old before.new result (rules.receive_line before.old on.entry.pair.now on.entry.side.now on.entry.queue.now copies.now) }
{
    let QueueName { pair, side, queue } = read_queue_name(before, 2, on)?;
    let copies = read_number_in(5, 1, 512, copies)?;
    add_steps(
        before,
        line,
        Macro::Received {
            pair,
            side,
            queue,
            copies,
        },
    )
}

/// P S and a number
fn numbered_line(
    before: &mut Reader,
    line: u32,
    word: NumberWord,
    of: SideWords<'_>,
    number: &[u8],
) -> AddResult
    ensures { Adds line before.old before.new result (rules.numbered_line before.old (numbered_of word) of.entry.pair.now of.entry.side.now number.now) }
{
    let SideName { pair, side } = read_side_name(before, 2, of)?;
    let number = read_number_in(4, word.least(), word.most(), number)?;
    add_steps(before, line, word.steps(pair, side, number))
}

/// `spad P S INDEX VALUE`
fn spad_line(
    before: &mut Reader,
    line: u32,
    of: SideWords<'_>,
    index: &[u8],
    value: &[u8],
) -> AddResult
    ensures { Adds line before.old before.new result (rules.spad_line before.old of.entry.pair.now of.entry.side.now index.now value.now) }
{
    let SideName { pair, side } = read_side_name(before, 2, of)?;
    let index = read_number_in(4, 0, 15, index)?;
    let value = at(5, read_number(value))?;
    if index < 12 && !before.pair(pair).raw {
        return Err(LineError::Fault(Cause::BadPair.of_line()));
    }
    add_step(
        before,
        line,
        Step::Spad {
            pair,
            side,
            index,
            value,
        },
    )
}

/// `showmem P S AT LEN`
fn show_memory_line(
    before: &mut Reader,
    line: u32,
    of: SideWords<'_>,
    start: &[u8],
    len: &[u8],
) -> AddResult
    ensures { Adds line before.old before.new result (rules.show_memory_line before.old of.entry.pair.now of.entry.side.now start.now len.now) }
{
    let SideName { pair, side } = read_side_name(before, 2, of)?;
    let start = at(4, read_number(start))? as u64;
    let len = read_number_in(5, 1, 64, len)?;
    let own = side_plan(before.pair(pair), side);
    if own.windows as u64 * own.cap < start + len as u64 {
        return Err(LineError::Fault(Cause::BadNumber.at(5)));
    }
    add_step(
        before,
        line,
        Step::ShowMem {
            pair,
            side,
            at: start,
            len,
        },
    )
}

/// `wake DEV`
fn wake_line(before: &mut Reader, line: u32, dev: &[u8]) -> AddResult
    ensures { Adds line before.old before.new result (rules.wake_line before.old dev.now) }
{
    let dev = at(2, read_device(before, dev))?;
    let device = before.device(dev);
    let step = Step::Wake {
        pair: device.pair,
        side: device.side,
        queue: device.queue,
        dev,
    };
    add_step(before, line, step)
}

/// `relay SWITCH PORT`
fn relay_line(before: &mut Reader, line: u32, switch: &[u8], port: &[u8]) -> AddResult
    ensures { Adds line before.old before.new result (rules.relay_line before.old switch.now port.now) }
{
    let switch = at(2, read_switch(before, switch))?;
    let port = at(3, read_number(port))?;
    let ports = before.switch(switch).ports.as_slice();
    if port as usize >= ports.len() {
        return Err(LineError::Fault(Cause::UnknownName.at(3)));
    }
    let device = before.device(ports[port as usize]);
    let step = Step::Relay {
        pair: device.pair,
        side: device.side,
        queue: device.queue,
        switch,
        port,
    };
    add_step(before, line, step)
}

/// `xnext DEV`
fn xnext_line(before: &mut Reader, line: u32, dev: &[u8]) -> AddResult
    ensures { Adds line before.old before.new result (rules.xnext_line before.old dev.now) }
{
    let dev = at(2, read_device(before, dev))?;
    if !before.is_port(dev) {
        return Err(LineError::Fault(Cause::UnknownName.at(2)));
    }
    let device = before.device(dev);
    let step = Step::Xnext {
        pair: device.pair,
        side: device.side,
        queue: device.queue,
        dev,
    };
    add_step(before, line, step)
}

/// Returns the bytes of a window that reach the peer's memory.
fn reach(pair: &PairPlan, side: Side) -> u64
    ensures { result ≡ rules.reach pair.now side }
{
    side_plan(pair, side)
        .size
        .min(side_plan(pair, side.other()).cap)
}

/// `poke P S WINDOW OFFSET HEX`
fn poke_line(
    alloc: Global,
    before: &mut Reader,
    line: u32,
    of: SideWords<'_>,
    window: &[u8],
    offset: &[u8],
    bytes: &[u8],
) -> AddResult
    ensures { Adds line before.old before.new result (rules.poke_line before.old of.entry.pair.now of.entry.side.now window.now offset.now bytes.now) }
{
    let SideName { pair, side } = read_side_name(before, 2, of)?;
    let window = at(4, read_number(window))?;
    let plan = before.pair(pair);
    if window >= plan.a.windows || window >= plan.b.windows {
        return Err(LineError::Fault(Cause::UnknownName.at(4)));
    }
    let offset = at(5, read_number(offset))? as u64;
    let bytes = read_bytes_at(alloc, 6, bytes)?;
    if offset + bytes.len() as u64 > reach(plan, side) {
        return Err(LineError::Fault(Cause::BadNumber.at(6)));
    }
    if !plan.raw {
        return Err(LineError::Fault(Cause::BadPair.of_line()));
    }
    if bytes.len() > MOST_POKE_BYTES {
        return Err(LineError::Fault(Cause::TooMany.of_line()));
    }
    let bytes = Frame::of_vec(bytes.into_vec());
    add_step(
        before,
        line,
        Step::Poke {
            pair,
            side,
            window,
            offset,
            bytes,
        },
    )
}

/// Returns the steps of a frame.
fn frame_steps(word: FrameWord, plan: &PairPlan, name: QueueName, frame: Frame) -> Macro
    requires declared { IsPair plan.now }
    requires among { name.queue < (side_plan plan.now name.side).queues }
    ensures { line_steps_of result ≡ frame_steps_of word plan.now name.pair name.side name.queue frame }
{
    let QueueName { pair, side, queue } = name;
    let len = frame.len();
    let begin = Step::Begin {
        pair,
        side,
        queue,
        frame,
    };
    match word {
        FrameWord::Begin => Macro::One { step: begin },
        FrameWord::Send => Macro::Posted {
            begin,
            repeated: Repeated::Post { pair, side, queue },
            count: posts_in(plan, side, queue, len),
        },
    }
}

/// P S Q HEX
fn frame_line(
    alloc: Global,
    before: &mut Reader,
    line: u32,
    word: FrameWord,
    on: QueueWords<'_>,
    frame: &[u8],
) -> AddResult
    ensures { Adds line before.old before.new result (rules.script_frame_line before.old (frame_steps_of word) on.entry.pair.now on.entry.side.now on.entry.queue.now frame.now) }
{
    let name = read_queue_name(before, 2, on)?;
    let bytes = read_bytes_at(alloc, 5, frame)?;
    if bytes.len() > MOST_FRAME_BYTES as usize {
        return Err(LineError::Fault(Cause::TooMany.of_line()));
    }
    let frame = Frame::of_vec(bytes.into_vec());
    let steps = frame_steps(word, before.pair(name.pair), name, frame);
    add_steps(before, line, steps)
}

/// Returns the steps of an Ethernet payload.
fn ethernet_steps(
    before: &Reader,
    is_macro: bool,
    dev: u32,
    dst: [u8; 6],
    kind: u16,
    payload: Frame,
) -> Macro
    requires declared { dev < length before.now.plan.devs }
    requires fits { length payload + ethernet_header ≤ most_frame_bytes }
    ensures { line_steps_of result ≡ rules.ethernet_steps before.now.plan is_macro dev dst kind payload }
{
    let device = before.device(dev);
    let pair = device.pair;
    let side = device.side;
    let queue = device.queue;
    let len = payload.len() + HEADER_BYTES;
    let begin = Step::Xbegin {
        pair,
        side,
        queue,
        dev,
        dst,
        kind,
        payload,
    };
    if !is_macro {
        return Macro::One { step: begin };
    }
    Macro::Posted {
        begin,
        repeated: Repeated::Post { pair, side, queue },
        count: posts_in(before.pair(pair), side, queue, len),
    }
}

/// DEV ADDRESS KIND HEX
fn ethernet_line(
    alloc: Global,
    before: &mut Reader,
    line: u32,
    is_macro: bool,
    dev: &[u8],
    address: &[u8],
    kind: &[u8],
    payload: &[u8],
) -> AddResult
    ensures { Adds line before.old before.new result (rules.ethernet_line before.old is_macro dev.now address.now kind.now payload.now) }
{
    let dev = at(2, read_device(before, dev))?;
    let dst = at(3, read_array::<6>(address))?;
    let kind = at(4, read_kind(kind))?;
    let bytes = read_bytes_at(alloc, 5, payload)?;
    if bytes.len() > (MOST_FRAME_BYTES - HEADER_BYTES) as usize {
        return Err(LineError::Fault(Cause::TooMany.of_line()));
    }
    let payload = Frame::of_vec(bytes.into_vec());
    let steps = ethernet_steps(before, is_macro, dev, dst, kind, payload);
    add_steps(before, line, steps)
}

/// Returns a line of one more word.
fn line_of_one(before: &mut Reader, line: u32, word: &[u8], a: &[u8]) -> AddResult
    ensures { Adds line before.old before.new result (rules.line_of_one before.old word.now a.now) }
{
    if word == b"wake".as_slice() {
        return wake_line(before, line, a);
    }
    if word == b"xnext".as_slice() {
        return xnext_line(before, line, a);
    }
    match pair_word_of(word) {
        Some(step) => pair_step_line(before, line, step, a),
        None => Err(LineError::Fault(unknown_line())),
    }
}

/// Returns a line of two more words.
fn line_of_two(before: &mut Reader, line: u32, word: &[u8], a: &[u8], b: &[u8]) -> AddResult
    ensures { Adds line before.old before.new result (rules.line_of_two before.old word.now a.now b.now) }
{
    if word == b"relay".as_slice() {
        return relay_line(before, line, a, b);
    }
    let (pair, side) = (a, b);
    match side_word_of(word) {
        Some(steps) => side_line(before, line, steps, SideWords { pair, side }),
        None => Err(LineError::Fault(unknown_line())),
    }
}

/// Returns a line of three more words.
fn line_of_three(before: &mut Reader, line: u32, word: &[u8], on: QueueWords<'_>) -> AddResult
    ensures { Adds line before.old before.new result (rules.line_of_three before.old word.now on.entry.pair.now on.entry.side.now on.entry.queue.now) }
{
    if let Some(steps) = number_word_of(word) {
        let QueueWords {
            pair,
            side,
            queue: number,
        } = on;
        return numbered_line(before, line, steps, SideWords { pair, side }, number);
    }
    match queue_word_of(word) {
        Some(steps) => queue_line(before, line, steps, on),
        None => Err(LineError::Fault(unknown_line())),
    }
}

/// Returns a line of four more words.
fn line_of_four(
    alloc: Global,
    before: &mut Reader,
    line: u32,
    word: &[u8],
    a: &[u8],
    b: &[u8],
    c: &[u8],
    d: &[u8],
) -> AddResult
    ensures { Adds line before.old before.new result (rules.line_of_four before.old word.now a.now b.now c.now d.now) }
{
    let (pair, side, queue) = (a, b, c);
    if word == b"recv".as_slice() {
        receive_line(before, line, QueueWords { pair, side, queue }, d)
    } else if word == b"spad".as_slice() {
        spad_line(before, line, SideWords { pair, side }, c, d)
    } else if word == b"showmem".as_slice() {
        show_memory_line(before, line, SideWords { pair, side }, c, d)
    } else if word == b"xbegin".as_slice() {
        ethernet_line(alloc, before, line, false, a, b, c, d)
    } else if word == b"xmit".as_slice() {
        ethernet_line(alloc, before, line, true, a, b, c, d)
    } else if let Some(steps) = frame_word_of(word) {
        frame_line(
            alloc,
            before,
            line,
            steps,
            QueueWords { pair, side, queue },
            d,
        )
    } else {
        Err(LineError::Fault(unknown_line()))
    }
}

/// Returns a line of five more words.
fn line_of_five(
    alloc: Global,
    before: &mut Reader,
    line: u32,
    word: &[u8],
    of: SideWords<'_>,
    window: &[u8],
    offset: &[u8],
    bytes: &[u8],
) -> AddResult
    ensures { Adds line before.old before.new result (rules.line_of_five before.old word.now of.entry.pair.now of.entry.side.now window.now offset.now bytes.now) }
{
    if word == b"poke".as_slice() {
        poke_line(alloc, before, line, of, window, offset, bytes)
    } else {
        Err(LineError::Fault(unknown_line()))
    }
}

/// Returns a line without further words.
fn lone_line(alloc: Global, before: &mut Reader, line: u32, word: &[u8]) -> AddResult
    ensures { Adds line before.old before.new result (rules.step_line before.old word.now []) }
{
    if word != b"traffic".as_slice() {
        return Err(LineError::Fault(unknown_line()));
    }
    before.add(alloc, line, Given::TrafficBegins)?;
    Ok(())
}

/// Adds what a line among the steps gives.
pub fn step_line(
    alloc: Global,
    before: &mut Reader,
    line: u32,
    word: &[u8],
    words: &[&[u8]],
) -> AddResult
    ensures { Adds line before.old before.new result (rules.step_line before.old word.now (map (λ word. word.now) words.now)) }
{
    match words {
        [] => lone_line(alloc, before, line, word),
        [a] => line_of_one(before, line, word, a),
        [a, b] => line_of_two(before, line, word, a, b),
        [pair, side, queue] => {
            line_of_three(before, line, word, QueueWords { pair, side, queue })
        }
        [a, b, c, d] => line_of_four(alloc, before, line, word, a, b, c, d),
        [pair, side, window, offset, bytes] => {
            let of = SideWords { pair, side };
            line_of_five(alloc, before, line, word, of, window, offset, bytes)
        }
        _ => Err(LineError::Fault(unknown_line())),
    }
}
