//! The plan of a generated load.

ghost use Rattle.std.specs.Prelude.{◌≡◌, ◌∷◌, [], ◌++◌, ◌+◌, ◌^◌, ◌<◌, ◌≤◌, length, IfOk, OnErr, OnOk};
ghost use Rattle.std.specs.Int.{bytes_low_first};
ghost use Rattle.lane_model.specs.Lane.{chunks_in};
ghost use Rattle.traffic_plan.specs.Load.{eight_of, load_word_at, state_past, load_pair, most_load_frames, length_of, payload_of, load_frame_lines, frames_given, lines_of_frame, load_of, load_plan_of};

use crate::steps::{land, land_all, push_landings, receive, send};
use pair_settings::{Setting, SideKey, pair_with};
use plan_numbers::chunks_in;
use rand_xoshiro::SplitMix64;
use rand_xoshiro::rand_core::SeedableRng;
use rand_xoshiro::rand_core::utils::NextWord;
use std::alloc::{AllocError, Global};
use std::marker::Model;
use step_kinds::{Frame, Items, Line, Name, PairPlan, Plan, Side};
use step_list::StepList;

/// The most frames of a load.
pub const MOST_LOAD_FRAMES: u32 = 30_000;

/// Returns the two words of the next frame.
fn frame_words(words: &mut SplitMix64) -> (u64, u64)
    ensures first { result.0 ≡ load_word_at words.old }
    ensures second { result.1 ≡ load_word_at (state_past words.old) }
    ensures state { words.new ≡ state_past (state_past words.old) }
{
    let word = words.next_word();
    (word, words.next_word())
}

/// Returns the pair.
fn load_pair() -> PairPlan
    ensures { result ≡ load_pair }
{
    let size = Setting::OfSide {
        key: SideKey::Size,
        side: None,
        number: 4096,
    };
    let mtu = Setting::Mtu { number: 1023 };
    pair_with(Name::of_bytes(b"p"), &[Setting::Up, size, mtu])
}

/// Returns the bytes of a word, the lowest first, eight times.
#[inline]
fn eight_times(word: u64) -> [u8; 64]
    ensures { result ≡ eight_of (bytes_low_first 0 8 word) }
{
    let [a, b, c, d, e, f, g, h] = word.to_le_bytes();
    [
        a, b, c, d, e, f, g, h, a, b, c, d, e, f, g, h, a, b, c, d, e, f, g, h, a, b, c, d, e, f,
        g, h, a, b, c, d, e, f, g, h, a, b, c, d, e, f, g, h, a, b, c, d, e, f, g, h, a, b, c, d,
        e, f, g, h,
    ]
}

/// Returns the bytes of a frame, by its first word.
fn payload(alloc: Global, word: u64) -> Result<Frame, AllocError>
    ensures value { IfOk result (λ frame. frame ≡ payload_of word) }
    ensures len { IfOk result (λ frame. length frame ≡ length_of word) }
{
    let len = 1 + (word % 300) as usize;
    let words = eight_times(word);
    let mut bytes = Vec::new(alloc);
    bytes.reserve(len + 63)?;
    for _ in 0..len.div_ceil(64) {
        bytes.extend_from_slice(&words)?;
    }
    bytes.truncate(len);
    Ok(Frame::of_vec(bytes))
}

/// Adds the steps of a frame, by its two words.
fn push_frame(
    alloc: Global,
    steps: &mut StepList,
    line: u32,
    word: u64,
    landings: u64,
) -> Result<(), AllocError>
    ensures { OnOk result (steps.new ≡ steps.old ++ load_frame_lines line word landings) }
{
    let frame = payload(alloc, word)?;
    let chunks = chunks_in(frame.len());
    steps.push(line, send(frame))?;
    push_landings(steps, line, landings)?;
    steps.push(line, land_all(chunks + 4))?;
    steps.push(line, receive(chunks))?;
    steps.push(line, land(Side::B, 0))
}

/// The frames of a load, one after another. Contracts see the seed and how many frames were given.
#[derive(Drop)]
pub struct LoadFrames {
    seed: u64,
    given: u32,
    words: SplitMix64,
}

impl LoadFrames {
    /// Returns the frames of the loads of this seed, of which none was given yet.
    pub fn new(seed: u64) -> LoadFrames
        ensures { result ≡ frames_given seed 0 }
    {
        LoadFrames {
            seed,
            given: 0,
            words: SplitMix64::seed_from_u64(seed),
        }
    }

    /// Puts the steps of the next frame in place of those in `steps`; the number of their line is that of the frame,
    /// counted from 1. Fewer than 30,000 frames were given before. Returns an error if memory runs out: then `steps` is
    /// empty, and the same frame is still the next one.
    pub fn put_next(&mut self, alloc: Global, steps: &mut StepList) -> Result<(), AllocError>
        requires { self.old.given < most_load_frames }
        ensures steps { OnOk result (steps.new ≡ lines_of_frame self.old.seed self.old.given) }
        ensures given { OnOk result (self.new ≡ frames_given self.old.seed (self.old.given + 1)) }
        ensures err { OnErr result ((steps.new ≡ []) × (self.new ≡ self.old)) }
    {
        steps.clear();
        let mut words = SplitMix64::from_seed(self.words.state());
        let (word, landings) = frame_words(&mut words);
        if let Err(error) = push_frame(alloc, steps, self.given + 1, word, landings) {
            steps.clear();
            return Err(error);
        }
        self.words = words;
        self.given += 1;
        Ok(())
    }
}

impl Model for LoadFrames {
    ghost use Rattle.std.specs.Prelude.{◌≡◌, ◌*◌, ◌≤◌};
    ghost use Rattle.traffic_plan.specs.Load.{LoadGiven, frames_given, most_load_frames, state_after};

    ghost Value = { LoadGiven };

    ghost view = { λ load. frames_given load.seed load.given };

    ghost invariant = { λ load. (load.words ≡ state_after load.seed (2 * load.given)) × (load.given ≤ most_load_frames) };
}

/// Returns the steps of all frames.
fn load_lines(alloc: Global, seed: u64, frames: u32) -> Result<Items<Line>, AllocError>
    requires { frames ≤ most_load_frames }
    ensures { IfOk result (λ lines. lines ≡ (load_of seed frames).steps) }
{
    let mut words = SplitMix64::seed_from_u64(seed);
    let mut steps = StepList::new(alloc);
    for k in 0..frames {
        let (word, landings) = frame_words(&mut words);
        push_frame(alloc, &mut steps, k + 1, word, landings)?;
    }
    steps.into_items(alloc)
}

/// Returns the plan of each load, but for its steps. Its pair, named `p`, starts up with version 4, one queue, one
/// window of 4,096 bytes and an mtu of 1,023 on both sides. It is neither strict nor raw, and each class is 0. Returns
/// an error if memory runs out.
pub fn load_without_steps(alloc: Global) -> Result<Plan, AllocError>
    ensures { IfOk result (λ plan. plan ≡ load_plan_of []) }
{
    let mut pairs = Items::new(alloc);
    pairs.push(load_pair())?;
    Ok(Plan {
        pairs,
        devs: Items::new(alloc),
        switches: Items::new(alloc),
        steps: Items::new(alloc),
        traffic: Items::new(alloc),
    })
}

/// Returns the plan of a load of this many frames, 1 to 30,000, by a seed. Returns an error if memory runs out.
///
/// Its pair is that of [`load_without_steps`]. SplitMix64 (Steele, Lea and Flood) gives two words of 64 bits a frame.
/// By the first a frame has 1 to 300 bytes, which are the word's own, the lowest first, again and again. The number of
/// a step's line is that of its frame, from 1. A frame has these steps:
///
/// 1. It is sent on queue 0 of side A, and all its writes are posted.
/// 2. Eight landings are tried, at the places 0 to 3 that the second word says.
/// 3. A landing of the first write in flight is tried, as often as the frame has writes.
/// 4. Side B receives it whole, and its index write lands.
pub fn generate(alloc: Global, seed: u64, frames: u32) -> Result<Plan, AllocError>
    requires some { 1 ≤ frames }
    requires few { frames ≤ most_load_frames }
    ensures { IfOk result (λ plan. plan ≡ load_of seed frames) }
{
    let mut plan = load_without_steps(alloc)?;
    plan.steps = load_lines(alloc, seed, frames)?;
    Ok(plan)
}
