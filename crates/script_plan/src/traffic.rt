//! The traffic that the lines so far give, with its counters.

ghost use Rattle.std.specs.Prelude.{◌≡◌, ◌∷◌, [], ◌++◌, ◌+◌, ◌*◌, ◌%◌, ◌<◌, ◌≤◌, ◌&&◌, length, map, sum, count_by, nat_le, IfOk, OnErr, OnOk};
ghost use Rattle.step_kinds.specs.Limits.{most_frame_bytes, most_traffic_frames, most_traffic_bytes, most_breaks};
ghost use Rattle.step_kinds.specs.declared.plan.Traffic.TheVariants.{Send, Break};
ghost use Rattle.script_words.specs.Compact.{flood_of};
ghost use Rattle.pair_model.specs.TrafficPlans.{frames_in, traffic_bytes_in, is_break_of};
ghost use Rattle.script_words.specs.TrafficLines.{flood_frame};

use std::alloc::{AllocError, Global};
use std::marker::Model;
use step_kinds::limits::{MOST_TRAFFIC_BYTES, MOST_TRAFFIC_FRAMES};
use step_kinds::{Frame, Items, LaneName, Traffic};

/// The traffic that the lines so far give, in order, and its counters.
#[derive(Drop)]
pub struct TrafficList {
    items: Vec<Traffic>,
    frames: u64,
    bytes: u64,
    breaks: [u32; 16],
}

impl TrafficList {
    /// No traffic.
    pub fn new(alloc: Global) -> TrafficList
        ensures { result ≡ [] }
    {
        TrafficList {
            items: Vec::new(alloc),
            frames: 0,
            bytes: 0,
            breaks: [0; 16],
        }
    }

    /// Returns whether the traffic stays within the limits with this many more frames of this many bytes in all.
    pub fn has_room(&self, frames: u64, bytes: u64) -> bool
        ensures { result ≡ (nat_le (sum (map frames_in self.now) + frames) most_traffic_frames && nat_le (sum (map traffic_bytes_in self.now) + bytes) most_traffic_bytes) }
    {
        frames <= MOST_TRAFFIC_FRAMES as u64 - self.frames
            && bytes <= MOST_TRAFFIC_BYTES - self.bytes
    }

    /// Returns how many link losses of the pair there are. Its number has to be below 16.
    pub fn breaks_of(&self, pair: u32) -> u32
        requires { pair < 16 }
        ensures value { result ≡ count_by (is_break_of pair) self.now }
        ensures few { result ≤ most_breaks }
    {
        self.breaks[pair as usize]
    }

    /// Adds a frame, with which the traffic is within its limits of frames and bytes. Returns an error if memory runs
    /// out, and then nothing is added.
    pub fn push_frame(&mut self, lane: LaneName, frame: Frame) -> Result<(), AllocError>
        requires frames { sum (map frames_in self.old) + 1 ≤ most_traffic_frames }
        requires bytes { sum (map traffic_bytes_in self.old) + length frame ≤ most_traffic_bytes }
        ensures after { OnOk result (self.new ≡ self.old ++ Send lane frame ∷ []) }
        ensures err { OnErr result (self.new ≡ self.old) }
    {
        let len = frame.len() as u64;
        self.items.push(Traffic::Send { lane, frame })?;
        self.frames += 1;
        self.bytes += len;
        Ok(())
    }

    /// Adds a link loss of a pair, whose number is below 16, to fewer than 100. Returns an error if memory runs out,
    /// and then nothing is added.
    pub fn push_break(&mut self, pair: u32) -> Result<(), AllocError>
        requires pair { pair < 16 }
        requires few { count_by (is_break_of pair) self.old < most_breaks }
        ensures after { OnOk result (self.new ≡ self.old ++ Break pair ∷ []) }
        ensures err { OnErr result (self.new ≡ self.old) }
    {
        self.items.push(Traffic::Break { pair })?;
        self.breaks[pair as usize] += 1;
        Ok(())
    }

    /// Adds this many frames of this many bytes each, at most 65,536. With them the traffic is within its limits of
    /// frames and bytes. Returns an error if memory runs out, and then some of them may be added.
    pub fn push_flood(
        &mut self,
        alloc: Global,
        lane: LaneName,
        count: u32,
        len: u32,
    ) -> Result<(), AllocError>
        requires len { 0 < count → len ≤ most_frame_bytes }
        requires frames { sum (map frames_in self.old) + count ≤ most_traffic_frames }
        requires bytes { sum (map traffic_bytes_in self.old) + count * len ≤ most_traffic_bytes }
        ensures { OnOk result (self.new ≡ self.old ++ flood_of lane count len) }
    {
        for i in 0..count {
            let frame = flood_frame(alloc, len, i)?;
            self.push_frame(lane, frame)?;
        }
        Ok(())
    }

    /// Returns the traffic, in order.
    pub fn into_items(self) -> Items<Traffic>
        ensures { result ≡ self }
    {
        let TrafficList { items, .. } = self;
        Items::of_vec(items)
    }
}

impl Model for TrafficList {
    ghost use Rattle.std.specs.Prelude.{List};
    ghost use Rattle.step_kinds.specs.declared.plan.Traffic.{Traffic};
    ghost use Rattle.script_plan.specs.Counts.{TrafficCounted};

    ghost Value = { List Traffic };

    ghost view = { λ all. all.items.items };

    ghost invariant = { λ all. TrafficCounted all.items.items all.frames all.bytes all.breaks };
}

/// Frame `i` of a flood.
fn flood_frame(alloc: Global, len: u32, i: u32) -> Result<Frame, AllocError>
    requires len { len ≤ most_frame_bytes }
    requires i { i ≤ most_traffic_frames }
    ensures { IfOk result (λ frame. frame ≡ flood_frame len i) }
{
    let mut bytes = Vec::new(alloc);
    for j in 0..len {
        bytes.push(((i + j) % 256) as u8)?;
    }
    Ok(Frame::of_vec(bytes))
}
