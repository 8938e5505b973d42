//! Where the ring of a queue lies in its translation window: the queue's area, its entries, their headers and the
//! index word. They lie as the transport of the Linux NTB driver places them
//! (Linux `Documentation/driver-api/ntb.rst`, `ntb_transport`).
//!
//! The queues of a side take its windows in turn. Each window is cut into equal areas, one for each queue that lies
//! there. The last four bytes of an area are its index word, and what comes before is cut into entries of one size.
//! An entry holds a payload and ends with a header.
#![tactic(auto)]

ghost use Rattle.std.specs.Prelude.{IsOk, IfOk, ◌%◌, ◌*◌, ◌+◌, ◌-◌, ◌/◌, ◌<◌, ◌^◌, ◌↔◌, ◌≡◌, ◌≤◌};
ghost use Rattle.step_kinds.specs.Limits.{most_mtu, most_queues, most_size, most_windows};
ghost use Rattle.lane_model.specs.Ring.{free_entries};
ghost use Rattle.ring_geometry.specs.Geometry.{
  HasRing,
  IsPlaced,
  entries_of,
  frame_size,
  header_of,
  index_of,
  layout_with,
  longest_of,
  max_payload_of,
  slot_of,
  window_of,
};

use std::marker::Model;
use step_kinds::limits::MOST_FRAME_BYTES;
use thiserror::Error;

pub mod laws;

/// The numbers make no ring. One of these is so:
///
/// - There is no window.
/// - The queue is none of the side's.
/// - Its area has no room for the index word.
/// - An entry would have no room for its header and four bytes more.
#[derive(Clone, Copy, Debug, PartialEq, Eq, Error)]
#[error("no ring fits these numbers")]
pub struct BadGeometry;

/// The places of one queue's ring.
#[derive(Clone, Copy, Debug, PartialEq, Eq)]
pub struct Geometry {
    window: u64,
    windows: u32,
    queues: u32,
    queue: u32,
    area_bytes: u64,
    area_begin: u64,
    mtu: u32,
    header: u32,
    frame_bytes: u32,
    entries: u32,
}

impl Geometry {
    /// Places the ring of the queue `queue` of `queues`, counted from 0, on a side with `windows` translation
    /// windows: at most 16 queues and 4 windows.
    ///
    /// `window` is the size of the queue's window, at most 268,435,456, and `mtu` the largest entry, at most 65,536.
    /// `header` is the size of a header, at most 16 (12 on version 4 of the transport, 16 on version 5). Each is in
    /// bytes. An entry is `mtu` bytes long, or half of what the area has for entries where that is less.
    ///
    /// # Errors
    ///
    /// [`BadGeometry`] if and only if `windows` is 0, `queue` isn't below `queues`, the area hasn't four bytes for the
    /// index word, or an entry hasn't the header and four bytes more.
    pub fn new(
        window: u64,
        windows: u32,
        queues: u32,
        queue: u32,
        mtu: u32,
        header: u32,
    ) -> Result<Geometry, BadGeometry>
        requires window { window ≤ most_size }
        requires windows { windows ≤ most_windows }
        requires queues { queues ≤ most_queues }
        requires mtu { mtu ≤ most_mtu }
        requires header { header ≤ 16 }
        ensures made { IfOk result (λ g. g ≡ layout_with window windows queues queue mtu header) }
        ensures exact { IsOk result ↔ HasRing (layout_with window windows queues queue mtu header) }
    {
        if windows == 0 || queue >= queues {
            return Err(BadGeometry);
        }
        let extra = if queue % windows < queues % windows {
            1
        } else {
            0
        };
        let area_bytes = window / u64::from(queues / windows + extra);
        if area_bytes < 4 {
            return Err(BadGeometry);
        }
        let ring_bytes = (area_bytes - 4) as u32;
        let frame_bytes = mtu.min(ring_bytes / 2);
        if frame_bytes < header + 4 {
            return Err(BadGeometry);
        }
        Ok(Geometry {
            window,
            windows,
            queues,
            queue,
            mtu,
            header,
            area_bytes,
            area_begin: area_bytes * u64::from(queue / windows),
            frame_bytes,
            entries: ring_bytes / frame_bytes,
        })
    }

    /// Returns how many entries the ring has: 2 at least.
    pub fn entries(&self) -> u32
        ensures value { result ≡ entries_of self.now }
        ensures placed { IsPlaced self.now }
    {
        self.entries
    }

    /// Returns the bytes of an entry, its header with it.
    pub fn frame_size(&self) -> u32
        ensures { result ≡ frame_size self.now }
    {
        self.frame_bytes
    }

    /// Returns the most bytes of payload that an entry holds.
    pub fn max_payload(&self) -> u32
        ensures { result ≡ max_payload_of self.now }
    {
        self.frame_bytes - self.header
    }

    /// Returns the most bytes of a frame that may take several entries, as on version 5 of the transport. Such a frame
    /// fits into an empty ring, in which one entry stays free, and has 65,536 bytes at most. A frame of one entry has
    /// at most [`Geometry::max_payload`] bytes.
    pub fn longest(&self) -> u32
        ensures { result ≡ longest_of self.now }
    {
        (self.entries - 1)
            .saturating_mul(self.max_payload())
            .min(MOST_FRAME_BYTES)
    }

    /// Returns the number of the translation window that the ring lies in, from 0.
    pub fn window_of(&self) -> u32
        ensures { result ≡ window_of self.now }
    {
        self.queue % self.windows
    }

    /// Where the index word stands, in bytes from the beginning of the window. It is four bytes long.
    pub fn index_at(&self) -> u64
        ensures value { result ≡ index_of self.now }
        ensures within { result + 4 ≤ self.now.window }
        ensures placed { IsPlaced self.now }
    {
        self.area_begin + self.area_bytes - 4
    }

    /// Where the slot `i`, which has to be below the entries, begins, in bytes from the beginning of the window.
    pub fn slot_at(&self, i: u32) -> u64
        requires { i < entries_of self.now }
        ensures value { result ≡ slot_of self.now i }
        ensures within { result + frame_size self.now + 4 ≤ self.now.window }
        ensures placed { IsPlaced self.now }
    {
        self.area_begin + u64::from(i) * u64::from(self.frame_bytes)
    }

    /// Where the header of the slot `i`, which has to be below the entries, begins, in bytes from the beginning of the
    /// window.
    pub fn header_at(&self, i: u32) -> u64
        requires { i < entries_of self.now }
        ensures value { result ≡ header_of self.now i }
        ensures within { result + self.now.header + 4 ≤ self.now.window }
        ensures placed { IsPlaced self.now }
    {
        self.slot_at(i) + u64::from(self.frame_bytes) - u64::from(self.header)
    }

    /// Returns how many entries the sender may begin, by the next entry's slot `head` and the index word `tail`, both
    /// of which have to be below the entries. One entry always stays free.
    pub fn free(&self, head: u32, tail: u32) -> u32
        requires head { head < entries_of self.now }
        requires tail { tail < entries_of self.now }
        ensures { result ≡ free_entries (entries_of self.now) head tail }
    {
        if head <= tail {
            tail - head
        } else {
            self.entries + tail - head
        }
    }
}

impl Model for Geometry {
    ghost use Rattle.ring_geometry.specs.Geometry.{Layout};

    ghost Value = { Layout };

    ghost use Rattle.ring_geometry.specs.GeometryFields.{inside_of, inside_of-layout_of, geometry_layout_of, IsKept};

    ghost view = { geometry_layout_of };

    ghost invariant = { IsKept };

    ghost inverse = { inside_of };

    ghost inverse_ok = { inside_of-layout_of };
}

/// Returns the number that a header carries for the entry `n` of a lane in this session, counted from 0: its lowest 32
/// bits.
pub fn ver_of(n: u64) -> u32
    ensures { result ≡ n % 2 ^ 32 }
{
    (n & 0xffff_ffff) as u32
}
