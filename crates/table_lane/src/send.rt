//! The sender's end.
ghost use Rattle.std.specs.Prelude.{◌≡◌, ◌≢◌, ◌<◌, ◌≤◌, [], length};
ghost use Rattle.step_kinds.specs.Limits.{most_frame_bytes, most_traffic_entries};
ghost use Rattle.table_lane.specs.LaneNames.{free_entries};
ghost use Rattle.table_lane.specs.ShownLane.{most_lane_frames};
ghost use Rattle.table_lane.specs.SendAnswers.{TableSends};

use crate::board::{CUT, Standing, position_after};
use crate::steps::{load_index, load_link, post_frame};
use std::marker::Model;
use step_kinds::Frame;

/// The end that sends frames. It never waits and takes no memory.
///
/// A contract sees its table, and what it knows: the frames that were sent, and its loads.
#[derive(Drop)]
pub struct SendEnd {
    pub(crate) at: Standing,
    pub(crate) sent: u64,
    /// The position of the next entry.
    pub(crate) head: u64,
}

/// What came of an attempt to send a frame.
#[derive(Debug, Drop)]
pub enum SendAnswer {
    /// The frame was sent, as the entry with this number, counted from 0.
    Sent { number: u64 },
    /// The index word that this call loaded showed no free entry. Here are the frame, the position of the next entry,
    /// and the index word.
    NoRoom { frame: Frame, head: u32, tail: u32 },
    /// The link word that this call loaded showed that the link is cut. Here is the frame.
    Cut { frame: Frame },
}

// A frame is no longer than a frame may be. It does nothing: its clause is the law.
#[inline(always)]
fn frame_is_short(frame: &Frame)
    ensures { length frame.now ≤ most_frame_bytes }
{
    let _len = frame.len();
}

// Returns the free entries, as head and index word show them.
fn free_entries(entries: u64, head: u64, tail: u64) -> u64
    requires { (head < entries) × (tail < entries) × (entries ≤ most_traffic_entries) }
    ensures { result ≡ free_entries entries head tail }
{
    if head <= tail {
        tail - head
    } else {
        entries + tail - head
    }
}

impl SendEnd {
    /// Sends a frame of at least one byte, unless the link is cut or the ring has no free entry: then the same frame
    /// comes back. Fewer than 2^62 frames may have been sent. Each call loads the link word once, and the index word
    /// once where the link isn't cut; which answer comes is decided by these loads.
    pub fn send(&mut self, frame: Frame) -> SendAnswer
        requires byte { frame ≢ [] }
        requires counted { length self.old.part.sent < most_lane_frames }
        ensures lane { self.new.lane ≡ self.old.lane }
        ensures sends { TableSends self.old.part frame result self.new.part }
    {
        let board = &self.at.table.shared;
        let entries = self.at.entries;
        if load_link(board, &mut self.at.seat, entries) == CUT {
            return SendAnswer::Cut { frame };
        }
        let head = self.head;
        let tail = load_index(board, &mut self.at.seat, entries);
        if free_entries(entries, head, tail) == 0 {
            return SendAnswer::NoRoom {
                frame,
                head: head as u32,
                tail: tail as u32,
            };
        }
        let number = self.sent;
        frame_is_short(&frame);
        self.sent = number + 1;
        self.head = position_after(entries, head, 1);
        post_frame(board, &mut self.at.seat, entries, number, head, frame);
        SendAnswer::Sent { number }
    }
}

impl Model for SendEnd {
    ghost use Rattle.table_lane.specs.Ends.{TableSender};

    ghost Value = { TableSender };

    ghost use Rattle.table_lane.specs.EndFields.{table_sender_of, IsSendEnd};

    ghost view = { table_sender_of };

    ghost invariant = { IsSendEnd };
}
