//! What a command answers that sends a script's traffic.

use command_reply::Reply;
use table_lane::LaneProof;

/// What a command answers that sends a script's traffic: the reply, beside a record of what became of the traffic.
#[derive(Drop)]
pub struct TrafficReply<R> {
    /// The exit status and the text.
    pub reply: Reply,
    /// The record whose text it is; none where the script has a fault or is too long.
    pub recorded: Option<R>,
    /// The proofs of the record's sessions, lane by lane: of `run` one of each, of `stream` two. None without a record.
    pub proofs: Vec<LaneProof>,
}
