//! What both ends of a stream do between two sessions.

ghost use Rattle.std.specs.Prelude.{◌≡◌, fold};
ghost use Rattle.stream_laws.specs.Laws.{FrontIsKept, LargestCounts, SessionsGrow, SessionsKeepFront};
ghost use Rattle.stream_model.specs.Receiver.{receiver_renewed};
ghost use Rattle.stream_model.specs.Sender.{ack_taken, sender_renewed};

use resume_stream::{AckAnswer, StreamReceiver, StreamSender};
use step_kinds::FrameList;
use stream_laws::laws::{front_is_kept, largest_counts, sessions_grow, sessions_keep_front};

/// Both ends of a stream.
#[derive(Drop)]
pub(crate) struct StreamEnds {
    pub(crate) sender: StreamSender,
    pub(crate) receiver: StreamReceiver,
}

// The sender takes all acknowledgements of a session, in order.
fn take_acks(sender: &mut StreamSender, mut acks: FrameList)
    ensures { sender.new ≡ fold ack_taken sender.old acks.frames }
{
    while let Some(frame) = acks.take_first() {
        match sender.take_ack(&frame) {
            AckAnswer::Newer | AckAnswer::Old | AckAnswer::Bad => {}
        }
    }
}

/// The ends in a new session, after the acknowledgements of the one before.
pub(crate) fn next_ends(
    mut sender: StreamSender,
    mut receiver: StreamReceiver,
    acks: FrameList,
) -> StreamEnds
    ensures sender { result.sender ≡ sender_renewed (fold ack_taken sender acks.frames) }
    ensures receiver { result.receiver ≡ receiver_renewed receiver }
{
    take_acks(&mut sender, acks);
    sender.new_session();
    receiver.new_session();
    StreamEnds { sender, receiver }
}

/// What holds of a stream's sessions and of its ends.
///
/// - With one more the sessions are sessions of the stream (`grow`).
/// - By their end a front of the stream's items is kept (`keep`).
/// - A receiver keeps a front of the items by the end of one session (`front`).
/// - The largest acknowledgement counts for a sender (`largest`).
pub(crate) fn laws_of_sessions()
    ensures grow { SessionsGrow }
    ensures keep { SessionsKeepFront }
    ensures front { FrontIsKept }
    ensures largest { LargestCounts }
{
    sessions_grow();
    sessions_keep_front();
    front_is_kept();
    largest_counts();
}
