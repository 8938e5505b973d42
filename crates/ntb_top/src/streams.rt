//! The program on the word `stream`.

ghost use Rattle.std.specs.Prelude.{◌≡◌, Some, true};
ghost use Rattle.io_edges.specs.Gates.{LetsWorkers};
ghost use Rattle.cluster_run.specs.stream.Workers.{most_stream_workers};
ghost use Rattle.command_reply.specs.Statuses.{number_of};
ghost use Rattle.command_reply.specs.declared.status.Status.TheVariants.{Done};
ghost use Rattle.traffic_command.specs.Replies.{streamed_by};
ghost use Rattle.ntb_top.specs.Answers.{IsStreamAnswerTo};
ghost use Rattle.ntb_top.specs.Ends.{HasEnded, beside_of, beside_stream, nothing_beside};
ghost use Rattle.ntb_top.specs.Inputs.{HasReplied, HasWritten};
ghost use Rattle.ntb_top.specs.declared.command.Command.TheVariants.{Threaded};
ghost use Rattle.ntb_top.specs.declared.command.ThreadedCommand.TheVariants.{Stream};

use crate::ended::Ended;
use crate::input::{Input, Stop, read_input};
use crate::plain::write_reply;
use cluster_run::StreamRecord;
use command_reply::{Reply, Status};
use io_edges::{Gate, Sink, Source};
use std::alloc::Global;
use std::sync::Wait;
use std::thread::Threads;
use traffic_command::{TrafficReply, stream_reply};

/// Runs the program on the word `stream`.
pub(crate) fn stream_traffic<R: Threads + Wait + Sync, S: Source, K: Sink, G: Gate>(
    rt: &R,
    alloc: Global,
    source: &mut S,
    sink: &mut K,
    gate: &G,
) -> Ended
    requires { LetsWorkers (G.lets gate.now) most_stream_workers }
    ensures { HasEnded (Some (Threaded Stream))
        (record {
          left = S.left source.old;
          read_faults = S.faults source.old;
          reads = S.reads source.old;
          held = K.held sink.old;
          write_faults = K.faults sink.old;
          writes = K.writes sink.old;
        })
        (record {
          left = S.left source.new;
          read_faults = S.faults source.new;
          reads = S.reads source.new;
          held = K.held sink.new;
          write_faults = K.faults sink.new;
          writes = K.writes sink.new;
        })
        result.status (beside_of result) }
{
    match streams_of_input(rt, alloc, source, gate) {
        Ok(streams) => streams_written(alloc, sink, streams),
        Err(Stop::SourceFailed) => Ended::alone(alloc, Status::SourceFailed.number()),
        Err(Stop::OutOfMemory) => Ended::alone(alloc, Status::OutOfMemory.number()),
    }
}

// The reply of `stream` to what the source has.
fn streams_of_input<R: Threads + Wait + Sync, S: Source, G: Gate>(
    rt: &R,
    alloc: Global,
    source: &mut S,
    gate: &G,
) -> Result<TrafficReply<StreamRecord>, Stop>
    requires { LetsWorkers (G.lets gate.now) most_stream_workers }
    ensures { HasReplied true (λ bytes streams. IsStreamAnswerTo bytes streams.reply (streamed_by streams))
        (record { left = S.left source.old; faults = S.faults source.old; reads = S.reads source.old })
        (record { left = S.left source.new; faults = S.faults source.new; reads = S.reads source.new }) result }
{
    match read_input(alloc, true, source)? {
        Input::Whole(bytes) => Ok(stream_reply(rt, alloc, &bytes, gate)?),
        Input::TooLong => Ok(TrafficReply {
            reply: Reply::too_long(),
            recorded: None,
            proofs: Vec::new(alloc),
        }),
    }
}

// Writes the reply of `stream`. The record and the proofs are answered where the text was written whole and tells of
// them.
fn streams_written<K: Sink>(
    alloc: Global,
    sink: &mut K,
    streams: TrafficReply<StreamRecord>,
) -> Ended
    ensures text { HasWritten (record { held = K.held sink.old; faults = K.faults sink.old; writes = K.writes sink.old })
        (record { held = K.held sink.new; faults = K.faults sink.new; writes = K.writes sink.new }) streams.reply result.status }
    ensures told { result.status ≡ number_of Done → beside_of result ≡ beside_stream (streamed_by streams) }
    ensures alone { (result.status ≡ number_of Done → ⊥) → beside_of result ≡ nothing_beside }
{
    let TrafficReply {
        reply,
        recorded,
        proofs,
    } = streams;
    let status = write_reply(sink, &reply);
    if status == Status::Done.number() {
        return Ended {
            status,
            runs: None,
            streams: recorded,
            proofs,
        };
    }
    Ended::alone(alloc, status)
}
