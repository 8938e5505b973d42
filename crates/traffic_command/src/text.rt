//! The text of a record of streams.

ghost use Rattle.std.specs.Prelude.{◌≡◌, ◌++◌, ◌<◌, IfOk, OnOk, All, length};
ghost use Rattle.std.specs.List.{flat_map};
ghost use Rattle.cluster_run.specs.stream.Streams.{stream_shown, streams_shown};
ghost use Rattle.traffic_command.specs.Text.{lane_lines, streams_text};

use cluster_run::{StreamRecord, StreamRun};
use report_text::append::push_word;
use report_text::push_stream;
use std::alloc::{AllocError, Global};
use step_kinds::{PairPlan, Plan};

/// Returns the text of a record of streams: for each lane a line with how many items it brought over how many sessions,
/// then the items, numbered from 0; and `end`. Returns an error if memory runs out.
///
/// Each lane names a pair of the plan.
pub(crate) fn streams_text(
    alloc: Global,
    plan: &Plan,
    streams: &StreamRecord,
) -> Result<Vec<u8>, AllocError>
    requires known_pairs { All (λ lane. lane.name.pair < length plan.now.pairs) streams.now.lanes }
    ensures { IfOk result (λ text. text.items ≡ streams_text plan.now (streams_shown streams.now)) }
{
    let mut text = Vec::new(alloc);
    push_streams(&mut text, plan.pairs.as_slice(), streams.lanes.as_slice())?;
    push_word(&mut text, "end\n")?;
    Ok(text)
}

// Adds the lines of all lanes.
fn push_streams(
    text: &mut Vec<u8>,
    pairs: &[PairPlan],
    lanes: &[StreamRun],
) -> Result<(), AllocError>
    requires { All (λ lane. lane.name.pair < length pairs.now) lanes.now }
    ensures { OnOk result (text.new.items ≡ text.old.items ++ flat_map (λ lane. lane_lines pairs.now (stream_shown lane)) lanes.now) }
{
    for lane in lanes {
        push_stream(text, pairs, &lane.name, &lane.items, lane.sessions)?;
    }
    Ok(())
}
