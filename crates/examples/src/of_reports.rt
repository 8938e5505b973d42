//! A row of reports.

ghost use Rattle.std.specs.Prelude.{◌≡◌, []};
ghost use Rattle.traffic_plan.specs.Load.{load_plan_of};

use report_text::report;
use std::alloc::{AllocError, Global};
use step_kinds::{Answer, LaneCount, LaneName, LineAnswer, Plan, Side};
use traffic_plan::load_without_steps;

// The report of one answer, and of one frame that was accepted and not delivered.
const REPORT: &[u8] = b"6 ok\nlane p A 0 1 accepted 1 delivered 0\nend\n";

/// Returns whether the report of one answer, of one lane and of no device has its three lines. They are the answer with
/// the number of its script line, the lane in session 1 with what it accepted and delivered, and `end`. Returns an
/// error if memory runs out.
pub fn report_has_its_lines(alloc: Global) -> Result<bool, AllocError> {
    let plan = load_without_steps(alloc)?;
    has_its_lines(alloc, &plan)
}

// Returns whether the report on the plan of a load, whose one pair is named `p`, has these lines.
fn has_its_lines(alloc: Global, plan: &Plan) -> Result<bool, AllocError>
    requires { plan.now ≡ load_plan_of [] }
{
    let lines = [LineAnswer {
        line: 6,
        answer: Answer::Ok,
    }];
    let lane = LaneCount {
        name: LaneName {
            pair: 0,
            from: Side::A,
            queue: 0,
        },
        session: 1,
        accepted: 1,
        delivered: 0,
    };
    let text = report(alloc, plan, &lines, &[lane], &[])?;
    Ok(text.as_slice() == REPORT)
}
