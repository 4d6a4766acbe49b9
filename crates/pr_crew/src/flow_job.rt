// A flow's job.
ghost use Rattle.pr_crew.specs.Acting.{acts, made_through};
ghost use Rattle.pr_crew.specs.Flowing.{FlowBegins, FlowEndsOver};
ghost use Rattle.pr_flow.specs.Calls.{IsKept};
ghost use Rattle.pr_flow.specs.Ending.{EndsByWire};
ghost use Rattle.pr_flow.specs.Flows.{Flows, Sides};
ghost use Rattle.pr_inval.specs.Standing.{means};
ghost use Rattle.pr_story.specs.History.{NodeEntry, Plan};
ghost use Rattle.pr_wires.specs.Calls.{IsUnused};
ghost use Rattle.std.specs.Prelude.{ℕ, List, IsTrue, Some};

use crate::Gate;
use crate::cell_side::CellSide;
use pr_flow::{FlowEnd, flow};
use pr_inval::{NodeFault, Session};
use pr_wires::Wire;
use std::alloc::Global;
use std::sync::Wait;

/// Makes the turns of a flow's line between the cells of the stream's nodes, over a wire. It calls the gate first. Each
/// call on a node takes one turn of its cell; memory is taken as by `pr_flow::flow`.
pub(crate) fn flow_job<R: Wait, G: Gate, W: Wire>(
    rt: &R,
    gate: &G,
    alloc: Global,
    line: u64,
    turns: u64,
    source: &mut CellSide<'_, R>,
    dest: &mut CellSide<'_, R>,
    session: &mut Session,
    wire: &mut W,
) -> Result<FlowEnd, NodeFault>
    requires attached { IsTrue (means session.old).attached }
    requires unused { IsUnused (W.state wire.old) }
    ensures flowed { Flows made_through acts made_through acts (means session.old).stream turns (record { source = source.old; destination = dest.old; session = means session.old }) (record { source = source.new; destination = dest.new; session = means session.new }) (W.state wire.old).given (W.state wire.new).given (W.state wire.old).taken (W.state wire.new).taken result }
    ensures done { (plan : Plan) (h : List NodeEntry) (s k : ℕ) → FlowBegins plan h s source.old dest.old session.old → FlowEndsOver W.state (Some wire.new) plan h s turns k source.old dest.old source.new dest.new session.new result }
    ensures session { IsKept (means session.old) (means session.new) }
    ensures wire { EndsByWire (W.state wire.old) (W.state wire.new) result }
{
    gate.reached(rt, line);
    flow(alloc, turns, source, dest, session, wire)
}
