// The turns of a stream over a wire.
ghost use Rattle.pr_flow.specs.Calls.{IsKept};
ghost use Rattle.pr_flow.specs.Ending.{EndsByWire, TurnEnds};
ghost use Rattle.pr_flow.specs.Flows.{Flows, Sides, TurnFlows};
ghost use Rattle.pr_flow.specs.Taking.{GoesDown, Takes};
ghost use Rattle.pr_inval.specs.Standing.{means};
ghost use Rattle.pr_inval.specs.Messages.{IsMessage};
ghost use Rattle.std.specs.Prelude.{◌≡◌, ◌≤◌, ℕ, IsTrue};

use crate::carrying::{Carried, carry};
use crate::{FlowEnd, Side};
use pr_inval::{Msg, NodeFault, Session, Step, Taken};
use pr_story::Cause;
use pr_wires::Wire;
use std::alloc::Global;

/// Makes so many turns of the session's stream, fewer only where one is stale or the flow goes down. A turn at the
/// source that sends a message puts its encoding (docs/WIRE.md) into the wire, in pieces of 4,096 bytes or of what is
/// left, takes each again before the next, and gives the destination what is decoded of these bytes. Besides the calls
/// on the sides the time is linear in the encodings; memory is taken for one message at a time, for its frame where that
/// has 512 bytes or more, and for an encoding only where the wire gave other bytes. A fault that a side answers is
/// answered.
pub fn flow<A: Side, B: Side, W: Wire>(
    alloc: Global,
    turns: u64,
    source: &mut A,
    dest: &mut B,
    session: &mut Session,
    wire: &mut W,
) -> Result<FlowEnd, NodeFault>
    requires attached { IsTrue (means session.old).attached }
    requires under { (W.state wire.old).under ≡ 0 }
    ensures flowed { Flows A.made A.act B.made B.act (means session.old).stream turns (record { source = source.old; destination = dest.old; session = means session.old }) (record { source = source.new; destination = dest.new; session = means session.new }) (W.state wire.old).given (W.state wire.new).given (W.state wire.old).taken (W.state wire.new).taken result }
    ensures session { IsKept (means session.old) (means session.new) }
    ensures wire { EndsByWire (W.state wire.old) (W.state wire.new) result }
{
    let mut left = turns;
    while left > 0 {
        if let Some(end) = turn(alloc, source, dest, session, wire)? {
            return Ok(end);
        }
        left -= 1;
    }
    Ok(FlowEnd::Done)
}

// Makes one turn. It ends the flow, or None is answered and the flow goes on.
fn turn<A: Side, B: Side, W: Wire>(
    alloc: Global,
    source: &mut A,
    dest: &mut B,
    session: &mut Session,
    wire: &mut W,
) -> Result<Option<FlowEnd>, NodeFault>
    requires attached { IsTrue (means session.old).attached }
    requires under { (W.state wire.old).under ≡ 0 }
    ensures flowed { (turns : ℕ) → 1 ≤ turns → TurnFlows A.made A.act B.made B.act (means session.old).stream turns (record { source = source.old; destination = dest.old; session = means session.old }) (record { source = source.new; destination = dest.new; session = means session.new }) (W.state wire.old).given (W.state wire.new).given (W.state wire.old).taken (W.state wire.new).taken result }
    ensures wire { TurnEnds (W.state wire.old) (W.state wire.new) (means session.old) (means session.new) result }
{
    let msg = match source.turn(session)? {
        Step::Idle => return Ok(None),
        Step::Stale { .. } => return Ok(Some(FlowEnd::Stale)),
        Step::Sent(msg) => msg,
    };
    let number = msg.number;
    let carried = carry(alloc, &msg, wire);
    // By a call, so that its kinds are not told apart here.
    drop(msg);
    match carried? {
        Carried::Whole(msg) => take(msg, dest, session),
        Carried::Cut(cause) => down(cause, dest, session),
        Carried::Lied { sent, got } => Ok(Some(FlowEnd::Lied { number, sent, got })),
    }
}

// Gives the destination a message, of whose time the session hears.
fn take<B: Side>(
    msg: Msg,
    dest: &mut B,
    session: &mut Session,
) -> Result<Option<FlowEnd>, NodeFault>
    requires { IsMessage msg }
    ensures { Takes B.made B.act dest.old (means session.old) msg dest.new (means session.new) result }
{
    let taken = dest.accept(msg)?;
    match &taken {
        Taken::Accepted { time } => {
            session.heard(*time);
            drop(taken);
            Ok(None)
        }
        Taken::Gap { time, .. } => {
            session.heard(*time);
            drop(taken);
            down(Cause::Gap, dest, session)
        }
    }
}

// Tells the destination that the flow went down.
fn down<B: Side>(
    cause: Cause,
    dest: &mut B,
    session: &mut Session,
) -> Result<Option<FlowEnd>, NodeFault>
    ensures { GoesDown B.made B.act dest.old (means session.old) cause dest.new (means session.new) result }
{
    dest.down(session, cause)?;
    Ok(Some(FlowEnd::Down(cause)))
}
