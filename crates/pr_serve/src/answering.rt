// The answer to an ask.
ghost use Rattle.pr_inval.specs.Standing as Standing;
ghost use Rattle.pr_node.specs.Scanning.{IsScanOf};
ghost use Rattle.pr_node.specs.Stored.{means};
ghost use Rattle.pr_serve.specs.Answers.{IsAnswered, IsMade, IsTurned, IsTurnedOut};
ghost use Rattle.pr_serve.specs.Asks.{IsAsk};
ghost use Rattle.pr_serve.specs.Sinks.{sink};
ghost use Rattle.pr_story.specs.Lawful.{last_time};
ghost use Rattle.std.specs.Prelude.{◌≤◌, IsTrue, OnOk, ℕ};

use crate::ask::Ask;
use crate::pulling::CALLER;
use crate::serve_fault::ServeFault;
use crate::writing::{write_all, write_frame};
use pr_inval::{Msg, NodeFault, Session, Step};
use pr_node::{Node, Scan};
use pr_ports::Sink;
use std::alloc::Global;

// The byte that ends an answer.
const END: u8 = 0;

/// Answers an ask: the frames of its stream's turns from its start on, up to the first idle one or to so many turns, and
/// a byte that ends them. A stale turn is followed by a checkpoint. Besides the calls on the node it takes time linear in
/// the frames.
pub fn answer<K: Sink>(
    alloc: Global,
    node: &mut Node,
    ask: Ask,
    out: &mut K,
) -> Result<(), ServeFault>
    requires { IsAsk ask }
    ensures { IsAnswered ask (means node.old) (means node.new) (sink (K.text out.old) (K.faults out.old)) (sink (K.text out.new) (K.faults out.new)) result }
{
    let Ask {
        stream,
        start,
        sub,
        bodies,
        turns,
    } = ask;
    let mut session = Session::new(alloc, stream, sub, bodies);
    session.begin(&start);
    let mut scan = Scan::new(alloc);
    run(node, &mut session, &mut scan, turns, out)?;
    write_all(out, &[END])
}

// Makes so many turns, fewer only where one is idle.
fn run<K: Sink>(
    node: &mut Node,
    session: &mut Session,
    scan: &mut Scan,
    turns: u64,
    out: &mut K,
) -> Result<(), ServeFault>
    requires attached { IsTrue (Standing.means session.old).attached }
    requires timely { (Standing.means session.old).standing.time ≤ last_time (means node.old).journal }
    requires scan { IsScanOf scan.old (Standing.means session.old).standing (means node.old).journal }
    ensures { IsTurnedOut (means node.old) (means node.new) (Standing.means session.old) (sink (K.text out.old) (K.faults out.old)) (sink (K.text out.new) (K.faults out.new)) turns result }
{
    let mut left = turns;
    while left > 0 {
        match turn(node, session, scan, out)? {
            true => left -= 1,
            false => return Ok(()),
        }
    }
    Ok(())
}

// Makes a turn and writes what it sends; whether it sent something.
fn turn<K: Sink>(
    node: &mut Node,
    session: &mut Session,
    scan: &mut Scan,
    out: &mut K,
) -> Result<bool, ServeFault>
    requires attached { IsTrue (Standing.means session.old).attached }
    requires timely { (Standing.means session.old).standing.time ≤ last_time (means node.old).journal }
    requires scan { IsScanOf scan.old (Standing.means session.old).standing (means node.old).journal }
    ensures turned { (left : ℕ) → 1 ≤ left → IsTurned (means node.old) (means node.new) (Standing.means session.old) (Standing.means session.new) (sink (K.text out.old) (K.faults out.old)) (sink (K.text out.new) (K.faults out.new)) left result }
    ensures scan { OnOk result (IsScanOf scan.new (Standing.means session.new).standing (means node.new).journal) }
{
    let Some(msg) = next_message(node, session, scan)? else {
        return Ok(false);
    };
    write_frame(&msg, out)?;
    Ok(true)
}

// The message of a turn, or of the checkpoint that a stale one wants; None where there is nothing to send.
fn next_message(
    node: &mut Node,
    session: &mut Session,
    scan: &mut Scan,
) -> Result<Option<Msg>, NodeFault>
    requires attached { IsTrue (Standing.means session.old).attached }
    requires timely { (Standing.means session.old).standing.time ≤ last_time (means node.old).journal }
    requires scan { IsScanOf scan.old (Standing.means session.old).standing (means node.old).journal }
    ensures made { (left : ℕ) → 1 ≤ left → IsMade (means node.old) (means node.new) (Standing.means session.old) (Standing.means session.new) left result }
    ensures scan { OnOk result (IsScanOf scan.new (Standing.means session.new).standing (means node.new).journal) }
{
    match node.turn_from(CALLER, session, scan)? {
        Step::Idle => Ok(None),
        Step::Sent(msg) => Ok(Some(msg)),
        Step::Stale { cut } => {
            drop(cut);
            let msg = node.checkpoint(CALLER, session)?;
            Ok(Some(msg))
        }
    }
}
