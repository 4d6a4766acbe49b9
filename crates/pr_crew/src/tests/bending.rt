// A flow's job between two cells, over wires of each kind.
ghost use Rattle.pr_cell.specs.Passes.{IsPassOf};
ghost use Rattle.pr_crew.specs.Acting.{IsNodeCell};
ghost use Rattle.pr_crew.specs.Stories.{stories};
ghost use Rattle.pr_inval.specs.Standing.{means};
ghost use Rattle.std.specs.Prelude.{◌≡◌, ◌≤◌, ◌<◌, ◌+◌, ◌^◌, IfOk, IsTrue, length};

use super::cells::new_cell;
use crate::cell_side::CellSide;
use crate::client_calls::write;
use crate::running::drive;
use crate::work::FlowWork;
use crate::{FreeGate, PhaseNode};
use pr_cell::{Cell, Pass};
use pr_flow::FlowEnd;
use pr_inval::{NodeFault, Session};
use pr_names::{Interval, Name};
use pr_script::{Bytes, Decls, read};
use pr_sets::NameSet;
use pr_stamps::{NoMemory, Seq};
use pr_story::Journal;
use pr_text::line;
use pr_vectors::Vector;
use pr_wires::{Bend, BentWires, TapeWires, TrueWires, Wires};
use std::alloc::Global;
use std::sync::Wait;
use std::test::Fail;

const DECLS: &[u8] = b"node A *\nnode B *\nclient c A\nstream s A B *\n";

const WORK: FlowWork = FlowWork {
    stream: 0,
    source: 0,
    destination: 1,
    line: 7,
    turns: 1,
};

// The message of the first turn.
const FRAME: [u8; 56] = [
    2, 0, 0, 0, 0, 0, 0, 0, 47, 1, 0, 0, 0, 0, 0, 0, 0, 2, 0, 0, 0, 0, 0, 0, 0, 0, 0, 0, 0, 1, 0,
    1, 0, 0, 0, 0, 0, 0, 0, 0, 1, 3, 97, 47, 120, 0, 0, 0, 0, 0, 0, 0, 1, 0, 0, 0,
];

// What flows left: the lines of the source's entries and then of the destination's, and the bytes that were put and
// those that came, where these were others.
#[derive(Drop)]
struct Left {
    text: Bytes,
    lied: Option<(Bytes, Bytes)>,
}

// A client writes at the node.
fn with_write<R: Wait>(
    rt: &R,
    cell: &Cell<PhaseNode>,
    pass: Pass<PhaseNode>,
) -> Result<Pass<PhaseNode>, Fail>
    requires pass { IsPassOf stories cell.now pass }
    requires room { pass.turns < 2 ^ 40 }
    ensures { IfOk result (λ p. IsPassOf stories cell.now p × (p.issued ≡ pass.issued) × (p.number ≡ pass.number) × (p.turns ≡ pass.turns + 1)) }
{
    let name = Name::read(b"a/x").ok().ok_or("a name")?;
    let (pass, seen) = write(rt, cell, pass, 0, &name, b"hi", &Vector::zero());
    match seen {
        Ok(_) => Ok(pass),
        Err(_) => Err("no memory")?,
    }
}

// Attaches the stream, and makes a turn of it over a connection, if there is one.
fn flow_once<R: Wait, W: Wires>(
    rt: &R,
    alloc: Global,
    source: &mut CellSide<'_, R>,
    destination: &mut CellSide<'_, R>,
    session: &mut Session,
    wires: &mut W,
) -> Result<FlowEnd, NodeFault>
    requires { W.made wires.old < 2 ^ 40 }
    ensures { W.made wires.new ≡ W.made wires.old + 1 }
{
    session.begin(&Vector::zero());
    let mut wire = wires.connect(0, 1).ok();
    let end = drive(
        rt,
        &FreeGate,
        alloc,
        &WORK,
        source,
        destination,
        session,
        &mut wire,
    );
    if let Some(wire) = wire {
        wires.close(wire);
    }
    end
}

// Adds the lines of the entries.
fn tell(
    alloc: Global,
    decls: &Decls,
    node: u32,
    journal: &Journal,
    text: &mut Bytes,
) -> Result<(), NoMemory> {
    let mut made = Seq::new(alloc);
    for place in 0..journal.len() {
        line(decls, node, &journal.entry(place).event, &mut made)?;
        text.extend(made.as_slice())?;
    }
    Ok(())
}

// Adds the lines of the node's entries.
fn tell_node<R: Wait>(
    rt: &R,
    alloc: Global,
    decls: &Decls,
    node: u32,
    cell: &Cell<PhaseNode>,
    pass: Pass<PhaseNode>,
    text: &mut Bytes,
) -> Result<(), NoMemory>
    requires pass { IsPassOf stories cell.now pass }
    requires room { pass.turns < 2 ^ 40 }
{
    let mut turn = cell.take(rt, pass);
    let told = tell(alloc, decls, node, turn.value().node.journal(), text);
    let _ = cell.put(turn);
    told
}

fn new_session(alloc: Global) -> Result<Session, Fail> {
    let part = Interval::read(b"*").ok().ok_or("an interval")?;
    let names = NameSet::of(alloc, part).ok().ok_or("no memory")?;
    Ok(Session::new(alloc, 0, names, false))
}

// Makes a turn of the stream, and where it is to be made again one more, over a connection of its own. Answers how the
// last one ended.
fn flows<R: Wait, W: Wires>(
    rt: &R,
    alloc: Global,
    from: (&Cell<PhaseNode>, Pass<PhaseNode>),
    to: (&Cell<PhaseNode>, Pass<PhaseNode>),
    wires: &mut W,
    again: bool,
) -> Result<FlowEnd, Fail>
    requires from { IsPassOf stories from.0.now from.1 × IsNodeCell from.0.now }
    requires to { IsPassOf stories to.0.now to.1 × IsNodeCell to.0.now }
    requires few { W.made wires.old + 1 < 2 ^ 40 }
{
    let mut source = CellSide::new(rt, from.0, from.1);
    let mut destination = CellSide::new(rt, to.0, to.1);
    let mut session = new_session(alloc)?;
    let mut end = flow_once(
        rt,
        alloc,
        &mut source,
        &mut destination,
        &mut session,
        wires,
    );
    if again {
        end = flow_once(
            rt,
            alloc,
            &mut source,
            &mut destination,
            &mut session,
            wires,
        );
    }
    match end {
        Ok(end) => Ok(end),
        Err(_) => Err("no memory")?,
    }
}

// The bytes that were put, and those that came, where these were others.
fn lied_of(end: FlowEnd) -> Option<(Bytes, Bytes)> {
    match end {
        FlowEnd::Lied { sent, got, .. } => Some((sent, got)),
        _ => None,
    }
}

// What a client's write at the source and one turn of the stream, or two, leave.
fn flowed<R: Wait, W: Wires>(
    rt: &R,
    alloc: Global,
    wires: &mut W,
    again: bool,
) -> Result<Left, Fail>
    requires { W.made wires.old + 1 < 2 ^ 40 }
{
    let (a, mut own) = new_cell(alloc, 0)?;
    let (b, mut other) = new_cell(alloc, 1)?;
    let from = a.split(&mut own);
    let to = b.split(&mut other);
    let own = with_write(rt, &a, own)?;
    let end = flows(rt, alloc, (&a, from), (&b, to), wires, again)?;
    let script = read(alloc, DECLS).ok().ok_or("declarations")?;
    let mut text = Seq::new(alloc);
    tell_node(rt, alloc, &script.decls, 0, &a, own, &mut text)?;
    tell_node(rt, alloc, &script.decls, 1, &b, other, &mut text)?;
    let lied = lied_of(end);
    Ok(Left { text, lied })
}

// The same over wires with this bend.
fn bent<R: Wait>(rt: &R, alloc: Global, bend: Bend, again: bool) -> Result<Left, Fail> {
    let mut plan = Vec::new(alloc);
    plan.push(bend)?;
    flowed(rt, alloc, &mut BentWires::new(plan), again)
}

#[test]
fn a_sound_wire(rt: HostRuntime) -> Result<(), Fail> {
    let left = flowed(&rt, rt.alloc(), &mut TrueWires::new(), false)?;
    let text = b"write c a/x \"hi\" 1@A over - after -\n\
        send s 1 precise a/x 1@A over - from - to A:1\naccept s 1 at A:1\n";
    assert_eq!(rt; left.text.as_slice(), text.as_slice());
    assert!(rt; left.lied.is_none());
    Ok(())
}

#[test]
fn a_tape_has_what_crossed(rt: HostRuntime) -> Result<(), Fail> {
    let alloc = rt.alloc();
    let mut wires = TapeWires::new(alloc, 1000).ok().ok_or("no memory")?;
    let left = flowed(&rt, alloc, &mut wires, false)?;
    assert!(rt; left.text.as_slice().ends_with(b"\naccept s 1 at A:1\n"));
    assert_eq!(rt; wires.carried(), Some(FRAME.as_slice()));
    Ok(())
}

#[test]
fn other_bytes_are_told_and_not_applied(rt: HostRuntime) -> Result<(), Fail> {
    let alloc = rt.alloc();
    let text = b"write c a/x \"hi\" 1@A over - after -\n\
        send s 1 precise a/x 1@A over - from - to A:1\n";
    let mut changed = FRAME;
    changed[54] = 1;
    let mut twice = FRAME;
    twice[1..].copy_from_slice(&FRAME[..55]);
    let table = [
        (Bend::Flip { nth: 1, at: 54 }, changed),
        (Bend::Again { nth: 1, at: 0 }, twice),
    ];
    for (bend, bytes) in table {
        let left = bent(&rt, alloc, bend, false)?;
        assert_eq!(rt; left.text.as_slice(), text.as_slice());
        let (sent, got) = left.lied.ok_or("no lie was told")?;
        assert_eq!(rt; sent.as_slice(), FRAME.as_slice());
        assert_eq!(rt; got.as_slice(), bytes.as_slice());
    }
    Ok(())
}

#[test]
fn a_wire_that_fails_or_ends_goes_down(rt: HostRuntime) -> Result<(), Fail> {
    let table: [(Bend, bool, &[u8]); 4] = [
        (
            Bend::NoConnect { nth: 1 },
            false,
            b"write c a/x \"hi\" 1@A over - after -\ndown s failed\n",
        ),
        (
            Bend::Fail { nth: 1, call: 1 },
            false,
            b"write c a/x \"hi\" 1@A over - after -\n\
                send s 1 precise a/x 1@A over - from - to A:1\ndown s failed\n",
        ),
        (
            Bend::Fail { nth: 1, call: 2 },
            false,
            b"write c a/x \"hi\" 1@A over - after -\n\
                send s 1 precise a/x 1@A over - from - to A:1\ndown s failed\n",
        ),
        (
            Bend::End { nth: 1, after: 20 },
            true,
            b"write c a/x \"hi\" 1@A over - after -\n\
                send s 1 precise a/x 1@A over - from - to A:1\n\
                send s 2 precise a/x 1@A over - from - to A:1\n\
                down s ended\naccept s 2 at A:1\n",
        ),
    ];
    for (bend, again, text) in table {
        let left = bent(&rt, rt.alloc(), bend, again)?;
        assert_eq!(rt; left.text.as_slice(), text);
        assert!(rt; left.lied.is_none());
    }
    Ok(())
}
