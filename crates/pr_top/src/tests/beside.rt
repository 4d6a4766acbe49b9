// Worked scripts whose jobs run beside each other, over wires of each kind.
ghost use Rattle.std.specs.Prelude.{◌≡◌, ◌≤◌, length};

use super::worked_more::PHASE;
use super::{FIRST, FIRST_TEXT, SOUND, called};
use crate::practi;
use pr_crew::{FreeGate, Gate, MeetGate};
use pr_ports::{MemorySink, MemorySource};
use pr_wires::{Bend, BentWires, LoopWires, TapeWires, TrueWires, Wires};
use std::alloc::Global;
use std::sync::Wait;
use std::test::Fail;
use std::thread::Threads;

const LOOKS: u64 = 200_000_000;

const TWO_CLIENTS: &[u8] = b"node A *\nclient c A\nclient d A\nphase\nwrite c a \"1\"\nread c a\n\
    write d b \"2\"\nread d b\nend\n";

const FLOW: &[u8] = b"node A *\nnode B *\nclient c A\nstream s A B *\nattach s\n\
    write c a/x \"hi\"\nflow s 1\n";

const FLOW_IN_PHASE: &[u8] = b"node A *\nnode B *\nclient c A\nstream s A B *\nattach s\n\
    write c a/x \"hi\"\nphase\nflow s 1\nend\n";

// What `run` answers for a script, as an exit status, and the text that it wrote.
fn run<W: Wires, G: Gate>(
    rt: &(impl Threads + Wait + Sync),
    alloc: Global,
    script: &[u8],
    wires: &mut W,
    gate: &G,
) -> Result<(u8, Vec<u8>), Fail>
    requires { W.made wires.old ≡ 0 }
{
    let mut words = Vec::new(alloc);
    words.push(String::from_str(alloc, "run")?)?;
    let mut source = MemorySource::new(Vec::from_slice(alloc, script)?, 4096, Vec::new(alloc));
    let mut out = MemorySink::new(alloc, 65536, 65536, Vec::new(alloc))
        .ok()
        .ok_or("no memory")?;
    let status = practi(rt, alloc, &words, &mut source, &mut out, wires, gate);
    Ok((status.number(), Vec::from_slice(alloc, out.bytes())?))
}

// Whether the jobs at these lines met, and what was written is a transcript of a valid history, all of whose lines are
// judged.
fn meets(
    rt: &(impl Threads + Wait + Sync),
    alloc: Global,
    script: &[u8],
    lines: &[u64],
) -> Result<bool, Fail>
    requires { length lines.now ≤ 64 }
{
    let gate = MeetGate::new(Vec::from_slice(alloc, lines)?, LOOKS);
    let (status, text) = run(rt, alloc, script, &mut TrueWires::new(), &gate)?;
    let (judged, verdict) = called(rt, alloc, &["check"], &text, &SOUND)?;
    let is_transcript = status == 0 && judged == 0 && counts_lines(&verdict, &text);
    Ok(is_transcript && !gate.gave_up() && gate.lines_met() == lines.len())
}

// Whether the verdict is yes, with the number of lines that ends the text.
fn counts_lines(verdict: &[u8], text: &[u8]) -> bool {
    let (yes, lines) = verdict.split_at(verdict.len().min(4));
    let (front, last) = text.split_at(text.len().saturating_sub(lines.len()));
    yes == b"yes ".as_slice() && last == lines && front.ends_with(b"\nok ")
}

// The lines of the script `FLOW` before its flow, and the message that the flow sends.
const BEFORE: &[u8] = b"node A *\nnode B *\nclient c A\nstream s A B *\nattach s at -\n\
    write c a/x \"hi\" 1@A over - after -\n";

const FRAME: &[u8] = &[
    2, 0, 0, 0, 0, 0, 0, 0, 47, 1, 0, 0, 0, 0, 0, 0, 0, 2, 0, 0, 0, 0, 0, 0, 0, 0, 0, 0, 0, 1, 0,
    1, 0, 0, 0, 0, 0, 0, 0, 0, 1, 3, 97, 47, 120, 0, 0, 0, 0, 0, 0, 0, 1, 0, 0, 0,
];

// Whether a script that begins as `FLOW` does, over wires with this bend, ends with this status, and this text behind
// those lines.
fn bends(
    rt: &(impl Threads + Wait + Sync),
    alloc: Global,
    script: &[u8],
    bend: Bend,
    status: u8,
    behind: &[u8],
) -> Result<bool, Fail> {
    let mut bends = Vec::new(alloc);
    bends.push(bend)?;
    let mut wires = BentWires::new(bends);
    let (number, text) = run(rt, alloc, script, &mut wires, &FreeGate)?;
    Ok(number == status && is_told(&text, behind))
}

// Whether a text is those lines and what stands behind them.
fn is_told(text: &[u8], behind: &[u8]) -> bool {
    let (lines, rest) = text.split_at(BEFORE.len().min(text.len()));
    lines == BEFORE && rest == behind
}

// Whether the message of a script's one flow crossed the wire that it was handed.
fn tapes(rt: &(impl Threads + Wait + Sync), alloc: Global, script: &[u8]) -> Result<bool, Fail> {
    let mut wires = TapeWires::new(alloc, 1000).ok().ok_or("no memory")?;
    let (status, text) = run(rt, alloc, script, &mut wires, &FreeGate)?;
    let behind = b"send s 1 precise a/x 1@A over - from - to A:1\naccept s 1 at A:1\nok 8\n";
    Ok(status == 0 && is_told(&text, behind) && wires.carried() == Some(FRAME))
}

#[test]
fn jobs_meet_at_their_first_lines(rt: HostRuntime) -> Result<(), Fail> {
    assert!(rt; meets(&rt, rt.alloc(), PHASE, &[10, 12, 13, 14])?);
    Ok(())
}

#[test]
fn clients_at_one_node_meet_between_their_lines(rt: HostRuntime) -> Result<(), Fail> {
    assert!(rt; meets(&rt, rt.alloc(), TWO_CLIENTS, &[6, 8])?);
    Ok(())
}

#[test]
fn a_phase_over_tcp(rt: HostRuntime) -> Result<(), Fail> {
    let alloc = rt.alloc();
    let (status, text) = run(&rt, alloc, PHASE, &mut LoopWires::new(&rt), &FreeGate)?;
    let (judged, _) = called(&rt, alloc, &["check"], &text, &SOUND)?;
    assert!(rt; status == 0 && judged == 0);
    let (status, text) = run(&rt, alloc, FIRST, &mut LoopWires::new(&rt), &FreeGate)?;
    assert!(rt; status == 0 && text.as_slice() == FIRST_TEXT);
    Ok(())
}

#[test]
fn a_byte_that_is_changed_on_its_way(rt: HostRuntime) -> Result<(), Fail> {
    let bend = Bend::Flip { nth: 1, at: 54 };
    let behind = b"send s 1 precise a/x 1@A over - from - to A:1\nerror lied s 1 sent \
        02000000000000002f0100000000000000020000000000000000000000010001000000\
        00000000000103612f780000000000000001000000 got \
        02000000000000002f0100000000000000020000000000000000000000010001000000\
        00000000000103612f780000000000000001000100\n";
    assert!(rt; bends(&rt, rt.alloc(), FLOW, bend, 6, behind)?);
    Ok(())
}

#[test]
fn a_wire_that_ends(rt: HostRuntime) -> Result<(), Fail> {
    let script = b"node A *\nnode B *\nclient c A\nstream s A B *\nattach s\n\
        write c a/x \"hi\"\nflow s 1\nattach s\nflow s 1\n";
    let bend = Bend::End { nth: 1, after: 20 };
    let behind = b"send s 1 precise a/x 1@A over - from - to A:1\ndown s ended\nattach s at -\n\
        send s 2 precise a/x 1@A over - from - to A:1\naccept s 2 at A:1\nok 11\n";
    assert!(rt; bends(&rt, rt.alloc(), script, bend, 0, behind)?);
    Ok(())
}

#[test]
fn no_connection(rt: HostRuntime) -> Result<(), Fail> {
    let bend = Bend::NoConnect { nth: 1 };
    let behind = b"down s failed\nok 7\n";
    assert!(rt; bends(&rt, rt.alloc(), FLOW, bend, 0, behind)?);
    Ok(())
}

#[test]
fn a_call_of_a_wire_that_fails(rt: HostRuntime) -> Result<(), Fail> {
    let behind = b"send s 1 precise a/x 1@A over - from - to A:1\ndown s failed\nok 8\n";
    for call in [1, 2] {
        let bend = Bend::Fail { nth: 1, call };
        assert!(rt;
            bends(&rt, rt.alloc(), FLOW, bend, 0, behind)?,
            "call {call}"
        );
    }
    Ok(())
}

#[test]
fn a_byte_that_is_given_twice(rt: HostRuntime) -> Result<(), Fail> {
    let bend = Bend::Again { nth: 1, at: 0 };
    let behind = b"send s 1 precise a/x 1@A over - from - to A:1\nerror lied s 1 sent \
        02000000000000002f0100000000000000020000000000000000000000010001000000\
        00000000000103612f780000000000000001000000 got \
        0202000000000000002f01000000000000000200000000000000000000000100010000\
        0000000000000103612f7800000000000000010000\n";
    assert!(rt; bends(&rt, rt.alloc(), FLOW, bend, 6, behind)?);
    Ok(())
}

#[test]
fn a_tape_has_what_crossed(rt: HostRuntime) -> Result<(), Fail> {
    assert!(rt; tapes(&rt, rt.alloc(), FLOW)?);
    Ok(())
}

#[test]
fn a_tape_has_what_crossed_in_a_phase(rt: HostRuntime) -> Result<(), Fail> {
    assert!(rt; tapes(&rt, rt.alloc(), FLOW_IN_PHASE)?);
    Ok(())
}
