use crate::met;
use crate::plain::{Asked, Job, Line, lines_of};
use pr_names::Name;
use pr_script::{Want, read};
use pr_stamps::{NoMemory, Seq, Stamp};
use pr_story::{Event, Reply};
use pr_vectors::{PackedVector, Vector};
use std::alloc::Global;

// A line, a job or what is asked for: which it is, and two of its numbers.
type Shown = (u8, u64, u64);

const WRITE: u8 = 1;

const DELETE: u8 = 2;

const READ: u8 = 3;

const MOVE: u8 = 4;

const ATTACH: u8 = 5;

const SEND: u8 = 6;

const CHECKPOINT: u8 = 7;

const DELIVER: u8 = 8;

const CUT: u8 = 9;

const DROP: u8 = 10;

const CONFLICTS: u8 = 11;

const STATE: u8 = 12;

const EXPECT: u8 = 13;

const DETACH: u8 = 14;

const FLOW: u8 = 15;

const SETTLE: u8 = 16;

const PHASE: u8 = 17;

const CLIENT: u8 = 18;

fn asked(asked: &Asked) -> Shown {
    match asked {
        Asked::Write(client, _, body, gone) => {
            let kind = if *gone { DELETE } else { WRITE };
            (kind, *client as u64, body.len() as u64)
        }
        Asked::Read(client, name) => (READ, *client as u64, name.bytes().len() as u64),
        Asked::Move(client, node) => (MOVE, *client as u64, *node as u64),
        Asked::Attach(stream) => (ATTACH, *stream as u64, 0),
        Asked::Send(stream) => (SEND, *stream as u64, 0),
        Asked::Checkpoint(stream) => (CHECKPOINT, *stream as u64, 0),
        Asked::Deliver(stream, number) => (DELIVER, *stream as u64, *number),
        Asked::Cut(node) => (CUT, *node as u64, 0),
        Asked::Drop(node, name) => (DROP, *node as u64, name.bytes().len() as u64),
        Asked::Conflicts(node, name) => (CONFLICTS, *node as u64, name.bytes().len() as u64),
        Asked::State(node) => (STATE, *node as u64, 0),
    }
}

fn add_job(job: &Job, out: &mut Seq<Shown>) -> Result<(), NoMemory> {
    match job {
        Job::Flow(stream, turns) => out.push((FLOW, *stream as u64, *turns)),
        Job::Client(all) => {
            out.push((CLIENT, all.len() as u64, 0))?;
            for one in all.as_slice() {
                out.push(asked(one))?;
            }
            Ok(())
        }
    }
}

fn add_phase(jobs: &[Job], out: &mut Seq<Shown>) -> Result<(), NoMemory> {
    out.push((PHASE, jobs.len() as u64, 0))?;
    for job in jobs {
        add_job(job, out)?;
    }
    Ok(())
}

fn add_line(line: &Line, out: &mut Seq<Shown>) -> Result<(), NoMemory> {
    match line {
        Line::Single(one) => out.push(asked(one)),
        Line::Expect => out.push((EXPECT, 0, 0)),
        Line::Detach(stream) => out.push((DETACH, *stream as u64, 0)),
        Line::Flow(stream, turns) => out.push((FLOW, *stream as u64, *turns)),
        Line::Settle => out.push((SETTLE, 0, 0)),
        Line::Phase(jobs) => add_phase(jobs.as_slice(), out),
    }
}

// What the lines of the script are, in their order, behind the declarations.
fn shown(alloc: Global, commands: &[u8]) -> Result<Seq<Shown>, NoMemory> {
    let mut text = Seq::copied(alloc, HEADS)?;
    text.extend(commands)?;
    let mut out = Seq::new(alloc);
    if let Ok(script) = read(alloc, text.as_slice()) {
        let lines = lines_of(alloc, script.commands.as_slice())?;
        for line in lines.as_slice() {
            add_line(line, &mut out)?;
        }
    }
    Ok(out)
}

const HEADS: &[u8] =
    b"node A *\nnode B *\nclient c A\nclient d B\nstream s A B * bodies\nstream t B A *\n";

// Whether the commands are these lines.
fn are(alloc: Global, commands: &[u8], lines: &[Shown]) -> bool {
    match shown(alloc, commands) {
        Ok(found) => found.as_slice() == lines,
        Err(_) => false,
    }
}

const ALONE: &[u8] = b"attach s\nattach t\nsend s\ndeliver s 7\ncheckpoint t\nflow s 9\n\
write d a/x \"hi\"\nread d a/x\nexpect value \"hi\"\ndelete c a/x\nmove c B\ncut B\nstate A\n\
drop B a/xy\nconflicts A a\n# no line\nsettle\ndetach t\n";

const LINES: [Shown; 17] = [
    (ATTACH, 0, 0),
    (ATTACH, 1, 0),
    (SEND, 0, 0),
    (DELIVER, 0, 7),
    (CHECKPOINT, 1, 0),
    (FLOW, 0, 9),
    (WRITE, 1, 2),
    (READ, 1, 3),
    (EXPECT, 0, 0),
    (DELETE, 0, 0),
    (MOVE, 0, 1),
    (CUT, 1, 0),
    (STATE, 0, 0),
    (DROP, 1, 4),
    (CONFLICTS, 0, 1),
    (SETTLE, 0, 0),
    (DETACH, 1, 0),
];

#[test]
fn commands_are_lines(rt: HostRuntime) {
    assert!(rt; are(rt.alloc(), ALONE, &LINES));
}

const PHASES: &[u8] = b"attach s\nattach t\nphase\nread d a\nflow t 2\nwrite c a \"one\"\n\
read d b\nflow s 3\ndelete c a\nend\nread c a\nphase\nend\n";

const JOBS: [Shown; 13] = [
    (ATTACH, 0, 0),
    (ATTACH, 1, 0),
    (PHASE, 4, 0),
    (CLIENT, 2, 0),
    (READ, 1, 1),
    (READ, 1, 1),
    (FLOW, 1, 2),
    (CLIENT, 2, 0),
    (WRITE, 0, 3),
    (DELETE, 0, 0),
    (FLOW, 0, 3),
    (READ, 0, 1),
    (PHASE, 0, 0),
];

#[test]
fn jobs_stand_by_their_first_lines(rt: HostRuntime) {
    assert!(rt; are(rt.alloc(), PHASES, &JOBS));
}

// What is expected, of which kind it is by its place in the language's list.
fn want(alloc: Global, kind: u8) -> Option<Want> {
    match kind {
        0 => Some(Want::Value(Seq::copied(alloc, b"hi").ok()?)),
        1 => Some(Want::Never),
        2 => Some(Want::Imprecise),
        3 => Some(Want::Body),
        4 => Some(Want::Gone),
        _ => Some(Want::Behind),
    }
}

fn reply(alloc: Global, kind: u8) -> Option<Reply> {
    let stamp = Stamp::new(3, 1)?;
    match kind {
        0 => Some(Reply::Value {
            stamp,
            bytes: Seq::copied(alloc, b"hi").ok()?,
        }),
        1 => Some(Reply::Never),
        2 => Some(Reply::Imprecise { untold: stamp }),
        3 => Some(Reply::Body { stamp }),
        _ => Some(Reply::Gone { stamp }),
    }
}

fn zero(alloc: Global) -> Option<PackedVector> {
    PackedVector::of(alloc, &Vector::zero()).ok()
}

fn event(alloc: Global, kind: u8) -> Option<Event> {
    if kind == 5 {
        return Some(Event::Behind {
            client: 0,
            needs: zero(alloc)?,
            has: zero(alloc)?,
        });
    }
    Some(Event::Answered {
        client: 0,
        name: Name::read(b"a").ok()?,
        reply: reply(alloc, kind)?,
        at: zero(alloc)?,
    })
}

fn is_met(alloc: Global, wanted: u8, given: u8) -> bool {
    match want(alloc, wanted) {
        Some(want) => is_met_by(alloc, &want, given),
        None => false,
    }
}

fn is_met_by(alloc: Global, want: &Want, given: u8) -> bool {
    match event(alloc, given) {
        Some(event) => met(want, &event),
        None => false,
    }
}

#[test]
fn each_kind_meets_its_own_expectation(rt: HostRuntime) {
    for wanted in 0..6 {
        for given in 0..6 {
            assert_eq!(rt; is_met(rt.alloc(), wanted, given), wanted == given);
        }
    }
}

// Whether the value that is read is the one that is wanted.
fn has_value(alloc: Global, text: &[u8]) -> Option<bool> {
    let want = Want::Value(Seq::copied(alloc, text).ok()?);
    Some(is_met_by(alloc, &want, 0))
}

fn are_met_by_bytes(alloc: Global) -> Option<bool> {
    Some(
        has_value(alloc, b"hi")?
            && !has_value(alloc, b"ho")?
            && !has_value(alloc, b"")?
            && !has_value(alloc, b"hi ")?,
    )
}

#[test]
fn a_value_is_met_by_its_bytes(rt: HostRuntime) {
    assert!(rt; are_met_by_bytes(rt.alloc()).unwrap_or(false));
}
