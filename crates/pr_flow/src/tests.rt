mod pieces;

ghost use Rattle.pr_flow.specs.Calls.{HasStepped, IsSendable, entry_of};
ghost use Rattle.pr_inval.specs.Standing.{means};
ghost use Rattle.pr_story.specs.declared.event.Event.TheVariants as events;
ghost use Rattle.pr_inval.specs.Messages.{IsMessage};
ghost use Rattle.std.specs.Prelude.{◌≡◌, ◌<◌, ◌≤◌, [], false, true, IfOk, IfSome, IsTrue, None, length};

use crate::{FlowEnd, Side, flow};
use pr_inval::{Kind, Msg, NodeFault, Session, Step, Taken};
use pr_names::Interval;
use pr_ports::Failed;
use pr_sets::NameSet;
use pr_stamps::{MAX, NoMemory};
use pr_story::{Cause, Entry, Event, Journal};
use pr_vectors::{PackedVector, Vector};
use pr_wire::{Feed, Next};
use pr_wires::{TapeWires, TrueWire, TrueWires, Wire, Wires};
use std::alloc::Global;
use std::test::Fail;

// A precise invalidation of a/x, of time 2, stream 0 and number 1.
const FRAME: [u8; 56] = [
    2, 0, 0, 0, 0, 0, 0, 0, 47, 1, 0, 0, 0, 0, 0, 0, 0, 2, 0, 0, 0, 0, 0, 0, 0, 0, 0, 0, 0, 1, 0,
    1, 0, 0, 0, 0, 0, 0, 0, 0, 1, 3, 97, 47, 120, 0, 0, 0, 0, 0, 0, 0, 1, 0, 0, 0,
];

// ---- two small sides

// A side that sends the message of the frame in its first turn, and has nothing to send after it. It accepts what it is
// given, or finds a gap.
#[derive(Drop)]
struct Small {
    alloc: Global,
    journal: Journal,
    has_sent: bool,
    has_gap: bool,
}

fn make_side(alloc: Global, has_gap: bool) -> Small {
    Small {
        alloc,
        journal: Journal::new(alloc),
        has_sent: false,
        has_gap,
    }
}

// The message of a frame.
fn message(alloc: Global, frame: &[u8]) -> Result<Msg, NoMemory>
    ensures { IfOk result IsMessage }
{
    let mut feed = Feed::new(alloc, u64::MAX);
    feed.push(frame)?;
    match feed.next()? {
        Next::Message(msg) => Ok(msg),
        _ => Err(NoMemory),
    }
}

fn next_time(session: &Session) -> Result<u64, NodeFault>
    ensures later { IfOk result (λ time. (means session.now).standing.time < time) }
    ensures most { IfOk result (λ time. time ≤ 4611686018427387903) }
{
    let time = session.time();
    if time == MAX {
        return Err(NodeFault::Worn { at: MAX });
    }
    Ok(time + 1)
}

// Notes a precise invalidation of the session's stream that is sent; whether it is one.
fn is_noted(session: &mut Session, msg: &Msg, time: u64) -> bool
    requires attached { IsTrue (means session.old).attached }
    requires later { (means session.old).standing.time < time }
    requires most { time ≤ 4611686018427387903 }
    requires message { IsMessage msg.now }
    ensures noted { result ≡ true → IsSendable (means session.old).stream msg.now × HasStepped (means session.old) (means session.new) (entry_of time 0 (events.Sent msg.now)) }
    ensures other { result ≡ false → session.new ≡ session.old }
{
    if msg.stream != session.stream() {
        return false;
    }
    match &msg.kind {
        Kind::Precise { to, .. } => {
            session.sent(to, time);
            true
        }
        _ => false,
    }
}

impl Side for Small {
    ghost made = { λ side. side.journal.items };

    ghost act = { λ before call at after. Unit {0} };

    fn turn(&mut self, session: &mut Session) -> Result<Step, NodeFault> {
        let time = next_time(session)?;
        self.journal.reserve()?;
        if !self.has_sent {
            self.has_sent = true;
            let msg = message(self.alloc, &FRAME)?;
            let copy = msg.copy(self.alloc)?;
            if !is_noted(session, &msg, time) {
                return Err(NodeFault::NoMemory);
            }
            self.journal.push(Entry {
                time,
                caller: 0,
                event: Event::Sent { msg: copy },
            });
            return Ok(Step::Sent(msg));
        }
        session.heard(time);
        self.journal.push(Entry {
            time,
            caller: 0,
            event: Event::Idle {
                stream: session.stream(),
            },
        });
        Ok(Step::Idle)
    }

    fn accept(&mut self, msg: Msg) -> Result<Taken, NodeFault> {
        self.journal.reserve()?;
        let time = msg.time;
        let has = PackedVector::zero();
        if self.has_gap {
            self.journal.push(Entry {
                time,
                caller: 0,
                event: Event::Gapped { msg, has },
            });
            return Ok(Taken::Gap {
                needs: PackedVector::zero(),
                has: PackedVector::zero(),
                time,
            });
        }
        self.journal.push(Entry {
            time,
            caller: 0,
            event: Event::Accepted { msg, at: has },
        });
        Ok(Taken::Accepted { time })
    }

    fn down(&mut self, session: &mut Session, cause: Cause) -> Result<(), NodeFault> {
        let time = next_time(session)?;
        self.journal.reserve()?;
        session.heard(time);
        self.journal.push(Entry {
            time,
            caller: 0,
            event: Event::Down {
                stream: session.stream(),
                cause,
            },
        });
        Ok(())
    }
}

// ---- a wire of a few bytes a call

// A wire that moves at most so many bytes a call, and changes the lowest bit of the first byte of each take where it
// bends.
#[derive(Drop)]
struct Slow {
    wire: TrueWire,
    most: usize,
    bends: bool,
}

impl Wire for Slow {
    ghost state = { λ w. record { faults = 0; ends = 0; under = length w.wire; given = None; taken = None; held = None; sound = false } };

    fn put(&mut self, piece: &[u8]) -> Result<usize, Failed> {
        let len = piece.len().min(self.most.max(1));
        self.wire.put(&piece[..len])
    }

    fn take(&mut self, buf: &mut [u8]) -> Result<usize, Failed> {
        let len = buf.len().min(self.most.max(1));
        let count = self.wire.take(&mut buf[..len])?;
        if self.bends {
            if let Some(byte) = buf.get_mut(0) {
                *byte ^= 1;
            }
        }
        Ok(count)
    }
}

// ---- flows

fn attached(alloc: Global) -> Result<Session, Fail>
    ensures { IfOk result (λ s. (means s).attached ≡ true) }
{
    let part = Interval::read(b"a/*").ok().ok_or("an interval")?;
    let sub = NameSet::of(alloc, part).ok().ok_or("no memory")?;
    let mut session = Session::new(alloc, 0, sub, false);
    session.begin(&Vector::zero());
    Ok(session)
}

// The place of an event among the kinds that a flow makes.
fn letter(event: &Event) -> u8 {
    match event {
        Event::Sent { .. } => b's',
        Event::Idle { .. } => b'i',
        Event::Accepted { .. } => b'a',
        Event::Gapped { .. } => b'g',
        Event::Down { .. } => b'd',
        _ => b'?',
    }
}

// Whether this is the kind that stands at this place.
fn is_kind(letters: &[u8], place: usize, event: &Event) -> bool {
    match letters.get(place) {
        Some(wanted) => letter(event) == *wanted,
        None => false,
    }
}

// Whether these are the kinds of the side's events.
fn has_made(side: &Small, letters: &[u8]) -> bool {
    let journal = &side.journal;
    let mut same = journal.len() == letters.len();
    for place in 0..journal.len() {
        if !is_kind(letters, place, &journal.entry(place).event) {
            same = false;
        }
    }
    same
}

// How a flow over the wire ends, with what its sides made.
#[derive(Drop)]
struct Ran {
    end: Result<FlowEnd, NodeFault>,
    source: Small,
    dest: Small,
}

// Makes so many turns over the wire.
fn run_turns<W: Wire>(alloc: Global, turns: u64, has_gap: bool, wire: &mut W) -> Result<Ran, Fail>
    requires { (W.state wire.old).under ≡ 0 }
{
    let mut session = attached(alloc)?;
    let mut source = make_side(alloc, false);
    let mut dest = make_side(alloc, has_gap);
    let end = flow(alloc, turns, &mut source, &mut dest, &mut session, wire);
    Ok(Ran { end, source, dest })
}

#[test]
fn a_turn_over_a_tape_is_done(rt: HostRuntime) -> Result<(), Fail> {
    let mut wires = TapeWires::new(rt.alloc(), 1000).ok().ok_or("no memory")?;
    let mut wire = wires.connect(0, 1).ok().ok_or("a wire")?;
    assert!(rt; wires.connect(0, 1).is_err());
    let ran = run_turns(rt.alloc(), 1, false, &mut wire)?;
    assert!(rt; matches!(ran.end, Ok(FlowEnd::Done)));
    assert_eq!(rt; wire.taken(), FRAME.as_slice());
    assert!(rt; has_made(&ran.source, b"s"));
    assert!(rt; has_made(&ran.dest, b"a"));
    Ok(())
}

#[test]
fn a_wire_that_never_fails_takes_all_turns(rt: HostRuntime) -> Result<(), Fail> {
    let mut wires = TrueWires::new();
    let mut wire = wires.connect(0, 1).ok().ok_or("a wire")?;
    let ran = run_turns(rt.alloc(), 3, false, &mut wire)?;
    assert!(rt; matches!(ran.end, Ok(FlowEnd::Done)));
    assert!(rt; has_made(&ran.source, b"sii"));
    assert!(rt; has_made(&ran.dest, b"a"));
    Ok(())
}

#[test]
fn a_flow_goes_down_behind_a_gap(rt: HostRuntime) -> Result<(), Fail> {
    let mut wires = TapeWires::new(rt.alloc(), 1000).ok().ok_or("no memory")?;
    let mut wire = wires.connect(0, 1).ok().ok_or("a wire")?;
    let ran = run_turns(rt.alloc(), 3, true, &mut wire)?;
    assert!(rt; matches!(ran.end, Ok(FlowEnd::Down(Cause::Gap))));
    assert_eq!(rt; wire.taken(), FRAME.as_slice());
    assert!(rt; has_made(&ran.source, b"s"));
    assert!(rt; has_made(&ran.dest, b"gd"));
    Ok(())
}

#[test]
fn a_flow_goes_down_with_its_wire(rt: HostRuntime) -> Result<(), Fail> {
    let mut wires = TapeWires::new(rt.alloc(), 10).ok().ok_or("no memory")?;
    let mut wire = wires.connect(0, 1).ok().ok_or("a wire")?;
    let ran = run_turns(rt.alloc(), 3, false, &mut wire)?;
    assert!(rt; matches!(ran.end, Ok(FlowEnd::Down(Cause::Failed))));
    assert!(rt; wire.taken().is_empty());
    assert!(rt; has_made(&ran.source, b"s"));
    assert!(rt; has_made(&ran.dest, b"d"));
    Ok(())
}

// A wire that moves at most so many bytes a call.
fn slow_wire(most: usize, bends: bool) -> Option<Slow>
    ensures { IfSome result (λ w. w.wire ≡ []) }
{
    let mut wires = TrueWires::new();
    let wire = wires.connect(0, 1).ok()?;
    Some(Slow { wire, most, bends })
}

#[test]
fn messages_go_over_slow_wires(rt: HostRuntime) -> Result<(), Fail> {
    for most in [1, 3, 55, 56, 57] {
        let mut wire = slow_wire(most, false).ok_or("a wire")?;
        let ran = run_turns(rt.alloc(), 2, false, &mut wire)?;
        assert!(rt; matches!(ran.end, Ok(FlowEnd::Done)), "{most} a call");
        assert!(rt; has_made(&ran.source, b"si"));
        assert!(rt; has_made(&ran.dest, b"a"));
    }
    Ok(())
}

// Whether the wire lied of message 1, of which these are the bytes taken.
fn is_lie(end: &Result<FlowEnd, NodeFault>, taken: &[u8]) -> bool {
    match end {
        Ok(FlowEnd::Lied { number, sent, got }) => {
            *number == 1 && sent.as_slice() == FRAME.as_slice() && got.as_slice() == taken
        }
        _ => false,
    }
}

#[test]
fn other_bytes_are_not_applied(rt: HostRuntime) -> Result<(), Fail> {
    let mut changed = FRAME;
    changed[0] = 3;
    for most in [1, 20, 56, 1000] {
        let mut wire = slow_wire(most, true).ok_or("a wire")?;
        let ran = run_turns(rt.alloc(), 2, false, &mut wire)?;
        assert!(rt; is_lie(&ran.end, &changed[..most.min(56)]), "{most} a call");
        assert!(rt; has_made(&ran.source, b"s"));
        assert!(rt; has_made(&ran.dest, b""));
    }
    Ok(())
}
