// Worked scripts: of each line of the transcript the plain program gives what it shows. The lines are constants, since
// the proof of a function that makes many values takes minutes.
ghost use Rattle.std.specs.Prelude.{◌≤◌};

use crate::tests::line::{Line, Says, Shape};
use crate::tests::replay::{Replay, Stream};
use crate::tests::shown::are_shown;
use std::alloc::Global;

const A: u32 = 0;

const B: u32 = 1;

const C: u32 = 2;

const ZERO: [u64; 3] = [0, 0, 0];

const A1: [u64; 3] = [1, 0, 0];

const A2: [u64; 3] = [2, 0, 0];

const A3: [u64; 3] = [3, 0, 0];

// The nodes' sets, a stream from A to B and one from B to C.
fn begun<'a>(
    alloc: Global,
    texts: [&'a [u8]; 3],
    names: &[u8],
    bodies: bool,
) -> Option<Replay<'a>> {
    let first = Stream::new(alloc, 0, (A, B), names, bodies)?;
    let second = Stream::new(alloc, 1, (B, C), b"*", false)?;
    Some(Replay::new(alloc, texts, first, second))
}

// Whether the lines are shown from the start on.
fn is_shown(
    alloc: Global,
    texts: [&[u8]; 3],
    names: &[u8],
    bodies: bool,
    lines: &[Line],
) -> Option<bool> {
    are_shown(alloc, &mut begun(alloc, texts, names, bodies)?, lines)
}

const OTHER: Shape<'static> = Shape::Imprecise(b"b/y", ZERO, A1);

const OWN: Shape<'static> = Shape::Precise(b"a/x", (2, A), None, A1, A2);

const FILTERING: [Line<'static>; 11] = [
    Line::Attach(0, ZERO),
    Line::Write(0, b"b/y", b"no", (1, A), None, ZERO),
    Line::Write(0, b"a/x", b"yes", (2, A), None, A1),
    Line::Send(0, 1, OTHER),
    Line::Accept(0, 1, OTHER, A1),
    Line::Send(0, 2, OWN),
    Line::Accept(0, 2, OWN, A2),
    Line::Read(1, B, b"b/y", Says::Imprecise((1, A)), A2),
    Line::Read(1, B, b"a/x", Says::Body((2, A)), A2),
    Line::Read(1, B, b"a/z", Says::Never, A2),
    Line::State(B, A2, ZERO, ZERO, &[A2, ZERO]),
];

#[test]
fn filtering(rt: HostRuntime) {
    let shown = is_shown(rt.alloc(), [b"", b"a/*", b""], b"a/*", false, &FILTERING);
    assert!(rt; shown.unwrap_or(false));
}

const COARSE: [Line<'static>; 2] = [
    Line::Attach(0, ZERO),
    Line::Write(0, b"a/p", b"", (1, A), None, ZERO),
];

const FIRST_SENT: Shape<'static> = Shape::Precise(b"a/p", (1, A), None, ZERO, A1);

// A coarse target: writes to a/p, to b/00 and so on, and to a/q, of which the ones between are omitted.
fn is_coarse(alloc: Global, count: u64, target: &[u8]) -> Option<bool> {
    let mut replay = begun(alloc, [b"", b"a/*", b""], b"a/*", false)?;
    are_omitted(alloc, &mut replay, count.min(99), target)
}

fn are_omitted(alloc: Global, replay: &mut Replay, count: u64, target: &[u8]) -> Option<bool>
    requires { count ≤ 99 }
{
    let mut all = are_shown(alloc, replay, &COARSE)?;
    for i in 0..count {
        all = is_next_written(alloc, replay, i)? && all;
    }
    Some(all && are_turns(alloc, replay, count + 1, target)?)
}

// The write to the name of b/ that has this number.
fn is_next_written(alloc: Global, replay: &mut Replay, i: u64) -> Option<bool> {
    let i = i.min(99);
    let o = [b'b', b'/', b'0' + (i / 10) as u8, b'0' + (i % 10) as u8];
    let line = Line::Write(0, &o, b"", (i + 2, A), None, [i + 1, 0, 0]);
    are_shown(alloc, replay, &[line])
}

// The last write, and what is sent then, where the one before it has this clock.
fn are_turns(alloc: Global, replay: &mut Replay, before: u64, target: &[u8]) -> Option<bool> {
    let (last, end) = (before.checked_add(1)?, [before, 0, 0]);
    let write = Line::Write(0, b"a/q", b"", (last, A), None, end);
    let first = Line::Send(0, 1, FIRST_SENT);
    let gap = Line::Send(0, 2, Shape::Imprecise(target, A1, end));
    Some(are_shown(alloc, replay, &[write, first, gap])? && is_last_sent(alloc, replay, end, last)?)
}

fn is_last_sent(alloc: Global, replay: &mut Replay, end: [u64; 3], last: u64) -> Option<bool> {
    let shape = Shape::Precise(b"a/q", (last, A), None, end, [last, 0, 0]);
    are_shown(alloc, replay, &[Line::Send(0, 3, shape), Line::Idle(0)])
}

const SIXTEEN: &[u8] =
    b"b/00,b/01,b/02,b/03,b/04,b/05,b/06,b/07,b/08,b/09,b/10,b/11,b/12,b/13,b/14,b/15";

#[test]
fn a_coarse_target(rt: HostRuntime) {
    assert!(rt; is_coarse(rt.alloc(), 17, b"-:a/,a0:~").unwrap_or(false));
    assert!(rt; is_coarse(rt.alloc(), 16, SIXTEEN).unwrap_or(false));
}

const BOTH: [u64; 3] = [1, 1, 0];

const ONE: Shape<'static> = Shape::Precise(b"a/x", (1, A), None, ZERO, A1);

const ONE_BODY: Shape<'static> = Shape::Body(b"a/x", (1, A), b"one");

const EQUAL: [Line<'static>; 12] = [
    Line::Attach(0, ZERO),
    Line::Write(0, b"a/x", b"one", (1, A), None, ZERO),
    Line::Write(1, b"a/x", b"two", (1, B), None, ZERO),
    Line::Send(0, 1, ONE),
    Line::Accept(0, 1, ONE, BOTH),
    Line::Send(0, 2, ONE_BODY),
    Line::Accept(0, 2, ONE_BODY, BOTH),
    Line::Idle(0),
    Line::Read(1, B, b"a/x", Says::Value((1, B), b"two"), BOTH),
    Line::Conflicts(B, b"a/x", &[((1, A), (1, B))]),
    Line::Read(0, A, b"a/x", Says::Value((1, A), b"one"), A1),
    Line::Conflicts(A, b"a/x", &[]),
];

#[test]
fn equal_clocks(rt: HostRuntime) {
    let shown = is_shown(rt.alloc(), [b"*", b"*", b""], b"*", true, &EQUAL);
    assert!(rt; shown.unwrap_or(false));
}

const B1: [u64; 3] = [0, 1, 0];

const B2: [u64; 3] = [0, 2, 0];

const LATE: [u64; 3] = [1, 2, 0];

const B_ONE: Shape<'static> = Shape::Precise(b"a/y", (1, B), None, ZERO, B1);

const B_TWO: Shape<'static> = Shape::Precise(b"a/y", (2, B), Some((1, B)), B1, B2);

const FROM_B: Shape<'static> = Shape::Precise(b"a/x", (1, A), None, B2, LATE);

const SMALLER: [Line<'static>; 17] = [
    Line::Attach(0, ZERO),
    Line::Attach(1, ZERO),
    Line::Write(0, b"a/x", b"late", (1, A), None, ZERO),
    Line::Write(1, b"a/y", b"one", (1, B), None, ZERO),
    Line::Write(1, b"a/y", b"two", (2, B), Some((1, B)), B1),
    Line::Send(1, 1, B_ONE),
    Line::Accept(1, 1, B_ONE, B1),
    Line::Send(1, 2, B_TWO),
    Line::Accept(1, 2, B_TWO, B2),
    Line::Idle(1),
    Line::Send(0, 1, ONE),
    Line::Accept(0, 1, ONE, LATE),
    Line::Idle(0),
    Line::Send(1, 3, FROM_B),
    Line::Accept(1, 3, FROM_B, LATE),
    Line::Idle(1),
    Line::Read(2, C, b"a/x", Says::Body((1, A)), LATE),
];

#[test]
fn a_smaller_stamp_comes_late(rt: HostRuntime) {
    let shown = is_shown(rt.alloc(), [b"", b"*", b"*"], b"*", false, &SMALLER);
    assert!(rt; shown.unwrap_or(false));
}

// The writes before the cut; the third one is a delete or not.
const WRITES: [Line<'static>; 2] = [
    Line::Write(0, b"a/x", b"1", (1, A), None, ZERO),
    Line::Write(0, b"a/x", b"2", (2, A), Some((1, A)), A1),
];

const DELETE: [Line<'static>; 1] = [Line::Delete(0, b"b/y", (3, A), None, A2)];

const WRITE: [Line<'static>; 1] = [Line::Write(0, b"b/y", b"3", (3, A), None, A2)];

const CUT: [Line<'static>; 3] = [Line::Cut(A, A3), Line::Attach(0, ZERO), Line::Stale(0, A3)];

// The checkpoint to B, and what B answers. Then B is a source: what it knows by the checkpoint alone is dark.
const CHECKPOINT: Shape<'static> = Shape::Checkpoint(
    b"~",
    A3,
    A3,
    &[(b"a/x", (2, A), false), (b"b/y", (3, A), false)],
);

const CHECKPOINT_GONE: Shape<'static> = Shape::Checkpoint(
    b"~",
    A3,
    A3,
    &[(b"a/x", (2, A), false), (b"b/y", (3, A), true)],
);

const TWO_BODY: Shape<'static> = Shape::Body(b"a/x", (2, A), b"2");

const DARK: Shape<'static> = Shape::Imprecise(b"*", ZERO, A3);

const CAUGHT_UP: [Line<'static>; 8] = [
    Line::Read(1, B, b"a/x", Says::Body((2, A)), A3),
    Line::Send(0, 2, TWO_BODY),
    Line::Accept(0, 2, TWO_BODY, A3),
    Line::Read(1, B, b"a/x", Says::Value((2, A), b"2"), A3),
    Line::Attach(1, ZERO),
    Line::Send(1, 1, DARK),
    Line::Accept(1, 1, DARK, A3),
    Line::Read(2, C, b"a/x", Says::Imprecise((1, A)), A3),
];

const PASSED_ON: [Line<'static>; 1] = [Line::Read(2, C, b"a/x", Says::Body((2, A)), A3)];

// The message is sent on the stream, and taken.
fn is_carried(
    alloc: Global,
    replay: &mut Replay,
    stream: u32,
    number: u64,
    shape: Shape,
) -> Option<bool> {
    let sent = Line::Send(stream, number, shape);
    let taken = Line::Accept(stream, number, shape, A3);
    are_shown(alloc, replay, &[sent, taken])
}

// A cut after this write, and then this checkpoint.
fn is_cut(alloc: Global, third: &[Line], checkpoint: Shape) -> Option<bool> {
    let mut replay = begun(alloc, [b"*", b"*", b"*"], b"*", true)?;
    is_cut_in(alloc, &mut replay, third, checkpoint)
}

fn is_cut_in(
    alloc: Global,
    replay: &mut Replay,
    third: &[Line],
    checkpoint: Shape,
) -> Option<bool> {
    Some(is_written(alloc, replay, third)? && is_caught_up(alloc, replay, checkpoint)?)
}

fn is_written(alloc: Global, replay: &mut Replay, third: &[Line]) -> Option<bool> {
    Some(
        are_shown(alloc, replay, &WRITES)?
            && are_shown(alloc, replay, third)?
            && are_shown(alloc, replay, &CUT)?,
    )
}

fn is_caught_up(alloc: Global, replay: &mut Replay, checkpoint: Shape) -> Option<bool> {
    Some(
        is_carried(alloc, replay, 0, 1, checkpoint)?
            && are_shown(alloc, replay, &CAUGHT_UP)?
            && is_carried(alloc, replay, 1, 2, checkpoint)?
            && are_shown(alloc, replay, &PASSED_ON)?,
    )
}

#[test]
fn cut_and_checkpoint(rt: HostRuntime) {
    assert!(rt; is_cut(rt.alloc(), &WRITE, CHECKPOINT).unwrap_or(false));
    assert!(rt; is_cut(rt.alloc(), &DELETE, CHECKPOINT_GONE).unwrap_or(false));
}

const OLD: Shape<'static> = Shape::Body(b"a/x", (1, A), b"old");

const NEW: Shape<'static> = Shape::Body(b"a/x", (2, A), b"new");

const TWO: Shape<'static> = Shape::Precise(b"a/x", (2, A), Some((1, A)), A1, A2);

// The first write's body comes before its invalidation, and again after the second write's invalidation. The second
// one's body is dropped, and sent again once the stream is attached anew.
const BODIES: [Line<'static>; 23] = [
    Line::Attach(0, ZERO),
    Line::Write(0, b"a/x", b"old", (1, A), None, ZERO),
    Line::Send(0, 1, ONE),
    Line::Send(0, 2, OLD),
    Line::Accept(0, 2, OLD, ZERO),
    Line::Read(1, B, b"a/x", Says::Never, ZERO),
    Line::Accept(0, 1, ONE, A1),
    Line::Read(1, B, b"a/x", Says::Value((1, A), b"old"), A1),
    Line::Write(0, b"a/x", b"new", (2, A), Some((1, A)), A1),
    Line::Send(0, 3, TWO),
    Line::Accept(0, 3, TWO, A2),
    Line::Accept(0, 2, OLD, A2),
    Line::Read(1, B, b"a/x", Says::Body((2, A)), A2),
    Line::Send(0, 4, NEW),
    Line::Accept(0, 4, NEW, A2),
    Line::Read(1, B, b"a/x", Says::Value((2, A), b"new"), A2),
    Line::Drop(B, b"a/x"),
    Line::Read(1, B, b"a/x", Says::Body((2, A)), A2),
    Line::Idle(0),
    Line::Attach(0, A2),
    Line::Send(0, 5, NEW),
    Line::Accept(0, 5, NEW, A2),
    Line::Read(1, B, b"a/x", Says::Value((2, A), b"new"), A2),
];

#[test]
fn bodies_early_late_and_dropped(rt: HostRuntime) {
    let shown = is_shown(rt.alloc(), [b"*", b"*", b""], b"*", true, &BODIES);
    assert!(rt; shown.unwrap_or(false));
}

const GONE: Shape<'static> = Shape::Gone(b"a/x", (2, A), Some((1, A)), A1, A2);

const DELETES: [Line<'static>; 11] = [
    Line::Attach(0, ZERO),
    Line::Write(0, b"a/x", b"hi", (1, A), None, ZERO),
    Line::Delete(0, b"a/x", (2, A), Some((1, A)), A1),
    Line::Read(0, A, b"a/x", Says::Gone((2, A)), A2),
    Line::Send(0, 1, ONE),
    Line::Accept(0, 1, ONE, A1),
    Line::Send(0, 2, GONE),
    Line::Accept(0, 2, GONE, A2),
    Line::Idle(0),
    Line::Read(1, B, b"a/x", Says::Gone((2, A)), A2),
    Line::Delete(0, b"a/z", (3, A), None, A2),
];

#[test]
fn deletes(rt: HostRuntime) {
    let shown = is_shown(rt.alloc(), [b"*", b"*", b""], b"*", true, &DELETES);
    assert!(rt; shown.unwrap_or(false));
}

const MOVES: [Line<'static>; 11] = [
    Line::Write(0, b"a/x", b"1", (1, A), None, ZERO),
    Line::Move(0, B),
    Line::Behind(0, B, A1, ZERO),
    Line::Behind(0, B, A1, ZERO),
    Line::Attach(0, ZERO),
    Line::Send(0, 1, ONE),
    Line::Accept(0, 1, ONE, A1),
    Line::Read(0, B, b"a/x", Says::Body((1, A)), A1),
    Line::Write(0, b"a/y", b"2", (2, B), None, A1),
    Line::Move(0, A),
    Line::Behind(0, A, [1, 2, 0], A1),
];

#[test]
fn a_client_that_moves(rt: HostRuntime) {
    let shown = is_shown(rt.alloc(), [b"*", b"*", b""], b"*", false, &MOVES);
    assert!(rt; shown.unwrap_or(false));
}
