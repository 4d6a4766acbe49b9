// Names, vectors, messages and events, from plain tables.

use crate::tests::line::{Line, Says, Shape};
use crate::{Event, Found, Reply};
use pr_inval::{Kind, Msg, Row, WriteRec};
use pr_names::Name;
use pr_sets::NameSet;
use pr_stamps::{Seq, Stamp};
use pr_vectors::{PackedVector, Vector};
use std::alloc::Global;

/// A stamp: its clock and its node.
pub type At = (u64, u32);

/// A vector: the clocks of A, B and C.
pub type Clocks = [u64; 3];

pub fn name(bytes: &[u8]) -> Option<Name> {
    Name::read(bytes).ok()
}

pub fn set(alloc: Global, text: &[u8]) -> Option<NameSet> {
    NameSet::read(alloc, text, 100).ok()
}

/// The sets of a node, of which it has one at most.
pub fn sets(alloc: Global, text: &[u8]) -> Option<Seq<NameSet>> {
    let mut sets = Seq::new(alloc);
    if !text.is_empty() {
        sets.push(set(alloc, text)?).ok()?;
    }
    Some(sets)
}

pub fn bytes(alloc: Global, bytes: &[u8]) -> Option<Seq<u8>> {
    Seq::copied(alloc, bytes).ok()
}

pub fn stamp(at: At) -> Option<Stamp> {
    Stamp::new(at.0, at.1)
}

pub fn write(o: &[u8], at: At, prev: Option<At>, gone: bool) -> Option<WriteRec> {
    let prev = match prev {
        Some(p) => Some(stamp(p)?),
        None => None,
    };
    Some(WriteRec {
        name: name(o)?,
        stamp: stamp(at)?,
        prev,
        gone,
    })
}

pub fn vector(clocks: &Clocks) -> Vector {
    let mut vector = Vector::zero();
    for n in 0..3 {
        if let Some(stamp) = Stamp::new(clocks[n as usize], n) {
            vector.raise(&stamp);
        }
    }
    vector
}

fn packed(alloc: Global, clocks: &Clocks) -> Option<PackedVector> {
    PackedVector::of(alloc, &vector(clocks)).ok()
}

fn rows(alloc: Global, table: &[(&[u8], At, bool)]) -> Option<Seq<Row>> {
    let mut rows = Seq::new(alloc);
    for (o, at, gone) in table {
        let row = Row {
            name: name(o)?,
            newest: stamp(*at)?,
            gone: *gone,
            marks: Seq::new(alloc),
        };
        rows.push(row).ok()?;
    }
    Some(rows)
}

fn precise(alloc: Global, write: WriteRec, from: &Clocks, to: &Clocks) -> Option<Kind> {
    Some(Kind::Precise {
        from: packed(alloc, from)?,
        to: packed(alloc, to)?,
        write,
    })
}

fn imprecise(alloc: Global, target: &[u8], from: &Clocks, to: &Clocks) -> Option<Kind> {
    Some(Kind::Imprecise {
        from: packed(alloc, from)?,
        to: packed(alloc, to)?,
        target: set(alloc, target)?,
    })
}

fn checkpoint(
    alloc: Global,
    target: &[u8],
    to: &Clocks,
    floor: &Clocks,
    table: &[(&[u8], At, bool)],
) -> Option<Kind> {
    Some(Kind::Checkpoint {
        to: packed(alloc, to)?,
        target: set(alloc, target)?,
        floor: packed(alloc, floor)?,
        rows: rows(alloc, table)?,
    })
}

fn body(alloc: Global, o: &[u8], at: At, text: &[u8]) -> Option<Kind> {
    Some(Kind::Body {
        name: name(o)?,
        stamp: stamp(at)?,
        bytes: bytes(alloc, text)?,
    })
}

pub fn kind(alloc: Global, shape: &Shape) -> Option<Kind> {
    match shape {
        Shape::Precise(o, at, prev, from, to) => {
            precise(alloc, write(o, *at, *prev, false)?, from, to)
        }
        Shape::Gone(o, at, prev, from, to) => {
            precise(alloc, write(o, *at, *prev, true)?, from, to)
        }
        Shape::Imprecise(target, from, to) => imprecise(alloc, target, from, to),
        Shape::Checkpoint(target, to, floor, table) => checkpoint(alloc, target, to, floor, table),
        Shape::Body(o, at, text) => body(alloc, o, *at, text),
    }
}

fn reply(alloc: Global, what: &Says) -> Option<Reply> {
    Some(match what {
        Says::Never => Reply::Never,
        Says::Value(at, text) => Reply::Value {
            stamp: stamp(*at)?,
            bytes: bytes(alloc, text)?,
        },
        Says::Imprecise(at) => Reply::Imprecise {
            untold: stamp(*at)?,
        },
        Says::Body(at) => Reply::Body { stamp: stamp(*at)? },
        Says::Gone(at) => Reply::Gone { stamp: stamp(*at)? },
    })
}

fn pairs(alloc: Global, table: &[(At, At)]) -> Option<Found> {
    let mut pairs = Seq::new(alloc);
    for (first, second) in table {
        let pair = (stamp(*first)?, stamp(*second)?);
        pairs.push(pair).ok()?;
    }
    Some(Found::Pairs(pairs))
}

fn vectors(alloc: Global, table: &[Clocks]) -> Option<Seq<Vector>> {
    let mut vectors = Seq::new(alloc);
    for clocks in table {
        vectors.push(vector(clocks)).ok()?;
    }
    Some(vectors)
}

fn wrote(
    alloc: Global,
    client: u32,
    write: WriteRec,
    text: &[u8],
    after: &Clocks,
) -> Option<Event> {
    Some(Event::Wrote {
        client,
        write,
        body: bytes(alloc, text)?,
        after: packed(alloc, after)?,
    })
}

fn msg(alloc: Global, stream: u32, number: u64, time: u64, shape: &Shape) -> Option<Msg> {
    let kind = kind(alloc, shape)?;
    Some(Msg {
        time,
        stream,
        number,
        kind,
    })
}

/// The event of the line; a message that it sends or takes has this time.
pub fn event(alloc: Global, line: &Line, time: u64) -> Option<Event> {
    match line {
        Line::Write(client, o, text, at, prev, after) => {
            wrote(alloc, *client, write(o, *at, *prev, false)?, text, after)
        }
        Line::Delete(client, o, at, prev, after) => {
            wrote(alloc, *client, write(o, *at, *prev, true)?, b"", after)
        }
        Line::Send(stream, number, shape) => Some(Event::Sent {
            msg: msg(alloc, *stream, *number, time, shape)?,
        }),
        Line::Accept(stream, number, shape, at) => Some(Event::Accepted {
            msg: msg(alloc, *stream, *number, time, shape)?,
            at: packed(alloc, at)?,
        }),
        _ => other_event(alloc, line),
    }
}

fn other_event(alloc: Global, line: &Line) -> Option<Event> {
    match line {
        Line::Attach(stream, at) => Some(Event::Attached {
            stream: *stream,
            at: packed(alloc, at)?,
        }),
        Line::Stale(stream, cut) => Some(Event::Stale {
            stream: *stream,
            cut: packed(alloc, cut)?,
        }),
        Line::Idle(stream) => Some(Event::Idle { stream: *stream }),
        Line::Behind(client, _, needs, has) => Some(Event::Behind {
            client: *client,
            needs: packed(alloc, needs)?,
            has: packed(alloc, has)?,
        }),
        Line::Move(client, _) => Some(Event::Moved { client: *client }),
        Line::Cut(_, at) => Some(Event::Cut {
            at: packed(alloc, at)?,
        }),
        Line::Drop(_, o) => Some(Event::Dropped { name: name(o)? }),
        _ => asked_event(alloc, line),
    }
}

fn answered(alloc: Global, client: u32, o: &[u8], what: &Says, at: &Clocks) -> Option<Event> {
    Some(Event::Answered {
        client,
        name: name(o)?,
        reply: reply(alloc, what)?,
        at: packed(alloc, at)?,
    })
}

fn conflicts(alloc: Global, o: &[u8], table: &[(At, At)]) -> Option<Event> {
    Some(Event::Conflicts {
        name: name(o)?,
        found: pairs(alloc, table)?,
    })
}

fn asked_event(alloc: Global, line: &Line) -> Option<Event> {
    match line {
        Line::Read(client, _, o, what, at) => answered(alloc, *client, o, what, at),
        Line::Conflicts(_, o, table) => conflicts(alloc, o, table),
        Line::State(_, at, cut, floor, precise) => Some(Event::State {
            at: packed(alloc, at)?,
            cut: packed(alloc, cut)?,
            floor: packed(alloc, floor)?,
            precise: vectors(alloc, precise)?,
        }),
        _ => None,
    }
}
