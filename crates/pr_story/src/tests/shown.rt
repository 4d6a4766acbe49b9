// Whether the plain program gives what a line shows, of the entries before it.

use crate::plain;
use crate::plain::Next;
use crate::tests::build::{At, Clocks, kind, name, vector};
use crate::tests::compare::{is_found, is_idle, is_kind, is_over, is_said, is_stale, sends};
use crate::tests::line::{Line, Says, Shape};
use crate::tests::replay::Replay;
use pr_inval::Kind;
use pr_sets::NameSet;
use pr_vectors::Vector;
use std::alloc::Global;

/// Whether all of the lines are shown, each taken before the next.
pub fn are_shown(alloc: Global, replay: &mut Replay, lines: &[Line]) -> Option<bool> {
    for line in lines {
        if !is_shown(alloc, replay, line)? {
            return Some(false);
        }
        replay.take(alloc, line)?;
    }
    Some(true)
}

// Whether the line is what the plain program gives.
fn is_shown(alloc: Global, replay: &Replay, line: &Line) -> Option<bool> {
    match line {
        Line::Write(client, o, _, at, prev, after) => {
            is_written(replay, *client, o, *at, prev, after)
        }
        Line::Delete(client, o, at, prev, after) => {
            is_written(replay, *client, o, *at, prev, after)
        }
        Line::Read(client, node, o, what, at) => {
            Some(
                has_seen(replay, *client, *node, at) && is_answered(alloc, replay, *node, o, what)?,
            )
        }
        Line::Behind(client, node, needs, has) => {
            Some(is_behind(replay, *client, *node, needs, has))
        }
        Line::Conflicts(node, o, pairs) => are_conflicts(alloc, replay, *node, o, pairs),
        _ => is_other(alloc, replay, line),
    }
}

fn is_other(alloc: Global, replay: &Replay, line: &Line) -> Option<bool> {
    match line {
        Line::Attach(stream, at) => Some(start(alloc, replay, *stream)? == vector(at)),
        Line::Send(stream, number, shape) => {
            Some(is_next(replay, *stream, *number) && is_sent(alloc, replay, *stream, shape)?)
        }
        Line::Accept(_, _, shape, at) => is_accepted(alloc, replay, replay.node(line), shape, at),
        Line::Cut(node, at) => Some(plain::current_vector(replay.entries(*node)) == vector(at)),
        Line::State(node, at, cut, floor, precise) => Some(
            are_vectors(replay, *node, at, cut, floor)
                && is_precise(alloc, replay, *node, precise)?,
        ),
        _ => is_ended(alloc, replay, line),
    }
}

// Whether the stream's turn sends nothing, where the line shows that.
fn is_ended(alloc: Global, replay: &Replay, line: &Line) -> Option<bool> {
    match line {
        Line::Idle(stream) => Some(is_idle(&turn(alloc, replay, *stream)?)),
        Line::Stale(stream, cut) => Some(is_stale(&turn(alloc, replay, *stream)?, cut)),
        _ => Some(true),
    }
}

fn is_accepted(
    alloc: Global,
    replay: &Replay,
    node: u32,
    shape: &Shape,
    at: &Clocks,
) -> Option<bool> {
    let now = plain::current_vector(replay.entries(node));
    Some(is_taken(&kind(alloc, shape)?, &now, &vector(at)))
}

// ---- clients

// Whether the node has this vector, and it is at least what the client has seen.
fn has_seen(replay: &Replay, client: u32, node: u32, at: &Clocks) -> bool {
    let now = plain::current_vector(replay.entries(node));
    now == vector(at) && plain::client_vector(replay.all.as_slice(), client).le(&now)
}

fn is_behind(replay: &Replay, client: u32, node: u32, needs: &Clocks, has: &Clocks) -> bool {
    let now = plain::current_vector(replay.entries(node));
    let seen = plain::client_vector(replay.all.as_slice(), client);
    now == vector(has) && seen == vector(needs) && !seen.le(&now)
}

fn is_written(
    replay: &Replay,
    client: u32,
    o: &[u8],
    at: At,
    prev: &Option<At>,
    after: &Clocks,
) -> Option<bool> {
    let entries = replay.entries(at.1);
    let known = match plain::newest_known(entries, &name(o)?) {
        Some(newest) => Some(newest.stamp),
        None => None,
    };
    let greatest = plain::current_vector(entries).greatest();
    Some(
        has_seen(replay, client, at.1, after)
            && is_over(&known, prev)
            && greatest < at.0
            && at.0 - greatest == 1,
    )
}

// ---- what a node says

fn is_answered(alloc: Global, replay: &Replay, node: u32, o: &[u8], what: &Says) -> Option<bool> {
    let sets = replay.sets(alloc, node)?;
    let name = name(o)?;
    let reply = plain::answer(alloc, node, sets.as_slice(), replay.entries(node), &name).ok()?;
    Some(is_said(&reply, what))
}

fn are_conflicts(
    alloc: Global,
    replay: &Replay,
    node: u32,
    o: &[u8],
    pairs: &[(At, At)],
) -> Option<bool> {
    let sets = replay.sets(alloc, node)?;
    let name = name(o)?;
    let found = plain::conflicts(alloc, node, sets.as_slice(), replay.entries(node), &name).ok()?;
    Some(is_found(&found, pairs))
}

fn are_vectors(replay: &Replay, node: u32, at: &Clocks, cut: &Clocks, floor: &Clocks) -> bool {
    let entries = replay.entries(node);
    plain::current_vector(entries) == vector(at)
        && plain::cuts_of(entries) == vector(cut)
        && plain::floor_of(entries) == vector(floor)
}

// Whether these are the last precise vectors of the node's sets and then of the rest.
fn is_precise(alloc: Global, replay: &Replay, node: u32, precise: &[Clocks]) -> Option<bool> {
    let mut sets = replay.sets(alloc, node)?;
    let rest = plain::rest_of(alloc, sets.as_slice()).ok()?;
    sets.push(rest).ok()?;
    let mut both = sets.as_slice().iter().zip(precise.iter());
    Some(
        sets.len() == precise.len() && both.all(|(set, clocks)| is_last(replay, node, set, clocks)),
    )
}

fn is_last(replay: &Replay, node: u32, set: &NameSet, clocks: &Clocks) -> bool {
    plain::last_precise(node, replay.entries(node), set) == vector(clocks)
}

// ---- messages

fn start(alloc: Global, replay: &Replay, number: u32) -> Option<Vector> {
    let stream = replay.stream(number);
    let node = stream.destination;
    let sets = replay.sets(alloc, node)?;
    let names = stream.session.sub();
    plain::start(alloc, node, sets.as_slice(), replay.entries(node), names).ok()
}

fn turn(alloc: Global, replay: &Replay, number: u32) -> Option<Next> {
    let stream = replay.stream(number);
    let entries = replay.entries(stream.source);
    plain::turn(alloc, stream.source, entries, &stream.session).ok()
}

fn snapshot(alloc: Global, replay: &Replay, number: u32) -> Option<Kind> {
    let stream = replay.stream(number);
    let sets = replay.sets(alloc, stream.source)?;
    let entries = replay.entries(stream.source);
    let names = stream.session.sub();
    plain::snapshot(alloc, stream.source, sets.as_slice(), entries, names).ok()
}

// Whether the stream's next message has this number.
fn is_next(replay: &Replay, stream: u32, number: u64) -> bool {
    let sent = replay.stream(stream).session.number();
    sent < number && number - sent == 1
}

fn is_sent(alloc: Global, replay: &Replay, stream: u32, shape: &Shape) -> Option<bool> {
    match shape {
        Shape::Checkpoint(_, _, _, _) => is_snapshot(alloc, replay, stream, shape),
        _ => sends(alloc, &turn(alloc, replay, stream)?, shape),
    }
}

fn is_snapshot(alloc: Global, replay: &Replay, stream: u32, shape: &Shape) -> Option<bool> {
    is_kind(alloc, &snapshot(alloc, replay, stream)?, shape)
}

// Whether the message may be taken at this vector, and gives that one.
fn is_taken(kind: &Kind, now: &Vector, at: &Vector) -> bool {
    match kind {
        Kind::Precise { from, to, .. } => from.le(now) && now.join(&to.get()) == *at,
        Kind::Imprecise { from, to, .. } => from.le(now) && now.join(&to.get()) == *at,
        Kind::Checkpoint { to, .. } => now.join(&to.get()) == *at,
        Kind::Body { .. } => *now == *at,
    }
}
