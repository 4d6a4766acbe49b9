// What a node does for a call, by the definitions.

use crate::tests::building::name;
use crate::tests::call::Call;
use crate::tests::site::Site;
use crate::tests::stream::Stream;
use crate::tests::world::World;
use pr_inval::{Kind, Msg, WriteRec};
use pr_names::Name;
use pr_stamps::{Seq, Stamp};
use pr_story::plain::Next;
use pr_story::{Entry, Event, plain};
use pr_vectors::{PackedVector, Vector};
use std::alloc::Global;

/// The number of the caller that makes all calls.
pub const CALLER: u32 = 7;

/// The entry that the call makes.
pub fn entry(alloc: Global, world: &World, call: &Call<'_>) -> Option<Entry> {
    let site = world.site(world.node_of(call)?)?;
    let time = site.time().max(heard(alloc, world, call)?).checked_add(1)?;
    Some(Entry {
        time,
        caller: CALLER,
        event: event(alloc, world, site, call, time)?,
    })
}

// The time that the call hears of.
fn heard(alloc: Global, world: &World, call: &Call<'_>) -> Option<u64> {
    match call {
        Call::Attach(stream) | Call::Turn(stream) => Some(world.stream(*stream)?.session.time()),
        Call::Checkpoint(stream) => Some(world.stream(*stream)?.session.time()),
        Call::Down(stream, _) => Some(world.stream(*stream)?.session.time()),
        Call::Accept(_, _, _) | Call::Forged(_, _, _) => Some(world.message(alloc, call)?.time),
        _ => Some(0),
    }
}

fn event(alloc: Global, world: &World, site: &Site, call: &Call<'_>, time: u64) -> Option<Event> {
    match call {
        Call::Write(client, _, _, _) | Call::Delete(client, _, _) | Call::Read(client, _, _) => {
            let needs = world.needs(call);
            if needs.le(&plain::current_vector(site.entries())) {
                return of_client(alloc, site, call);
            }
            behind(alloc, site, *client, &needs)
        }
        Call::Turn(stream) => turned(alloc, site, world.stream(*stream)?, time),
        Call::Checkpoint(stream) => snapped(alloc, site, world.stream(*stream)?, time),
        Call::Accept(_, _, _) | Call::Forged(_, _, _) => {
            taken(alloc, site, world.message(alloc, call)?)
        }
        _ => other(alloc, world, site, call),
    }
}

fn other(alloc: Global, world: &World, site: &Site, call: &Call<'_>) -> Option<Event> {
    match call {
        Call::Move(client, _) => Some(Event::Moved { client: *client }),
        Call::Attach(stream) => attached(alloc, site, world.stream(*stream)?),
        Call::Missing(stream, number) => Some(Event::Missing {
            stream: *stream,
            number: *number,
        }),
        Call::Down(stream, cause) => Some(Event::Down {
            stream: *stream,
            cause: *cause,
        }),
        Call::Cut(_) => Some(Event::Cut {
            at: vector(alloc, site)?,
        }),
        Call::Drop(_, o) => Some(Event::Dropped { name: name(o)? }),
        Call::Conflicts(_, o) => conflicts(alloc, site, o),
        Call::State(_) => state(alloc, site),
        _ => None,
    }
}

fn packed(alloc: Global, vector: &Vector) -> Option<PackedVector> {
    PackedVector::of(alloc, vector).ok()
}

// What the node was told of.
fn vector(alloc: Global, site: &Site) -> Option<PackedVector> {
    packed(alloc, &plain::current_vector(site.entries()))
}

// ---- clients

// A client has seen more than the node was told of.
fn behind(alloc: Global, site: &Site, client: u32, needs: &Vector) -> Option<Event> {
    Some(Event::Behind {
        client,
        needs: packed(alloc, needs)?,
        has: vector(alloc, site)?,
    })
}

// What a node does for a client that it does not trail.
fn of_client(alloc: Global, site: &Site, call: &Call<'_>) -> Option<Event> {
    match call {
        Call::Write(client, _, o, body) => written(alloc, site, *client, o, body, false),
        Call::Delete(client, _, o) => written(alloc, site, *client, o, b"", true),
        Call::Read(client, _, o) => answered(alloc, site, *client, o),
        _ => None,
    }
}

fn written(
    alloc: Global,
    site: &Site,
    client: u32,
    o: &[u8],
    body: &[u8],
    gone: bool,
) -> Option<Event> {
    let name = name(o)?;
    let after = plain::current_vector(site.entries());
    let clock = after.greatest().checked_add(1)?;
    Some(Event::Wrote {
        client,
        write: WriteRec {
            name,
            stamp: Stamp::new(clock, site.id)?,
            prev: newest(site.entries(), &name),
            gone,
        },
        body: Seq::copied(alloc, body).ok()?,
        after: packed(alloc, &after)?,
    })
}

fn newest(entries: &[Entry], name: &Name) -> Option<Stamp> {
    Some(plain::newest_known(entries, name)?.stamp)
}

fn answered(alloc: Global, site: &Site, client: u32, o: &[u8]) -> Option<Event> {
    let name = name(o)?;
    let (sets, entries) = (site.sets.as_slice(), site.entries());
    Some(Event::Answered {
        client,
        name,
        reply: plain::answer(alloc, site.id, sets, entries, &name).ok()?,
        at: vector(alloc, site)?,
    })
}

// ---- streams

fn attached(alloc: Global, site: &Site, stream: &Stream) -> Option<Event> {
    let (sets, names) = (site.sets.as_slice(), stream.session.sub());
    let start = plain::start(alloc, site.id, sets, site.entries(), names).ok()?;
    Some(Event::Attached {
        stream: stream.session.stream(),
        at: packed(alloc, &start)?,
    })
}

fn sent(stream: &Stream, kind: Kind, time: u64) -> Option<Event> {
    let number = stream.session.number().checked_add(1)?;
    Some(Event::Sent {
        msg: Msg {
            time,
            stream: stream.session.stream(),
            number,
            kind,
        },
    })
}

fn turned(alloc: Global, site: &Site, stream: &Stream, time: u64) -> Option<Event> {
    let number = stream.session.stream();
    match plain::turn(alloc, site.id, site.entries(), &stream.session).ok()? {
        Next::Stale(cut) => Some(Event::Stale {
            stream: number,
            cut: packed(alloc, &cut)?,
        }),
        Next::Idle => Some(Event::Idle { stream: number }),
        Next::Send(kind) => sent(stream, kind, time),
    }
}

fn snapped(alloc: Global, site: &Site, stream: &Stream, time: u64) -> Option<Event> {
    let (sets, names) = (site.sets.as_slice(), stream.session.sub());
    let kind = plain::snapshot(alloc, site.id, sets, site.entries(), names).ok()?;
    sent(stream, kind, time)
}

// A message that the node takes, or has a gap before.
fn taken(alloc: Global, site: &Site, msg: Msg) -> Option<Event> {
    let has = plain::current_vector(site.entries());
    let at = vector_behind(&has, &msg.kind);
    match packed(alloc, &at.unwrap_or(has)) {
        Some(vector) => Some(arrival(msg, at.is_some(), vector)),
        None => None,
    }
}

// What the node has been told of behind a message, or none where there is a gap before it.
fn vector_behind(has: &Vector, kind: &Kind) -> Option<Vector> {
    match kind {
        Kind::Precise { from, to, .. } | Kind::Imprecise { from, to, .. } => {
            if from.le(has) {
                Some(has.join(&to.get()))
            } else {
                None
            }
        }
        Kind::Checkpoint { to, .. } => Some(has.join(&to.get())),
        Kind::Body { .. } => Some(*has),
    }
}

fn arrival(msg: Msg, is_taken: bool, vector: PackedVector) -> Event {
    if is_taken {
        Event::Accepted { msg, at: vector }
    } else {
        Event::Gapped { msg, has: vector }
    }
}

// ---- what a node is asked

fn conflicts(alloc: Global, site: &Site, o: &[u8]) -> Option<Event> {
    let name = name(o)?;
    let (sets, entries) = (site.sets.as_slice(), site.entries());
    let found = plain::conflicts(alloc, site.id, sets, entries, &name).ok()?;
    Some(Event::Conflicts { name, found })
}

fn state(alloc: Global, site: &Site) -> Option<Event> {
    let entries = site.entries();
    let mut precise = Seq::new(alloc);
    for set in site.sets.as_slice() {
        precise
            .push(plain::last_precise(site.id, entries, set))
            .ok()?;
    }
    let rest = plain::rest_of(alloc, site.sets.as_slice()).ok()?;
    precise
        .push(plain::last_precise(site.id, entries, &rest))
        .ok()?;
    Some(Event::State {
        at: vector(alloc, site)?,
        cut: packed(alloc, &plain::cuts_of(entries))?,
        floor: packed(alloc, &plain::floor_of(entries))?,
        precise,
    })
}
