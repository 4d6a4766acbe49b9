// Calls of nodes.

use crate::Node;
use crate::tests::building::name;
use crate::tests::call::Call;
use crate::tests::expected::CALLER;
use crate::tests::frame::Frame;
use crate::tests::world::World;
use pr_inval::{Session, Step};
use pr_vectors::Vector;
use std::alloc::Global;

/// Makes the call; None, where it is refused or cannot be made.
pub fn act(alloc: Global, world: &mut World, call: &Call<'_>) -> Option<()> {
    match call {
        Call::Turn(stream) => turn(alloc, world, *stream),
        Call::Checkpoint(stream) => checkpoint(alloc, world, *stream),
        Call::Accept(node, _, _) | Call::Forged(node, _, _) => {
            let msg = world.message(alloc, call)?;
            let site = world.sites.get_mut(*node as usize)?;
            done(site.node.accept(CALLER, msg))
        }
        Call::Attach(number) | Call::Down(number, _) => {
            let stream = world.streams.get_mut(*number as usize)?;
            let site = world.sites.get_mut(stream.destination as usize)?;
            tell(&mut site.node, &mut stream.session, call)
        }
        _ => {
            let needs = world.needs(call);
            let node = world.node_of(call)?;
            ask(&mut world.sites.get_mut(node as usize)?.node, call, &needs)
        }
    }
}

fn done<T: Drop, E: Drop>(answer: Result<T, E>) -> Option<()> {
    match answer {
        Ok(_) => Some(()),
        Err(_) => None,
    }
}

fn turn(alloc: Global, world: &mut World, stream: u32) -> Option<()> {
    let stream = world.streams.get_mut(stream as usize)?;
    let site = world.sites.get_mut(stream.source as usize)?;
    match turned(alloc, &mut site.node, &mut stream.session)? {
        Some(frame) => world.sent.push(frame).ok(),
        None => Some(()),
    }
}

// The message of the turn, if it sends one.
fn turned(alloc: Global, node: &mut Node, session: &mut Session) -> Option<Option<Frame>> {
    if !session.is_attached() {
        return None;
    }
    match node.turn(CALLER, session).ok()? {
        Step::Sent(msg) => Some(Some(Frame::of(alloc, &msg)?)),
        Step::Idle | Step::Stale { .. } => Some(None),
    }
}

fn checkpoint(alloc: Global, world: &mut World, stream: u32) -> Option<()> {
    let stream = world.streams.get_mut(stream as usize)?;
    let site = world.sites.get_mut(stream.source as usize)?;
    let frame = snapped(alloc, &mut site.node, &mut stream.session)?;
    world.sent.push(frame).ok()
}

fn snapped(alloc: Global, node: &mut Node, session: &mut Session) -> Option<Frame> {
    if !session.is_attached() {
        return None;
    }
    let msg = node.checkpoint(CALLER, session).ok()?;
    Frame::of(alloc, &msg)
}

// Tells the destination of the stream.
fn tell(node: &mut Node, session: &mut Session, call: &Call<'_>) -> Option<()> {
    match call {
        Call::Attach(_) => done(node.attach(CALLER, session)),
        Call::Down(_, cause) => done(node.down(CALLER, session, *cause)),
        _ => None,
    }
}

fn ask(node: &mut Node, call: &Call<'_>, needs: &Vector) -> Option<()> {
    match call {
        Call::Write(client, _, o, body) => write(node, *client, o, body, needs),
        Call::Delete(client, _, o) => done(node.delete(CALLER, *client, &name(o)?, needs)),
        Call::Read(client, _, o) => done(node.read(CALLER, *client, &name(o)?, needs)),
        Call::Move(client, _) => done(node.moved(CALLER, *client)),
        Call::Missing(stream, number) => done(node.missing(CALLER, *stream, *number)),
        Call::Cut(_) => done(node.cut(CALLER)),
        Call::Drop(_, o) => done(node.drop_body(CALLER, &name(o)?)),
        Call::Conflicts(_, o) => done(node.conflicts(CALLER, &name(o)?)),
        Call::State(_) => done(node.state(CALLER)),
        _ => None,
    }
}

fn write(node: &mut Node, client: u32, o: &[u8], body: &[u8], needs: &Vector) -> Option<()> {
    if body.len() > 65536 {
        return None;
    }
    done(node.write(CALLER, client, &name(o)?, body, needs))
}
