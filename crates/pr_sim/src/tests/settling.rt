// Settles: a ring of three nodes, and a stream that is stale.
ghost use Rattle.pr_sim.specs.Running.{IsKept};
ghost use Rattle.std.specs.Prelude.{IfSome, OnSome};

use crate::Engine;
use pr_inval::Kind;
use pr_names::Name;
use pr_script::read;
use pr_story::Event;
use std::alloc::Global;
use std::test::Fail;

const RING: &[u8] =
    b"node A a/*\nnode B b/*\nnode C c/*\nclient p A\nclient q B\nclient r C\nstream s A B *\nstream t B C *\nstream u C A *\n";

const PAIR: &[u8] = b"node A *\nnode B *\nclient p A\nstream s A B *\nstream t B A *\n";

// Each stream attached, a write at each node, and the settle, in which the last write goes round behind the others.
const RING_ENTRIES: [(u32, u8); 30] = [
    (1, b'a'),
    (2, b'a'),
    (0, b'a'),
    (0, b'w'),
    (1, b'w'),
    (2, b'w'),
    (1, b'a'),
    (2, b'a'),
    (0, b'a'),
    (0, b's'),
    (1, b'x'),
    (0, b'i'),
    (1, b's'),
    (2, b'x'),
    (1, b's'),
    (2, b'x'),
    (1, b'i'),
    (2, b's'),
    (0, b'x'),
    (2, b's'),
    (0, b'x'),
    (2, b'i'),
    (0, b's'),
    (1, b'x'),
    (0, b'i'),
    (1, b'i'),
    (2, b'i'),
    (0, b'i'),
    (1, b'i'),
    (2, b'i'),
];

// Of two streams one is attached; its source has cut the write off, so its turn is stale and a checkpoint brings it.
const STALE_ENTRIES: [(u32, u8); 9] = [
    (1, b'a'),
    (0, b'w'),
    (0, b'c'),
    (1, b'a'),
    (0, b'o'),
    (0, b'k'),
    (1, b'x'),
    (0, b'i'),
    (0, b'i'),
];

fn made(alloc: Global, script: &[u8]) -> Option<Engine>
    ensures { IfSome result IsKept }
{
    let script = read(alloc, script).ok()?;
    Engine::new(alloc, &script.decls).ok()
}

fn attach(engine: &mut Engine, stream: u32) -> Option<()>
    requires { IsKept engine.old }
    ensures { OnSome result (IsKept engine.new) }
{
    if stream as usize >= engine.sessions.len() {
        return None;
    }
    engine.attach(stream).ok()
}

fn write(engine: &mut Engine, client: u32, name: &[u8]) -> Option<()>
    requires { IsKept engine.old }
    ensures { OnSome result (IsKept engine.new) }
{
    if client as usize >= engine.homes.len() {
        return None;
    }
    let name = Name::read(name).ok()?;
    engine.write(client, &name, b"").ok()
}

fn cut(engine: &mut Engine, node: u32) -> Option<()>
    requires { IsKept engine.old }
    ensures { OnSome result (IsKept engine.new) }
{
    if node as usize >= engine.nodes.len() {
        return None;
    }
    engine.cut(node).ok()
}

fn ring(alloc: Global) -> Option<Engine> {
    let mut engine = made(alloc, RING)?;
    attach(&mut engine, 0)?;
    attach(&mut engine, 1)?;
    attach(&mut engine, 2)?;
    write(&mut engine, 0, b"a/1")?;
    write(&mut engine, 1, b"b/1")?;
    write(&mut engine, 2, b"c/1")?;
    engine.settle().ok()?;
    Some(engine)
}

fn stale(alloc: Global) -> Option<Engine> {
    let mut engine = made(alloc, PAIR)?;
    attach(&mut engine, 0)?;
    write(&mut engine, 0, b"a/1")?;
    cut(&mut engine, 0)?;
    engine.settle().ok()?;
    Some(engine)
}

// The node of the entry at this place, and a letter for what it says.
fn told(engine: &Engine, at: usize) -> Option<(u32, u8)> {
    let (node, place) = *engine.history().get(at)?;
    let journal = engine.journal(node)?;
    if place >= journal.len() {
        return None;
    }
    Some((node, letter(&journal.entry(place).event)))
}

fn letter(event: &Event) -> u8 {
    match event {
        Event::Attached { .. } => b'a',
        Event::Wrote { .. } => b'w',
        Event::Sent { msg } => kind(&msg.kind),
        Event::Accepted { .. } => b'x',
        Event::Idle { .. } => b'i',
        Event::Stale { .. } => b'o',
        Event::Cut { .. } => b'c',
        _ => b'?',
    }
}

fn kind(kind: &Kind) -> u8 {
    match kind {
        Kind::Checkpoint { .. } => b'k',
        _ => b's',
    }
}

fn is_told(engine: &Engine, entries: &[(u32, u8)]) -> bool {
    if engine.history().len() != entries.len() {
        return false;
    }
    for at in 0..entries.len() {
        if told(engine, at) != Some(entries[at]) {
            return false;
        }
    }
    true
}

#[test]
fn a_write_goes_round_a_ring(rt: HostRuntime) -> Result<(), Fail> {
    let engine = ring(rt.alloc()).ok_or("a ring")?;
    assert!(rt; is_told(&engine, &RING_ENTRIES));
    Ok(())
}

#[test]
fn a_stale_stream_gets_a_checkpoint(rt: HostRuntime) -> Result<(), Fail> {
    let engine = stale(rt.alloc()).ok_or("a pair")?;
    assert!(rt; is_told(&engine, &STALE_ENTRIES));
    Ok(())
}
