// Worked scripts: for each of their calls a node makes the entry that the definitions give.

use crate::tests::alike::are_alike;
use crate::tests::building::{A, B, C};
use crate::tests::call::Call;
use crate::tests::world::World;
use pr_story::Cause;
use std::alloc::Global;
use std::test::Fail;

// Nodes that have one set each, or none, a stream from A to B and one from B to C.
fn begun(alloc: Global, texts: [&[u8]; 3], names: &[u8], bodies: bool) -> Option<World> {
    let sets = [(texts[0], b"".as_slice()), (texts[1], b""), (texts[2], b"")];
    let links = [(A, B, names, bodies), (B, C, b"*", false)];
    World::new(alloc, &sets, &links)
}

#[test]
fn filtering(rt: HostRuntime) -> Result<(), Fail> {
    let mut world = begun(rt.alloc(), [b"", b"a/*", b""], b"a/*", false).ok_or("a world")?;
    let calls = [
        Call::Attach(0),
        Call::Write(0, A, b"b/y", b"no"),
        Call::Write(0, A, b"a/x", b"yes"),
        Call::Turn(0),
        Call::Accept(B, 0, 1),
        Call::Turn(0),
        Call::Accept(B, 0, 2),
        Call::Read(1, B, b"b/y"),
        Call::Read(1, B, b"a/x"),
        Call::Read(1, B, b"a/z"),
        Call::State(B),
    ];
    assert!(rt; are_alike(rt.alloc(), &mut world, &calls).ok_or("a call")?);
    Ok(())
}

// Writes to a/p, to b/00 and so on, and to a/q; then what is sent.
fn omitted(alloc: Global, count: u64) -> Option<bool> {
    let mut world = begun(alloc, [b"", b"a/*", b""], b"a/*", false)?;
    let first = [Call::Attach(0), Call::Write(0, A, b"a/p", b"")];
    let mut all = are_alike(alloc, &mut world, &first)?;
    for i in 0..count.min(99) {
        let o = [b'b', b'/', b'0' + (i / 10) as u8, b'0' + (i % 10) as u8];
        all = are_alike(alloc, &mut world, &[Call::Write(0, A, &o, b"")])? && all;
    }
    let turn = Call::Turn(0);
    let last = [Call::Write(0, A, b"a/q", b""), turn, turn, turn, turn];
    Some(are_alike(alloc, &mut world, &last)? && all)
}

#[test]
fn a_coarse_target(rt: HostRuntime) -> Result<(), Fail> {
    for count in [16, 17] {
        assert!(rt; omitted(rt.alloc(), count).ok_or("a call")?);
    }
    Ok(())
}

#[test]
fn equal_clocks(rt: HostRuntime) -> Result<(), Fail> {
    let mut world = begun(rt.alloc(), [b"*", b"*", b""], b"*", true).ok_or("a world")?;
    let calls = [
        Call::Attach(0),
        Call::Write(0, A, b"a/x", b"one"),
        Call::Write(1, B, b"a/x", b"two"),
        Call::Turn(0),
        Call::Accept(B, 0, 1),
        Call::Turn(0),
        Call::Accept(B, 0, 2),
        Call::Turn(0),
        Call::Read(1, B, b"a/x"),
        Call::Conflicts(B, b"a/x"),
        Call::Read(0, A, b"a/x"),
        Call::Conflicts(A, b"a/x"),
    ];
    assert!(rt; are_alike(rt.alloc(), &mut world, &calls).ok_or("a call")?);
    Ok(())
}

#[test]
fn a_smaller_stamp_comes_late(rt: HostRuntime) -> Result<(), Fail> {
    let mut world = begun(rt.alloc(), [b"", b"*", b"*"], b"*", false).ok_or("a world")?;
    let calls = [
        Call::Attach(0),
        Call::Attach(1),
        Call::Write(0, A, b"a/x", b"late"),
        Call::Write(1, B, b"a/y", b"one"),
        Call::Write(1, B, b"a/y", b"two"),
        Call::Turn(1),
        Call::Accept(C, 1, 1),
        Call::Turn(1),
        Call::Accept(C, 1, 2),
        Call::Turn(1),
        Call::Turn(0),
        Call::Accept(B, 0, 1),
        Call::Turn(0),
        Call::Turn(1),
        Call::Accept(C, 1, 3),
        Call::Turn(1),
        Call::Read(0, C, b"a/x"),
    ];
    assert!(rt; are_alike(rt.alloc(), &mut world, &calls).ok_or("a call")?);
    Ok(())
}

// What a cut leaves; the third call is a write or a delete.
fn are_cut(alloc: Global, world: &mut World, third: Call<'_>) -> Option<bool> {
    let calls = [
        Call::Write(0, A, b"a/x", b"1"),
        Call::Write(0, A, b"a/x", b"2"),
        third,
        Call::Cut(A),
        Call::State(A),
        Call::Attach(0),
        Call::Turn(0),
        Call::Checkpoint(0),
        Call::Accept(B, 0, 1),
        Call::Read(1, B, b"a/x"),
        Call::Turn(0),
        Call::Accept(B, 0, 2),
        Call::Read(1, B, b"a/x"),
        Call::Read(1, B, b"b/y"),
    ];
    are_alike(alloc, world, &calls)
}

// B as a source: what it knows by the checkpoint alone is dark.
fn are_passed_on(alloc: Global, world: &mut World) -> Option<bool> {
    let calls = [
        Call::Attach(1),
        Call::Turn(1),
        Call::Accept(C, 1, 1),
        Call::Read(2, C, b"a/x"),
        Call::Checkpoint(1),
        Call::Accept(C, 1, 2),
        Call::Read(2, C, b"a/x"),
        Call::State(C),
    ];
    are_alike(alloc, world, &calls)
}

#[test]
fn cut_and_checkpoint(rt: HostRuntime) -> Result<(), Fail> {
    for third in [Call::Write(0, A, b"b/y", b"3"), Call::Delete(0, A, b"b/y")] {
        let mut world = begun(rt.alloc(), [b"*", b"*", b"*"], b"*", true).ok_or("a world")?;
        assert!(rt; are_cut(rt.alloc(), &mut world, third).ok_or("a call")?);
        assert!(rt; are_passed_on(rt.alloc(), &mut world).ok_or("a call")?);
    }
    Ok(())
}

#[test]
fn bodies_early_late_and_dropped(rt: HostRuntime) -> Result<(), Fail> {
    let mut world = begun(rt.alloc(), [b"*", b"*", b""], b"*", true).ok_or("a world")?;
    let calls = [
        Call::Attach(0),
        Call::Write(0, A, b"a/x", b"old"),
        Call::Turn(0),
        Call::Turn(0),
        Call::Accept(B, 0, 2),
        Call::Read(1, B, b"a/x"),
        Call::Accept(B, 0, 1),
        Call::Read(1, B, b"a/x"),
        Call::Write(0, A, b"a/x", b"new"),
        Call::Turn(0),
        Call::Accept(B, 0, 3),
        Call::Accept(B, 0, 2),
        Call::Read(1, B, b"a/x"),
        Call::Turn(0),
        Call::Accept(B, 0, 4),
        Call::Read(1, B, b"a/x"),
        Call::Drop(B, b"a/x"),
        Call::Read(1, B, b"a/x"),
        Call::Turn(0),
        Call::Attach(0),
        Call::Turn(0),
        Call::Accept(B, 0, 5),
        Call::Read(1, B, b"a/x"),
    ];
    assert!(rt; are_alike(rt.alloc(), &mut world, &calls).ok_or("a call")?);
    Ok(())
}

#[test]
fn deletes(rt: HostRuntime) -> Result<(), Fail> {
    let mut world = begun(rt.alloc(), [b"*", b"*", b""], b"*", true).ok_or("a world")?;
    let calls = [
        Call::Attach(0),
        Call::Write(0, A, b"a/x", b"hi"),
        Call::Delete(0, A, b"a/x"),
        Call::Read(0, A, b"a/x"),
        Call::Turn(0),
        Call::Accept(B, 0, 1),
        Call::Turn(0),
        Call::Accept(B, 0, 2),
        Call::Turn(0),
        Call::Read(1, B, b"a/x"),
        Call::Delete(0, A, b"a/z"),
    ];
    assert!(rt; are_alike(rt.alloc(), &mut world, &calls).ok_or("a call")?);
    Ok(())
}

#[test]
fn a_client_that_moves(rt: HostRuntime) -> Result<(), Fail> {
    let mut world = begun(rt.alloc(), [b"*", b"*", b""], b"*", false).ok_or("a world")?;
    let calls = [
        Call::Write(0, A, b"a/x", b"1"),
        Call::Move(0, B),
        Call::Read(0, B, b"a/x"),
        Call::Write(0, B, b"a/y", b"2"),
        Call::Attach(0),
        Call::Turn(0),
        Call::Accept(B, 0, 1),
        Call::Read(0, B, b"a/x"),
        Call::Write(0, B, b"a/y", b"2"),
        Call::Move(0, A),
        Call::Delete(0, A, b"a/y"),
    ];
    assert!(rt; are_alike(rt.alloc(), &mut world, &calls).ok_or("a call")?);
    Ok(())
}

#[test]
fn gaps_and_ends(rt: HostRuntime) -> Result<(), Fail> {
    let mut world = begun(rt.alloc(), [b"*", b"a/*", b""], b"*", false).ok_or("a world")?;
    let calls = [
        Call::Attach(0),
        Call::Write(0, A, b"a/x", b"1"),
        Call::Write(0, A, b"b/y", b"2"),
        Call::Turn(0),
        Call::Turn(0),
        Call::Accept(B, 0, 2),
        Call::Down(0, Cause::Gap),
        Call::Missing(0, 3),
        Call::Attach(0),
        Call::Turn(0),
        Call::Accept(B, 0, 3),
        Call::Accept(B, 0, 1),
        Call::State(B),
    ];
    assert!(rt; are_alike(rt.alloc(), &mut world, &calls).ok_or("a call")?);
    Ok(())
}
