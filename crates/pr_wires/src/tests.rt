ghost use Rattle.std.specs.Prelude.{◌≡◌, ◌≤◌, ◌+◌, IfSome, IsTrue, length};

use crate::{Bend, BentWire, BentWires, LoopWires, TapeWires, TrueWires, Wire, Wires};
use std::alloc::Global;
use std::test::Fail;

// Puts a piece into a wire that holds nothing, and takes it again: whether it is the same.
fn goes_through<W: Wire>(wire: &mut W, piece: &[u8]) -> bool
    requires { (W.state wire.old).under + length piece.now ≤ 4096 }
    ensures { IsTrue result → (W.state wire.new).under ≡ (W.state wire.old).under }
{
    let Ok(put) = wire.put(piece) else {
        return false;
    };
    let mut buf = [0; 4096];
    if put > buf.len() {
        return false;
    }
    match wire.take(&mut buf[..put]) {
        Ok(taken) => taken == put && put == piece.len() && &buf[..put] == piece,
        Err(_) => false,
    }
}

#[test]
fn true_wires_give_what_was_put(rt: HostRuntime) -> Result<(), Fail> {
    let mut wires = TrueWires::new();
    let mut wire = wires.connect(0, 1).ok().ok_or("a wire")?;
    let piece = [7; 4096];
    assert!(rt; goes_through(&mut wire, &piece));
    assert!(rt; goes_through(&mut wire, &piece[..1]));
    assert!(rt; goes_through(&mut wire, &piece[..0]));
    wires.close(wire);
    Ok(())
}

#[test]
fn a_tape_keeps_what_went_over_it(rt: HostRuntime) -> Result<(), Fail> {
    let mut wires = TapeWires::new(rt.alloc(), 10).ok().ok_or("no memory")?;
    let mut wire = wires.connect(0, 1).ok().ok_or("a wire")?;
    assert!(rt; wires.carried().is_none());
    assert!(rt; goes_through(&mut wire, b"abcd"));
    assert!(rt; goes_through(&mut wire, b"efg"));
    assert_eq!(rt; wire.taken(), b"abcdefg".as_slice());
    assert!(rt; !goes_through(&mut wire, b"hijk"));
    wires.close(wire);
    assert_eq!(rt; wires.carried(), Some(b"abcdefg".as_slice()));
    assert!(rt; wires.connect(0, 1).is_err());
    Ok(())
}

#[test]
fn a_loop_wire_gives_what_was_put(rt: HostRuntime) -> Result<(), Fail> {
    let mut wires = LoopWires::new(&rt);
    let mut wire = wires.connect(0, 1).ok().ok_or("a wire")?;
    assert!(rt; goes_through(&mut wire, b"abcd"));
    assert!(rt; goes_through(&mut wire, b"efg"));
    assert!(rt; goes_through(&mut wire, b""));
    wires.close(wire);
    Ok(())
}

// The wire of a first connection with these bends.
fn bent(alloc: Global, bends: &[Bend]) -> Option<BentWire>
    requires { length bends.now ≤ 16 }
    ensures { IfSome result (λ w. w.under ≡ 0) }
{
    let mut wires = BentWires::new(bends.to_vec(alloc).ok()?);
    wires.connect(0, 1).ok()
}

// Puts a short piece into a wire that holds nothing, and takes as much again: what was taken.
fn put_and_taken<W: Wire>(wire: &mut W, piece: &[u8], buf: &mut [u8; 8]) -> Option<usize>
    requires { (W.state wire.old).under + length piece.now ≤ 4096 }
{
    let put = wire.put(piece).ok()?;
    if put > buf.len() {
        return None;
    }
    wire.take(&mut buf[..put]).ok()
}

#[test]
fn a_bent_wire_goes_wrong_as_it_is_told(rt: HostRuntime) -> Result<(), Fail> {
    let nth = 1;
    let table = [
        (Bend::Fail { nth, call: 1 }, None, b"abcd"),
        (Bend::Fail { nth, call: 2 }, None, b"abcd"),
        (Bend::End { nth, after: 2 }, Some(2), b"abcd"),
        (Bend::Flip { nth, at: 3 }, Some(4), b"abce"),
        (Bend::Again { nth, at: 1 }, Some(4), b"abbc"),
        (Bend::NoConnect { nth: 2 }, Some(4), b"abcd"),
    ];
    for (bend, count, bytes) in table {
        let mut wire = bent(rt.alloc(), &[bend]).ok_or("a wire")?;
        let mut buf = [0; 8];
        let taken = put_and_taken(&mut wire, b"abcd", &mut buf);
        assert_eq!(rt; taken, count);
        let len = taken.unwrap_or(0).min(4);
        assert_eq!(rt; &buf[..len], &bytes[..len]);
    }
    assert!(rt; bent(rt.alloc(), &[Bend::NoConnect { nth }]).is_none());
    Ok(())
}
