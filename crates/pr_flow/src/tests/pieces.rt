// In which pieces messages are carried.
ghost use Rattle.pr_inval.specs.Messages.{IsMessage};
ghost use Rattle.std.specs.Prelude.{◌≡◌, [], false, IfOk, IfSome, None, length};

use super::message;
use crate::{Carried, carry};
use pr_inval::Msg;
use pr_ports::Failed;
use pr_stamps::NoMemory;
use pr_wires::{TrueWire, TrueWires, Wire, Wires};
use std::alloc::Global;
use std::test::Fail;

// A wire that notes its first calls: the length of each piece that it was given, and of each buffer, which is below 0.
#[derive(Drop)]
struct Noted {
    wire: TrueWire,
    calls: [i64; 8],
    count: usize,
}

impl Noted {
    fn note(&mut self, call: i64)
        ensures { self.new.wire ≡ self.old.wire }
    {
        if let Some(place) = self.calls.get_mut(self.count) {
            *place = call;
        }
        self.count = self.count.saturating_add(1);
    }
}

impl Wire for Noted {
    ghost state = { λ w. record { faults = 0; ends = 0; under = length w.wire; given = None; taken = None; held = None; sound = false } };

    fn put(&mut self, piece: &[u8]) -> Result<usize, Failed> {
        self.note(piece.len() as i64);
        self.wire.put(piece)
    }

    fn take(&mut self, buf: &mut [u8]) -> Result<usize, Failed> {
        self.note((buf.len() as i64).wrapping_neg());
        self.wire.take(buf)
    }
}

fn noted_wire() -> Option<Noted>
    ensures { IfSome result (λ w. w.wire ≡ []) }
{
    let mut wires = TrueWires::new();
    let wire = wires.connect(0, 1).ok()?;
    Some(Noted {
        wire,
        calls: [0; 8],
        count: 0,
    })
}

// The frame of a body, without the length of its content, and without that of the body and its bytes.
const BODY: [u8; 33] = [
    2, 4, 0, 0, 0, 0, 0, 0, 0, 2, 0, 0, 0, 0, 0, 0, 0, 0, 0, 0, 0, 1, 1, 97, 0, 0, 0, 0, 0, 0, 0,
    1, 0,
];

// The frame of a body, which has so many bytes.
fn body_frame(alloc: Global, len: usize) -> Result<Vec<u8>, NoMemory> {
    let mut frame = Vec::new(alloc);
    frame.extend_from_slice(&BODY[..1])?;
    frame.extend_from_slice(&(len as u64).saturating_sub(9).to_be_bytes())?;
    frame.extend_from_slice(&BODY[1..])?;
    frame.extend_from_slice(&(len as u64).saturating_sub(49).to_be_bytes())?;
    frame.resize(len, 7)?;
    Ok(frame)
}

// The message of a body whose frame has so many bytes.
fn body_message(alloc: Global, len: usize) -> Result<Msg, NoMemory>
    ensures { IfOk result IsMessage }
{
    let frame = body_frame(alloc, len)?;
    message(alloc, &frame)
}

// The calls for a message that is carried.
fn calls_for(alloc: Global, msg: &Msg) -> Option<[i64; 8]>
    requires { IsMessage msg.now }
{
    let mut wire = noted_wire()?;
    match carry(alloc, msg, &mut wire) {
        Ok(Carried::Whole(_)) => Some(wire.calls),
        _ => None,
    }
}

// How many bytes a frame has, and its calls: each piece is taken by one before the next is put.
const CALLS: [(usize, [i64; 8]); 5] = [
    (511, [511, -511, 0, 0, 0, 0, 0, 0]),
    (512, [512, -512, 0, 0, 0, 0, 0, 0]),
    (4096, [4096, -4096, 0, 0, 0, 0, 0, 0]),
    (4097, [4096, -4096, 1, -1, 0, 0, 0, 0]),
    (9000, [4096, -4096, 4096, -4096, 808, -808, 0, 0]),
];

// The frame of a checkpoint of no rows.
const CHECKPOINT: [u8; 48] = [
    2, 0, 0, 0, 0, 0, 0, 0, 39, 3, 0, 0, 0, 0, 0, 0, 0, 2, 0, 0, 0, 0, 0, 0, 0, 0, 0, 0, 0, 1, 0,
    0, 0, 0, 0, 0, 0, 0, 0, 0, 0, 0, 0, 0, 0, 0, 0, 0,
];

// Whether the calls for the checkpoint are those for one piece.
fn checkpoint_has_calls(alloc: Global) -> Option<bool> {
    let msg = message(alloc, &CHECKPOINT).ok()?;
    Some(calls_for(alloc, &msg) == Some([48, -48, 0, 0, 0, 0, 0, 0]))
}

#[test]
fn a_short_list_goes_in_one_piece(rt: HostRuntime) {
    assert!(rt; checkpoint_has_calls(rt.alloc()).unwrap_or(false));
}

// Whether these are the calls for a frame of so many bytes.
fn has_calls(alloc: Global, len: usize, calls: &[i64; 8]) -> Option<bool> {
    let msg = body_message(alloc, len).ok()?;
    Some(calls_for(alloc, &msg) == Some(*calls))
}

#[test]
fn messages_go_in_pieces_of_4096_bytes(rt: HostRuntime) -> Result<(), Fail> {
    for (len, calls) in &CALLS {
        assert!(rt;
            has_calls(rt.alloc(), *len, calls).unwrap_or(false),
            "{len} bytes"
        );
    }
    Ok(())
}
