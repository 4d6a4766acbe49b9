// A message goes over a wire.
ghost use Rattle.pr_flow.specs.Moving.{IsCarried, IsLie, IsNoLieOrCut};
ghost use Rattle.pr_inval.specs.Messages.{IsMessage};
ghost use Rattle.pr_wire.specs.Frames.{IsFrame};
ghost use Rattle.pr_wire.specs.Pieces.{rest_of};
ghost use Rattle.pr_wire.specs.Spelling.{spelling};
ghost use Rattle.pr_wire.specs.declared.format.Format.{Format};
ghost use Rattle.std.specs.Prelude.{◌≡◌, ◌≤◌, ◌<◌, ◌+◌, ◌++◌, IsTrue, IfOk, drop, length, min, take};

use crate::passing::{Passed, pass};
use pr_inval::{Bytes, Msg};
use pr_stamps::{NoMemory, Seq};
use pr_story::Cause;
use pr_wire::{Feed, Pieces, decode, encode};
use pr_wires::Wire;
use std::alloc::Global;

// The most bytes that are put into a wire before they are taken again.
const PIECE: usize = 4096;

// Nearly every frame is shorter, and needs no room for a whole piece.
const SHORT: usize = 512;

/// A message was taken again and decoded; the wire failed or ended; or other bytes were taken.
#[derive(Drop)]
pub enum Carried {
    Whole(Msg),
    Cut(Cause),
    Lied { sent: Bytes, got: Bytes },
}

/// Encodes a message, puts it into a wire that holds nothing, in pieces of 4,096 bytes or of what is left, takes each
/// again before the next, and decodes the message once all came, in time linear in its frame. It takes memory for what
/// is decoded, for the frame where that has 512 bytes or more, and for the encoding where other bytes are taken.
pub fn carry<W: Wire>(alloc: Global, msg: &Msg, wire: &mut W) -> Result<Carried, NoMemory>
    requires message { IsMessage msg.now }
    requires under { (W.state wire.old).under ≡ 0 }
    ensures moved { IsCarried (W.state wire.old) (W.state wire.new) msg.now result }
    ensures sound { IsTrue (W.state wire.old).sound → IsNoLieOrCut result }
{
    let mut pieces = Pieces::empty();
    pieces.begin(msg);
    match pieces.whole() {
        Some(frame) if frame.len() < SHORT => carry_short(alloc, msg, frame, wire),
        _ => carry_pieces(alloc, msg, &mut pieces, wire),
    }
}

// Carries a message by its frame, from where that stands.
fn carry_short<W: Wire>(
    alloc: Global,
    msg: &Msg,
    frame: &[u8],
    wire: &mut W,
) -> Result<Carried, NoMemory>
    requires frame { IsFrame Format.Two msg.now frame.now }
    requires short { length frame.now < 512 }
    requires under { (W.state wire.old).under ≡ 0 }
    ensures moved { IsCarried (W.state wire.old) (W.state wire.new) msg.now result }
    ensures sound { IsTrue (W.state wire.old).sound → IsNoLieOrCut result }
{
    let len = frame.len();
    let mut bytes = [0; SHORT];
    match pass(wire, frame, &mut bytes[..len]) {
        Passed::Whole => Ok(Carried::Whole(decode(alloc, &bytes[..len])?)),
        Passed::Cut(cause) => Ok(Carried::Cut(cause)),
        Passed::Lied { len } => lied(alloc, msg, 0, &bytes[..len]),
    }
}

// Carries a message by the pieces of its frame. The room for a short frame is cleared here alone.
#[inline(never)]
fn carry_pieces<W: Wire>(
    alloc: Global,
    msg: &Msg,
    pieces: &mut Pieces,
    wire: &mut W,
) -> Result<Carried, NoMemory>
    requires frame { IsFrame Format.Two msg.now (rest_of pieces.old) }
    requires under { (W.state wire.old).under ≡ 0 }
    ensures moved { IsCarried (W.state wire.old) (W.state wire.new) msg.now result }
    ensures sound { IsTrue (W.state wire.old).sound → IsNoLieOrCut result }
{
    let mut frame = [0; SHORT];
    let len = pieces.next(&mut frame);
    if len == SHORT {
        return carry_long(alloc, msg, &frame, pieces, wire);
    }
    carry_short(alloc, msg, &frame[..len], wire)
}

// Carries a message whose frame begins with these bytes, and goes on with what the pieces have left. The room for a
// whole piece is cleared here alone.
#[inline(never)]
fn carry_long<W: Wire>(
    alloc: Global,
    msg: &Msg,
    front: &[u8],
    pieces: &mut Pieces,
    wire: &mut W,
) -> Result<Carried, NoMemory>
    requires frame { IsFrame Format.Two msg.now (front.now ++ rest_of pieces.old) }
    requires some { 0 < length front.now }
    requires room { length front.now < 4096 }
    requires under { (W.state wire.old).under ≡ 0 }
    ensures moved { IsCarried (W.state wire.old) (W.state wire.new) msg.now result }
    ensures sound { IsTrue (W.state wire.old).sound → IsNoLieOrCut result }
{
    let mut feed = Feed::new(alloc, u64::MAX);
    let mut piece = [0; PIECE];
    let mut bytes = [0; PIECE];
    let mut done: usize = 0;
    let mut len = first_piece(front, pieces, &mut piece);
    while len > 0 {
        match pass(wire, &piece[..len], &mut bytes[..len]) {
            Passed::Whole => feed.push(&bytes[..len])?,
            Passed::Cut(cause) => return Ok(Carried::Cut(cause)),
            Passed::Lied { len } => return lied(alloc, msg, done, &bytes[..len]),
        }
        done = done.saturating_add(len);
        len = pieces.next(&mut piece);
    }
    Ok(Carried::Whole(feed.only_message()?))
}

// Fills the piece with these bytes, and then with those that the pieces have left; how many that are.
fn first_piece(front: &[u8], pieces: &mut Pieces, piece: &mut [u8]) -> usize
    requires { length front.now < length piece.old }
    ensures count { result ≡ min (length piece.old) (length (front.now ++ rest_of pieces.old)) }
    ensures bytes { take result piece.new ≡ take result (front.now ++ rest_of pieces.old) }
    ensures rest { rest_of pieces.new ≡ drop result (front.now ++ rest_of pieces.old) }
{
    let len = front.len();
    piece[..len].copy_from_slice(front);
    len + pieces.next(&mut piece[len..])
}

// The encoding of the message, and what was taken for it: so many first bytes of the encoding, and then these.
fn lied(alloc: Global, msg: &Msg, done: usize, bytes: &[u8]) -> Result<Carried, NoMemory>
    requires { IsMessage msg.now }
    ensures { IfOk result (IsLie msg.now (take done (spelling Format.Two msg.now) ++ bytes.now)) }
{
    let mut sent = Seq::new(alloc);
    encode(msg, &mut sent)?;
    let done = done.min(sent.len());
    let mut got = Seq::copied(alloc, &sent.as_slice()[..done])?;
    got.extend(bytes)?;
    Ok(Carried::Lied { sent, got })
}
