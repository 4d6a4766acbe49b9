// Tests of the wire.
ghost use Rattle.pr_inval.specs.Messages.{IsMessage};
ghost use Rattle.pr_wire.specs.Frames.{IsFrame};
ghost use Rattle.pr_wire.specs.declared.format.Format.{Format};
ghost use Rattle.std.specs.Prelude.{IfOk};

mod fields;
mod frames;

use crate::{Feed, Next, decode, encode, through_bytes};
use pr_inval::{Bytes, Kind, Msg};
use pr_stamps::Seq;
use std::alloc::Global;
use std::test::Fail;

// A precise invalidation of a/x in format 1.
pub const FRAME_1: [u8; 55] = [
    1, 0, 0, 0, 0, 0, 0, 0, 46, 1, 0, 0, 0, 0, 0, 0, 0, 2, 0, 0, 0, 0, 0, 0, 0, 0, 0, 0, 0, 1, 0,
    1, 0, 0, 0, 0, 0, 0, 0, 0, 1, 3, 97, 47, 120, 0, 0, 0, 0, 0, 0, 0, 1, 0, 0,
];

// The same in format 2.
pub const FRAME_1_AGAIN: [u8; 56] = [
    2, 0, 0, 0, 0, 0, 0, 0, 47, 1, 0, 0, 0, 0, 0, 0, 0, 2, 0, 0, 0, 0, 0, 0, 0, 0, 0, 0, 0, 1, 0,
    1, 0, 0, 0, 0, 0, 0, 0, 0, 1, 3, 97, 47, 120, 0, 0, 0, 0, 0, 0, 0, 1, 0, 0, 0,
];

// An imprecise invalidation of b/y in format 1.
const FRAME_2: [u8; 58] = [
    1, 0, 0, 0, 0, 0, 0, 0, 49, 2, 0, 0, 0, 0, 0, 0, 0, 3, 0, 0, 0, 0, 0, 0, 0, 0, 0, 0, 0, 1, 0,
    1, 0, 0, 0, 0, 0, 0, 0, 0, 1, 0, 0, 0, 0, 0, 0, 0, 1, 3, 98, 47, 121, 4, 98, 47, 121, 45,
];

pub fn pushed(feed: &mut Feed, piece: &[u8]) -> Result<(), Fail> {
    feed.push(piece).ok().ok_or("no memory")?;
    Ok(())
}

fn answer(feed: &mut Feed) -> Result<Next, Fail> {
    Ok(feed.next().ok().ok_or("no memory")?)
}

pub fn next_message(feed: &mut Feed) -> Result<Msg, Fail>
    ensures { IfOk result IsMessage }
{
    match feed.next() {
        Ok(Next::Message(msg)) => Ok(msg),
        Ok(_) => Err(Fail::from("no message")),
        Err(_) => Err(Fail::from("no memory")),
    }
}

pub fn is_more(feed: &mut Feed) -> Result<bool, Fail> {
    Ok(matches!(answer(feed)?, Next::More))
}

fn bad_at(feed: &mut Feed) -> Result<Option<u64>, Fail> {
    match answer(feed)? {
        Next::Bad { at } => Ok(Some(at)),
        _ => Ok(None),
    }
}

pub fn encoded(alloc: Global, msg: &Msg) -> Result<Bytes, Fail>
    requires { IsMessage msg.now }
    ensures { IfOk result (λ out. IsFrame Format.Two msg.now out) }
{
    let mut out = Seq::new(alloc);
    encode(msg, &mut out).ok().ok_or("no memory")?;
    Ok(out)
}

// The next message of the feed, in format 2.
fn next_encoded(alloc: Global, feed: &mut Feed) -> Result<Bytes, Fail> {
    let msg = next_message(feed)?;
    encoded(alloc, &msg)
}

#[test]
fn frame_1_is_read_and_written_in_56_bytes(rt: HostRuntime) -> Result<(), Fail> {
    let mut feed = Feed::new(rt.alloc(), u64::MAX);
    pushed(&mut feed, &FRAME_1)?;
    let msg = next_message(&mut feed)?;
    assert_eq!(rt; (msg.time, msg.stream, msg.number), (2, 0, 1));
    if let Kind::Precise { from, to, write } = &msg.kind {
        assert_eq!(rt; (from.at(0), to.at(0), to.get().greatest()), (0, 1, 1));
        assert_eq!(rt; write.name.bytes(), b"a/x".as_slice());
        assert_eq!(rt;
            (
                write.stamp.clock(),
                write.stamp.node(),
                write.prev,
                write.gone
            ),
            (1, 0, None, false)
        );
    } else {
        return Err(Fail::from("another kind"));
    }
    let out = encoded(rt.alloc(), &msg)?;
    assert_eq!(rt; out.as_slice(), FRAME_1_AGAIN.as_slice());
    Ok(())
}

#[test]
fn frame_2_is_read(rt: HostRuntime) -> Result<(), Fail> {
    let mut feed = Feed::new(rt.alloc(), u64::MAX);
    pushed(&mut feed, &FRAME_2)?;
    let msg = next_message(&mut feed)?;
    assert_eq!(rt; (msg.time, msg.stream, msg.number), (3, 0, 1));
    if let Kind::Imprecise { from, to, target } = &msg.kind {
        assert_eq!(rt; (from.at(0), to.at(0), to.get().greatest()), (0, 1, 1));
        let mut text = Seq::new(rt.alloc());
        target.print(&mut text).ok().ok_or("no memory")?;
        assert_eq!(rt; text.as_slice(), b"b/y".as_slice());
    } else {
        return Err(Fail::from("another kind"));
    }
    assert!(rt; is_more(&mut feed)?);
    Ok(())
}

// Where a feed of this frame with another byte is bad.
pub fn bad_with(alloc: Global, frame: &[u8], place: usize, byte: u8) -> Result<Option<u64>, Fail> {
    let mut feed = Feed::new(alloc, u64::MAX);
    let mut bytes = Vec::from_slice(alloc, frame)?;
    if let Some(old) = bytes.get_mut(place) {
        *old = byte;
    }
    pushed(&mut feed, bytes.as_slice())?;
    bad_at(&mut feed)
}

// The frame of the message that its frame gives.
pub fn encoded_again(alloc: Global, msg: &Msg) -> Result<Bytes, Fail>
    requires { IsMessage msg.now }
{
    let again = through_bytes(alloc, msg).ok().ok_or("no memory")?;
    encoded(alloc, &again)
}

#[test]
fn a_message_goes_through_its_bytes(rt: HostRuntime) -> Result<(), Fail> {
    let mut feed = Feed::new(rt.alloc(), 1000);
    pushed(&mut feed, &FRAME_1)?;
    let msg = next_message(&mut feed)?;
    let frame = encoded_again(rt.alloc(), &msg)?;
    assert_eq!(rt; frame.as_slice(), FRAME_1_AGAIN.as_slice());
    Ok(())
}

// The frame of the message that is decoded from the frame of this one.
fn decoded_and_encoded(alloc: Global, msg: &Msg) -> Result<Bytes, Fail>
    requires { IsMessage msg.now }
{
    let frame = encoded(alloc, msg)?;
    let again = decode(alloc, frame.as_slice()).ok().ok_or("no memory")?;
    encoded(alloc, &again)
}

#[test]
fn a_frame_is_decoded(rt: HostRuntime) -> Result<(), Fail> {
    let mut feed = Feed::new(rt.alloc(), 1000);
    pushed(&mut feed, &FRAME_1)?;
    let msg = next_message(&mut feed)?;
    let frame = decoded_and_encoded(rt.alloc(), &msg)?;
    assert_eq!(rt; frame.as_slice(), FRAME_1_AGAIN.as_slice());
    Ok(())
}

#[test]
fn other_bytes_are_bad(rt: HostRuntime) -> Result<(), Fail> {
    // A mark of deletion of 2, a clock of 0 in the rise, a kind of 0, a node of 32, and a format of 3.
    for (place, byte) in [(55, 2), (40, 0), (9, 0), (32, 32), (0, 3)] {
        assert_eq!(rt;
            bad_with(rt.alloc(), &FRAME_1_AGAIN, place, byte)?,
            Some(0),
            "at {place}"
        );
    }
    Ok(())
}

#[test]
fn beginnings_of_a_frame_are_more(rt: HostRuntime) -> Result<(), Fail> {
    for len in 0..FRAME_1.len() {
        let mut feed = Feed::new(rt.alloc(), u64::MAX);
        let (front, rest) = FRAME_1.split_at(len);
        pushed(&mut feed, front)?;
        assert!(rt; is_more(&mut feed)?, "{len} bytes");
        pushed(&mut feed, rest)?;
        let again = next_encoded(rt.alloc(), &mut feed)?;
        assert_eq!(rt; again.as_slice(), FRAME_1_AGAIN.as_slice());
        assert!(rt; is_more(&mut feed)?);
    }
    Ok(())
}

#[test]
fn a_frame_comes_byte_by_byte(rt: HostRuntime) -> Result<(), Fail> {
    let mut feed = Feed::new(rt.alloc(), u64::MAX);
    for (place, byte) in FRAME_1.iter().enumerate() {
        pushed(&mut feed, &[*byte])?;
        if place < 54 {
            assert!(rt; is_more(&mut feed)?, "after byte {place}");
        }
    }
    let again = next_encoded(rt.alloc(), &mut feed)?;
    assert_eq!(rt; again.as_slice(), FRAME_1_AGAIN.as_slice());
    Ok(())
}

#[test]
fn a_bad_frame_behind_a_message_stays_bad(rt: HostRuntime) -> Result<(), Fail> {
    let mut feed = Feed::new(rt.alloc(), u64::MAX);
    pushed(&mut feed, &FRAME_1)?;
    let mut second = FRAME_1;
    second[9] = 0;
    pushed(&mut feed, &second)?;
    let again = next_encoded(rt.alloc(), &mut feed)?;
    assert_eq!(rt; again.as_slice(), FRAME_1_AGAIN.as_slice());
    for _ in 0..3 {
        assert_eq!(rt; bad_at(&mut feed)?, Some(55));
        pushed(&mut feed, &FRAME_1)?;
    }
    Ok(())
}

// What a feed of limit 1,000 answers to a frame with one bit changed: whether that is another message, or none.
fn is_another(alloc: Global, bit: usize) -> Result<bool, Fail> {
    let mut frame = FRAME_1;
    if let Some(byte) = frame.get_mut(bit / 8) {
        *byte ^= 1 << (bit % 8);
    }
    let mut feed = Feed::new(alloc, 1000);
    pushed(&mut feed, &frame)?;
    match feed.next() {
        Ok(Next::Message(msg)) => {
            let again = encoded(alloc, &msg)?;
            Ok(again.as_slice() != FRAME_1_AGAIN.as_slice())
        }
        Ok(Next::More) => Ok(true),
        Ok(Next::Bad { at }) => Ok(at == 0),
        Err(_) => Err(Fail::from("no memory")),
    }
}

#[test]
fn each_changed_bit_shows(rt: HostRuntime) -> Result<(), Fail> {
    for bit in 0..440 {
        assert!(rt; is_another(rt.alloc(), bit)?, "bit {bit}");
    }
    Ok(())
}

#[test]
fn a_feed_tells_what_was_given(rt: HostRuntime) -> Result<(), Fail> {
    let mut feed = Feed::new(rt.alloc(), 1000);
    assert!(rt; feed.is_empty() && feed.given() == 0);
    pushed(&mut feed, &FRAME_1)?;
    assert!(rt; !feed.is_empty());
    next_message(&mut feed)?;
    assert!(rt; feed.is_empty() && feed.given() == 55);
    Ok(())
}
