// A table of frames in format 2.
ghost use Rattle.pr_inval.specs.Messages.{IsMessage};
ghost use Rattle.std.specs.Prelude.{◌≤◌, IfOk, length};

use crate::tests::{bad_with, encoded, encoded_again, is_more, next_message, pushed};
use crate::{Feed, Pieces};
use pr_inval::Msg;
use pr_stamps::MAX;
use std::alloc::Global;
use std::test::Fail;

// Nothing: no entry of a vector or a rise, no interval's end, no earlier stamp, or no delete.
const NONE: &[u8] = &[0];

const GONE: &[u8] = &[1];

const NO_ITEMS: &[u8] = &[0, 0, 0, 0, 0, 0, 0, 0];

const ONE_ITEM: &[u8] = &[0, 0, 0, 0, 0, 0, 0, 1];

const TWO_ITEMS: &[u8] = &[0, 0, 0, 0, 0, 0, 0, 2];

const NODE_0: &[u8] = &[1, 0, 0, 0, 0, 0, 0, 0, 0, 1];

const BOTH_ENDS: &[u8] = &[
    2, 0, 0, 0, 0, 0, 0, 0, 0, 5, 31, 63, 255, 255, 255, 255, 255, 255, 255,
];

const STAMP_1: &[u8] = &[0, 0, 0, 0, 0, 0, 0, 1, 0];

const STAMP_5: &[u8] = &[0, 0, 0, 0, 0, 0, 0, 5, 0];

const LAST_STAMP: &[u8] = &[63, 255, 255, 255, 255, 255, 255, 255, 31];

const NAME_A: &[u8] = b"\x01a";

const NAME_B: &[u8] = b"\x03b/y";

const LONG_NAME: &[u8] = b"\x40zzzzzzzzzzzzzzzzzzzzzzzzzzzzzzzzzzzzzzzzzzzzzzzzzzzzzzzzzzzzzzzz";

// The kind and the fields of messages, as parts: from the least to the greatest vectors, names and clocks.
const CONTENTS: [(u8, &[&[u8]]); 15] = [
    (1, &[NONE, NODE_0, NAME_A, STAMP_1, NONE, NONE]),
    (1, &[NONE, NODE_0, NAME_A, STAMP_1, NONE, GONE]),
    (
        1,
        &[
            NODE_0, BOTH_ENDS, LONG_NAME, LAST_STAMP, GONE, STAMP_5, GONE,
        ],
    ),
    (
        1,
        &[NODE_0, BOTH_ENDS, NAME_B, STAMP_5, GONE, STAMP_1, NONE],
    ),
    (2, &[NONE, NONE, NO_ITEMS]),
    (2, &[BOTH_ENDS, NONE, ONE_ITEM, NAME_A, NONE]),
    (
        2,
        &[NONE, BOTH_ENDS, TWO_ITEMS, NAME_A, NAME_B, LONG_NAME, NONE],
    ),
    (3, &[NONE, NO_ITEMS, NONE, NO_ITEMS]),
    (3, &[BOTH_ENDS, ONE_ITEM, NAME_A, NAME_B, NODE_0, NO_ITEMS]),
    (
        3,
        &[
            BOTH_ENDS, NO_ITEMS, NODE_0, ONE_ITEM, NAME_A, STAMP_1, NONE, NO_ITEMS,
        ],
    ),
    (
        3,
        &[
            BOTH_ENDS, NO_ITEMS, NODE_0, ONE_ITEM, LONG_NAME, LAST_STAMP, GONE, TWO_ITEMS, STAMP_5,
            NONE, LAST_STAMP, GONE, STAMP_5,
        ],
    ),
    (
        3,
        &[
            BOTH_ENDS, ONE_ITEM, LONG_NAME, NONE, NONE, TWO_ITEMS, NAME_A, STAMP_5, NONE, ONE_ITEM,
            STAMP_1, NONE, NAME_B, LAST_STAMP, NONE, NO_ITEMS,
        ],
    ),
    (4, &[NAME_A, STAMP_1, NO_ITEMS]),
    (4, &[LONG_NAME, LAST_STAMP, ONE_ITEM, NONE]),
    (4, &[NAME_B, STAMP_5, TWO_ITEMS, NAME_A]),
];

fn append(out: &mut Vec<u8>, bytes: &[u8]) -> Result<(), Fail> {
    out.extend_from_slice(bytes)?;
    Ok(())
}

// The frame of these fields.
fn frame(alloc: Global, kind: u8, head: (u64, u32, u64), parts: &[&[u8]]) -> Result<Vec<u8>, Fail> {
    let mut fields = Vec::new(alloc);
    for part in parts {
        append(&mut fields, part)?;
    }
    let (time, stream, number) = head;
    let len = (fields.len() as u64).saturating_add(21);
    let mut out = Vec::new(alloc);
    let (len, time) = (len.to_be_bytes(), time.to_be_bytes());
    let (stream, number) = (stream.to_be_bytes(), number.to_be_bytes());
    let head: [&[u8]; 6] = [&[2], &len, &[kind], &time, &stream, &number];
    for part in &head {
        append(&mut out, part)?;
    }
    append(&mut out, fields.as_slice())?;
    Ok(out)
}

// The frame that the pieces give, in pieces of at most so many bytes.
fn in_pieces(alloc: Global, msg: &Msg, len: usize) -> Result<Vec<u8>, Fail>
    requires message { IsMessage msg.now }
    requires some { 1 ≤ len }
{
    let mut out = Vec::new(alloc);
    let mut pieces = Pieces::new(msg);
    let mut buffer = Vec::new(alloc);
    buffer.resize(len, 0)?;
    for _ in 0..100_000 {
        if buffer.is_empty() {
            break;
        }
        let count = pieces.next(buffer.as_mut_slice());
        append(&mut out, &buffer[..count])?;
        if count == 0 {
            break;
        }
    }
    Ok(out)
}

// Pushes the frame in pieces of so many bytes, and reads it; the same frame is then written by both encoders.
fn comes_back(alloc: Global, frame: &[u8], len: usize) -> Result<bool, Fail> {
    let mut feed = Feed::new(alloc, u64::MAX);
    for piece in frame.chunks(len.max(1)) {
        pushed(&mut feed, piece)?;
    }
    let msg = next_message(&mut feed)?;
    let out = encoded(alloc, &msg)?;
    let pieces = in_pieces(alloc, &msg, len.max(1))?;
    Ok(out.as_slice() == frame && pieces.as_slice() == frame && is_more(&mut feed)?)
}

// The contents with this head.
fn contents_come_back(alloc: Global, head: (u64, u32, u64)) -> Result<bool, Fail> {
    for (kind, parts) in &CONTENTS {
        let frame = frame(alloc, *kind, head, parts)?;
        for len in [1, 7, 4096] {
            if !comes_back(alloc, frame.as_slice(), len)? {
                return Ok(false);
            }
        }
    }
    Ok(true)
}

#[test]
fn messages_of_all_kinds_come_back_in_any_pieces(rt: HostRuntime) -> Result<(), Fail> {
    for time in [1, 2, MAX] {
        for stream in [0, 63, u32::MAX] {
            for number in [1, 256, MAX] {
                let head = (time, stream, number);
                assert!(rt;
                    contents_come_back(rt.alloc(), head)?,
                    "{time} {stream} {number}"
                );
            }
        }
    }
    Ok(())
}

// A vector of 32 entries with this clock.
fn full_vector(alloc: Global, clock: u64) -> Result<Vec<u8>, Fail> {
    let mut out = Vec::new(alloc);
    append(&mut out, &[32])?;
    for node in 0..32u8 {
        append(&mut out, &[node])?;
        append(&mut out, &clock.to_be_bytes())?;
    }
    Ok(out)
}

// Whether the fields come back with the greatest head, in pieces of each size.
fn fields_come_back(alloc: Global, kind: u8, parts: &[&[u8]]) -> Result<bool, Fail> {
    let frame = frame(alloc, kind, (MAX, u32::MAX, MAX), parts)?;
    for len in [1, 7, 4096] {
        if !comes_back(alloc, frame.as_slice(), len)? {
            return Ok(false);
        }
    }
    Ok(true)
}

#[test]
fn the_greatest_vectors_come_back(rt: HostRuntime) -> Result<(), Fail> {
    let from = full_vector(rt.alloc(), MAX - 1)?;
    let to = full_vector(rt.alloc(), MAX)?;
    let parts: [&[u8]; 7] = [&from, &to, LONG_NAME, LAST_STAMP, GONE, STAMP_5, GONE];
    assert!(rt; fields_come_back(rt.alloc(), 1, &parts)?);
    Ok(())
}

#[test]
fn the_longest_bodies_come_back(rt: HostRuntime) -> Result<(), Fail> {
    let mut body = Vec::new(rt.alloc());
    body.resize(65_536, 7)?;
    let len = 65_536u64.to_be_bytes();
    let parts: [&[u8]; 4] = [LONG_NAME, LAST_STAMP, &len, &body];
    assert!(rt; fields_come_back(rt.alloc(), 4, &parts)?);
    Ok(())
}

#[test]
fn longer_bodies_are_bad(rt: HostRuntime) -> Result<(), Fail> {
    let mut body = Vec::new(rt.alloc());
    body.resize(65_537, 7)?;
    let len = 65_537u64.to_be_bytes();
    let parts: [&[u8]; 4] = [LONG_NAME, LAST_STAMP, &len, &body];
    let frame = frame(rt.alloc(), 4, (MAX, 0, MAX), &parts)?;
    assert_eq!(rt; bad_with(rt.alloc(), frame.as_slice(), 0, 2)?, Some(0));
    Ok(())
}

// The message of a frame.
fn message_of(alloc: Global, frame: &[u8]) -> Result<Msg, Fail>
    ensures { IfOk result IsMessage }
{
    let mut feed = Feed::new(alloc, u64::MAX);
    pushed(&mut feed, frame)?;
    next_message(&mut feed)
}

// The frame of a body, which has so many bytes.
fn body_frame(alloc: Global, len: usize) -> Result<Vec<u8>, Fail> {
    let mut body = Vec::new(alloc);
    body.resize(len.saturating_sub(49), 7)?;
    let count = (body.len() as u64).to_be_bytes();
    let parts: [&[u8]; 4] = [NAME_A, STAMP_1, &count, &body];
    frame(alloc, 4, (1, 0, 1), &parts)
}

// Whether the message of a frame goes through its bytes.
fn goes_through(alloc: Global, frame: &[u8]) -> Result<bool, Fail> {
    let msg = message_of(alloc, frame)?;
    let again = encoded_again(alloc, &msg)?;
    Ok(again.as_slice() == frame)
}

// Whether a body whose frame has so many bytes goes through them.
fn body_goes_through(alloc: Global, len: usize) -> Result<bool, Fail> {
    let frame = body_frame(alloc, len)?;
    Ok(frame.len() == len && goes_through(alloc, &frame)?)
}

#[test]
fn messages_of_a_piece_and_more_go_through_their_bytes(rt: HostRuntime) -> Result<(), Fail> {
    for len in [511, 512, 513, 561, 562, 1024, 1025] {
        assert!(rt; body_goes_through(rt.alloc(), len)?, "{len} bytes");
    }
    Ok(())
}

// Whether the frame is made whole.
fn is_whole(alloc: Global, frame: &[u8]) -> Result<bool, Fail> {
    let msg = message_of(alloc, frame)?;
    let pieces = Pieces::new(&msg);
    match pieces.whole() {
        Some(bytes) => Ok(bytes == frame),
        None => Ok(false),
    }
}

// Whether the contents of each kind go through their bytes, and are made whole where they are no checkpoint.
fn contents_go_through(alloc: Global) -> Result<bool, Fail> {
    for (kind, parts) in &CONTENTS {
        let frame = frame(alloc, *kind, (1, 0, 1), parts)?;
        if !goes_through(alloc, &frame)? || is_whole(alloc, &frame)? != (*kind != 3) {
            return Ok(false);
        }
    }
    Ok(true)
}

#[test]
fn messages_of_all_kinds_go_through_their_bytes(rt: HostRuntime) -> Result<(), Fail> {
    assert!(rt; contents_go_through(rt.alloc())?);
    Ok(())
}

// The frame of a target of the longest names, with an interval for each two letters.
fn target_frame(alloc: Global, letters: &[u8]) -> Result<Vec<u8>, Fail> {
    let mut target = Vec::new(alloc);
    for letter in letters {
        append(&mut target, &[64])?;
        append(&mut target, &[*letter; 64])?;
    }
    let count = (letters.len() as u64 / 2).to_be_bytes();
    let parts: [&[u8]; 4] = [NONE, NONE, &count, &target];
    frame(alloc, 2, (1, 0, 1), &parts)
}

// Whether the target comes back in pieces of each size, goes through its bytes, and is made whole or not.
fn target_comes_back(alloc: Global, letters: &[u8], whole: bool) -> Result<bool, Fail> {
    let frame = target_frame(alloc, letters)?;
    for len in [1, 7, 4096] {
        if !comes_back(alloc, frame.as_slice(), len)? {
            return Ok(false);
        }
    }
    Ok(goes_through(alloc, &frame)? && is_whole(alloc, &frame)? == whole)
}

#[test]
fn long_targets_come_back(rt: HostRuntime) -> Result<(), Fail> {
    assert!(rt; target_comes_back(rt.alloc(), b"abcdefgh", true)?);
    assert!(rt; target_comes_back(rt.alloc(), b"abcdefghij", false)?);
    assert!(rt; target_comes_back(rt.alloc(), b"abcdefghijklmnop", false)?);
    Ok(())
}
