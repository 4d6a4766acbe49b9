// Fields by themselves, and the content of a frame.

use crate::tests::FRAME_1;
use crate::{
    Cursor, Fault, Format, append_eight, append_four, append_name, append_set, append_stamp,
    append_vector, message,
};
use pr_inval::{Bytes, Kind, Msg};
use pr_names::{Interval, Name};
use pr_sets::NameSet;
use pr_stamps::{NoMemory, Seq, Stamp};
use pr_vectors::Vector;
use std::alloc::Global;
use std::test::Fail;

// Two numbers in 4 and in 8 bytes.
const NUMBERS: [u8; 12] = [1, 2, 3, 4, 1, 0, 0, 0, 0, 0, 0, 5];

fn numbers_appended(alloc: Global) -> Result<Bytes, NoMemory> {
    let mut out = Seq::new(alloc);
    append_four(0x0102_0304, &mut out)?;
    append_eight(0x0100_0000_0000_0005, &mut out)?;
    Ok(out)
}

fn are_numbers_read(bytes: &[u8]) -> Result<bool, Fault> {
    let mut cursor = Cursor { rest: bytes };
    Ok(cursor.four()? == 0x0102_0304 && cursor.eight()? == 0x0100_0000_0000_0005)
}

#[test]
fn numbers_are_appended_and_read(rt: HostRuntime) -> Result<(), Fail> {
    let out = numbers_appended(rt.alloc()).ok().ok_or("no memory")?;
    assert_eq!(rt; out.as_slice(), NUMBERS.as_slice());
    assert_eq!(rt; are_numbers_read(&NUMBERS), Ok(true));
    Ok(())
}

// The content of a frame, which has a head of 9 bytes, as one message.
fn content_of(alloc: Global, frame: &[u8]) -> Result<Msg, Fault> {
    let content = frame.get(9..).ok_or(Fault::Bad)?;
    message(alloc, Format::One, content)
}

#[test]
fn content_is_read_without_its_head(rt: HostRuntime) -> Result<(), Fail> {
    let msg = content_of(rt.alloc(), &FRAME_1).ok().ok_or("a message")?;
    assert_eq!(rt; (msg.time, msg.stream, msg.number), (2, 0, 1));
    assert!(rt; matches!(&msg.kind, Kind::Precise { .. }));
    Ok(())
}

// The name a/x, the stamp 3@1, the vector of it, and the set of b/*.
const FIELDS: [u8; 37] = [
    3, 97, 47, 120, 0, 0, 0, 0, 0, 0, 0, 3, 1, 1, 1, 0, 0, 0, 0, 0, 0, 0, 3, 0, 0, 0, 0, 0, 0, 0,
    1, 2, 98, 47, 2, 98, 48,
];

fn appended(alloc: Global, name: &Name, stamp: &Stamp, set: &NameSet) -> Result<Bytes, NoMemory> {
    let mut vector = Vector::zero();
    vector.raise(stamp);
    let mut out = Seq::new(alloc);
    append_name(name, &mut out)?;
    append_stamp(stamp, &mut out)?;
    append_vector(&vector, &mut out)?;
    append_set(set, &mut out)?;
    Ok(out)
}

// Whether the bytes are fields of the name and the stamp, and a set of one interval.
fn are_read(alloc: Global, bytes: &[u8], name: &Name, stamp: &Stamp) -> Result<bool, Fault> {
    let mut cursor = Cursor { rest: bytes };
    let same = cursor.name()? == *name && cursor.stamp()? == *stamp;
    let vector = cursor.vector()?;
    let set = cursor.target(alloc)?;
    Ok(same && vector.at(1) == 3 && set.count() == 1 && cursor.rest.is_empty())
}

#[test]
fn fields_are_appended_and_read(rt: HostRuntime) -> Result<(), Fail> {
    let name = Name::read(b"a/x").ok().ok_or("a name")?;
    let stamp = Stamp::new(3, 1).ok_or("a stamp")?;
    let part = Interval::read(b"b/*").ok().ok_or("an interval")?;
    let set = NameSet::of(rt.alloc(), part).ok().ok_or("no memory")?;
    let out = appended(rt.alloc(), &name, &stamp, &set)
        .ok()
        .ok_or("no memory")?;
    assert_eq!(rt; out.as_slice(), FIELDS.as_slice());
    assert_eq!(rt; are_read(rt.alloc(), &FIELDS, &name, &stamp), Ok(true));
    Ok(())
}

// Whether the bytes are the vector of the stamp 3@1, read as a packed one.
fn is_packed(alloc: Global, bytes: &[u8]) -> Result<bool, Fault> {
    let mut cursor = Cursor { rest: bytes };
    let vector = cursor.packed_vector(alloc)?;
    Ok(vector.at(1) == 3 && vector.at(31) == 0 && cursor.rest.is_empty())
}

#[test]
fn vectors_are_read_packed(rt: HostRuntime) {
    assert!(rt; is_packed(rt.alloc(), &FIELDS[13..23]).unwrap_or(false));
}

// A set that says that it has the most intervals, and has one.
const FALSE_COUNT: [u8; 14] = [255, 255, 255, 255, 255, 255, 255, 255, 2, 98, 47, 2, 98, 48];

fn is_refused(alloc: Global, bytes: &[u8]) -> bool {
    let mut cursor = Cursor { rest: bytes };
    matches!(cursor.target(alloc), Err(Fault::Bad))
}

#[test]
fn a_count_is_not_believed_before_its_items_are_read(rt: HostRuntime) {
    assert!(rt; is_refused(rt.alloc(), &FALSE_COUNT));
}
