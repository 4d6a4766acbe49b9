ghost use Rattle.pr_inval.specs.Messages.{IsMessage};
ghost use Rattle.pr_keep.specs.Entries.{HasMessage};
ghost use Rattle.pr_keep.specs.Keeping.{Keeps};
ghost use Rattle.pr_keep.specs.Memory.{IsImage, state_of};
ghost use Rattle.pr_story.specs.declared.entry.Entry.{Entry};
ghost use Rattle.std.specs.Prelude.{◌≡◌, ℕ, List, [], IfSome, IsTrue};

use crate::reading::whole_entry;
use crate::spelling::append_entry;
use crate::{Disk, Keep, KeepFault, MemoryDisk};
use pr_inval::{Bytes, Msg, WriteRec};
use pr_names::Name;
use pr_stamps::{Seq, Stamp};
use pr_story::{Cause, Entry, Event, Found, Reply};
use pr_vectors::{PackedVector, Vector};
use pr_wire::{Feed, Next};
use std::alloc::Global;

// A precise invalidation of a/x.
const FRAME: [u8; 56] = [
    2, 0, 0, 0, 0, 0, 0, 0, 47, 1, 0, 0, 0, 0, 0, 0, 0, 2, 0, 0, 0, 0, 0, 0, 0, 0, 0, 0, 0, 1, 0,
    1, 0, 0, 0, 0, 0, 0, 0, 0, 1, 3, 97, 47, 120, 0, 0, 0, 0, 0, 0, 0, 1, 0, 0, 0,
];

// What a test needs is made in short functions, which answer `None` where there is no memory or a value is refused.

fn message(alloc: Global) -> Option<Msg>
    ensures { IfSome result IsMessage }
{
    let mut feed = Feed::new(alloc, u64::MAX);
    feed.push(&FRAME).ok()?;
    match feed.next() {
        Ok(Next::Message(msg)) => Some(msg),
        _ => None,
    }
}

fn name() -> Option<Name> {
    Name::read(b"a/x").ok()
}

fn zero(alloc: Global) -> Option<PackedVector> {
    PackedVector::of(alloc, &Vector::zero()).ok()
}

fn text(alloc: Global) -> Option<Bytes> {
    Seq::copied(alloc, b"hi").ok()
}

// ---- entries that come back

// Whether these bytes are read as an entry of node 3.
fn is_read(alloc: Global, bytes: &[u8]) -> bool {
    match whole_entry(alloc, bytes) {
        Ok((node, entry)) => is_third(node, &entry),
        Err(_) => false,
    }
}

fn is_third(node: u32, entry: &Entry) -> bool {
    node == 3 && entry.time == 5 && entry.caller == 7
}

// Whether the entry of the event is read again from its spelling, which has this kind.
fn comes_back(alloc: Global, kind: u8, event: Event) -> Option<bool>
    requires { HasMessage event }
{
    let entry = Entry {
        time: 5,
        caller: 7,
        event,
    };
    is_spelled(alloc, kind, &entry)
}

fn is_spelled(alloc: Global, kind: u8, entry: &Entry) -> Option<bool>
    requires { HasMessage entry.now.event }
{
    let mut out = Seq::new(alloc);
    append_entry(3, entry, &mut out).ok()?;
    let bytes = out.as_slice();
    Some(bytes.len() > 13 && bytes[13] == kind && is_read(alloc, bytes))
}

fn wrote(alloc: Global) -> Option<Event>
    ensures { IfSome result HasMessage }
{
    let write = WriteRec {
        name: name()?,
        stamp: Stamp::new(4, 1)?,
        prev: Some(Stamp::new(4, 2)?),
        gone: true,
    };
    Some(Event::Wrote {
        client: 1,
        write,
        body: text(alloc)?,
        after: zero(alloc)?,
    })
}

fn attached(alloc: Global) -> Option<bool> {
    let at = zero(alloc)?;
    comes_back(alloc, 2, Event::Attached { stream: 1, at })
}

fn stale(alloc: Global) -> Option<bool> {
    let cut = zero(alloc)?;
    comes_back(alloc, 5, Event::Stale { stream: 1, cut })
}

fn streams_come_back(alloc: Global) -> Option<bool> {
    Some(
        comes_back(alloc, 1, wrote(alloc)?)?
            && attached(alloc)?
            && comes_back(alloc, 4, Event::Idle { stream: 1 })?
            && stale(alloc)?,
    )
}

#[test]
fn events_of_writes_and_streams_come_back(rt: HostRuntime) {
    assert!(rt; streams_come_back(rt.alloc()).unwrap_or(false));
}

fn sent(alloc: Global) -> Option<bool> {
    let msg = message(alloc)?;
    comes_back(alloc, 3, Event::Sent { msg })
}

fn accepted(alloc: Global) -> Option<bool> {
    let (msg, at) = (message(alloc)?, zero(alloc)?);
    comes_back(alloc, 6, Event::Accepted { msg, at })
}

fn gapped(alloc: Global) -> Option<bool> {
    let (msg, has) = (message(alloc)?, zero(alloc)?);
    comes_back(alloc, 7, Event::Gapped { msg, has })
}

fn messages_come_back(alloc: Global) -> Option<bool> {
    Some(sent(alloc)? && accepted(alloc)? && gapped(alloc)?)
}

#[test]
fn events_with_messages_come_back(rt: HostRuntime) {
    assert!(rt; messages_come_back(rt.alloc()).unwrap_or(false));
}

fn missing() -> Event
    ensures { HasMessage result }
{
    Event::Missing {
        stream: 1,
        number: 2,
    }
}

fn behind(alloc: Global) -> Option<Event>
    ensures { IfSome result HasMessage }
{
    Some(Event::Behind {
        client: 1,
        needs: zero(alloc)?,
        has: zero(alloc)?,
    })
}

fn flows_come_back(alloc: Global) -> Option<bool> {
    let cause = Cause::Gap;
    Some(
        comes_back(alloc, 8, missing())?
            && comes_back(alloc, 9, Event::Down { stream: 1, cause })?
            && comes_back(alloc, 15, Event::Moved { client: 1 })?
            && comes_back(alloc, 16, behind(alloc)?)?,
    )
}

#[test]
fn events_of_flows_and_clients_come_back(rt: HostRuntime) {
    assert!(rt; flows_come_back(rt.alloc()).unwrap_or(false));
}

// Whether this answer to a client's read of a/x comes back.
fn is_answer(alloc: Global, reply: Reply) -> Option<bool> {
    let event = Event::Answered {
        client: 1,
        name: name()?,
        reply,
        at: zero(alloc)?,
    };
    comes_back(alloc, 10, event)
}

fn is_value(alloc: Global, stamp: Stamp) -> Option<bool> {
    let bytes = text(alloc)?;
    is_answer(alloc, Reply::Value { stamp, bytes })
}

fn are_answers(alloc: Global) -> Option<bool> {
    let stamp = Stamp::new(4, 1)?;
    Some(
        is_answer(alloc, Reply::Never)?
            && is_value(alloc, stamp)?
            && is_answer(alloc, Reply::Imprecise { untold: stamp })?
            && is_answer(alloc, Reply::Gone { stamp })?,
    )
}

#[test]
fn answers_come_back(rt: HostRuntime) {
    assert!(rt; are_answers(rt.alloc()).unwrap_or(false));
}

fn conflicts(alloc: Global) -> Option<bool> {
    let (name, pair) = (name()?, (Stamp::new(4, 1)?, Stamp::new(5, 2)?));
    let found = Found::Pairs(Seq::copied(alloc, &[pair]).ok()?);
    comes_back(alloc, 13, Event::Conflicts { name, found })
}

fn state(alloc: Global) -> Option<bool> {
    let event = Event::State {
        at: zero(alloc)?,
        cut: zero(alloc)?,
        floor: zero(alloc)?,
        precise: Seq::copied(alloc, &[Vector::zero(), Vector::zero()]).ok()?,
    };
    comes_back(alloc, 14, event)
}

fn cut(alloc: Global) -> Option<bool> {
    let at = zero(alloc)?;
    comes_back(alloc, 11, Event::Cut { at })
}

fn nodes_come_back(alloc: Global) -> Option<bool> {
    let name = name()?;
    Some(
        cut(alloc)?
            && comes_back(alloc, 12, Event::Dropped { name })?
            && conflicts(alloc)?
            && state(alloc)?,
    )
}

#[test]
fn events_of_nodes_come_back(rt: HostRuntime) {
    assert!(rt; nodes_come_back(rt.alloc()).unwrap_or(false));
}

// ---- the format

// A client came to node 3, by the format's own words.
const MOVED: [u8; 18] = [3, 0, 0, 0, 0, 0, 0, 0, 5, 0, 0, 0, 7, 15, 0, 0, 0, 9];

fn moved() -> Entry
    ensures { HasMessage result.event }
{
    Entry {
        time: 5,
        caller: 7,
        event: Event::Moved { client: 9 },
    }
}

fn has_the_bytes(alloc: Global) -> Option<bool> {
    let mut out = Seq::new(alloc);
    append_entry(3, &moved(), &mut out).ok()?;
    Some(out.as_slice() == MOVED.as_slice())
}

#[test]
fn an_entry_has_the_bytes_of_the_format(rt: HostRuntime) {
    assert!(rt; has_the_bytes(rt.alloc()).unwrap_or(false));
}

// ---- a disk that stops

// How many entries a disk in memory has, or None where it stands for no list.
fn entries_of(alloc: Global, disk: MemoryDisk) -> Option<usize> {
    match Keep::open(alloc, disk) {
        Ok((_, entries)) => Some(entries.len()),
        Err(_) => None,
    }
}

// Keeps two entries on an empty disk that stops after so many calls, and hands out the disk.
fn kept_until(alloc: Global, stop: u64) -> MemoryDisk {
    let mut keep = match Keep::format(alloc, MemoryDisk::new(alloc, stop)) {
        Ok(keep) => keep,
        Err(refused) => return refused.disk,
    };
    if keep.append(3, &moved()).is_err() {
        return keep.close();
    }
    let _ = keep.append(3, &moved());
    keep.close()
}

// How many entries there are after a stop at each call, from the first on.
const FOUND: [Option<usize>; 11] = [
    None,
    None,
    Some(0),
    Some(0),
    Some(0),
    Some(0),
    Some(1),
    Some(1),
    Some(1),
    Some(1),
    Some(2),
];

fn leaves(alloc: Global, stop: u64, entries: Option<usize>) -> bool {
    let disk = kept_until(alloc, stop);
    disk.good() == stop && entries_of(alloc, disk.image()) == entries
}

#[test]
fn a_stop_leaves_the_entries_that_were_kept(rt: HostRuntime) {
    for (stop, entries) in FOUND.iter().enumerate() {
        assert!(rt; leaves(rt.alloc(), stop as u64, *entries));
    }
}

// ---- a damaged file

// Where a file of these bytes is damaged.
fn damaged_at(alloc: Global, bytes: &[u8]) -> Option<Option<u64>> {
    let mut disk = MemoryDisk::new(alloc, u64::MAX);
    disk.write(0, bytes).ok()?;
    match Keep::open(alloc, disk) {
        Ok(_) => Some(None),
        Err(refused) => match refused.fault {
            KeepFault::Damaged { at } => Some(Some(at)),
            _ => None,
        },
    }
}

fn are_damaged(alloc: Global) -> Option<bool> {
    Some(
        damaged_at(alloc, b"PRACTIK2\0")? == Some(0)
            && damaged_at(alloc, b"PRACTIK1")? == Some(8)
            && damaged_at(alloc, b"PRACTIK1\x01\0\0")? == Some(8)
            && damaged_at(alloc, b"PRACTIK1\0\x01")? == None
            && damaged_at(alloc, b"PRACTIK1\x07")? == None,
    )
}

#[test]
fn a_damaged_file_is_told_by_its_first_wrong_byte(rt: HostRuntime) {
    assert!(rt; are_damaged(rt.alloc()).unwrap_or(false));
}
