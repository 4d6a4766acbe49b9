// Reading records from a disk, in pieces.
ghost use Rattle.pr_keep.specs.Calls.{GateIs, HasCause, IsNotDamaged, IsPiece, IsUntouched, PlaceIs, RecordIs};
ghost use Rattle.pr_wire.specs.Spelling.{eight};
ghost use Rattle.std.specs.Int.{from_be_bytes, w64};
ghost use Rattle.std.specs.Prelude.{◌≡◌, ◌≤◌, ◌<◌, ◌+◌, ◌^◌, ◌∷◌, IfErr, IfOk, ℕ, drop, length, slice_index, take};

use crate::reading::whole_entry;
use crate::{Disk, KeepFault};
use pr_inval::Bytes;
use pr_stamps::Seq;
use pr_story::Entry;
use pr_wire::Fault;
use std::alloc::Global;

const PIECE: usize = 4096;

/// An entry with its node, and the place behind its record.
#[derive(Drop)]
pub struct Record {
    pub entry: (u32, Entry),
    pub next: u64,
}

// What stands where a gate has to stand: nothing, or less than the head of a record; a closed gate; or the head of a
// record, with the length of its spelling.
#[derive(Clone, Copy)]
pub enum Gate {
    Missing,
    Closed,
    Open { len: u64 },
}

/// The record at a place, or None at a closed gate, in time linear in the record. Damaged says that neither stands
/// there.
pub fn record_at<D: Disk>(alloc: Global, disk: &mut D, at: u64) -> Result<Option<Record>, KeepFault>
    requires { at ≤ length (D.state disk.old).reads }
    ensures place { PlaceIs (drop at (D.state disk.old).reads) at result }
    ensures disk { IsUntouched D.state D.images D.moment D.images_since disk.old disk.new }
    ensures cause { HasCause (D.state disk.old) (D.state disk.new) result }
{
    let head = read_some(alloc, disk, at, 9)?;
    match gate_of(head.as_slice()) {
        Gate::Missing => Err(KeepFault::Damaged { at }),
        Gate::Closed => Ok(None),
        Gate::Open { len } => {
            let record = record_behind(alloc, disk, at, len)?;
            Ok(Some(record))
        }
    }
}

// What the bytes from a gate on say.
fn gate_of(head: &[u8]) -> Gate
    requires { length head.now ≤ 9 }
    ensures { GateIs head.now result }
{
    match head {
        [] => Gate::Missing,
        [1, len @ ..] => open_gate(len),
        _ => Gate::Closed,
    }
}

// What the bytes behind an open gate say.
fn open_gate(len: &[u8]) -> Gate
    requires { length len.now ≤ 8 }
    ensures { GateIs (1 ∷ len.now) result }
{
    if len.len() < 8 {
        return Gate::Missing;
    }
    Gate::Open {
        len: number_of(len),
    }
}

// The number that 8 bytes spell, the highest first.
fn number_of(bytes: &[u8]) -> u64
    requires { length bytes.now ≡ 8 }
    ensures value { result ≡ from_be_bytes w64 bytes.now }
    ensures bytes { (i : ℕ) → slice_index bytes.now i < 256 }
{
    u64::from_be_bytes([
        bytes[0], bytes[1], bytes[2], bytes[3], bytes[4], bytes[5], bytes[6], bytes[7],
    ])
}

// The record whose head stands at a place.
fn record_behind<D: Disk>(
    alloc: Global,
    disk: &mut D,
    at: u64,
    len: u64,
) -> Result<Record, KeepFault>
    requires head { take 9 (drop at (D.state disk.old).reads) ≡ 1 ∷ eight len }
    requires place { at + 9 < 2 ^ 64 }
    ensures record { RecordIs (drop at (D.state disk.old).reads) at result }
    ensures disk { IsUntouched D.state D.images D.moment D.images_since disk.old disk.new }
    ensures cause { HasCause (D.state disk.old) (D.state disk.new) result }
{
    let text = read_some(alloc, disk, at + 9, len)?;
    if (text.len() as u64) < len {
        return Err(KeepFault::Damaged { at });
    }
    match whole_entry(alloc, text.as_slice()) {
        Ok(entry) => Ok(Record {
            entry,
            next: at + 9 + len,
        }),
        Err(Fault::NoMemory) => Err(KeepFault::NoMemory),
        Err(Fault::Bad) => Err(KeepFault::Damaged { at }),
    }
}

/// So many bytes from a place on, or all that there are, in time linear in them.
pub fn read_some<D: Disk>(
    alloc: Global,
    disk: &mut D,
    at: u64,
    len: u64,
) -> Result<Bytes, KeepFault>
    requires { at ≤ length (D.state disk.old).reads }
    ensures bytes { IfOk result (λ bytes. bytes ≡ take len (drop at (D.state disk.old).reads)) }
    ensures fits { IfOk result (λ bytes. at + length bytes < 2 ^ 64) }
    ensures fault { IfErr result IsNotDamaged }
    ensures disk { IsUntouched D.state D.images D.moment D.images_since disk.old disk.new }
    ensures cause { HasCause (D.state disk.old) (D.state disk.new) result }
{
    let mut bytes = Seq::new(alloc);
    while (bytes.len() as u64) < len {
        let done = bytes.len() as u64;
        if read_piece(disk, at + done, len - done, &mut bytes)? == 0 {
            return Ok(bytes);
        }
    }
    Ok(bytes)
}

// Adds at most so many bytes from a place on, and answers their number, which is 0 only at the end.
fn read_piece<D: Disk>(
    disk: &mut D,
    at: u64,
    most: u64,
    bytes: &mut Bytes,
) -> Result<usize, KeepFault>
    requires place { at ≤ length (D.state disk.old).reads }
    requires some { 0 < most }
    ensures bytes { IfOk result (IsPiece (D.state disk.old).reads at most bytes.old bytes.new) }
    ensures fault { IfErr result IsNotDamaged }
    ensures disk { IsUntouched D.state D.images D.moment D.images_since disk.old disk.new }
    ensures cause { HasCause (D.state disk.old) (D.state disk.new) result }
{
    let mut piece = [0; PIECE];
    let len = most.min(PIECE as u64) as usize;
    let count = disk.read(at, &mut piece[..len])?;
    bytes.extend(&piece[..count])?;
    Ok(count)
}
