// What is done to a disk in memory.
ghost use Rattle.pr_keep.specs.Changes.{HasOverwritten, WasOver, is_pending};
ghost use Rattle.pr_keep.specs.Disk.{written};
ghost use Rattle.pr_keep.specs.Memory.{IsMade, synced_changes};
ghost use Rattle.std.specs.Prelude.{◌≡◌, ◌≤◌, ◌-◌, ℕ, List, length, min, reverse, OnErr, OnOk};

use crate::lay::lay;
use pr_stamps::{Bytes, NoMemory, Seq};
use std::alloc::Global;

/// A piece was written at a place, over these bytes; or all was synced.
#[derive(Drop)]
pub enum Change {
    Wrote {
        at: usize,
        piece: Bytes,
        over: Bytes,
    },
    Synced,
}

/// Writes a piece at a place, and adds the change. A refusal changes nothing.
pub fn overwrite(
    alloc: Global,
    bytes: &mut Vec<u8>,
    changes: &mut Vec<Change>,
    at: usize,
    piece: &[u8],
) -> Result<(), NoMemory>
    requires place { at ≤ length bytes.old.items }
    ensures ok { OnOk result (HasOverwritten bytes.old.items bytes.new.items changes.old.items changes.new.items at piece.now) }
    ensures err { OnErr result ((bytes.new.items ≡ bytes.old.items) × (changes.new.items ≡ changes.old.items)) }
{
    let inside = piece.len().min(bytes.len() - at);
    let over = Seq::copied(alloc, &bytes[at..at + inside])?;
    let copy = Seq::copied(alloc, piece)?;
    changes.reserve(1)?;
    put(bytes, at, inside, piece)?;
    let _ = changes.push(Change::Wrote {
        at,
        piece: copy,
        over,
    });
    Ok(())
}

// Puts a piece at a place, of which so many bytes lie inside. A refusal leaves the bytes.
fn put(bytes: &mut Vec<u8>, at: usize, inside: usize, piece: &[u8]) -> Result<(), NoMemory>
    requires place { at ≤ length bytes.old.items }
    requires inside { inside ≡ min (length piece.now) (length bytes.old.items - at) }
    ensures ok { OnOk result (bytes.new.items ≡ written at piece.now bytes.old.items) }
    ensures err { OnErr result (bytes.new.items ≡ bytes.old.items) }
{
    bytes.extend_from_slice(&piece[inside..])?;
    lay(bytes, at, &piece[..inside]);
    Ok(())
}

/// Undoes what was done since the last sync, in time linear in it.
pub fn undo_all(bytes: &mut Vec<u8>, changes: &mut Vec<Change>)
    requires { IsMade bytes.old.items (reverse changes.old.items) }
    ensures made { IsMade bytes.new.items (reverse changes.new.items) }
    ensures changes { reverse changes.new.items ≡ synced_changes (reverse changes.old.items) }
{
    while is_pending(changes) {
        if let Some(Change::Wrote { at, piece, over }) = changes.pop() {
            undo(bytes, at, piece.len(), over.as_slice());
        }
    }
}

// Whether the last change is a write.
fn is_pending(changes: &[Change]) -> bool
    ensures { result ≡ is_pending (reverse changes.now) }
{
    matches!(changes, [.., Change::Wrote { .. }])
}

// Puts back what stood at a place before so many bytes were written there.
fn undo(bytes: &mut Vec<u8>, at: usize, len: usize, over: &[u8])
    requires { (piece old : List ℕ) × WasOver bytes.old.items at piece over.now old × (length piece ≡ len) }
    ensures { (piece old : List ℕ) → WasOver bytes.old.items at piece over.now old → length piece ≡ len → bytes.new.items ≡ old }
{
    if over.len() < len {
        bytes.truncate(at + over.len());
    }
    lay(bytes, at, over);
}
