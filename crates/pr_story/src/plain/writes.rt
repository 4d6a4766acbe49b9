// Known writes, and the next one that a stream has to send.
ghost use Rattle.pr_inval.specs.declared.write_rec.WriteRec.{WriteRec};
ghost use Rattle.pr_story.specs.Knowledge.{TellsOf};
ghost use Rattle.pr_story.specs.Search.{IsKnownAt, IsLesserWrite, IsNextOf, IsWriteIn};
ghost use Rattle.pr_story.specs.Turns.{IsWriteToSend};
ghost use Rattle.pr_story.specs.declared.entry.Entry.{Entry};
ghost use Rattle.pr_sets.specs.Spans.{has};
ghost use Rattle.pr_vectors.specs.Vector.{Covers};
ghost use Rattle.std.specs.Prelude.{◌≡◌, ◌∷◌, ◌↔◌, IsTrue, List, Some, reverse};

use crate::{Entry, Event};
use pr_inval::{Kind, WriteRec};
use pr_sets::NameSet;
use pr_stamps::Stamp;
use pr_vectors::Vector;

// The write that the event tells its node of.
pub fn write_in(event: &Event) -> Option<WriteRec>
    ensures { IsWriteIn event.now result }
{
    match event {
        Event::Wrote { write, .. } => Some(*write),
        Event::Accepted { msg, .. } => match &msg.kind {
            Kind::Precise { write, .. } => Some(*write),
            _ => None,
        },
        _ => None,
    }
}

// The known write with this stamp, where this entry follows.
fn known_after(entry: &Entry, stamp: &Stamp, known: &Option<WriteRec>) -> Option<WriteRec>
    ensures { (j : List Entry) → IsKnownAt j stamp.now known.now → IsKnownAt (entry.now ∷ j) stamp.now result }
{
    match (known, write_in(&entry.event)) {
        (None, Some(write)) if write.stamp == *stamp => Some(write),
        _ => *known,
    }
}

/// The write with this stamp that the node knows: the first that it was told of. One pass.
pub fn known_write(entries: &[Entry], stamp: &Stamp) -> Option<WriteRec>
    ensures { IsKnownAt (reverse entries.now) stamp.now result }
{
    let mut known = None;
    for entry in entries {
        known = known_after(entry, stamp, &known);
    }
    known
}

// Whether the write is to one of the names and past the position.
fn is_to_send(write: &WriteRec, names: &NameSet, position: &Vector) -> bool
    ensures { IsTrue result ↔ (IsTrue (has names.now write.now.name) × ¬ Covers position.now write.now.stamp) }
{
    names.has(&write.name) && !position.covers(&write.stamp)
}

// The write that the event tells of, if it is to be sent.
fn to_send(entries: &[Entry], event: &Event, names: &NameSet, position: &Vector) -> Option<WriteRec>
    ensures some { (x : WriteRec) → result ≡ Some x → IsWriteToSend (reverse entries.now) names.now position.now x }
    ensures all { (x : WriteRec) → TellsOf event.now x → IsWriteToSend (reverse entries.now) names.now position.now x → result ≡ Some x }
{
    let told = write_in(event)?;
    let write = known_write(entries, &told.stamp)?;
    if is_to_send(&write, names, position) {
        Some(write)
    } else {
        None
    }
}

// The write with the lesser stamp.
fn lesser(a: &Option<WriteRec>, b: &Option<WriteRec>) -> Option<WriteRec>
    ensures { IsLesserWrite a.now b.now result }
{
    match (a, b) {
        (None, _) => *b,
        (_, None) => *a,
        (Some(x), Some(y)) => { if y.stamp.is_before(&x.stamp) { *b } else { *a } }
    }
}

/// The known write to one of the names, past the position, with the least stamp. It reads the list once for each entry.
pub fn next_write(entries: &[Entry], names: &NameSet, position: &Vector) -> Option<WriteRec>
    ensures { IsNextOf (reverse entries.now) names.now position.now result }
{
    let mut next = None;
    for entry in entries {
        let here = to_send(entries, &entry.event, names, position);
        next = lesser(&next, &here);
    }
    next
}
