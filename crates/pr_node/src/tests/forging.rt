// Messages that nobody sent.
ghost use Rattle.pr_inval.specs.Messages.{IsKind, IsMessage, IsWrite};
ghost use Rattle.pr_stamps.specs.Point.{IsPrev};
ghost use Rattle.std.specs.Prelude.{IfSome, IsTrue};

use crate::ranges::{kind_in_range, write_in_range};
use crate::tests::building::{name, set, vector};
use crate::tests::call::{At, Clocks, Forgery};
use pr_inval::{Kind, Msg, WriteRec};
use pr_stamps::{MAX, Seq, Stamp};
use pr_vectors::{PackedVector, Vector};
use std::alloc::Global;

// A message that nobody sent, if it is one of the grammar.
pub fn forged(alloc: Global, time: u64, forgery: &Forgery<'_>) -> Option<Msg>
    ensures { IfSome result IsMessage }
{
    let msg = Msg {
        time,
        stream: 0,
        number: 1,
        kind: kind(alloc, forgery)?,
    };
    if is_of_grammar(&msg) { Some(msg) } else { None }
}

fn kind(alloc: Global, forgery: &Forgery<'_>) -> Option<Kind> {
    match forgery {
        Forgery::Precise(o, at, prev, from, to) => Some(Kind::Precise {
            from: packed(alloc, from)?,
            to: packed(alloc, to)?,
            write: write(o, at, prev)?,
        }),
        Forgery::Imprecise(target, from, to) => Some(Kind::Imprecise {
            from: packed(alloc, from)?,
            to: packed(alloc, to)?,
            target: set(alloc, target)?,
        }),
        Forgery::Body(o, at, bytes) => Some(Kind::Body {
            name: name(o)?,
            stamp: stamp(at)?,
            bytes: Seq::copied(alloc, bytes).ok()?,
        }),
    }
}

fn packed(alloc: Global, clocks: &Clocks) -> Option<PackedVector> {
    PackedVector::of(alloc, &vector(clocks)).ok()
}

fn write(o: &[u8], at: &At, prev: &Option<At>) -> Option<WriteRec> {
    let prev = match prev {
        Some(prev) => Some(stamp(prev)?),
        None => None,
    };
    Some(WriteRec {
        name: name(o)?,
        stamp: stamp(at)?,
        prev,
        gone: false,
    })
}

fn stamp(at: &At) -> Option<Stamp> {
    Stamp::new(at.0, at.1)
}

// ---- the grammar

// Whether the message is one of the grammar. Checkpoints are left out.
fn is_of_grammar(msg: &Msg) -> bool
    ensures { IsTrue result → IsMessage msg.now }
{
    if msg.time == 0 {
        return false;
    }
    if msg.time > MAX {
        return false;
    }
    if msg.number == 0 {
        return false;
    }
    if msg.number > MAX {
        return false;
    }
    is_kind(&msg.kind)
}

fn is_kind(kind: &Kind) -> bool
    ensures { IsTrue result → IsKind kind.now }
{
    kind_in_range(kind);
    match kind {
        Kind::Precise { from, to, write } => {
            from.le(&to.get()) && is_write(&from.get(), &to.get(), write)
        }
        Kind::Imprecise { from, to, .. } => from.le(&to.get()),
        Kind::Body { bytes, .. } => bytes.len() <= 65536,
        Kind::Checkpoint { .. } => false,
    }
}

// Whether the write lies between the vectors, behind what it is over.
fn is_write(from: &Vector, to: &Vector, write: &WriteRec) -> bool
    ensures { IsTrue result → IsWrite from.now to.now write.now }
{
    write_in_range(write);
    let _ = from.at(0);
    let _ = to.at(0);
    if !is_prev(&write.prev, &write.stamp) {
        return false;
    }
    if from.covers(&write.stamp) {
        return false;
    }
    to.covers(&write.stamp)
}

fn is_prev(prev: &Option<Stamp>, stamp: &Stamp) -> bool
    ensures { IsTrue result → IsPrev prev.now stamp.now }
{
    match prev {
        Some(prev) => {
            let _ = prev.clock();
            prev.is_before(stamp)
        }
        None => true,
    }
}
