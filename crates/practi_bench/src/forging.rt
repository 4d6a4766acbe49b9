// The messages that tell of a write.
ghost use Rattle.pr_inval.specs.Messages.{IsKind, IsMessage, IsWrite};
ghost use Rattle.pr_stamps.specs.Point.{IsPrev};
ghost use Rattle.pr_vectors.specs.Vector.{IsVector, Le};
ghost use Rattle.std.specs.Prelude.{IfOk, IsTrue};

use crate::failed::Failed;
use crate::naming::set_of;
use crate::writers::Told;
use pr_inval::{Kind, Msg, WriteRec};
use pr_names::Name;
use pr_stamps::{Seq, Stamp};
use pr_vectors::{PackedVector, Vector};
use std::alloc::Global;

/// The precise invalidation of the write.
pub fn precise(alloc: Global, told: &Told) -> Result<Msg, Failed>
    ensures { IfOk result IsMessage }
{
    let Told { from, to, write } = told;
    if !rises(from, to) {
        return Err(Failed);
    }
    if !is_write(from, to, write) {
        return Err(Failed);
    }
    let kind = Kind::Precise {
        from: PackedVector::of(alloc, from)?,
        to: PackedVector::of(alloc, to)?,
        write: *write,
    };
    Ok(message(&write.stamp, kind))
}

/// An imprecise invalidation whose target is the written name alone.
pub fn imprecise(alloc: Global, told: &Told) -> Result<Msg, Failed>
    ensures { IfOk result IsMessage }
{
    let Told { from, to, write } = told;
    if !rises(from, to) {
        return Err(Failed);
    }
    let target = set_of(alloc, &write.name)?;
    let _ = target.parts();
    let kind = Kind::Imprecise {
        from: PackedVector::of(alloc, from)?,
        to: PackedVector::of(alloc, to)?,
        target,
    };
    Ok(message(&write.stamp, kind))
}

/// The body of the write with this name and stamp.
pub fn body(alloc: Global, name: &Name, stamp: &Stamp) -> Result<Msg, Failed>
    ensures { IfOk result IsMessage }
{
    let _ = name.bytes();
    let _ = stamp.clock();
    let kind = Kind::Body {
        name: *name,
        stamp: *stamp,
        bytes: Seq::copied(alloc, b"0123456789")?,
    };
    Ok(message(stamp, kind))
}

// A message that has the clock of the write as its time and number.
fn message(stamp: &Stamp, kind: Kind) -> Msg
    requires { IsKind kind }
    ensures { IsMessage result }
{
    Msg {
        time: stamp.clock(),
        stream: 0,
        number: stamp.clock(),
        kind,
    }
}

// ---- the grammar

fn rises(from: &Vector, to: &Vector) -> bool
    ensures from { IsVector from.now }
    ensures to { IsVector to.now }
    ensures rises { IsTrue result → Le from.now to.now }
{
    let _ = from.at(0);
    let _ = to.at(0);
    from.le(to)
}

// Whether the write lies between the vectors, behind what it is over.
fn is_write(from: &Vector, to: &Vector, write: &WriteRec) -> bool
    ensures { IsTrue result → IsWrite from.now to.now write.now }
{
    let _ = write.name.bytes();
    let _ = write.stamp.clock();
    let _ = from.at(0);
    let _ = to.at(0);
    if !is_prev(&write.prev, &write.stamp) {
        return false;
    }
    if from.covers(&write.stamp) {
        return false;
    }
    to.covers(&write.stamp)
}

fn is_prev(prev: &Option<Stamp>, stamp: &Stamp) -> bool
    ensures { IsTrue result → IsPrev prev.now stamp.now }
{
    match prev {
        Some(prev) => {
            let _ = prev.clock();
            prev.is_before(stamp)
        }
        None => true,
    }
}
