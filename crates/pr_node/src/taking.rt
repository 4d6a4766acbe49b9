// What a message changes of the stores.
ghost use Rattle.pr_inval.specs.Points.{from_of};
ghost use Rattle.pr_inval.specs.declared.kind.Kind.TheVariants.{Body, Checkpoint, Imprecise, Precise};
ghost use Rattle.pr_bodies.specs.Bodies.{IsSettled};
ghost use Rattle.pr_node.specs.Taking.{AreSettled, HasTaken, IsBodyTaken, IsGap, IsLate, LeavesBodies};
ghost use Rattle.pr_vectors.specs.Vector.{Le};
ghost use Rattle.pr_inval.specs.Messages.{IsKind};
ghost use Rattle.pr_log.specs.Log.{IsRefined, Knows};
ghost use Rattle.pr_marks.specs.Table.{IsMarked};
ghost use Rattle.pr_story.specs.Knowledge.{mark_of};
ghost use Rattle.std.specs.Prelude.{◌≡◌, ◌↔◌, false, true, None, Some, IsTrue, MatchOption, OnOk};

use crate::Stores;
use crate::writing::mark_of;
use pr_bodies::Bodies;
use pr_inval::{Kind, Row, WriteRec};
use pr_log::Log;
use pr_marks::{Marks, Newest};
use pr_names::Name;
use pr_sets::NameSet;
use pr_stamps::{NoMemory, Stamp};
use pr_vectors::{PackedVector, Vector};
use std::alloc::Global;

// The start of an invalidation whose points do not follow what a node with this vector was told.
pub fn gap<'a>(kind: &'a Kind, has: &Vector) -> Option<&'a PackedVector>
    ensures { MatchOption result (IsGap kind.now has.now None) (λ needs. IsGap kind.now has.now (Some needs.now)) }
{
    match kind {
        Kind::Precise { from, .. } | Kind::Imprecise { from, .. } => {
            if from.le(has) { None } else { Some(from) }
        }
        Kind::Checkpoint { .. } | Kind::Body { .. } => None,
    }
}

// The stores take a message that has no gap.
pub fn take(alloc: Global, stores: &mut Stores, kind: &Kind) -> Result<(), NoMemory>
    requires grammar { IsKind kind.now }
    requires log { Le (from_of kind.now) stores.old.log.vector }
    requires gaps { stores.old.gaps.vector ≡ stores.old.log.vector }
    ensures taken { OnOk result (HasTaken stores.old stores.new kind.now) }
    ensures bodies { OnOk result (LeavesBodies stores.old stores.new kind.now) }
    ensures sets { stores.new.gaps.sets ≡ stores.old.gaps.sets }
{
    match kind {
        Kind::Precise { from, to, write } => take_precise(alloc, stores, from, to, write),
        Kind::Imprecise { from, to, target } => take_imprecise(stores, from, to, target),
        Kind::Checkpoint {
            to,
            target,
            floor,
            rows,
        } => take_checkpoint(stores, to, target, floor, rows.as_slice()),
        Kind::Body { name, stamp, bytes } => take_body(stores, name, stamp, bytes.as_slice()),
    }
}

fn take_precise(
    alloc: Global,
    stores: &mut Stores,
    from: &PackedVector,
    to: &PackedVector,
    write: &WriteRec,
) -> Result<(), NoMemory>
    requires grammar { IsKind (Precise from.now to.now write.now) }
    requires log { Le from.now stores.old.log.vector }
    requires gaps { stores.old.gaps.vector ≡ stores.old.log.vector }
    ensures taken { OnOk result (HasTaken stores.old stores.new (Precise from.now to.now write.now)) }
    ensures bodies { OnOk result (LeavesBodies stores.old stores.new (Precise from.now to.now write.now)) }
    ensures sets { stores.new.gaps.sets ≡ stores.old.gaps.sets }
{
    let none = NameSet::empty(alloc);
    let known = stores.log.knows(write);
    refine(&mut stores.log, from, to, &none, write, known)?;
    stores.gaps.cover(from, to, &none)?;
    settle(&mut stores.bodies, write, known);
    mark(&mut stores.marks, write, known)?;
    Ok(())
}

// A write that was known before is looked up no more.
fn refine(
    log: &mut Log,
    from: &PackedVector,
    to: &PackedVector,
    target: &NameSet,
    write: &WriteRec,
    known: bool,
) -> Result<(), NoMemory>
    requires span { Le from.now to.now }
    requires from { Le from.now log.old.vector }
    requires known { known ≡ true → Knows log.old write.now }
    ensures ok { OnOk result (IsRefined log.old log.new from.now to.now target.now (Some write.now)) }
{
    if known {
        log.refine(from, to, target, None)?;
        return Ok(());
    }
    log.refine(from, to, target, Some(write))?;
    Ok(())
}

// The name's older bodies are of no more use, so they are dropped. A write that was known before has had that done, and
// since then no such body was held.
fn settle(bodies: &mut Bodies, write: &WriteRec, known: bool)
    ensures known { known ≡ true → bodies.new ≡ bodies.old }
    ensures new { known ≡ false → IsSettled bodies.old bodies.new write.now.name write.now.stamp }
{
    if !known {
        bodies.settle(&write.name, &write.stamp);
    }
}

// The mark of a write that was known before stands already.
fn mark(marks: &mut Marks, write: &WriteRec, known: bool) -> Result<(), NoMemory>
    ensures known { known ≡ true → marks.new ≡ marks.old }
    ensures new { OnOk result (known ≡ false → IsMarked marks.old marks.new write.now.name (mark_of write.now) write.now.gone) }
{
    if known {
        return Ok(());
    }
    marks.add(&write.name, &mark_of(write), write.gone)?;
    Ok(())
}

fn take_imprecise(
    stores: &mut Stores,
    from: &PackedVector,
    to: &PackedVector,
    target: &NameSet,
) -> Result<(), NoMemory>
    requires grammar { IsKind (Imprecise from.now to.now target.now) }
    requires log { Le from.now stores.old.log.vector }
    requires gaps { stores.old.gaps.vector ≡ stores.old.log.vector }
    ensures taken { OnOk result (HasTaken stores.old stores.new (Imprecise from.now to.now target.now)) }
    ensures bodies { OnOk result (stores.new.bodies ≡ stores.old.bodies) }
    ensures sets { stores.new.gaps.sets ≡ stores.old.gaps.sets }
{
    stores.log.refine(from, to, target, None)?;
    stores.gaps.cover(from, to, target)?;
    Ok(())
}

fn take_checkpoint(
    stores: &mut Stores,
    to: &PackedVector,
    target: &NameSet,
    floor: &PackedVector,
    rows: &[Row],
) -> Result<(), NoMemory>
    requires grammar { IsKind (Checkpoint to.now target.now floor.now rows.now) }
    ensures taken { OnOk result (HasTaken stores.old stores.new (Checkpoint to.now target.now floor.now rows.now)) }
    ensures bodies { OnOk result (AreSettled stores.old.bodies stores.new.bodies rows.now) }
    ensures sets { stores.new.gaps.sets ≡ stores.old.gaps.sets }
{
    let floor = floor.get();
    stores.log.darken(to)?;
    pr_snap::apply(
        &mut stores.gaps,
        &mut stores.marks,
        to,
        target,
        &floor,
        rows,
    )?;
    settle_rows(&mut stores.bodies, rows);
    Ok(())
}

fn settle_rows(bodies: &mut Bodies, rows: &[Row])
    ensures { AreSettled bodies.old bodies.new rows.now }
{
    for row in rows {
        bodies.settle(&row.name, &row.newest);
    }
}

fn take_body(stores: &mut Stores, name: &Name, stamp: &Stamp, bytes: &[u8]) -> Result<(), NoMemory>
    requires grammar { IsKind (Body name.now stamp.now bytes.now) }
    ensures taken { OnOk result (HasTaken stores.old stores.new (Body name.now stamp.now bytes.now)) }
    ensures bodies { OnOk result (IsBodyTaken stores.old.bodies stores.new.bodies stores.old.marks name.now stamp.now bytes.now) }
    ensures sets { stores.new.gaps.sets ≡ stores.old.gaps.sets }
{
    hold(&mut stores.bodies, &stores.marks, name, stamp, bytes)?;
    Ok(())
}

// A body of a write that is not the newest is of no use.
fn hold(
    bodies: &mut Bodies,
    marks: &Marks,
    name: &Name,
    stamp: &Stamp,
    bytes: &[u8],
) -> Result<(), NoMemory>
    ensures { OnOk result (IsBodyTaken bodies.old bodies.new marks.now name.now stamp.now bytes.now) }
{
    if is_late(&marks.newest(name), stamp) {
        return Ok(());
    }
    bodies.put(name, stamp, bytes)?;
    Ok(())
}

// Whether the newest stamp is after this one.
fn is_late(newest: &Option<Newest>, stamp: &Stamp) -> bool
    ensures { IsTrue result ↔ IsLate newest.now stamp.now }
{
    match newest {
        Some(newest) => stamp.is_before(&newest.stamp),
        None => false,
    }
}
