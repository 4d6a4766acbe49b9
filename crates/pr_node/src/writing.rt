// A client's write.
ghost use Rattle.pr_gaps.specs.Gaps.{IsOwnTold};
ghost use Rattle.pr_log.specs.Log.{IsAddedOwn};
ghost use Rattle.pr_node.specs.Writes.{IsBodyKept, IsClockWornIn, IsNextOwn, IsNextStamp};
ghost use Rattle.pr_node.specs.Ties.{IsTied};
ghost use Rattle.pr_story.specs.Knowledge.{mark_of};
ghost use Rattle.pr_story.specs.Ranges.{IsStampOrNone};
ghost use Rattle.pr_story.specs.declared.entry.Entry.{Entry};
ghost use Rattle.pr_story.specs.declared.event.Event.TheVariants.{Wrote};
ghost use Rattle.pr_vectors.specs.Vector.{clock_of};
ghost use Rattle.pr_stamps.specs.Point.{IsPrev};
ghost use Rattle.std.specs.Prelude.{◌≡◌, ◌<◌, ◌≤◌, ◌∷◌, ℕ, List, None, IfOk, IfSome, OnOk, length};

use crate::Stores;
use pr_bodies::Bodies;
use pr_inval::WriteRec;
use pr_names::Name;
use pr_stamps::{Mark, NoMemory, Stamp, next_clock};

// The stamp of the write that a node makes next, or none where its vector has the greatest clock.
pub fn next_stamp(stores: &Stores, id: u32) -> Option<Stamp>
    requires { id < 32 }
    ensures some { IfSome result (IsNextStamp id stores.now.log.vector) }
    ensures none { result ≡ None → (j : List Entry) → IsTied id j stores.now → IsClockWornIn j }
{
    let clock = next_clock(stores.log.vector().greatest())?;
    Stamp::new(clock, id)
}

// The stores take the write of their own node that has this stamp, whose mark has the newest known stamp of the name.
pub fn own_write(
    stores: &mut Stores,
    name: &Name,
    stamp: &Stamp,
    gone: bool,
    body: &[u8],
) -> Result<WriteRec, NoMemory>
    requires next { IsNextStamp stores.old.log.node stores.old.log.vector stamp.now }
    requires short { length body.now ≤ 65536 }
    ensures own { IfOk result (λ write. (j : List Entry) → IsTied stamp.now.node j stores.old → IsNextOwn stamp.now.node j name.now gone write) }
    ensures tied { IfOk result (λ write. (j : List Entry) (time caller client : ℕ) (after : List ℕ) → IsTied stamp.now.node j stores.old → IsTied stamp.now.node (record { time = time; caller = caller; event = Wrote client write body.now after } ∷ j) stores.new) }
    ensures sets { stores.new.gaps.sets ≡ stores.old.gaps.sets }
{
    let prev = stores.marks.follow(name, stamp, gone)?;
    stamp_in_range(&prev);
    let _ = name.bytes();
    let _ = stamp.clock();
    let write = WriteRec {
        name: *name,
        stamp: *stamp,
        prev,
        gone,
    };
    keep(stores, &write, body)?;
    Ok(write)
}

fn stamp_in_range(stamp: &Option<Stamp>)
    ensures { IsStampOrNone stamp.now }
{
    if let Some(stamp) = stamp {
        let _ = stamp.clock();
    }
}

// The stores take a write of their own node that their journal tells.
pub fn keep_write(stores: &mut Stores, write: &WriteRec, body: &[u8]) -> Result<(), NoMemory>
    requires before { IsPrev write.now.prev write.now.stamp }
    requires short { length body.now ≤ 65536 }
    requires own { write.now.stamp.node ≡ stores.old.log.node }
    requires above { clock_of stores.old.log.vector write.now.stamp.node < write.now.stamp.clock }
    ensures tied { OnOk result ((j : List Entry) (time caller client : ℕ) (after : List ℕ) → IsTied write.now.stamp.node j stores.old → IsTied write.now.stamp.node (record { time = time; caller = caller; event = Wrote client write.now body.now after } ∷ j) stores.new) }
    ensures sets { stores.new.gaps.sets ≡ stores.old.gaps.sets }
{
    let _ = write.stamp.clock();
    keep(stores, write, body)?;
    let mark = mark_of(write);
    stores.marks.add(&write.name, &mark, write.gone)?;
    Ok(())
}

// All stores but the marks take a write of their own node. The body of a delete is not held.
fn keep(stores: &mut Stores, write: &WriteRec, body: &[u8]) -> Result<(), NoMemory>
    requires own { write.now.stamp.node ≡ stores.old.log.node }
    requires above { clock_of stores.old.log.vector write.now.stamp.node < write.now.stamp.clock }
    ensures log { OnOk result (IsAddedOwn stores.old.log stores.new.log write.now) }
    ensures gaps { OnOk result (IsOwnTold stores.old.gaps stores.new.gaps write.now.stamp.clock) }
    ensures bodies { OnOk result (IsBodyKept stores.old.bodies stores.new.bodies write.now body.now) }
    ensures marks { stores.new.marks ≡ stores.old.marks }
    ensures sets { stores.new.gaps.sets ≡ stores.old.gaps.sets }
{
    stores.log.add_own(write)?;
    stores.gaps.own(write.stamp.clock());
    keep_body(&mut stores.bodies, write, body)
}

// The mark of a write.
pub fn mark_of(write: &WriteRec) -> Mark
    ensures { result ≡ mark_of write.now }
{
    Mark {
        stamp: write.stamp,
        prev: write.prev,
    }
}

fn keep_body(bodies: &mut Bodies, write: &WriteRec, body: &[u8]) -> Result<(), NoMemory>
    ensures { OnOk result (IsBodyKept bodies.old bodies.new write.now body.now) }
{
    if write.gone {
        bodies.settle(&write.name, &write.stamp);
        return Ok(());
    }
    bodies.renew(&write.name, &write.stamp, body)
}
