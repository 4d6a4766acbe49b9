// Bytes behind their count, writes and pairs.
ghost use Rattle.pr_keep.specs.Reading.{counted_at, node_at, pair_at, write_at};
ghost use Rattle.pr_wire.specs.Reading.{Gives};

use pr_inval::{Bytes, WriteRec};
use pr_stamps::{NODES, Seq, Stamp};
use pr_wire::{Cursor, Fault, Format};
use std::alloc::Global;

/// Bytes behind their count.
#[tactic(auto, unfolding(crate::specs::Reading::counted_at))]
pub fn counted(cursor: &mut Cursor, alloc: Global) -> Result<Bytes, Fault>
    ensures { Gives (λ x. (x, cursor.new.rest.now)) result (counted_at cursor.old.rest.now) }
{
    let len = cursor.eight()?;
    let bytes = cursor.run(len as usize)?;
    Ok(Seq::copied(alloc, bytes)?)
}

/// A write.
#[tactic(auto, unfolding(crate::specs::Reading::write_at))]
pub fn write(cursor: &mut Cursor) -> Result<WriteRec, Fault>
    ensures { Gives (λ x. (x, cursor.new.rest.now)) result (write_at cursor.old.rest.now) }
{
    let name = cursor.name()?;
    let stamp = cursor.stamp()?;
    let prev = cursor.prev()?;
    let gone = cursor.gone(Format::Two)?;
    Ok(WriteRec {
        name,
        stamp,
        prev,
        gone,
    })
}

/// Two stamps.
#[tactic(auto, unfolding(crate::specs::Reading::pair_at))]
pub fn pair(cursor: &mut Cursor) -> Result<(Stamp, Stamp), Fault>
    ensures { Gives (λ x. (x, cursor.new.rest.now)) result (pair_at cursor.old.rest.now) }
{
    let first = cursor.stamp()?;
    let second = cursor.stamp()?;
    Ok((first, second))
}

/// The number of a node.
#[tactic(auto, unfolding(crate::specs::Reading::node_at))]
pub fn node(cursor: &mut Cursor) -> Result<u32, Fault>
    ensures { Gives (λ x. (x, cursor.new.rest.now)) result (node_at cursor.old.rest.now) }
{
    let node = u32::from(cursor.byte()?);
    if node < NODES {
        Ok(node)
    } else {
        Err(Fault::Bad)
    }
}
