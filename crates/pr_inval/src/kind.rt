// What a message tells.
ghost use Rattle.std.specs.Prelude.{◌≡◌, IfOk};

use crate::{Bytes, Row, WriteRec};
use pr_names::Name;
use pr_sets::NameSet;
use pr_stamps::{NoMemory, Seq, Stamp};
use pr_vectors::PackedVector;
use std::alloc::Global;

/// The four kinds of message ("PRACTI Replication", NSDI 2006, sections 3.1 to 3.3). An invalidation covers the
/// points that its vectors delimit, from the first and up to the second.
#[derive(Drop)]
pub enum Kind {
    /// One write, and that no other write stands at the points that it covers.
    Precise {
        from: PackedVector,
        to: PackedVector,
        write: WriteRec,
    },
    /// Each write at the points that it covers is to a name of the target.
    Imprecise {
        from: PackedVector,
        to: PackedVector,
        target: NameSet,
    },
    /// The newest writes to all names but those of the target. It covers the points up to its vector.
    Checkpoint {
        to: PackedVector,
        target: NameSet,
        floor: PackedVector,
        rows: Seq<Row>,
    },
    /// What a write wrote. It covers no point.
    Body {
        name: Name,
        stamp: Stamp,
        bytes: Bytes,
    },
}

impl Kind {
    /// A copy, in time linear in the vectors, the target, the rows with their marks, and the bytes.
    pub fn copy(&self, alloc: Global) -> Result<Kind, NoMemory>
        ensures { IfOk result (λ kind. kind ≡ self.now) }
    {
        match self {
            Kind::Precise { from, to, write } => Ok(Kind::Precise {
                from: from.copy(alloc)?,
                to: to.copy(alloc)?,
                write: *write,
            }),
            Kind::Imprecise { from, to, target } => {
                let target = target.copy(alloc)?;
                Ok(Kind::Imprecise {
                    from: from.copy(alloc)?,
                    to: to.copy(alloc)?,
                    target,
                })
            }
            Kind::Checkpoint {
                to,
                target,
                floor,
                rows,
            } => {
                let target = target.copy(alloc)?;
                let rows = copied_rows(alloc, rows.as_slice())?;
                Ok(Kind::Checkpoint {
                    to: to.copy(alloc)?,
                    target,
                    floor: floor.copy(alloc)?,
                    rows,
                })
            }
            Kind::Body { name, stamp, bytes } => {
                let bytes = Seq::copied(alloc, bytes.as_slice())?;
                Ok(Kind::Body {
                    name: *name,
                    stamp: *stamp,
                    bytes,
                })
            }
        }
    }
}

fn copied_rows(alloc: Global, rows: &[Row]) -> Result<Seq<Row>, NoMemory>
    ensures { IfOk result (λ copies. copies ≡ rows.now) }
{
    let mut copies = Seq::with_room(alloc, rows.len())?;
    for row in rows {
        copies.push(row.copy(alloc)?)?;
    }
    Ok(copies)
}
