// How a stream begins: its start at its destination, and its checkpoint at its source.
ghost use Rattle.pr_inval.specs.Messages.{IsMessage};
ghost use Rattle.pr_inval.specs.Standing.{means};
ghost use Rattle.pr_node.specs.Sending.{IsSentOf};
ghost use Rattle.pr_node.specs.Ties.{IsGapsOf, IsTied};
ghost use Rattle.pr_story.specs.Ranges.{IsKind, IsMsg};
ghost use Rattle.pr_story.specs.Told.{IsStart};
ghost use Rattle.pr_story.specs.Turns.{IsSnapshot};
ghost use Rattle.pr_story.specs.declared.entry.Entry.{Entry};
ghost use Rattle.pr_story.specs.declared.event.Event.TheVariants.{Sent};
ghost use Rattle.pr_vectors.specs.Vector.{IsVector};
ghost use Rattle.std.specs.Prelude.{◌≤◌, ◌<◌, ℕ, List, IfOk};

use crate::Stores;
use crate::ranges::kind_in_range;
use crate::turning::message;
use pr_gaps::Gaps;
use pr_inval::{Kind, Msg, Session};
use pr_sets::NameSet;
use pr_snap::build;
use pr_stamps::NoMemory;
use pr_vectors::Vector;
use std::alloc::Global;

// Up to where each point is told for each of the sets that share a name with these.
pub fn start(gaps: &Gaps, names: &NameSet) -> Vector
    ensures start { (n : ℕ) (j : List Entry) → IsGapsOf n j gaps.now → IsStart gaps.now.sets n j names.now result }
    ensures range { IsVector result }
{
    let mut start = *gaps.vector();
    for index in 0..gaps.sets() {
        if gaps.set(index).meets(names) {
            start = start.meet(&gaps.last_precise(index));
        }
    }
    let _ = start.at(0);
    start
}

// The checkpoint of a stream with this session, as its next message.
pub fn checkpoint(
    alloc: Global,
    stores: &Stores,
    session: &Session,
    time: u64,
) -> Result<Msg, NoMemory>
    requires later { (means session.now).standing.time < time }
    requires most { time ≤ 4611686018427387903 }
    ensures next { IfOk result (λ msg. (n : ℕ) (j : List Entry) → IsTied n j stores.now → IsSentOf (IsSnapshot stores.now.gaps.sets n j (means session.now).standing.names) (means session.now) time (Sent msg)) }
    ensures spelled { IfOk result (λ msg. (n : ℕ) (j : List Entry) → IsTied n j stores.now → IsMessage msg) }
    ensures range { IfOk result IsMsg }
{
    let _ = session.number();
    let kind = snapshot(alloc, stores, session.sub())?;
    Ok(message(session, kind, time))
}

// The checkpoint for these names.
fn snapshot(alloc: Global, stores: &Stores, names: &NameSet) -> Result<Kind, NoMemory>
    ensures snapshot { IfOk result (λ kind. (n : ℕ) (j : List Entry) → IsTied n j stores.now → IsSnapshot stores.now.gaps.sets n j names.now kind) }
    ensures range { IfOk result IsKind }
{
    let kind = build(alloc, &stores.gaps, &stores.marks, names)?;
    kind_in_range(&kind);
    Ok(kind)
}
