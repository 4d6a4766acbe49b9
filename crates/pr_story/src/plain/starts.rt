// Where a stream starts.
ghost use Rattle.pr_sets.specs.Spans.{has};
ghost use Rattle.pr_story.specs.Search.{IsStartOf};
ghost use Rattle.pr_story.specs.Told.{IsStart};
ghost use Rattle.std.specs.Prelude.{ℕ, Bool, List, ◌∷◌, IfOk, reverse};

use crate::Entry;
use crate::plain::sets::rest_of;
use crate::plain::told::last_precise;
use crate::plain::vectors::current_vector;
use pr_sets::NameSet;
use pr_stamps::NoMemory;
use pr_vectors::Vector;
use std::alloc::Global;

// The start, where this set counts too, if it shares a name with those.
fn start_with(
    node: u32,
    entries: &[Entry],
    set: &NameSet,
    names: &NameSet,
    start: &Vector,
) -> Vector
    ensures { (sets : List (List ℕ → Bool)) → IsStartOf node (reverse entries.now) sets names.now start.now → IsStartOf node (reverse entries.now) (has set.now ∷ sets) names.now result }
{
    if set.meets(names) {
        start.meet(&last_precise(node, entries, set))
    } else {
        *start
    }
}

/// Where a stream of these names starts at node `node`, which has these sets and this journal: per writer the greatest
/// clock, at most the vector's, up to which each point is told for each set that shares a name with those.
pub fn start(
    alloc: Global,
    node: u32,
    sets: &[NameSet],
    entries: &[Entry],
    names: &NameSet,
) -> Result<Vector, NoMemory>
    ensures { IfOk result (IsStart sets.now node (reverse entries.now) names.now) }
{
    let mut start = current_vector(entries);
    for set in sets {
        start = start_with(node, entries, set, names, &start);
    }
    let rest = rest_of(alloc, sets)?;
    Ok(start_with(node, entries, &rest, names, &start))
}
