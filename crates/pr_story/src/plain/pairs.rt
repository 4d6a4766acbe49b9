// Conflicts.
ghost use Rattle.pr_stamps.specs.declared.mark.Mark.{Mark};
ghost use Rattle.pr_story.specs.Knowledge.{AreConflicts, IsFound, IsMark};
ghost use Rattle.pr_story.specs.Marking.{MarksRise, pairs_with};
ghost use Rattle.std.specs.Prelude.{◌≡◌, ◌++◌, Contains, IfOk, OnOk, reverse};

use crate::plain::marks::marks_of;
use crate::plain::sets::set_of;
use crate::plain::told::first_untold;
use crate::{Entry, Found};
use pr_names::Name;
use pr_sets::NameSet;
use pr_stamps::{Mark, NoMemory, Seq, Stamp};
use std::alloc::Global;

// Adds the pairs of the mark with those later ones that conflict with it.
fn add_pairs(
    pairs: &mut Seq<(Stamp, Stamp)>,
    earlier: &Mark,
    marks: &[Mark],
) -> Result<(), NoMemory>
    ensures { OnOk result (pairs.new ≡ pairs.old ++ pairs_with earlier.now marks.now) }
{
    for later in marks {
        if earlier.conflicts_with(later) {
            pairs.push((earlier.stamp, later.stamp))?;
        }
    }
    Ok(())
}

// The conflicts among the marks.
fn pairs_among(alloc: Global, marks: &[Mark]) -> Result<Seq<(Stamp, Stamp)>, NoMemory>
    requires { MarksRise marks.now }
    ensures { IfOk result (AreConflicts (λ mark. Contains marks.now mark)) }
{
    let mut pairs = Seq::new(alloc);
    for earlier in marks {
        add_pairs(&mut pairs, earlier, marks)?;
    }
    Ok(pairs)
}

/// The conflicts of the name at node `node`, which has these sets and this journal. It compares each mark with all.
pub fn conflicts(
    alloc: Global,
    node: u32,
    sets: &[NameSet],
    entries: &[Entry],
    name: &Name,
) -> Result<Found, NoMemory>
    ensures { IfOk result (IsFound (IsMark (reverse entries.now) name.now) sets.now node (reverse entries.now) name.now) }
{
    let set = set_of(alloc, sets, name)?;
    match first_untold(node, entries, &set) {
        Some(untold) => return Ok(Found::Imprecise { untold }),
        None => {}
    }
    let marks = marks_of(alloc, entries, name)?;
    let pairs = pairs_among(alloc, marks.as_slice())?;
    Ok(Found::Pairs(pairs))
}
