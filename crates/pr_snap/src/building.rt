// The checkpoint of a node.
ghost use Rattle.pr_gaps.specs.Gaps.{IsLeastUntold, set_at};
ghost use Rattle.pr_marks.specs.Table.{names_of, newest_of};
ghost use Rattle.pr_names.specs.Order.{NamesRise};
ghost use Rattle.pr_names.specs.Name.{IsName};
ghost use Rattle.pr_sets.specs.Spans.{IsAllBut, has};
ghost use Rattle.pr_snap.specs.Build.{IsBuilt, IsPreciseName, row_with, rows_at};
ghost use Rattle.std.specs.Prelude.{◌≡◌, ◌≤◌, ◌⊎◌, ◌↔◌, ◌++◌, ℕ, List, None, length, IsTrue, IfOk, OnOk};

use crate::known_names::next_known_outside;
use pr_gaps::Gaps;
use pr_inval::{Kind, Row};
use pr_marks::Marks;
use pr_names::Name;
use pr_sets::NameSet;
use pr_stamps::{NoMemory, Seq};
use pr_vectors::PackedVector;
use std::alloc::Global;

/// The checkpoint of these names ("PRACTI Replication", NSDI 2006, section 3.3). It takes time linear in the marks of
/// the rows, logarithmic in the known names for each row and each interval of the target, and linear in the intervals
/// of the sets for each set.
pub fn build(alloc: Global, gaps: &Gaps, marks: &Marks, sub: &NameSet) -> Result<Kind, NoMemory>
    ensures { IfOk result (IsBuilt gaps.now marks.now sub.now) }
{
    let to = PackedVector::of(alloc, gaps.vector())?;
    let floor = PackedVector::of(alloc, &marks.floor())?;
    let target = target(alloc, gaps, sub)?;
    let rows = rows(alloc, marks, &target)?;
    Ok(Kind::Checkpoint {
        to,
        target,
        floor,
        rows,
    })
}

// All names but those that lie in precise sets.
fn target(alloc: Global, gaps: &Gaps, sub: &NameSet) -> Result<NameSet, NoMemory>
    ensures { IfOk result (λ target. IsAllBut target (λ o. IsTrue (has sub.now o) × IsPreciseName gaps.now o)) }
{
    let part = precise_part(alloc, gaps, sub)?;
    part.complement(alloc)
}

// Those of the names that lie in precise sets.
fn precise_part(alloc: Global, gaps: &Gaps, sub: &NameSet) -> Result<NameSet, NoMemory>
    ensures { IfOk result (λ part. (o : List ℕ) → IsName o → IsTrue (has part o) ↔ (IsTrue (has sub.now o) × IsPreciseName gaps.now o)) }
{
    let mut precise = NameSet::empty(alloc);
    for index in 0..gaps.sets() {
        precise = with_precise(alloc, precise, gaps, index)?;
    }
    sub.intersect(alloc, &precise)
}

// The names, and those of the set of this number where it is precise.
fn with_precise(
    alloc: Global,
    names: NameSet,
    gaps: &Gaps,
    index: usize,
) -> Result<NameSet, NoMemory>
    requires { index ≤ length gaps.now.sets }
    ensures { IfOk result (λ with. (o : List ℕ) → IsName o → IsTrue (has with o) ↔ (IsTrue (has names o) ⊎ (IsTrue (set_at gaps.now.sets index o) × IsLeastUntold gaps.now index None))) }
{
    match gaps.first_untold(index) {
        None => names.union(alloc, gaps.set(index)),
        Some(_) => Ok(names),
    }
}

// A row for each known name outside the target.
fn rows(alloc: Global, marks: &Marks, target: &NameSet) -> Result<Seq<Row>, NoMemory>
    ensures rows { IfOk result (λ rows. rows ≡ rows_at marks.now target.now (names_of marks.now)) }
    ensures order { IfOk result (λ _. NamesRise (names_of marks.now)) }
{
    let mut rows = Seq::new(alloc);
    let mut last = None;
    while let Some(name) = next_known_outside(marks, target, &last) {
        add_row(alloc, marks, &name, &mut rows)?;
        last = Some(name);
    }
    Ok(rows)
}

// Adds the row of a name, if it is known.
fn add_row(alloc: Global, marks: &Marks, name: &Name, rows: &mut Seq<Row>) -> Result<(), NoMemory>
    ensures { OnOk result (rows.new ≡ rows.old ++ row_with marks.now name.now (newest_of marks.now name.now)) }
{
    match marks.known(name) {
        Some((newest, marks)) => {
            let marks = Seq::copied(alloc, marks)?;
            rows.push(Row {
                name: *name,
                newest: newest.stamp,
                gone: newest.gone,
                marks,
            })
        }
        None => Ok(()),
    }
}
