// A checkpoint taken.
ghost use Rattle.pr_snap.specs.Apply.{AreMarked, AreRowsTaken, IsApplied, IsRowTaken};
ghost use Rattle.std.specs.Prelude.{◌≡◌, ◌⊎◌, true, false, IsErr, OnErr, OnOk};

use pr_gaps::Gaps;
use pr_inval::Row;
use pr_marks::{Marks, Newest};
use pr_names::Name;
use pr_sets::NameSet;
use pr_stamps::{Mark, NoMemory};
use pr_vectors::{PackedVector, Vector};

/// Takes the parts of a checkpoint. Its points are covered from zero; each row raises the newest stamp of its name, and
/// then its marks are added, with no delete among them; at last what the floor covers is forgotten. The time is that of
/// `Gaps::cover` and of `Marks::forget`, and for each row and each mark logarithmic in the names. After want of memory
/// one of the two stores is spent.
pub fn apply(
    gaps: &mut Gaps,
    marks: &mut Marks,
    to: &PackedVector,
    target: &NameSet,
    floor: &Vector,
    rows: &[Row],
) -> Result<(), NoMemory>
    ensures ok { OnOk result (IsApplied gaps.old gaps.new marks.old marks.new to.now target.now floor.now rows.now) }
    ensures sets { gaps.new.sets ≡ gaps.old.sets }
    ensures gaps_work { OnOk result (gaps.new.spent ≡ false) }
    ensures marks_work { OnOk result (marks.old.spent ≡ false → marks.new.spent ≡ false) }
    ensures err { OnErr result ((gaps.new.spent ≡ true) ⊎ (marks.new.spent ≡ true)) }
    ensures spent { gaps.old.spent ≡ true → IsErr result }
{
    let from = PackedVector::zero();
    gaps.cover(&from, to, target)?;
    add_rows(marks, rows)?;
    marks.forget(floor);
    Ok(())
}

fn add_rows(marks: &mut Marks, rows: &[Row]) -> Result<(), NoMemory>
    ensures taken { OnOk result (AreRowsTaken marks.old marks.new rows.now) }
    ensures works { OnOk result (marks.old.spent ≡ false → marks.new.spent ≡ false) }
    ensures err { OnErr result (marks.new.spent ≡ true) }
{
    for row in rows {
        add_row(marks, row)?;
    }
    Ok(())
}

fn add_row(marks: &mut Marks, row: &Row) -> Result<(), NoMemory>
    ensures taken { OnOk result (IsRowTaken marks.old marks.new row.now) }
    ensures works { OnOk result (marks.new.spent ≡ false) }
    ensures err { OnErr result (marks.new.spent ≡ true) }
{
    let newest = Newest {
        stamp: row.newest,
        gone: row.gone,
    };
    marks.raise(&row.name, &newest)?;
    add_marks(marks, &row.name, row.marks.as_slice())
}

fn add_marks(marks: &mut Marks, name: &Name, added: &[Mark]) -> Result<(), NoMemory>
    ensures marked { OnOk result (AreMarked marks.old marks.new name.now added.now) }
    ensures works { OnOk result (marks.old.spent ≡ false → marks.new.spent ≡ false) }
    ensures err { OnErr result (marks.new.spent ≡ true) }
{
    for mark in added {
        marks.add(name, mark, false)?;
    }
    Ok(())
}
