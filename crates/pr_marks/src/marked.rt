// The names that have marks, listed beside the rows.
ghost use Rattle.pr_marks.specs.Listed.{AreListed, ForgetsOf, IsListed, marks_at, newest_at};
ghost use Rattle.pr_marks.specs.Row.{above_floor, with_mark};
ghost use Rattle.pr_vectors.specs.Vector.{is_covered};
ghost use Rattle.std.specs.Prelude.{◌≡◌, ℕ, [], false, List, Contains, OnOk, cond};

use crate::row::Row;
use pr_names::Name;
use pr_stamps::{Mark, NoMemory};
use pr_vectors::Vector;
use std::collections::BTreeMap;

type Rows = BTreeMap<Name, Row>;

// Keeps the mark in the name's row, where the floor does not cover it, and lists the name where the row had none.
pub fn note(
    row: &mut Row,
    marked: &mut Vec<Name>,
    floor: &Vector,
    name: &Name,
    mark: &Mark,
) -> Result<(), NoMemory>
    ensures newest { row.new.newest ≡ row.old.newest }
    ensures marks { OnOk result (row.new.marks ≡ cond (is_covered floor.now mark.now.stamp) row.old.marks (with_mark row.old.marks mark.now)) }
    ensures listed { IsListed marked.old.items name.now row.old.marks → IsListed marked.new.items name.now row.new.marks }
    ensures stay { (o : List ℕ) → Contains marked.old.items o → Contains marked.new.items o }
{
    if floor.covers(&mark.stamp) {
        return Ok(());
    }
    list(marked, name, row)?;
    row.add(mark)
}

// Lists the name, unless its row has marks.
fn list(marked: &mut Vec<Name>, name: &Name, row: &Row) -> Result<(), NoMemory>
    ensures listed { OnOk result (IsListed marked.old.items name.now row.now.marks → Contains marked.new.items name.now) }
    ensures stay { (o : List ℕ) → Contains marked.old.items o → Contains marked.new.items o }
{
    if row.has_marks() {
        return Ok(());
    }
    marked.push(*name)?;
    Ok(())
}

// Drops the marks that the floor covers, and from the list the names that have none left.
pub fn forget(rows: &mut Rows, marked: &mut Vec<Name>, floor: &Vector)
    requires { AreListed marked.old.items rows.old.entries }
    ensures listed { AreListed marked.new.items rows.new.entries }
    ensures newest { (o : List ℕ) → newest_at rows.new.entries o ≡ newest_at rows.old.entries o }
    ensures marks { (o : List ℕ) → marks_at rows.new.entries o ≡ above_floor floor.now (marks_at rows.old.entries o) }
{
    let mut at = 0;
    while at < marked.len() {
        if forget_of(rows, &marked[at], floor) {
            at += 1;
        } else {
            marked.swap_remove(at);
        }
    }
}

// Drops the marks of the name that the floor covers, and tells whether it has marks left.
fn forget_of(rows: &mut Rows, name: &Name, floor: &Vector) -> bool
    ensures forgets { ForgetsOf floor.now name.now rows.old.entries rows.new.entries }
    ensures none { result ≡ false → marks_at rows.new.entries name.now ≡ [] }
{
    match rows.get_mut(name) {
        Some(row) => {
            row.forget(floor);
            row.has_marks()
        }
        None => false,
    }
}
