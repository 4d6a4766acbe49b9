// Checkpoints.
ghost use Rattle.pr_names.specs.Name.{IsName};
ghost use Rattle.pr_sets.specs.Spans.{IsAllBut, has};
ghost use Rattle.pr_inval.specs.declared.kind.Kind.TheVariants as messages;
ghost use Rattle.pr_story.specs.History.{current_vector};
ghost use Rattle.pr_story.specs.Knowledge.{floor_of};
ghost use Rattle.pr_story.specs.Marking.{AreAllRows, IsRowAdded, IsRowOf};
ghost use Rattle.pr_story.specs.Told.{IsPrecise};
ghost use Rattle.pr_sets.specs.Sets.{set_of};
ghost use Rattle.pr_story.specs.Turns.{IsSnapshot};
ghost use Rattle.std.specs.Prelude.{◌≡◌, ◌↔◌, ℕ, List, cond, IfOk, IsTrue, OnOk, reverse};

use crate::Entry;
use crate::plain::marks::marks_of;
use crate::plain::names::names_known;
use crate::plain::newest::newest_known;
use crate::plain::ordered::in_order;
use crate::plain::sets::rest_of;
use crate::plain::told::first_untold;
use crate::plain::vectors::{current_vector, floor_of};
use pr_inval::{Kind, Row};
use pr_names::Name;
use pr_sets::NameSet;
use pr_stamps::{NoMemory, Seq};
use pr_vectors::PackedVector;
use std::alloc::Global;

// ---- the target

// Whether the set is precise.
fn is_precise(node: u32, entries: &[Entry], set: &NameSet) -> bool
    ensures { IsTrue result ↔ IsPrecise node (reverse entries.now) (has set.now) }
{
    match first_untold(node, entries, set) {
        Some(_) => false,
        None => true,
    }
}

// All names, or none.
fn all_if(alloc: Global, all: bool) -> Result<NameSet, NoMemory>
    ensures { IfOk result (λ names. (o : List ℕ) → IsName o → has names o ≡ all) }
{
    let none = NameSet::empty(alloc);
    if all {
        return none.complement(alloc);
    }
    Ok(none)
}

// The names with those of the set, or without them.
fn with_set(alloc: Global, names: NameSet, set: &NameSet, holds: bool) -> Result<NameSet, NoMemory>
    ensures { IfOk result (λ more. (o : List ℕ) → IsName o → has more o ≡ cond (has set.now o) holds (has names o)) }
{
    if holds {
        return names.union(alloc, set);
    }
    let others = set.complement(alloc)?;
    names.intersect(alloc, &others)
}

// The names whose set is precise, from the rest on and back over the declared sets, since the first one counts.
fn precise_names(
    alloc: Global,
    node: u32,
    sets: &[NameSet],
    entries: &[Entry],
) -> Result<NameSet, NoMemory>
    ensures { IfOk result (λ names. (o : List ℕ) → IsName o → IsTrue (has names o) ↔ IsPrecise node (reverse entries.now) (set_of sets.now o)) }
{
    let rest = rest_of(alloc, sets)?;
    let mut names = all_if(alloc, is_precise(node, entries, &rest))?;
    let mut left = sets.len();
    while left > 0 {
        left -= 1;
        let set = &sets[left];
        let precise = is_precise(node, entries, set);
        names = with_set(alloc, names, set, precise)?;
    }
    Ok(names)
}

// All names but those of the stream in precise sets.
fn target(
    alloc: Global,
    node: u32,
    sets: &[NameSet],
    entries: &[Entry],
    names: &NameSet,
) -> Result<NameSet, NoMemory>
    ensures { IfOk result (λ target. IsAllBut target (λ o. IsTrue (has names.now o) × IsPrecise node (reverse entries.now) (set_of sets.now o))) }
{
    let precise = precise_names(alloc, node, sets, entries)?;
    let part = names.intersect(alloc, &precise)?;
    part.complement(alloc)
}

// ---- the rows

// The row of the name, if the target lacks the name and a stamp of it is known.
fn row_of(
    alloc: Global,
    entries: &[Entry],
    target: &NameSet,
    name: &Name,
) -> Result<Option<Row>, NoMemory>
    ensures { IfOk result (IsRowOf (reverse entries.now) target.now name.now) }
{
    if target.has(name) {
        return Ok(None);
    }
    let newest = match newest_known(entries, name) {
        Some(newest) => newest,
        None => return Ok(None),
    };
    let marks = marks_of(alloc, entries, name)?;
    Ok(Some(Row {
        name: *name,
        newest: newest.stamp,
        gone: newest.gone,
        marks,
    }))
}

// Adds the row of the name, if there is one.
fn add_row(
    alloc: Global,
    entries: &[Entry],
    target: &NameSet,
    name: &Name,
    rows: &mut Seq<Row>,
) -> Result<(), NoMemory>
    ensures { OnOk result (IsRowAdded (reverse entries.now) target.now name.now rows.old rows.new) }
{
    match row_of(alloc, entries, target, name)? {
        Some(row) => rows.push(row),
        None => Ok(()),
    }
}

// A row for each name outside the target of which a stamp is known.
fn rows(alloc: Global, entries: &[Entry], target: &NameSet) -> Result<Seq<Row>, NoMemory>
    ensures { IfOk result (AreAllRows (reverse entries.now) target.now) }
{
    let known = names_known(alloc, entries)?;
    let names = in_order(alloc, known.as_slice())?;
    let mut rows = Seq::new(alloc);
    for name in names.as_slice() {
        add_row(alloc, entries, target, name, &mut rows)?;
    }
    Ok(rows)
}

// The checkpoint of this target and these rows.
fn checkpoint(
    alloc: Global,
    entries: &[Entry],
    target: NameSet,
    rows: Seq<Row>,
) -> Result<Kind, NoMemory>
    ensures { IfOk result (λ kind. kind ≡ messages.Checkpoint (current_vector (reverse entries.now)) target (floor_of (reverse entries.now)) rows) }
{
    let to = PackedVector::of(alloc, &current_vector(entries))?;
    let floor = PackedVector::of(alloc, &floor_of(entries))?;
    Ok(Kind::Checkpoint {
        to,
        target,
        floor,
        rows,
    })
}

/// The checkpoint for a stream of these names at node `node`, which has these sets and this journal. It reads the list
/// several times for each name that is known.
pub fn snapshot(
    alloc: Global,
    node: u32,
    sets: &[NameSet],
    entries: &[Entry],
    names: &NameSet,
) -> Result<Kind, NoMemory>
    ensures { IfOk result (IsSnapshot sets.now node (reverse entries.now) names.now) }
{
    let target = target(alloc, node, sets, entries, names)?;
    let rows = rows(alloc, entries, &target)?;
    checkpoint(alloc, entries, target, rows)
}
