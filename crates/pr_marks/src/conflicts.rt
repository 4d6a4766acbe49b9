// The conflicts among the marks of a name.
ghost use Rattle.pr_marks.specs.Conflicting.{HasStamp, IsFree, ListsConflicts};
ghost use Rattle.pr_marks.specs.Pairs.{pairs_of};
ghost use Rattle.pr_marks.specs.Row.{Rises};
ghost use Rattle.pr_stamps.specs.Marks.{is_conflict};
ghost use Rattle.pr_stamps.specs.Point.{Point};
ghost use Rattle.pr_stamps.specs.declared.mark.Mark.{Mark};
ghost use Rattle.std.specs.Prelude.{◌≡◌, ◌++◌, ◌≤◌, ◌<◌, ◌+◌, ℕ, true, IfOk, OnOk, filter, length, map, slice_index_or};

use crate::in_order::{place, put, stands_at};
use pr_stamps::{Mark, NoMemory, Seq, Stamp};
use std::alloc::Global;

/// All pairs of stamps of which the later one's node had not known the earlier one, in time logarithmic in the marks for
/// each pair and each listed mark. The marks are looked at from the last one on: a later write whose node had not known
/// a mark had not known the next one either, so those that conflict with a mark are among the next one and those that
/// conflict with that. Where there are none, the search goes on at the next listed mark.
pub fn pairs(
    alloc: Global,
    marks: &[Mark],
    listed: &[Mark],
) -> Result<Seq<(Stamp, Stamp)>, NoMemory>
    requires rise { Rises marks.now }
    requires listed { ListsConflicts marks.now listed.now }
    ensures { IfOk result (λ pairs. pairs ≡ pairs_of marks.now) }
{
    let mut pairs = Vec::new(alloc);
    let mut later = Vec::new(alloc);
    let mut count = marks.len();
    while count > 0 {
        let at = count - 1;
        let mark = marks[at];
        keep_conflicts(&mut later, &mark);
        add_pairs(&mut pairs, &mark, &later)?;
        later.push(mark)?;
        count = left(marks, listed, at, later.len());
    }
    pairs.reverse();
    Ok(Seq::from_vec(pairs))
}

// How many of the marks before this place are still to be looked at, where so many of those from it on are left: all, or
// else those up to the last listed one.
fn left(marks: &[Mark], listed: &[Mark], at: usize, later: usize) -> usize
    requires rise { Rises marks.now }
    requires listed { ListsConflicts marks.now listed.now }
    requires within { at < length marks.now }
    ensures most { result ≤ at }
    ensures few { result < at → later ≤ 1 }
    ensures free { (k : ℕ) (d : Mark) → result < at → result ≤ k → k ≤ at → IsFree marks.now (slice_index_or marks.now k d) }
{
    if later > 1 {
        return at;
    }
    let stamp = marks[at].stamp;
    let before = place(listed, &stamp);
    if stands_at(listed, before, &stamp) {
        return at;
    }
    if before == 0 {
        return 0;
    }
    let last = place(marks, &listed[before - 1].stamp);
    if last >= at {
        return at;
    }
    last + 1
}

// Keeps the marks that conflict with an earlier one.
fn keep_conflicts(marks: &mut Vec<Mark>, earlier: &Mark)
    ensures { marks.new.items ≡ filter (is_conflict earlier.now) marks.old.items }
{
    marks.retain(|later| earlier.conflicts_with(later));
}

// Adds the pairs of one mark and each of these.
fn add_pairs(
    pairs: &mut Vec<(Stamp, Stamp)>,
    earlier: &Mark,
    later: &[Mark],
) -> Result<(), NoMemory>
    ensures { OnOk result (pairs.new.items ≡ pairs.old.items ++ map (λ (mark : Mark). (earlier.now.stamp, mark.stamp)) later.now) }
{
    for mark in later {
        pairs.push((earlier.stamp, mark.stamp))?;
    }
    Ok(())
}

/// Lists a mark that is to be put in at this place, where it conflicts with the one before it, and the one behind it,
/// where that conflicts with it.
pub fn list(listed: &mut Vec<Mark>, marks: &[Mark], at: usize, mark: &Mark) -> Result<(), NoMemory>
    requires rise { Rises listed.old.items }
    requires within { at ≤ length marks.now }
    ensures rise { Rises listed.new.items }
    ensures stay { (s : Point) → HasStamp listed.old.items s → HasStamp listed.new.items s }
    ensures this { OnOk result ((k : ℕ) (d : Mark) → k + 1 ≡ at → is_conflict (slice_index_or marks.now k d) mark.now ≡ true → HasStamp listed.new.items mark.now.stamp) }
    ensures behind { OnOk result ((d : Mark) → at < length marks.now → is_conflict mark.now (slice_index_or marks.now at d) ≡ true → HasStamp listed.new.items (slice_index_or marks.now at d).stamp) }
{
    list_this(listed, marks, at, mark)?;
    if at == marks.len() {
        return Ok(());
    }
    list_later(listed, mark, &marks[at])
}

// Lists the mark, where it conflicts with the one before it.
fn list_this(listed: &mut Vec<Mark>, marks: &[Mark], at: usize, mark: &Mark) -> Result<(), NoMemory>
    requires rise { Rises listed.old.items }
    requires within { at ≤ length marks.now }
    ensures rise { Rises listed.new.items }
    ensures stay { (s : Point) → HasStamp listed.old.items s → HasStamp listed.new.items s }
    ensures this { OnOk result ((k : ℕ) (d : Mark) → k + 1 ≡ at → is_conflict (slice_index_or marks.now k d) mark.now ≡ true → HasStamp listed.new.items mark.now.stamp) }
{
    if at == 0 {
        return Ok(());
    }
    list_later(listed, &marks[at - 1], mark)
}

// Lists the later of two marks, where they conflict.
fn list_later(listed: &mut Vec<Mark>, earlier: &Mark, later: &Mark) -> Result<(), NoMemory>
    requires { Rises listed.old.items }
    ensures rise { Rises listed.new.items }
    ensures stay { (s : Point) → HasStamp listed.old.items s → HasStamp listed.new.items s }
    ensures ok { OnOk result (is_conflict earlier.now later.now ≡ true → HasStamp listed.new.items later.now.stamp) }
{
    if !earlier.conflicts_with(later) {
        return Ok(());
    }
    put(listed, later)
}
