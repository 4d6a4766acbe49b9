// Marks.
ghost use Rattle.pr_stamps.specs.declared.mark.Mark.{Mark};
ghost use Rattle.pr_story.specs.Knowledge.{IsMark, known_mark, mark_at, mark_in_rows, mark_told};
ghost use Rattle.pr_story.specs.Marking.{AreMarks, IsMarkedBy, MarksRise, if_at, mark_by_row, mark_by_write, marks_below, marks_past};
ghost use Rattle.pr_vectors.specs.Vector.{Covers};
ghost use Rattle.std.specs.Prelude.{◌≡◌, ◌++◌, ◌↔◌, Contains, IfOk, OnOk, reverse};

use crate::plain::is_same;
use crate::plain::vectors::floor_of;
use crate::{Entry, Event};
use pr_inval::{Kind, Row, WriteRec};
use pr_names::Name;
use pr_stamps::{Mark, NoMemory, Seq, Stamp};
use pr_vectors::Vector;
use std::alloc::Global;

// ---- the marks in order

// The mark, if it has the stamp.
fn if_at(mark: &Mark, stamp: &Stamp) -> Option<Mark>
    ensures { result ≡ if_at mark.now stamp.now }
{
    if mark.stamp.clock() == stamp.clock() && mark.stamp.node() == stamp.node() {
        Some(*mark)
    } else {
        None
    }
}

// The first of the marks with this stamp.
fn mark_at(marks: &[Mark], stamp: &Stamp) -> Option<Mark>
    ensures { result ≡ mark_at marks.now stamp.now }
{
    for mark in marks {
        match if_at(mark, stamp) {
            Some(mark) => return Some(mark),
            None => {}
        }
    }
    None
}

// Adds the marks that come before the stamp.
fn add_below(list: &mut Seq<Mark>, marks: &[Mark], stamp: &Stamp) -> Result<(), NoMemory>
    ensures { OnOk result (list.new ≡ list.old ++ marks_below marks.now stamp.now) }
{
    for mark in marks {
        if mark.stamp.is_before(stamp) {
            list.push(*mark)?;
        }
    }
    Ok(())
}

// Adds the marks that come after the stamp.
fn add_past(list: &mut Seq<Mark>, marks: &[Mark], stamp: &Stamp) -> Result<(), NoMemory>
    ensures { OnOk result (list.new ≡ list.old ++ marks_past marks.now stamp.now) }
{
    for mark in marks {
        if stamp.is_before(&mark.stamp) {
            list.push(*mark)?;
        }
    }
    Ok(())
}

// The marks with this one too, in its place; where one has its stamp, that one stays.
fn with_mark(alloc: Global, marks: Seq<Mark>, mark: &Mark) -> Result<Seq<Mark>, NoMemory>
    ensures { IfOk result (IsMarkedBy marks (if_at mark.now)) }
{
    match mark_at(marks.as_slice(), &mark.stamp) {
        Some(_) => return Ok(marks),
        None => {}
    }
    let mut more = Seq::new(alloc);
    add_below(&mut more, marks.as_slice(), &mark.stamp)?;
    more.push(*mark)?;
    add_past(&mut more, marks.as_slice(), &mark.stamp)?;
    Ok(more)
}

// ---- what an event tells

// With each of these marks, one after the other.
fn with_marks(alloc: Global, marks: Seq<Mark>, told: &[Mark]) -> Result<Seq<Mark>, NoMemory>
    ensures { IfOk result (IsMarkedBy marks (mark_at told.now)) }
{
    let mut more = marks;
    for mark in told {
        more = with_mark(alloc, more, mark)?;
    }
    Ok(more)
}

// With the write's mark, if it is to the name.
fn with_write(
    alloc: Global,
    marks: Seq<Mark>,
    write: &WriteRec,
    name: &Name,
) -> Result<Seq<Mark>, NoMemory>
    ensures { IfOk result (IsMarkedBy marks (mark_by_write write.now name.now)) }
{
    if !is_same(&write.name, name) {
        return Ok(marks);
    }
    let mark = Mark {
        stamp: write.stamp,
        prev: write.prev,
    };
    with_mark(alloc, marks, &mark)
}

// With the row's marks, if it is of the name.
fn with_row(alloc: Global, marks: Seq<Mark>, row: &Row, name: &Name) -> Result<Seq<Mark>, NoMemory>
    ensures { IfOk result (IsMarkedBy marks (mark_by_row row.now name.now)) }
{
    if !is_same(&row.name, name) {
        return Ok(marks);
    }
    with_marks(alloc, marks, row.marks.as_slice())
}

// With the marks of the rows of the name.
fn with_rows(
    alloc: Global,
    marks: Seq<Mark>,
    rows: &[Row],
    name: &Name,
) -> Result<Seq<Mark>, NoMemory>
    ensures { IfOk result (IsMarkedBy marks (mark_in_rows rows.now name.now)) }
{
    let mut more = marks;
    for row in rows {
        more = with_row(alloc, more, row, name)?;
    }
    Ok(more)
}

// With the marks of the name that the event tells.
fn with_event(
    alloc: Global,
    marks: Seq<Mark>,
    event: &Event,
    name: &Name,
) -> Result<Seq<Mark>, NoMemory>
    ensures { IfOk result (IsMarkedBy marks (mark_told event.now name.now)) }
{
    match event {
        Event::Wrote { write, .. } => with_write(alloc, marks, write, name),
        Event::Accepted { msg, .. } => match &msg.kind {
            Kind::Precise { write, .. } => with_write(alloc, marks, write, name),
            Kind::Checkpoint { rows, .. } => with_rows(alloc, marks, rows.as_slice(), name),
            _ => Ok(marks),
        },
        _ => Ok(marks),
    }
}

// ---- the marks of a name

// The marks of the name that the node knows.
fn known_marks(alloc: Global, entries: &[Entry], name: &Name) -> Result<Seq<Mark>, NoMemory>
    ensures { IfOk result (AreMarks (known_mark (reverse entries.now) name.now)) }
{
    let mut marks = Seq::new(alloc);
    for entry in entries {
        marks = with_event(alloc, marks, &entry.event, name)?;
    }
    Ok(marks)
}

// Those of the marks that the floor does not cover.
fn above(alloc: Global, marks: &[Mark], floor: &Vector) -> Result<Seq<Mark>, NoMemory>
    requires { MarksRise marks.now }
    ensures rise { IfOk result MarksRise }
    ensures each { IfOk result (λ kept. (mark : Mark) → Contains kept mark ↔ (Contains marks.now mark × ¬ Covers floor.now mark.stamp)) }
{
    let mut kept = Seq::new(alloc);
    for mark in marks {
        if !floor.covers(&mark.stamp) {
            kept.push(*mark)?;
        }
    }
    Ok(kept)
}

/// The marks of the name that the node's floor does not cover, in the order of stamps; of several with one stamp the
/// first that the node was told. It reads the list of marks once for each mark that it was told of.
pub fn marks_of(alloc: Global, entries: &[Entry], name: &Name) -> Result<Seq<Mark>, NoMemory>
    ensures rise { IfOk result MarksRise }
    ensures each { IfOk result (λ marks. (mark : Mark) → Contains marks mark ↔ IsMark (reverse entries.now) name.now mark) }
{
    let marks = known_marks(alloc, entries, name)?;
    above(alloc, marks.as_slice(), &floor_of(entries))
}
