use crate::{apply, build, next_known_in};
use pr_gaps::Gaps;
use pr_inval::{Kind, Row};
use pr_marks::{Marks, Newest};
use pr_names::Name;
use pr_sets::NameSet;
use pr_stamps::{Mark, Seq, Stamp};
use pr_vectors::{PackedVector, Vector};
use std::alloc::Global;
use std::test::Fail;

// What B keeps, whose one set is `a`.
fn stores(alloc: Global) -> Option<(Gaps, Marks)> {
    let mut sets = Seq::new(alloc);
    let set = NameSet::read(alloc, b"a", 16).ok()?;
    sets.push(set).ok()?;
    let gaps = Gaps::new(alloc, 1, sets).ok()?;
    Some((gaps, Marks::new(alloc)))
}

// The vector of this clock of A.
fn up_to(clock: u64) -> Vector {
    let mut vector = Vector::zero();
    if let Some(stamp) = Stamp::new(clock, 0) {
        vector.raise(&stamp);
    }
    vector
}

fn row(name: &[u8], newest: Option<Stamp>, gone: bool, marks: Seq<Mark>) -> Option<Row> {
    let name = Name::read(name).ok()?;
    let newest = newest?;
    Some(Row {
        name,
        newest,
        gone,
        marks,
    })
}

// A write of a with its mark, and a delete of b without one.
fn rows(alloc: Global) -> Option<Seq<Row>> {
    let mut marks = Seq::new(alloc);
    let stamp = Stamp::new(1, 0)?;
    marks.push(Mark { stamp, prev: None }).ok()?;
    let written = row(b"a", Some(stamp), false, marks)?;
    let deleted = row(b"b", Stamp::new(2, 0), true, Seq::new(alloc))?;
    let mut rows = Seq::new(alloc);
    rows.push(written).ok()?;
    rows.push(deleted).ok()?;
    Some(rows)
}

// Takes a checkpoint up to the first clock, with the target and the floor up to the second clock.
fn take(
    alloc: Global,
    stores: &mut (Gaps, Marks),
    clocks: (u64, u64),
    target: &[u8],
    rows: &[Row],
) -> bool {
    let to = PackedVector::of(alloc, &up_to(clocks.0));
    match (to, NameSet::read(alloc, target, 16)) {
        (Ok(to), Ok(target)) => {
            let floor = up_to(clocks.1);
            apply(&mut stores.0, &mut stores.1, &to, &target, &floor, rows).is_ok()
        }
        _ => false,
    }
}

// The target and the rows of the checkpoint of all names, if it has this vector and this floor.
fn made(alloc: Global, stores: &(Gaps, Marks), clocks: (u64, u64)) -> Option<(NameSet, Seq<Row>)> {
    let all = NameSet::read(alloc, b"*", 16).ok()?;
    match build(alloc, &stores.0, &stores.1, &all).ok()? {
        Kind::Checkpoint {
            to,
            target,
            floor,
            rows,
        } => {
            if to.get() == up_to(clocks.0) && floor.get() == up_to(clocks.1) {
                Some((target, rows))
            } else {
                None
            }
        }
        _ => None,
    }
}

fn is_row(row: &Row, name: &[u8], clock: u64, gone: bool, marks: usize) -> bool {
    row.name.bytes() == name
        && row.newest.clock() == clock
        && row.gone == gone
        && row.marks.len() == marks
}

#[test]
fn a_checkpoint_gives_what_was_taken(rt: HostRuntime) -> Result<(), Fail> {
    let mut stores = stores(rt.alloc()).ok_or("stores")?;
    let rows = rows(rt.alloc()).ok_or("rows")?;
    assert!(rt; take(rt.alloc(), &mut stores, (2, 0), b"~", rows.as_slice()));
    let (target, rows) = made(rt.alloc(), &stores, (2, 0)).ok_or("a checkpoint")?;
    let rows = rows.as_slice();
    assert!(rt; target.is_empty());
    assert_eq!(rt; rows.len(), 2);
    assert!(rt; is_row(&rows[0], b"a", 1, false, 1) && is_row(&rows[1], b"b", 2, true, 0));
    Ok(())
}

#[test]
fn a_set_that_is_not_precise_is_left_out(rt: HostRuntime) -> Result<(), Fail> {
    let mut stores = stores(rt.alloc()).ok_or("stores")?;
    let rows = rows(rt.alloc()).ok_or("rows")?;
    assert!(rt; take(rt.alloc(), &mut stores, (2, 0), b"~", rows.as_slice()));
    assert!(rt; take(rt.alloc(), &mut stores, (3, 1), b"a", &[]));
    let (target, rows) = made(rt.alloc(), &stores, (3, 1)).ok_or("a checkpoint")?;
    let rows = rows.as_slice();
    assert_eq!(rt; (target.count(), rows.len()), (1, 1));
    assert!(rt; is_row(&rows[0], b"b", 2, true, 0));
    Ok(())
}

// ---- known names

// A table that knows these names.
fn knows(alloc: Global, names: &[&[u8]]) -> Option<Marks> {
    let mut marks = Marks::new(alloc);
    let newest = Newest {
        stamp: Stamp::new(1, 0)?,
        gone: false,
    };
    for name in names {
        marks.raise(&Name::read(name).ok()?, &newest).ok()?;
    }
    Some(marks)
}

// Whether past the first name, or past none, the second one is the next of the set, or none is.
fn is_next(marks: &Marks, names: &NameSet, above: &[u8], next: &[u8]) -> bool {
    match next_known_in(marks, names, &Name::read(above).ok()) {
        Some(name) => name.bytes() == next,
        None => next.is_empty(),
    }
}

#[test]
fn known_names_of_a_set(rt: HostRuntime) -> Result<(), Fail> {
    let known: [&[u8]; 7] = [b"a", b"b", b"b/x", b"c", b"d", b"e", b"f"];
    let marks = knows(rt.alloc(), &known).ok_or("a table")?;
    let set = NameSet::read(rt.alloc(), b"b,d:f", 16);
    let set = set.ok().ok_or("a set")?;
    let steps: [(&[u8], &[u8]); 5] = [
        (b"", b"b"),
        (b"b", b"d"),
        (b"c", b"d"),
        (b"d", b"e"),
        (b"e", b""),
    ];
    for (above, next) in steps {
        assert!(rt; is_next(&marks, &set, above, next));
    }
    Ok(())
}
