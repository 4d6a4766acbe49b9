use crate::{Marks, Newest};
use pr_names::Name;
use pr_stamps::{Mark, Stamp};
use pr_vectors::Vector;
use std::test::Fail;

fn mark(stamp: (u64, u32), prev: Option<(u64, u32)>) -> Option<Mark> {
    let prev = match prev {
        Some((clock, node)) => Some(Stamp::new(clock, node)?),
        None => None,
    };
    let stamp = Stamp::new(stamp.0, stamp.1)?;
    Some(Mark { stamp, prev })
}

fn are_marks(marks: &[Mark], stamps: &[(u64, u32)]) -> bool {
    let mut all = marks.iter().zip(stamps.iter());
    marks.len() == stamps.len() && all.all(|(m, s)| m.stamp.clock() == s.0 && m.stamp.node() == s.1)
}

// Whether these are the stamps of the name's marks.
fn has_marks(table: &Marks, name: &Name, stamps: &[(u64, u32)]) -> bool {
    match table.known(name) {
        Some((_, marks)) => are_marks(marks, stamps),
        None => stamps.is_empty(),
    }
}

#[test]
fn marks_and_their_conflicts(rt: HostRuntime) -> Result<(), Fail> {
    let a = Name::read(b"a").ok().ok_or("a name")?;
    let mut table = Marks::new(rt.alloc());
    let first = mark((1, 0), None).ok_or("a mark")?;
    let tied = mark((1, 1), None).ok_or("a mark")?;
    let last = mark((2, 1), Some((1, 0))).ok_or("a mark")?;
    table.add(&a, &last, false).ok().ok_or("no memory")?;
    table.add(&a, &first, false).ok().ok_or("no memory")?;
    table.add(&a, &tied, false).ok().ok_or("no memory")?;
    table.add(&a, &first, true).ok().ok_or("no memory")?;
    assert!(rt; has_marks(&table, &a, &[(1, 0), (1, 1), (2, 1)]));
    let pairs = table.pairs(&a).ok().ok_or("no memory")?;
    let pairs = pairs.as_slice();
    assert_eq!(rt; pairs.len(), 2);
    assert!(rt; pairs[0] == (first.stamp, tied.stamp) && pairs[1] == (tied.stamp, last.stamp));
    let mut floor = Vector::zero();
    floor.raise(&tied.stamp);
    table.forget(&floor);
    assert!(rt; has_marks(&table, &a, &[(1, 0), (2, 1)]) && table.floor() == floor);
    table.add(&a, &tied, false).ok().ok_or("no memory")?;
    assert!(rt; has_marks(&table, &a, &[(1, 0), (2, 1)]));
    Ok(())
}

#[test]
fn a_next_write_follows_the_newest_known(rt: HostRuntime) -> Result<(), Fail> {
    let a = Name::read(b"a").ok().ok_or("a name")?;
    let mut table = Marks::new(rt.alloc());
    let first = mark((1, 0), None).ok_or("a mark")?;
    let second = mark((3, 1), Some((1, 0))).ok_or("a mark")?;
    let newest = newest((3, 1), true).ok_or("a stamp")?;
    assert_eq!(rt; table.follow(&a, &first.stamp, false), Ok(first.prev));
    assert_eq!(rt; table.follow(&a, &second.stamp, true), Ok(second.prev));
    assert!(rt; has_marks(&table, &a, &[(1, 0), (3, 1)]) && table.newest(&a) == Some(newest));
    assert!(rt; table.pairs(&a).is_ok_and(|pairs| pairs.is_empty()));
    Ok(())
}

fn newest(stamp: (u64, u32), gone: bool) -> Option<Newest> {
    let stamp = Stamp::new(stamp.0, stamp.1)?;
    Some(Newest { stamp, gone })
}

#[test]
fn newest_stamps(rt: HostRuntime) -> Result<(), Fail> {
    let a = Name::read(b"a").ok().ok_or("a name")?;
    let b = Name::read(b"b").ok().ok_or("a name")?;
    let mut table = Marks::new(rt.alloc());
    let write = mark((2, 1), None).ok_or("a mark")?;
    let gone = newest((2, 1), true).ok_or("a stamp")?;
    table.add(&a, &write, false).ok().ok_or("no memory")?;
    table.raise(&a, &gone).ok().ok_or("no memory")?;
    table.raise(&b, &gone).ok().ok_or("no memory")?;
    assert_eq!(rt;
        (table.newest(&a), table.newest(&b)),
        (newest((2, 1), false), newest((2, 1), true))
    );
    assert!(rt; has_marks(&table, &b, &[]));
    assert_eq!(rt;
        (
            table.next_known(&None),
            table.next_known(&Some(a)),
            table.next_known(&Some(b))
        ),
        (Some(a), Some(b), None)
    );
    Ok(())
}

// Adds the mark to each of these names, and tells how many names are listed then.
fn add_to(table: &mut Marks, names: &[&[u8]], mark: &Mark) -> Option<usize> {
    for name in names {
        let name = Name::read(name).ok()?;
        table.add(&name, mark, false).ok()?;
    }
    Some(table.listed())
}

// The same behind a floor up to this stamp.
fn forget_up_to(table: &mut Marks, stamp: &Stamp) -> usize {
    let mut floor = Vector::zero();
    floor.raise(stamp);
    table.forget(&floor);
    table.listed()
}

fn are_listed(table: &mut Marks) -> Option<bool> {
    let first = mark((1, 0), None)?;
    let next = mark((2, 0), None)?;
    let last = mark((3, 0), None)?;
    let all = add_to(table, &[b"a", b"b", b"c"], &first)?;
    let again = add_to(table, &[b"b"], &next)?;
    let one = forget_up_to(table, &first.stamp);
    let none = forget_up_to(table, &next.stamp);
    let more = add_to(table, &[b"a"], &last)?;
    Some([all, again, one, none, more] == [3, 3, 1, 0, 1])
}

#[test]
fn names_are_listed_while_they_have_marks(rt: HostRuntime) {
    let mut table = Marks::new(rt.alloc());
    assert!(rt; are_listed(&mut table).unwrap_or(false));
}

type Point = (u64, u32);

// Writes by their stamps and the stamps that their nodes knew, and orders in which they come.
const WRITES: [(Point, Option<Point>); 6] = [
    ((1, 0), None),
    ((2, 1), Some((1, 0))),
    ((3, 2), Some((1, 0))),
    ((4, 0), Some((1, 0))),
    ((5, 1), Some((4, 0))),
    ((6, 2), None),
];

const ORDERS: [[usize; 6]; 3] = [[0, 1, 2, 3, 4, 5], [5, 4, 3, 2, 1, 0], [2, 5, 0, 3, 1, 4]];

// Whether these are the pairs that a loop over all marks and all marks finds.
fn are_all(pairs: &[(Stamp, Stamp)], marks: &[Mark]) -> bool {
    let mut left = pairs.iter();
    for earlier in marks {
        for later in marks {
            if earlier.conflicts_with(later) && left.next() != Some(&(earlier.stamp, later.stamp)) {
                return false;
            }
        }
    }
    left.next().is_none()
}

// The same of the name's marks.
fn are_all_of(table: &Marks, name: &Name, pairs: &[(Stamp, Stamp)]) -> bool {
    match table.known(name) {
        Some((_, marks)) => are_all(pairs, marks),
        None => pairs.is_empty(),
    }
}

// Whether all conflicts are found after each of these writes is added.
fn find_all(table: &mut Marks, name: &Name, order: &[usize]) -> Option<bool> {
    for at in order {
        let (stamp, prev) = *WRITES.get(*at)?;
        table.add(name, &mark(stamp, prev)?, false).ok()?;
        let pairs = table.pairs(name).ok()?;
        if !are_all_of(table, name, pairs.as_slice()) {
            return Some(false);
        }
    }
    Some(true)
}

fn find_all_behind_a_floor(table: &mut Marks, order: &[usize]) -> Option<bool> {
    let name = Name::read(b"a").ok()?;
    let (first, second) = order.split_at_checked(4)?;
    let before = find_all(table, &name, first)?;
    forget_up_to(table, &mark((4, 0), None)?.stamp);
    Some(before && find_all(table, &name, second)?)
}

#[test]
fn all_conflicts_are_found(rt: HostRuntime) {
    for order in ORDERS {
        let mut table = Marks::new(rt.alloc());
        assert!(rt; find_all_behind_a_floor(&mut table, &order).unwrap_or(false));
    }
}
