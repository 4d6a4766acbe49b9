ghost use Rattle.pr_log.specs.Known.{uncovered};
ghost use Rattle.pr_vectors.specs.Vector.{zero_vector};
ghost use Rattle.std.specs.Prelude.{◌≡◌, ◌≤◌, ◌<◌, ◌+◌, ℕ, List, IfOk, OnOk};

use crate::{Log, Near, Steps};
use pr_inval::WriteRec;
use pr_names::Name;
use pr_sets::NameSet;
use pr_stamps::{Seq, Stamp};
use pr_vectors::{PackedVector, Vector};
use std::alloc::Global;
use std::marker::Brand;
use std::sync::ledger::{Blank, Ledger};
use std::test::Fail;

const A: u32 = 0;

const B: u32 = 1;

// A log of B.
fn log(alloc: Global) -> Result<Log, Fail>
    ensures { IfOk result (λ log. (pos : List ℕ) → uncovered log.known pos ≡ 0) }
{
    match Log::new(alloc, B) {
        Ok(log) => Ok(log),
        Err(_) => Err(Fail::from("no memory")),
    }
}

fn packed(alloc: Global, vector: &Vector) -> Result<PackedVector, Fail>
    ensures { IfOk result (λ packed. packed ≡ vector.now) }
{
    match PackedVector::of(alloc, vector) {
        Ok(packed) => Ok(packed),
        Err(_) => Err(Fail::from("no memory")),
    }
}

fn set(alloc: Global, text: &[u8]) -> Result<NameSet, Fail> {
    Ok(NameSet::read(alloc, text, 100).ok().ok_or("a set")?)
}

fn up_to(clock: u64, node: u32) -> Vector {
    let mut vector = Vector::zero();
    if let Some(stamp) = Stamp::new(clock, node) {
        vector.raise(&stamp);
    }
    vector
}

fn write(name: &[u8], clock: u64, node: u32) -> Result<WriteRec, Fail> {
    let name = Name::read(name).ok().ok_or("a name")?;
    let stamp = Stamp::new(clock, node).ok_or("a stamp")?;
    Ok(WriteRec {
        name,
        stamp,
        prev: None,
        gone: false,
    })
}

// An imprecise invalidation.
fn tell(
    alloc: Global,
    log: &mut Log,
    from: &Vector,
    to: &Vector,
    target: &[u8],
) -> Result<(), Fail> {
    let target = set(alloc, target)?;
    if !from.le(to) || !from.le(log.vector()) {
        return Err(Fail::from("a span"));
    }
    let from = packed(alloc, from)?;
    let to = packed(alloc, to)?;
    Ok(
        log.refine(&from, &to, &target, None)
            .ok()
            .ok_or("no memory")?,
    )
}

// A precise invalidation of one write of A.
fn tell_write(alloc: Global, log: &mut Log, name: &[u8], clock: u64) -> Result<(), Fail>
    ensures { OnOk result ((pos : List ℕ) → uncovered log.new.known pos ≤ uncovered log.old.known pos + 1) }
{
    let write = write(name, clock, A)?;
    let none = NameSet::empty(alloc);
    let from = log.vector().below(&write.stamp);
    let to = from.join(&up_to(write.stamp.clock(), write.stamp.node()));
    if !from.le(&to) || !from.le(log.vector()) {
        return Err(Fail::from("a span"));
    }
    let from = packed(alloc, &from)?;
    let to = packed(alloc, &to)?;
    match log.refine(&from, &to, &none, Some(&write)) {
        Ok(()) => Ok(()),
        Err(_) => Err(Fail::from("no memory")),
    }
}

// A log of B with one write of its own.
fn log_with_own(alloc: Global, name: &[u8], clock: u64) -> Result<Log, Fail> {
    let mut log = match Log::new(alloc, B) {
        Ok(log) => log,
        Err(_) => return Err(Fail::from("no memory")),
    };
    let write = write(name, clock, B)?;
    if write.stamp.node() != B || log.vector().at(B) >= write.stamp.clock() {
        return Err(Fail::from("a clock"));
    }
    match log.add_own(&write) {
        Ok(()) => Ok(log),
        Err(_) => Err(Fail::from("no memory")),
    }
}

// The text of the names that are dark between the vectors.
fn dark(alloc: Global, log: &Log, from: &Vector, to: &Vector) -> Result<Seq<u8>, Fail> {
    if !log.cut_at().le(from) || !to.le(&from.join(log.vector())) {
        return Err(Fail::from("vectors"));
    }
    let names = log.dark_between(from, to).ok().ok_or("no memory")?;
    let mut text = Seq::new(alloc);
    names.print(&mut text).ok().ok_or("no memory")?;
    Ok(text)
}

// The text of the omitted names of all known writes.
fn omitted(alloc: Global, log: &Log, sub: &[u8]) -> Result<Seq<u8>, Fail> {
    let sub = set(alloc, sub)?;
    let (from, to) = (log.cut_at(), log.vector());
    if !log.cut_at().le(from) || !to.le(&from.join(log.vector())) {
        return Err(Fail::from("vectors"));
    }
    let names = log.omitted_between(from, to, &sub).ok().ok_or("no memory")?;
    let mut text = Seq::new(alloc);
    names.print(&mut text).ok().ok_or("no memory")?;
    Ok(text)
}

// The stamp of the next write to one of the names.
fn next(alloc: Global, log: &Log, pos: &Vector, sub: &[u8]) -> Result<Option<Stamp>, Fail> {
    let sub = set(alloc, sub)?;
    Ok(next_near(log, pos, &sub, &mut Near::new()))
}

fn next_near(log: &Log, pos: &Vector, sub: &NameSet, near: &mut Near) -> Option<Stamp> {
    match log.next_write(pos, sub, near) {
        Some(write) => Some(write.stamp),
        None => None,
    }
}

#[test]
fn targets_narrow_what_is_dark(rt: HostRuntime) -> Result<(), Fail> {
    let mut log = log(rt.alloc())?;
    tell(rt.alloc(), &mut log, &Vector::zero(), &up_to(4, A), b"b")?;
    tell(rt.alloc(), &mut log, &up_to(1, A), &up_to(3, A), b"a,b")?;
    let names = dark(rt.alloc(), &log, &Vector::zero(), &up_to(4, A))?;
    assert_eq!(rt; names.as_slice(), b"b".as_slice());
    Ok(())
}

#[test]
fn new_points_are_dark_but_own_ones_are_lit(rt: HostRuntime) -> Result<(), Fail> {
    let mut log = log(rt.alloc())?;
    tell(rt.alloc(), &mut log, &Vector::zero(), &up_to(4, A), b"b")?;
    log.darken(&packed(rt.alloc(), &up_to(6, A))?)
        .ok()
        .ok_or("no memory")?;
    tell(rt.alloc(), &mut log, &Vector::zero(), &up_to(3, B), b"*")?;
    let others = dark(rt.alloc(), &log, &up_to(4, A), &up_to(6, A))?;
    let own = dark(rt.alloc(), &log, &Vector::zero(), &up_to(3, B))?;
    assert_eq!(rt;
        (others.as_slice(), own.as_slice()),
        (b"*".as_slice(), b"~".as_slice())
    );
    assert!(rt; *log.vector() == up_to(6, A).join(&up_to(3, B)) && !log.is_spent());
    Ok(())
}

#[test]
fn the_next_write_is_the_least_that_waits(rt: HostRuntime) -> Result<(), Fail> {
    let mut log = log_with_own(rt.alloc(), b"b", 2)?;
    for (name, clock) in [(b"a", 1), (b"b", 2), (b"c", 3)] {
        tell_write(rt.alloc(), &mut log, name, clock)?;
    }
    tell_write(rt.alloc(), &mut log, b"d", 1)?;
    let cases: [(&[u8], Vector, Option<Stamp>); 4] = [
        (b"b", Vector::zero(), Stamp::new(2, A)),
        (b"b", up_to(2, A), Stamp::new(2, B)),
        (b"c,b", up_to(2, A).join(&up_to(2, B)), Stamp::new(3, A)),
        (b"d", Vector::zero(), None),
    ];
    for (sub, pos, stamp) in &cases {
        assert!(rt; next(rt.alloc(), &log, pos, sub)? == *stamp);
    }
    Ok(())
}

#[test]
fn names_outside_the_subscription_are_omitted(rt: HostRuntime) -> Result<(), Fail> {
    let mut log = log(rt.alloc())?;
    for (name, clock) in [(b"a", 1), (b"b", 2), (b"c", 3), (b"a", 4)] {
        tell_write(rt.alloc(), &mut log, name, clock)?;
    }
    let names = omitted(rt.alloc(), &log, b"b")?;
    assert_eq!(rt; names.as_slice(), b"a,c".as_slice());
    log.list_names().ok().ok_or("no memory")?;
    tell_write(rt.alloc(), &mut log, b"d", 5)?;
    let listed = omitted(rt.alloc(), &log, b"b")?;
    assert_eq!(rt; listed.as_slice(), b"a,c,d".as_slice());
    Ok(())
}

// No name lies between `a` and `a-`.
#[test]
fn omitted_names_that_touch_are_one_interval(rt: HostRuntime) -> Result<(), Fail> {
    let mut log = log(rt.alloc())?;
    let writes: [(&[u8], u64); 4] = [(b"c", 1), (b"a-", 2), (b"a", 3), (b"c", 4)];
    for (name, clock) in writes {
        tell_write(rt.alloc(), &mut log, name, clock)?;
    }
    let names = omitted(rt.alloc(), &log, b"b")?;
    assert_eq!(rt; names.as_slice(), b"a:a--,c".as_slice());
    Ok(())
}

#[test]
fn a_cut_log_forgets_its_writes(rt: HostRuntime) -> Result<(), Fail> {
    let mut log = log(rt.alloc())?;
    tell_write(rt.alloc(), &mut log, b"a", 5)?;
    log.cut();
    assert!(rt; *log.cut_at() == *log.vector() && log.cut_at().at(A) == 5);
    assert!(rt; next(rt.alloc(), &log, &Vector::zero(), b"a")? == None);
    tell_write(rt.alloc(), &mut log, b"a", 7)?;
    assert!(rt; next(rt.alloc(), &log, &up_to(5, A), b"a")? == Stamp::new(7, A));
    Ok(())
}

// A log of B that was told of a hundred writes of A to b, and of one to a behind them.
fn long_log(alloc: Global) -> Result<Log, Fail>
    ensures { IfOk result (λ log. uncovered log.known zero_vector ≤ 101) }
{
    let mut log = log(alloc)?;
    for told in 0..100u64 {
        tell_write(alloc, &mut log, b"b", told + 1)?;
    }
    tell_write(alloc, &mut log, b"a", 101)?;
    Ok(log)
}

// The next write from zero.
fn next_in_steps<'a, L: Ledger>(
    log: &'a Log,
    sub: &NameSet,
    steps: &mut Steps<L>,
) -> Option<&'a WriteRec>
    requires { uncovered log.now.known zero_vector ≤ 101 }
    ensures { steps.new ≤ steps.old + 133 }
{
    log.next_write_counted(&Vector::zero(), sub, &mut Near::new(), steps)
}

fn next_counted<'a, L: Ledger>(log: &'a Log, sub: &NameSet, blank: Blank) -> Option<&'a WriteRec>
    requires name { blank.name ≡ L.name }
    requires parts { blank.parts ≡ L.parts }
    requires some { 0 < L.parts }
    requires few { uncovered log.now.known zero_vector ≤ 101 }
{
    let mut steps = Steps::<L>::new(blank);
    next_in_steps(log, sub, &mut steps)
}

#[test]
fn a_write_behind_a_hundred_is_found_in_133_steps(rt: HostRuntime) -> Result<(), Fail> {
    let log = long_log(rt.alloc())?;
    let sub = set(rt.alloc(), b"a")?;
    match next_counted::<Brand>(&log, &sub, Blank::new(1)) {
        Some(write) => assert!(rt; Some(write.stamp) == Stamp::new(101, A)),
        None => return Err(Fail::from("a write")),
    }
    Ok(())
}

// Whether the clocks from 1 to 100 are each found behind the one before it, and again from the first on.
fn are_found_in_turn(log: &Log, sub: &NameSet) -> bool {
    let mut near = Near::new();
    for told in 0..200u64 {
        let mut pos = Vector::zero();
        if let Some(stamp) = Stamp::new(told % 100, A) {
            pos.raise(&stamp);
        }
        if next_near(log, &pos, sub, &mut near) != Stamp::new(told % 100 + 1, A) {
            return false;
        }
    }
    true
}

#[test]
fn a_place_that_is_kept_finds_what_a_search_finds(rt: HostRuntime) -> Result<(), Fail> {
    let log = long_log(rt.alloc())?;
    let sub = set(rt.alloc(), b"b")?;
    assert!(rt; are_found_in_turn(&log, &sub));
    Ok(())
}
