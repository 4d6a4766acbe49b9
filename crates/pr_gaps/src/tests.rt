use crate::Gaps;
use pr_names::Name;
use pr_sets::NameSet;
use pr_stamps::{Seq, Stamp};
use pr_vectors::{PackedVector, Vector};
use std::alloc::Global;
use std::test::Fail;

const A: u32 = 0;

const B: u32 = 1;

// The gap list of B with the set `a`.
fn gaps(alloc: Global) -> Result<Gaps, Fail> {
    let mut sets = Seq::new(alloc);
    sets.push(set(alloc, b"a")?).ok().ok_or("no memory")?;
    Ok(Gaps::new(alloc, B, sets).ok().ok_or("no memory")?)
}

fn set(alloc: Global, text: &[u8]) -> Result<NameSet, Fail> {
    Ok(NameSet::read(alloc, text, 2000).ok().ok_or("a set")?)
}

fn up_to(clock: u64, node: u32) -> Vector {
    let mut vector = Vector::zero();
    if let Some(stamp) = Stamp::new(clock, node) {
        vector.raise(&stamp);
    }
    vector
}

// A message of A up to this clock.
fn tell(alloc: Global, gaps: &mut Gaps, clock: u64, target: &[u8]) -> Result<(), Fail> {
    let target = set(alloc, target)?;
    let from = PackedVector::zero();
    let vector = up_to(clock, A);
    let to = PackedVector::of(alloc, &vector).ok().ok_or("no memory")?;
    if !from.le(&vector) || !from.le(gaps.vector()) {
        return Err(Fail::from("a span"));
    }
    Ok(gaps.cover(&from, &to, &target).ok().ok_or("no memory")?)
}

#[test]
fn a_message_is_untold_where_its_target_meets(rt: HostRuntime) -> Result<(), Fail> {
    let mut gaps = gaps(rt.alloc())?;
    tell(rt.alloc(), &mut gaps, 2, b"a")?;
    assert!(rt; gaps.sets() == 2 && *gaps.vector() == up_to(2, A));
    assert!(rt; gaps.first_untold(0) == Stamp::new(1, A));
    assert!(rt; gaps.last_precise(0) == Vector::zero());
    assert!(rt; gaps.first_untold(1) == None);
    assert!(rt; gaps.last_precise(1) == up_to(2, A));
    Ok(())
}

#[test]
fn a_later_message_tells_the_points(rt: HostRuntime) -> Result<(), Fail> {
    let mut gaps = gaps(rt.alloc())?;
    tell(rt.alloc(), &mut gaps, 2, b"a")?;
    tell(rt.alloc(), &mut gaps, 1, b"~")?;
    assert!(rt; gaps.first_untold(0) == Stamp::new(2, A));
    assert!(rt; gaps.last_precise(0) == up_to(1, A));
    Ok(())
}

#[test]
fn own_points_are_told(rt: HostRuntime) -> Result<(), Fail> {
    let mut gaps = gaps(rt.alloc())?;
    gaps.own(7);
    gaps.own(5);
    assert!(rt; gaps.sets() == 2 && *gaps.vector() == up_to(7, B));
    assert!(rt; gaps.first_untold(0) == None && gaps.first_untold(1) == None);
    assert!(rt; gaps.last_precise(0) == up_to(7, B));
    Ok(())
}

#[test]
fn a_name_is_in_its_set_or_in_the_rest(rt: HostRuntime) -> Result<(), Fail> {
    let gaps = gaps(rt.alloc())?;
    let a = Name::read(b"a").ok().ok_or("a name")?;
    let b = Name::read(b"b").ok().ok_or("a name")?;
    assert!(rt; gaps.set_of(&a) == 0 && gaps.set_of(&b) == 1);
    assert!(rt; gaps.set(0).has(&a) && !gaps.set(0).has(&b));
    assert!(rt; gaps.set(1).has(&b) && !gaps.set(1).has(&a));
    Ok(())
}
