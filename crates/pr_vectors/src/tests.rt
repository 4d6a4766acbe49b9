use crate::{Clocked, PackedVector, Vector, only_between, vectors_cover_points};
use pr_stamps::{MAX, Stamp};
use std::alloc::Global;
use std::test::Fail;

fn vector(clocks: &[(u64, u32)]) -> Option<Vector> {
    let mut vector = Vector::zero();
    for (clock, node) in clocks {
        let stamp = Stamp::new(*clock, *node)?;
        vector.raise(&stamp);
    }
    Some(vector)
}

fn raised_within(vector: &Vector, stamp: &Stamp, other: &Vector) -> Vector {
    let mut raised = *vector;
    raised.raise_within(stamp, other);
    raised
}

#[test]
fn cuts_and_joins(rt: HostRuntime) -> Result<(), Fail> {
    let both = vector(&[(3, 0), (3, 1)]).ok_or("stamps")?;
    let stamp = Stamp::new(2, 0).ok_or("a stamp")?;
    let last_of_one = Stamp::new(MAX, 1).ok_or("a stamp")?;
    assert_eq!(rt; Some(both.stamp_cut(&stamp)), vector(&[(2, 0), (1, 1)]));
    assert_eq!(rt; Some(both.below(&stamp)), vector(&[(1, 0), (1, 1)]));
    assert_eq!(rt;
        raised_within(&both.below(&stamp), &stamp, &both),
        both.stamp_cut(&stamp)
    );
    assert_eq!(rt;
        Some(raised_within(&Vector::zero(), &last_of_one, &both)),
        vector(&[(3, 1)])
    );
    let left = vector(&[(5, 0), (1, 31)]).ok_or("stamps")?;
    assert_eq!(rt; Some(both.join(&left)), vector(&[(5, 0), (3, 1), (1, 31)]));
    assert_eq!(rt; Some(both.meet(&left)), vector(&[(3, 0)]));
    assert!(rt; both.le(&both.join(&left)) && !both.le(&left) && Vector::zero().le(&left));
    assert!(rt; both.covers(&stamp) && !Vector::zero().covers(&stamp));
    let last = vector(&[(MAX, 7)]).ok_or("stamps")?;
    assert_eq!(rt;
        (both.greatest(), last.greatest(), last.at(7), last.at(6)),
        (3, MAX, MAX, 0)
    );
    vectors_cover_points();
    Ok(())
}

// Whether what is joined in place is what is joined.
fn is_joined_in(vector: &Vector, other: &Vector, stamp: &Stamp) -> bool {
    let mut whole = *vector;
    whole.join_in(other);
    let mut below = *vector;
    below.join_below(other, stamp);
    whole == vector.join(other) && below == vector.join(&other.below(stamp))
}

#[test]
fn what_is_joined_in_place_is_the_join(rt: HostRuntime) -> Result<(), Fail> {
    let middle = vector(&[(3, 0), (2, 5)]).ok_or("stamps")?;
    let last = vector(&[(1, 0), (5, 31)]).ok_or("stamps")?;
    let stamp = Stamp::new(2, 5).ok_or("a stamp")?;
    assert!(rt; is_joined_in(&middle, &last, &stamp));
    assert!(rt; is_joined_in(&last, &middle, &stamp));
    assert!(rt; is_joined_in(&Vector::zero(), &middle, &stamp));
    Ok(())
}

fn is_packed(alloc: Global, vector: &Vector) -> Option<bool> {
    let packed = PackedVector::of(alloc, vector).ok()?;
    let copy = packed.copy(alloc).ok()?;
    Some(is_same(&packed, vector) && is_same(&copy, vector) && packed.is(&copy))
}

fn is_same(packed: &PackedVector, vector: &Vector) -> bool {
    packed.get() == *vector
        && packed.le(vector)
        && packed.at(31) == vector.at(31)
        && packed.is(&PackedVector::zero()) == (*vector == Vector::zero())
}

#[test]
fn what_is_packed_is_the_vector(rt: HostRuntime) -> Result<(), Fail> {
    let middle = vector(&[(3, 0), (2, 5)]).ok_or("stamps")?;
    let large = vector(&[(MAX, 7)]).ok_or("a stamp")?;
    let last = vector(&[(1, 31)]).ok_or("a stamp")?;
    let short = vector(&[(65_535, 0), (65_535, 7)]).ok_or("stamps")?;
    let long = vector(&[(65_536, 0), (65_535, 7)]).ok_or("stamps")?;
    let wide = vector(&[(65_535, 3), (7, 31)]).ok_or("stamps")?;
    let long_and_wide = vector(&[(65_536, 3), (7, 31)]).ok_or("stamps")?;
    for vector in [
        Vector::zero(),
        middle,
        large,
        last,
        short,
        long,
        wide,
        long_and_wide,
    ] {
        assert!(rt; is_packed(rt.alloc(), &vector).unwrap_or(false));
    }
    Ok(())
}

// Whether this is the first node at which the second vector is above the first, packed or not.
fn is_first_above(alloc: Global, from: &Vector, to: &Vector, first: Option<u32>) -> Option<bool> {
    let packed_from = PackedVector::of(alloc, from).ok()?;
    let packed_to = PackedVector::of(alloc, to).ok()?;
    Some(
        to.next_above(from, 0) == first
            && packed_to.next_above(&packed_from, 0) == first
            && only_between(from, to) == only_between(&packed_from, &packed_to),
    )
}

#[test]
fn the_first_node_above_is_found(rt: HostRuntime) -> Result<(), Fail> {
    let middle = vector(&[(3, 0), (2, 5)]).ok_or("stamps")?;
    let last = vector(&[(1, 0), (2, 5), (5, 31)]).ok_or("stamps")?;
    let large = vector(&[(3, 0), (MAX, 5)]).ok_or("stamps")?;
    assert!(rt; is_first_above(rt.alloc(), &middle, &last, Some(31)).unwrap_or(false));
    assert!(rt; is_first_above(rt.alloc(), &last, &middle, Some(0)).unwrap_or(false));
    assert!(rt; is_first_above(rt.alloc(), &middle, &large, Some(5)).unwrap_or(false));
    assert!(rt; is_first_above(rt.alloc(), &large, &middle, None).unwrap_or(false));
    assert!(rt; is_first_above(rt.alloc(), &Vector::zero(), &middle, Some(0)).unwrap_or(false));
    let short = vector(&[(65_535, 3), (9, 7)]).ok_or("stamps")?;
    let long = vector(&[(65_535, 3), (65_536, 7)]).ok_or("stamps")?;
    let longer = vector(&[(65_535, 3), (65_536, 7), (1, 31)]).ok_or("stamps")?;
    assert!(rt; is_first_above(rt.alloc(), &short, &long, Some(7)).unwrap_or(false));
    assert!(rt; is_first_above(rt.alloc(), &long, &short, None).unwrap_or(false));
    assert!(rt; is_first_above(rt.alloc(), &long, &longer, Some(31)).unwrap_or(false));
    let wide = vector(&[(65_535, 3), (8, 31)]).ok_or("stamps")?;
    let wider = vector(&[(65_535, 3), (9, 31)]).ok_or("stamps")?;
    assert!(rt; is_first_above(rt.alloc(), &short, &wide, Some(31)).unwrap_or(false));
    assert!(rt; is_first_above(rt.alloc(), &wide, &wider, Some(31)).unwrap_or(false));
    assert!(rt; is_first_above(rt.alloc(), &wider, &wide, None).unwrap_or(false));
    assert!(rt; is_first_above(rt.alloc(), &wide, &longer, Some(7)).unwrap_or(false));
    Ok(())
}

// Whether the vectors are the same but for the clock of this node.
fn is_but(alloc: Global, a: &Vector, b: &Vector, node: u32) -> Option<bool> {
    let packed = PackedVector::of(alloc, a).ok()?;
    let other = PackedVector::of(alloc, b).ok()?;
    Some(packed.is_but(&other, node))
}

#[test]
fn vectors_are_the_same_but_for_one_node(rt: HostRuntime) -> Result<(), Fail> {
    let middle = vector(&[(3, 0), (2, 5)]).ok_or("stamps")?;
    let raised = vector(&[(3, 0), (4, 5)]).ok_or("stamps")?;
    let large = vector(&[(3, 0), (MAX, 5)]).ok_or("stamps")?;
    assert!(rt; is_but(rt.alloc(), &middle, &raised, 5).unwrap_or(false));
    assert!(rt; is_but(rt.alloc(), &middle, &large, 5).unwrap_or(false));
    assert!(rt; is_but(rt.alloc(), &middle, &middle, 40).unwrap_or(false));
    assert!(rt; !is_but(rt.alloc(), &middle, &raised, 0).unwrap_or(true));
    let short = vector(&[(65_535, 3), (9, 7)]).ok_or("stamps")?;
    let long = vector(&[(65_535, 3), (65_536, 7)]).ok_or("stamps")?;
    let longer = vector(&[(65_536, 3), (65_536, 7)]).ok_or("stamps")?;
    assert!(rt; is_but(rt.alloc(), &short, &long, 7).unwrap_or(false));
    assert!(rt; !is_but(rt.alloc(), &short, &long, 3).unwrap_or(true));
    assert!(rt; is_but(rt.alloc(), &long, &longer, 3).unwrap_or(false));
    assert!(rt; !is_but(rt.alloc(), &longer, &long, 7).unwrap_or(true));
    let wide = vector(&[(65_535, 3), (8, 31)]).ok_or("stamps")?;
    let wider = vector(&[(65_535, 3), (9, 31)]).ok_or("stamps")?;
    let long_and_wide = vector(&[(65_536, 3), (9, 31)]).ok_or("stamps")?;
    assert!(rt; is_but(rt.alloc(), &wide, &wider, 31).unwrap_or(false));
    assert!(rt; !is_but(rt.alloc(), &wide, &wider, 3).unwrap_or(true));
    assert!(rt; is_but(rt.alloc(), &wider, &long_and_wide, 3).unwrap_or(false));
    Ok(())
}
