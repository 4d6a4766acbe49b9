use crate::{MAX, Mark, Roomy, Seq, Stamp, drop_front, next_clock};
use std::test::Fail;

#[test]
fn lists_take_items(rt: HostRuntime) -> Result<(), Fail> {
    let mut list = Seq::copied(rt.alloc(), b"ab").ok().ok_or("no memory")?;
    list.push(b'c').ok().ok_or("no memory")?;
    list.extend(b"de").ok().ok_or("no memory")?;
    assert_eq!(rt; list.as_slice(), b"abcde".as_slice());
    assert_eq!(rt; (list.len(), list.is_empty()), (5, false));
    let mut again = Seq::from_vec(list.into_vec());
    assert_eq!(rt; again.as_slice(), b"abcde".as_slice());
    again.truncate(9);
    again.truncate(2);
    assert_eq!(rt; again.as_slice(), b"ab".as_slice());
    let mut roomed = Seq::with_room(rt.alloc(), 2).ok().ok_or("no memory")?;
    roomed.extend(b"ab").ok().ok_or("no memory")?;
    assert_eq!(rt; roomed.as_slice(), again.as_slice());
    let mut roomy = Roomy::new(rt.alloc());
    roomy.reserve(2).ok().ok_or("no memory")?;
    roomy.push(7u64);
    roomy.push(8u64);
    assert_eq!(rt; (roomy.as_slice(), roomy.len()), ([7u64, 8].as_slice(), 2));
    Ok(())
}

#[test]
fn a_front_is_dropped(rt: HostRuntime) -> Result<(), Fail> {
    let mut list = Vec::from_slice(rt.alloc(), b"abcde")
        .ok()
        .ok_or("no memory")?;
    drop_front(&mut list, 0);
    assert_eq!(rt; list.as_slice(), b"abcde".as_slice());
    drop_front(&mut list, 3);
    assert_eq!(rt; list.as_slice(), b"de".as_slice());
    drop_front(&mut list, 2);
    assert!(rt; list.is_empty());
    Ok(())
}

#[test]
fn stamps_are_ordered_by_clock_then_node(rt: HostRuntime) -> Result<(), Fail> {
    let of = |clock, node| Stamp::new(clock, node);
    assert_eq!(rt; (of(0, 0), of(MAX + 1, 0), of(1, 32)), (None, None, None));
    let early = of(1, 1).ok_or("a stamp")?;
    let late = of(2, 0).ok_or("a stamp")?;
    assert!(rt; early < late && early.is_before(&late) && !late.is_before(&early));
    assert!(rt; of(1, 0) < Some(early) && Some(late) < of(MAX, 31));
    let mark = Mark {
        stamp: late,
        prev: Some(early),
    };
    assert_eq!(rt;
        (mark.stamp.clock(), mark.stamp.node(), mark.prev),
        (2, 0, Some(early))
    );
    let missing = Mark {
        stamp: of(3, 0).ok_or("a stamp")?,
        prev: Some(early),
    };
    assert!(rt; mark.conflicts_with(&missing) && !missing.conflicts_with(&mark));
    assert_eq!(rt;
        (next_clock(0), next_clock(MAX - 1), next_clock(MAX)),
        (Some(1), Some(MAX), None)
    );
    Ok(())
}
