use crate::Bodies;
use pr_names::Name;
use pr_stamps::Stamp;
use std::alloc::Global;
use std::test::Fail;

#[test]
fn bodies_are_held_by_name_and_stamp(rt: HostRuntime) -> Result<(), Fail> {
    let a = Name::read(b"a").ok().ok_or("a name")?;
    let b = Name::read(b"b").ok().ok_or("a name")?;
    let at = |clock, node| Stamp::new(clock, node);
    let (first, tied, later) = (
        at(1, 0).ok_or("a")?,
        at(1, 1).ok_or("a")?,
        at(2, 0).ok_or("a")?,
    );
    let mut bodies = Bodies::new(rt.alloc());
    bodies.put(&a, &first, b"old").ok().ok_or("no memory")?;
    bodies.put(&a, &first, b"one").ok().ok_or("no memory")?;
    bodies.put(&a, &tied, b"two").ok().ok_or("no memory")?;
    bodies.put(&b, &first, b"other").ok().ok_or("no memory")?;
    assert_eq!(rt; bodies.get(&a, &first), Some(b"one".as_slice()));
    bodies.settle(&a, &tied);
    assert_eq!(rt;
        (bodies.get(&a, &first), bodies.get(&a, &tied)),
        (None, Some(b"two".as_slice()))
    );
    bodies.settle(&a, &later);
    assert_eq!(rt;
        (bodies.get(&a, &tied), bodies.get(&b, &first)),
        (None, Some(b"other".as_slice()))
    );
    bodies.drop_all(&b);
    assert_eq!(rt; bodies.get(&b, &first), None);
    Ok(())
}

#[test]
fn a_renewed_body_leaves_the_greater_stamps(rt: HostRuntime) -> Result<(), Fail> {
    assert!(rt; is_renewed(rt.alloc()).unwrap_or(false));
    Ok(())
}

fn is_renewed(alloc: Global) -> Option<bool> {
    let name = Name::read(b"a").ok()?;
    let (first, tied, later) = (Stamp::new(1, 0)?, Stamp::new(1, 1)?, Stamp::new(2, 0)?);
    let mut bodies = Bodies::new(alloc);
    bodies.renew(&name, &later, b"late").ok()?;
    bodies.put(&name, &first, b"old").ok()?;
    bodies.renew(&name, &tied, b"own").ok()?;
    Some(
        bodies.get(&name, &first) == None
            && bodies.get(&name, &tied) == Some(b"own".as_slice())
            && bodies.get(&name, &later) == Some(b"late".as_slice()),
    )
}
