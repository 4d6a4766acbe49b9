// Small cases at B.

use crate::tests::building::{A, B, ZERO, is_at, name, node, set};
use crate::tests::call::Forgery;
use crate::tests::forging::forged;
use crate::{Answer, Node};
use pr_inval::{NodeFault, Taken};
use pr_stamps::MAX;
use pr_vectors::Vector;
use std::alloc::Global;
use std::test::Fail;

fn is_worn<T>(answer: &Result<T, NodeFault>) -> bool {
    match answer {
        Err(NodeFault::Worn { at }) => *at == MAX,
        _ => false,
    }
}

// Whether a write of the node is refused, since its clock is worn.
fn write_is_worn(node: &mut Node) -> bool {
    match name(b"a/x") {
        Some(name) => is_worn(&node.write(1, 1, &name, b"one", &Vector::zero())),
        None => false,
    }
}

// Whether the body is refused, since the node's time would be worn.
fn body_is_worn(alloc: Global, node: &mut Node) -> bool {
    match forged(alloc, MAX, &Forgery::Body(b"a/x", (1, A), b"body")) {
        Some(msg) => is_worn(&node.accept(1, msg)),
        None => false,
    }
}

// Whether the node has done nothing.
fn is_new(node: &Node) -> bool {
    node.journal().len() == 0 && node.vector() == Vector::zero() && !node.is_spent()
}

// Whether the node takes an imprecise message from zero up to this clock of A.
fn is_accepted(alloc: Global, node: &mut Node, time: u64, clock: u64, target: &[u8]) -> bool {
    match forged(
        alloc,
        time,
        &Forgery::Imprecise(target, ZERO, [clock, 0, 0]),
    ) {
        Some(msg) => matches!(node.accept(1, msg), Ok(Taken::Accepted { .. })),
        None => false,
    }
}

#[test]
fn a_clock_wears_out(rt: HostRuntime) -> Result<(), Fail> {
    let mut node = node(rt.alloc(), B, b"~", b"~").ok_or("a node")?;
    assert!(rt; is_accepted(rt.alloc(), &mut node, 5, MAX, b"~"));
    assert!(rt; write_is_worn(&mut node));
    Ok(())
}

#[test]
fn a_time_wears_out(rt: HostRuntime) -> Result<(), Fail> {
    let mut node = node(rt.alloc(), B, b"~", b"~").ok_or("a node")?;
    assert!(rt; body_is_worn(rt.alloc(), &mut node));
    assert!(rt; is_new(&node));
    Ok(())
}

fn is_never(node: &Node, o: &[u8]) -> bool {
    match name(o) {
        Some(name) => !node.is_spent() && matches!(node.look(&name), Answer::Never),
        None => false,
    }
}

// Whether the node answers that it was not told of this clock of A.
fn is_untold(node: &Node, o: &[u8], clock: u64) -> bool {
    match name(o) {
        Some(name) => !node.is_spent() && is_imprecise(&node.look(&name), clock),
        None => false,
    }
}

fn is_imprecise(answer: &Answer<'_>, clock: u64) -> bool {
    match answer {
        Answer::Imprecise { untold } => is_at(untold, clock, A),
        _ => false,
    }
}

#[test]
fn a_point_of_a_set_is_untold(rt: HostRuntime) -> Result<(), Fail> {
    let mut node = node(rt.alloc(), B, b"a/*", b"~").ok_or("a node")?;
    assert!(rt; is_never(&node, b"a/x"));
    assert!(rt; is_accepted(rt.alloc(), &mut node, 1, 1, b"a/x"));
    assert!(rt; is_untold(&node, b"a/x", 1));
    assert!(rt; is_never(&node, b"b"));
    Ok(())
}

// Whether a stream of the names of a/* would start at this clock of A.
fn starts_at(alloc: Global, node: &Node, clock: u64) -> bool {
    match set(alloc, b"a/*") {
        Some(names) => !node.is_spent() && node.start(&names).at(A) == clock,
        None => false,
    }
}

// Whether a node that was told of 2@A for other names alone starts at 1.
fn is_behind_its_vector(alloc: Global) -> Option<bool> {
    let mut node = node(alloc, B, b"a/*", b"~")?;
    let told = is_accepted(alloc, &mut node, 1, 1, b"b")
        && is_accepted(alloc, &mut node, 2, 2, b"a/x");
    Some(told && node.vector().at(A) == 2 && starts_at(alloc, &node, 1))
}

#[test]
fn a_start_is_behind_the_vector(rt: HostRuntime) -> Result<(), Fail> {
    assert!(rt; is_behind_its_vector(rt.alloc()).unwrap_or(false));
    Ok(())
}
