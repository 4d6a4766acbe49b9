// A node that is made again of what it did.
ghost use Rattle.pr_node.specs.Rebuilding.{IsOfNode};
ghost use Rattle.std.specs.Prelude.{◌∷◌, [], IfSome, reverse};

use crate::tests::building::{A, is_at, name, sets};
use crate::{Answer, Done, Node};
use pr_inval::WriteRec;
use pr_stamps::{Seq, Stamp};
use pr_story::{Entry, Event, Journal};
use pr_vectors::{PackedVector, Vector};
use std::alloc::Global;
use std::test::Fail;

// A client wrote a/x at A.
fn wrote(alloc: Global) -> Option<Entry>
    ensures { IfSome result (λ e. IsOfNode 0 (e ∷ [])) }
{
    let write = WriteRec {
        name: name(b"a/x")?,
        stamp: Stamp::new(1, A)?,
        prev: None,
        gone: false,
    };
    let event = Event::Wrote {
        client: 1,
        write,
        body: Seq::copied(alloc, b"hi").ok()?,
        after: PackedVector::of(alloc, &Vector::zero()).ok()?,
    };
    Some(Entry {
        time: 1,
        caller: 7,
        event,
    })
}

// A's journal: a write, and a client that comes.
fn journal(alloc: Global) -> Option<Journal>
    ensures { IfSome result (λ j. IsOfNode 0 (reverse j.items)) }
{
    let mut journal = Journal::new(alloc);
    journal.reserve().ok()?;
    journal.push(wrote(alloc)?);
    journal.reserve().ok()?;
    journal.push(Entry {
        time: 2,
        caller: 7,
        event: Event::Moved { client: 1 },
    });
    Some(journal)
}

fn again(alloc: Global) -> Option<Node> {
    let sets = sets(alloc, b"*", b"")?;
    Node::rebuild(alloc, A, sets, journal(alloc)?).ok()
}

// Whether the node answers that a/x has this body.
fn has(node: &Node, body: &[u8]) -> bool {
    match name(b"a/x") {
        Some(name) => !node.is_spent() && is_value(&node.look(&name), body),
        None => false,
    }
}

fn is_value(answer: &Answer<'_>, body: &[u8]) -> bool {
    match answer {
        Answer::Value { stamp, bytes } => is_at(stamp, 1, A) && *bytes == body,
        _ => false,
    }
}

// Whether the node's next write has the clock 2.
fn writes_on(node: &mut Node) -> bool {
    match name(b"a/x") {
        Some(name) => is_second(&node.write(7, 1, &name, b"ho", &Vector::zero())),
        None => false,
    }
}

fn is_second<E>(done: &Result<Done, E>) -> bool {
    match done {
        Ok(Done::Stamp(stamp)) => is_at(stamp, 2, A),
        _ => false,
    }
}

// Whether the last entry is a write over 1@A, at time 3.
fn is_over_the_first(node: &Node) -> bool {
    match node.journal().last() {
        Some(
            Entry {
                time: 3,
                event: Event::Wrote { write, .. },
                ..
            },
        ) => write.prev == Stamp::new(1, A),
        _ => false,
    }
}

#[test]
fn a_node_goes_on_behind_its_journal(rt: HostRuntime) -> Result<(), Fail> {
    let mut node = again(rt.alloc()).ok_or("a node")?;
    assert!(rt; has(&node, b"hi"));
    assert!(rt; writes_on(&mut node));
    assert!(rt; is_over_the_first(&node));
    Ok(())
}
