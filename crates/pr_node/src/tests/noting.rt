// Turns and checkpoints whose message is left in the journal.

use crate::tests::building::{A, B, name, node};
use crate::tests::stream::Stream;
use crate::{Node, Scan, Turned};
use pr_inval::{Kind, Session};
use pr_story::Event;
use pr_vectors::Vector;
use std::alloc::Global;
use std::test::Fail;

fn writes(node: &mut Node) -> bool {
    match name(b"a/x") {
        Some(name) => node.write(1, 1, &name, b"one", &Vector::zero()).is_ok(),
        None => false,
    }
}

fn turns(alloc: Global, node: &mut Node, session: &mut Session, kind: Turned) -> bool {
    if !session.is_attached() {
        return false;
    }
    let mut scan = Scan::new(alloc);
    match node.note_turn(1, session, &mut scan) {
        Ok(turned) => turned == kind,
        Err(_) => false,
    }
}

fn checkpoints(node: &mut Node, session: &mut Session) -> bool {
    session.is_attached() && node.note_checkpoint(1, session).is_ok()
}

// Whether the node's newest entry sends a message of this number, which is a checkpoint or not.
fn has_sent(node: &Node, number: u64, checkpoint: bool) -> bool {
    match node.journal().last() {
        Some(entry) => match &entry.event {
            Event::Sent { msg } => {
                msg.number == number && matches!(&msg.kind, Kind::Checkpoint { .. }) == checkpoint
            }
            _ => false,
        },
        None => false,
    }
}

fn are_noted(alloc: Global, node: &mut Node, session: &mut Session) -> bool {
    writes(node)
        && turns(alloc, node, session, Turned::Sent)
        && has_sent(node, 1, false)
        && turns(alloc, node, session, Turned::Idle)
        && checkpoints(node, session)
        && has_sent(node, 2, true)
}

// Whether a write is sent, then nothing, and then a checkpoint, each in the newest entry alone.
fn is_so(alloc: Global) -> Option<bool> {
    let mut stream = Stream::new(alloc, 1, &(A, B, b"a/*", false))?;
    stream.session.begin(&Vector::zero());
    let mut node = node(alloc, A, b"~", b"~")?;
    Some(are_noted(alloc, &mut node, &mut stream.session))
}

#[test]
fn a_message_is_left_in_the_journal(rt: HostRuntime) -> Result<(), Fail> {
    assert!(rt; is_so(rt.alloc()).unwrap_or(false));
    Ok(())
}
