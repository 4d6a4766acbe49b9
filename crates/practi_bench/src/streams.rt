// Calls of one node for a stream.

use crate::ask::Ask;
use crate::failed::Failed;
use crate::known::{Knowing, Known};
use crate::naming::{name, set, set_of};
use crate::source::Source;
use crate::starting::{CALLER, session};
use crate::work::StreamCall;
use pr_inval::Session;
use pr_node::Node;
use pr_sets::NameSet;
use pr_vectors::Vector;
use std::alloc::Global;
use std::mem;

/// Makes so many calls for a stream at a node that knows the names, and says how many entries were made with those that
/// told it. Its memory is not given back, since that is no call's work.
pub fn stream_calls(alloc: Global, call: StreamCall, ask: &Ask) -> Result<usize, Failed> {
    let node = Known::new(alloc, Knowing::Writes, ask)?.into_node();
    match call {
        StreamCall::Turn => turns(alloc, ask.size, node, &Vector::zero()),
        StreamCall::Idle => idle_turns(alloc, ask.size, node),
        StreamCall::Attach => attaches(alloc, ask.size, node),
        StreamCall::Checkpoint => checkpoints(alloc, ask.size, node),
    }
}

// Turns of a stream of all names that begins here.
fn turns(alloc: Global, size: u32, node: Node, start: &Vector) -> Result<usize, Failed> {
    let mut source = source(alloc, node, start)?;
    let count = repeat_turns(&mut source, size)?;
    mem::forget(source);
    Ok(count)
}

fn idle_turns(alloc: Global, size: u32, node: Node) -> Result<usize, Failed> {
    let start = node.vector();
    turns(alloc, size, node, &start)
}

fn source(alloc: Global, node: Node, start: &Vector) -> Result<Source, Failed> {
    let mut session = session(alloc, set(alloc, b"*")?, false)?;
    session.begin(start);
    Ok(Source::new(alloc, node, session))
}

fn repeat_turns(source: &mut Source, size: u32) -> Result<usize, Failed> {
    for _ in 0..size {
        let _ = source.turn()?;
    }
    Ok(source.entries())
}

fn attaches(alloc: Global, size: u32, mut node: Node) -> Result<usize, Failed> {
    let mut session = session(alloc, set(alloc, b"*")?, false)?;
    let count = repeat_attaches(&mut node, &mut session, size)?;
    mem::forget(node);
    Ok(count)
}

fn repeat_attaches(node: &mut Node, session: &mut Session, size: u32) -> Result<usize, Failed> {
    for _ in 0..size {
        let _ = node.attach(CALLER, session)?;
    }
    Ok(node.journal().len())
}

fn checkpoints(alloc: Global, size: u32, mut node: Node) -> Result<usize, Failed> {
    let mut session = session(alloc, one_name(alloc)?, false)?;
    session.begin(&Vector::zero());
    let count = repeat_checkpoints(&mut node, &mut session, size)?;
    mem::forget(node);
    Ok(count)
}

fn one_name(alloc: Global) -> Result<NameSet, Failed> {
    set_of(alloc, &name(b'n', 0)?)
}

fn repeat_checkpoints(node: &mut Node, session: &mut Session, size: u32) -> Result<usize, Failed> {
    for _ in 0..size {
        checkpoint(node, session)?;
    }
    Ok(node.journal().len())
}

fn checkpoint(node: &mut Node, session: &mut Session) -> Result<(), Failed> {
    if !session.is_attached() {
        return Err(Failed);
    }
    let _ = node.checkpoint(CALLER, session)?;
    Ok(())
}
