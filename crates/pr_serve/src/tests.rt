use crate::{Ask, ServeFault, pull, pull_rest, serve, serve_rest};
use pr_inval::Bytes;
use pr_names::Name;
use pr_node::Node;
use pr_ports::{MemorySink, MemorySource};
use pr_stamps::Seq;
use pr_vectors::Vector;
use pr_wire::Cursor;
use std::alloc::Global;

// The ask of stream 0 from the zero vector, for all names, without bodies and for 1,000,000 turns.
const ASK: [u8; 26] = [
    81, 0, 0, 0, 0, 0, 0, 0, 0, 0, 0, 0, 0, 1, 1, 45, 0, 0, 0, 0, 0, 0, 0, 15, 66, 64,
];

// The frame of the first write of node 0, to a/x, as message 1 of stream 0 at time 2, and a byte 0.
const ANSWER: [u8; 57] = [
    2, 0, 0, 0, 0, 0, 0, 0, 47, 1, 0, 0, 0, 0, 0, 0, 0, 2, 0, 0, 0, 0, 0, 0, 0, 0, 0, 0, 0, 1, 0,
    1, 0, 0, 0, 0, 0, 0, 0, 0, 1, 3, 97, 47, 120, 0, 0, 0, 0, 0, 0, 0, 1, 0, 0, 0, 0,
];

const BAD: ServeFault = ServeFault::BadBytes { at: 0 };

// What a test needs is made in short functions, which answer `None` where there is no memory or a value is refused.

fn is_spelled(alloc: Global) -> Option<bool> {
    let mut cursor = Cursor { rest: &ASK };
    let ask = Ask::read(alloc, &mut cursor).ok()?;
    let mut out: Bytes = Seq::new(alloc);
    ask.write(&mut out).ok()?;
    Some(out.as_slice() == ASK.as_slice() && cursor.rest.is_empty())
}

#[test]
fn asks_are_spelled(rt: HostRuntime) {
    assert!(rt; is_spelled(rt.alloc()).unwrap_or(false));
}

// ---- serving

// A node with one write.
fn written(alloc: Global) -> Option<Node> {
    let name = Name::read(b"a/x").ok()?;
    let mut node = Node::new(alloc, 0, Seq::new(alloc)).ok()?;
    let _stamp = node.write(0, 0, &name, b"hi", &Vector::zero()).ok()?;
    Some(node)
}

// Gives 7 bytes a call.
fn source(alloc: Global, bytes: &[u8], fail: &[u64]) -> Option<MemorySource> {
    let fail = fail.to_vec(alloc).ok()?;
    Some(MemorySource::new(bytes.to_vec(alloc).ok()?, 7, fail))
}

// Takes 9 bytes a call.
fn sink(alloc: Global, fail: &[u64]) -> Option<MemorySink> {
    MemorySink::new(alloc, 200, 9, fail.to_vec(alloc).ok()?).ok()
}

// Whether a server that has one write ends so, and wrote these bytes.
fn ends(
    alloc: Global,
    source: &mut MemorySource,
    fail: &[u64],
    want: Result<u64, ServeFault>,
    bytes: &[u8],
) -> Option<bool> {
    let mut sink = sink(alloc, fail)?;
    let mut node = written(alloc)?;
    let end = serve(alloc, &mut node, source, &mut sink);
    Some(end == want && sink.bytes() == bytes)
}

#[test]
fn an_ask_is_answered(rt: HostRuntime) {
    assert!(rt; is_answered(rt.alloc()).unwrap_or(false));
}

fn is_answered(alloc: Global) -> Option<bool> {
    ends(alloc, &mut source(alloc, &ASK, &[])?, &[], Ok(1), &ANSWER)
}

fn is_bad(alloc: Global, asks: &[u8]) -> Option<bool> {
    ends(alloc, &mut source(alloc, asks, &[])?, &[], Err(BAD), &[])
}

fn is_unread(alloc: Global) -> Option<bool> {
    let mut source = source(alloc, &ASK, &[3])?;
    ends(alloc, &mut source, &[], Err(ServeFault::ReadFault), &[])
}

fn is_unwritten(alloc: Global) -> Option<bool> {
    let mut source = source(alloc, &ASK, &[])?;
    let begun = &ANSWER[..18];
    ends(alloc, &mut source, &[3], Err(ServeFault::WriteFault), begun)
}

fn all_stop(alloc: Global) -> Option<bool> {
    Some(
        is_bad(alloc, &ASK[..25])?
            && is_bad(alloc, &[0])?
            && is_unread(alloc)?
            && is_unwritten(alloc)?,
    )
}

#[test]
fn servers_stop(rt: HostRuntime) {
    assert!(rt; all_stop(rt.alloc()).unwrap_or(false));
}

// ---- pulling

// Whether a node that pulls these bytes of two nodes and one stream ends so, and made so many entries.
fn pulls(
    alloc: Global,
    stream: u32,
    source: &mut MemorySource,
    want: Result<u64, ServeFault>,
    entries: usize,
) -> Option<bool> {
    let mut node = Node::new(alloc, 1, Seq::new(alloc)).ok()?;
    let end = pull(alloc, &mut node, 2, &[stream], source);
    Some(end == want && node.journal().len() == entries)
}

fn is_pulled(alloc: Global) -> Option<bool> {
    pulls(alloc, 0, &mut source(alloc, &ANSWER, &[])?, Ok(1), 1)
}

fn is_refused(alloc: Global, stream: u32, bytes: &[u8]) -> Option<bool> {
    pulls(alloc, stream, &mut source(alloc, bytes, &[])?, Err(BAD), 0)
}

fn is_cut_off(alloc: Global) -> Option<bool> {
    let mut source = source(alloc, &ANSWER, &[9])?;
    pulls(alloc, 0, &mut source, Err(ServeFault::ReadFault), 1)
}

fn all_are_pulled(alloc: Global) -> Option<bool> {
    Some(
        is_pulled(alloc)?
            && is_refused(alloc, 1, &ANSWER)?
            && is_refused(alloc, 0, &ANSWER[..55])?
            && is_cut_off(alloc)?,
    )
}

#[test]
fn answers_are_pulled(rt: HostRuntime) {
    assert!(rt; all_are_pulled(rt.alloc()).unwrap_or(false));
}

// ---- what was read ahead

// Whether an input of which 20 bytes were read ahead is served as the whole is.
fn is_served_ahead(alloc: Global) -> Option<bool> {
    let mut source = source(alloc, &ASK[20..], &[])?;
    let mut node = written(alloc)?;
    is_rest_served(alloc, &mut node, &mut source)
}

fn is_rest_served(alloc: Global, node: &mut Node, source: &mut MemorySource) -> Option<bool> {
    let mut sink = sink(alloc, &[])?;
    let end = serve_rest(alloc, node, &ASK[..20], source, &mut sink);
    Some(end == Ok(1) && sink.bytes() == ANSWER.as_slice())
}

// Whether one is pulled so.
fn is_pulled_ahead(alloc: Global) -> Option<bool> {
    let mut source = source(alloc, &ANSWER[20..], &[])?;
    let mut node = Node::new(alloc, 1, Seq::new(alloc)).ok()?;
    let end = pull_rest(alloc, &mut node, 2, &[0], &ANSWER[..20], &mut source);
    Some(end == Ok(1) && node.journal().len() == 1)
}

#[test]
fn inputs_are_read_ahead(rt: HostRuntime) {
    assert!(rt; is_served_ahead(rt.alloc()).unwrap_or(false));
    assert!(rt; is_pulled_ahead(rt.alloc()).unwrap_or(false));
}
