// The lines of a transcript, as plain data.

use crate::tests::build::{At, Clocks};

/// A message, but for its time and number.
#[derive(Clone, Copy)]
pub enum Shape<'a> {
    /// Name, stamp, what it is over, from and to.
    Precise(&'a [u8], At, Option<At>, Clocks, Clocks),
    /// The same of a delete.
    Gone(&'a [u8], At, Option<At>, Clocks, Clocks),
    /// Target, from and to.
    Imprecise(&'a [u8], Clocks, Clocks),
    /// Target, to, floor, and rows without marks: name, newest stamp, and whether that is a delete.
    Checkpoint(&'a [u8], Clocks, Clocks, &'a [(&'a [u8], At, bool)]),
    /// Name, stamp and bytes.
    Body(&'a [u8], At, &'a [u8]),
}

/// What is answered to a read.
#[derive(Clone, Copy)]
pub enum Says<'a> {
    Never,
    Value(At, &'a [u8]),
    Imprecise(At),
    Body(At),
    Gone(At),
}

/// A line of a transcript. Clients, streams and nodes are told by their numbers.
#[derive(Clone, Copy)]
pub enum Line<'a> {
    /// Client, name, bytes, stamp, what it is over, and the vector before it.
    Write(u32, &'a [u8], &'a [u8], At, Option<At>, Clocks),
    /// The same of a delete.
    Delete(u32, &'a [u8], At, Option<At>, Clocks),
    /// Client, node, name, answer, and the node's vector.
    Read(u32, u32, &'a [u8], Says<'a>, Clocks),
    /// Client, node, what the client has seen, and the node's vector.
    Behind(u32, u32, Clocks, Clocks),
    /// Client and node.
    Move(u32, u32),
    /// Stream and start.
    Attach(u32, Clocks),
    /// Stream, number and message.
    Send(u32, u64, Shape<'a>),
    Idle(u32),
    /// Stream and cut.
    Stale(u32, Clocks),
    /// Stream, number, message, and the node's vector after it.
    Accept(u32, u64, Shape<'a>, Clocks),
    /// Node and vector.
    Cut(u32, Clocks),
    /// Node and name.
    Drop(u32, &'a [u8]),
    /// Node, name and pairs.
    Conflicts(u32, &'a [u8], &'a [(At, At)]),
    /// Node, vector, cut, floor, and the last precise vectors of its sets and of the rest.
    State(u32, Clocks, Clocks, Clocks, &'a [Clocks]),
}
