// What a node does.

use crate::{Cause, Found, Reply};
use pr_inval::{Bytes, Msg, WriteRec};
use pr_names::Name;
use pr_stamps::Seq;
use pr_vectors::{PackedVector, Vector};

/// An event at one node. Streams, clients and messages are told by their numbers; a vector named `at`, `has` or `after`
/// is the node's own.
#[derive(Drop)]
pub enum Event {
    /// A client's write was accepted, where the node's vector was `after` before it.
    Wrote {
        client: u32,
        write: WriteRec,
        body: Bytes,
        after: PackedVector,
    },
    /// The stream begins anew at this vector, at its destination.
    Attached {
        stream: u32,
        at: PackedVector,
    },
    /// The source sent a message.
    Sent {
        msg: Msg,
    },
    /// The source had nothing to send.
    Idle {
        stream: u32,
    },
    /// The stream lies behind the source's cut, so that it wants a checkpoint.
    Stale {
        stream: u32,
        cut: PackedVector,
    },
    /// The destination took a message, and has this vector then.
    Accepted {
        msg: Msg,
        at: PackedVector,
    },
    /// The destination lacks what comes before the message, and did not take it.
    Gapped {
        msg: Msg,
        has: PackedVector,
    },
    /// The destination was to be given a message that was not sent.
    Missing {
        stream: u32,
        number: u64,
    },
    /// A flow of the stream ended before its turns were done.
    Down {
        stream: u32,
        cause: Cause,
    },
    /// A client's read was answered.
    Answered {
        client: u32,
        name: Name,
        reply: Reply,
        at: PackedVector,
    },
    /// A client's write or read was refused: it has seen more than the node's vector.
    Behind {
        client: u32,
        needs: PackedVector,
        has: PackedVector,
    },
    /// A client came to this node.
    Moved {
        client: u32,
    },
    /// The node's log was truncated up to this vector.
    Cut {
        at: PackedVector,
    },
    /// The node dropped its bodies of a name.
    Dropped {
        name: Name,
    },
    /// The conflicts of a name were asked for.
    Conflicts {
        name: Name,
        found: Found,
    },
    /// The node's vectors were asked for: its own, its cut, its floor, and of each set the last precise one.
    State {
        at: PackedVector,
        cut: PackedVector,
        floor: PackedVector,
        precise: Seq<Vector>,
    },
}
