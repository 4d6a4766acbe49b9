// Lines of a history's script.

use pr_names::Name;
use pr_script::Bytes;
use pr_stamps::Seq;

/// What is asked for and gives one event. Nodes, clients and streams stand by their numbers.
#[derive(Drop)]
pub enum Asked {
    /// A client's name and body, and whether it is a delete.
    Write(u32, Name, Bytes, bool),
    Read(u32, Name),
    /// A client, and the node that it moves to.
    Move(u32, u32),
    Attach(u32),
    Send(u32),
    Checkpoint(u32),
    /// A stream, and the number of its message.
    Deliver(u32, u64),
    Cut(u32),
    Drop(u32, Name),
    Conflicts(u32, Name),
    State(u32),
}

/// A job of a phase: what one client asks for, or so many turns of a stream.
#[derive(Drop)]
pub enum Job {
    Client(Seq<Asked>),
    Flow(u32, u64),
}

/// One line: what gives one event, an expectation, the end of a stream's attachment, so many turns of a stream, a
/// settle, or a phase.
#[derive(Drop)]
pub enum Line {
    Single(Asked),
    Expect,
    Detach(u32),
    Flow(u32, u64),
    Settle,
    Phase(Seq<Job>),
}
