// What a job of a phase works on.
use pr_vectors::Vector;

/// A client's lines: where the client stands as the phase begins, what it has seen, and how many lines it has.
#[derive(Clone, Copy)]
pub(crate) struct ClientWork {
    pub(crate) client: u32,
    pub(crate) node: u32,
    pub(crate) seen: Vector,
    pub(crate) lines: u64,
}

/// A stream's flow: from which node to which, by which line, and how many turns.
#[derive(Clone, Copy)]
pub(crate) struct FlowWork {
    pub(crate) stream: u32,
    pub(crate) source: u32,
    pub(crate) destination: u32,
    pub(crate) line: u64,
    pub(crate) turns: u64,
}

/// What a job works on.
#[derive(Clone, Copy)]
pub(crate) enum Work {
    Client(ClientWork),
    Flow(FlowWork),
}
