// A job of a phase, with all that it works with.
use crate::PhaseNode;
use crate::work::{ClientWork, FlowWork};
use pr_cell::Pass;
use pr_flow::FlowEnd;
use pr_inval::{NodeFault, Session};

/// A client's job, with its pass of the cell of the node where the client stands, and how it ended.
#[derive(Drop)]
pub(crate) struct ClientTask {
    pub(crate) work: ClientWork,
    pub(crate) pass: Option<Pass<PhaseNode>>,
    pub(crate) end: Result<(), NodeFault>,
}

/// A flow's job, with its passes of the cells of the stream's nodes, the stream's session and the wire that was
/// connected for it, if there is one, and how it ended.
#[derive(Drop)]
pub(crate) struct FlowTask<W> {
    pub(crate) work: FlowWork,
    pub(crate) source: Option<Pass<PhaseNode>>,
    pub(crate) destination: Option<Pass<PhaseNode>>,
    pub(crate) session: Option<Session>,
    pub(crate) wire: Option<W>,
    pub(crate) end: Result<FlowEnd, NodeFault>,
}

/// A job.
#[derive(Drop)]
pub(crate) enum Task<W> {
    Client(ClientTask),
    Flow(FlowTask<W>),
}
