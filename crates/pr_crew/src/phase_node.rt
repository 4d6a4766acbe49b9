// A node, while the jobs of a phase share it.
ghost use Rattle.pr_crew.specs.Asking.{IsRead, IsWritten};
ghost use Rattle.pr_node.specs.Calls.{AddsOfClient, IsFault, IsTimeWorn, IsWriteWorn};
ghost use Rattle.pr_node.specs.Stored.{means};
ghost use Rattle.std.specs.Prelude.{◌≡◌, ◌≤◌, [], false, true, IfErr, IfOk, length};

use crate::Story;
use pr_cell::Storied;
use pr_inval::NodeFault;
use pr_names::Name;
use pr_node::{Done, Node, Seen};
use pr_vectors::Vector;

/// A node, and how long its journal was when a phase began. A cell's callers know the node's number, its sets and that
/// journal for the whole phase, since what each has seen begins with them.
#[derive(Drop)]
pub struct PhaseNode {
    pub(crate) node: Node,
    opened: usize,
    ghost within: { opened ≤ length node.journal.items },
}

impl Storied for PhaseNode {
    ghost use Rattle.pr_crew.specs.Stories.{caller_of, stories};

    type Entry = Story;

    ghost entries = { stories };

    ghost number = { caller_of };
}

impl PhaseNode {
    ghost use Rattle.std.specs.Prelude.{[], ◌∷◌};
    ghost use Rattle.pr_crew.specs.Stories.{opened_of, stories};

    /// A node as a phase begins. Constant time.
    pub fn new(node: Node) -> PhaseNode
        ensures node { result.node ≡ node }
        ensures stories { stories result ≡ opened_of node ∷ [] }
    {
        let opened = node.journal().len();
        PhaseNode { node, opened }
    }

    /// The node again. Constant time.
    pub fn into_node(self) -> Node
        ensures { result ≡ self.node }
    {
        self.node
    }

    // A client's write. Answers what the client has seen then.
    pub(crate) fn write(
        &mut self,
        caller: u32,
        client: u32,
        name: &Name,
        body: &[u8],
        needs: &Vector,
    ) -> Result<Vector, NodeFault>
        requires short { length body.now ≤ 65536 }
        ensures ok { IfOk result (λ after. AddsOfClient (means self.old.node) (means self.new.node) needs.now caller (IsWritten client name.now body.now false needs.now after)) }
        ensures fault { IfErr result (IsFault (means self.old.node) (means self.new.node) (IsWriteWorn (means self.old.node) needs.now)) }
        ensures opened { self.new.opened ≡ self.old.opened }
    {
        match self.node.write(caller, client, name, body, needs)? {
            Done::Stamp(_) => Ok(self.node.vector()),
            Done::Behind { .. } => Ok(*needs),
        }
    }

    // A client's delete. Answers what the client has seen then.
    pub(crate) fn delete(
        &mut self,
        caller: u32,
        client: u32,
        name: &Name,
        needs: &Vector,
    ) -> Result<Vector, NodeFault>
        ensures ok { IfOk result (λ after. AddsOfClient (means self.old.node) (means self.new.node) needs.now caller (IsWritten client name.now [] true needs.now after)) }
        ensures fault { IfErr result (IsFault (means self.old.node) (means self.new.node) (IsWriteWorn (means self.old.node) needs.now)) }
        ensures opened { self.new.opened ≡ self.old.opened }
    {
        match self.node.delete(caller, client, name, needs)? {
            Done::Stamp(_) => Ok(self.node.vector()),
            Done::Behind { .. } => Ok(*needs),
        }
    }

    // A client's read. Answers what the client has seen then.
    pub(crate) fn read(
        &mut self,
        caller: u32,
        client: u32,
        name: &Name,
        needs: &Vector,
    ) -> Result<Vector, NodeFault>
        ensures ok { IfOk result (λ after. AddsOfClient (means self.old.node) (means self.new.node) needs.now caller (IsRead client name.now needs.now after)) }
        ensures fault { IfErr result (IsFault (means self.old.node) (means self.new.node) (IsTimeWorn (means self.old.node) 0)) }
        ensures opened { self.new.opened ≡ self.old.opened }
    {
        match self.node.read(caller, client, name, needs)? {
            Seen::Reply(_) => Ok(self.node.vector()),
            Seen::Behind { .. } => Ok(*needs),
        }
    }
}
