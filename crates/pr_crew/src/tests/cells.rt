// The cells of new nodes.
ghost use Rattle.pr_cell.specs.Passes.{held};
ghost use Rattle.pr_crew.specs.Making.{HasSeen, IsCellOf};
ghost use Rattle.pr_crew.specs.Sites.{IsRoot};
ghost use Rattle.pr_story.specs.History.{Plan};
ghost use Rattle.std.specs.Prelude.{◌≡◌, ◌<◌, [], ◌∷◌, ℕ, IfOk};

use crate::PhaseNode;
use pr_cell::{Cell, Pass};
use pr_node::Node;
use pr_stamps::{NoMemory, Seq};
use std::alloc::Global;

/// The cell of a new node, for three callers, and the pass that comes with it.
pub fn new_cell(alloc: Global, node: u32) -> Result<(Cell<PhaseNode>, Pass<PhaseNode>), NoMemory>
    requires { node < 32 }
    ensures cell { IfOk result (λ c. (plan : Plan) × ((k : ℕ) → plan.home k ≡ node) × IsCellOf plan [] node c.0 × (c.0.callers ≡ 3)) }
    ensures pass { IfOk result (λ c. IsRoot c.0 c.1 × (c.1.turns ≡ 0) × (c.1.issued ≡ 1) × (held c.1.seat ≡ 0 ∷ []) × HasSeen c.1 []) }
{
    let node = Node::new(alloc, node, Seq::new(alloc))?;
    match Cell::new(alloc, PhaseNode::new(node), 3) {
        Ok(cell) => Ok(cell),
        Err(_) => Err(NoMemory),
    }
}
