// Up to where a node's sets are precise.
ghost use Rattle.pr_node.specs.Answering.{ArePrecise};
ghost use Rattle.pr_vectors.specs.Vector.{IsVector};
ghost use Rattle.std.specs.Prelude.{All, IfOk};

use pr_gaps::Gaps;
use pr_stamps::{NoMemory, Seq};
use pr_vectors::Vector;
use std::alloc::Global;

// The last precise vector of each set, the rest last.
pub fn precise(alloc: Global, gaps: &Gaps) -> Result<Seq<Vector>, NoMemory>
    ensures value { IfOk result (ArePrecise gaps.now) }
    ensures range { IfOk result (All IsVector) }
{
    let mut precise = Seq::new(alloc);
    for index in 0..gaps.sets() {
        precise.push(gaps.last_precise(index))?;
    }
    Ok(precise)
}
