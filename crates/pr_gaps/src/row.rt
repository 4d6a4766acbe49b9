// The points that were told for one set.
ghost use Rattle.pr_gaps.specs.Rows.{HasPoint, IsRowCovered, clocks_at};
ghost use Rattle.pr_gaps.specs.Ranges.{HasClock};
ghost use Rattle.pr_stamps.specs.Point.{Point};
ghost use Rattle.pr_vectors.specs.Vector.{clock_of};
ghost use Rattle.std.specs.Prelude.{◌≡◌, ◌≤◌, ◌<◌, ◌+◌, ◌⊎◌, ◌↔◌, ℕ, IfOk, OnOk};

use crate::clocks::Clocks;
use pr_stamps::{NODES, NoMemory};
use pr_vectors::PackedVector;
use std::alloc::Global;
use std::marker::Model;

// By node the clocks that were told.
#[derive(Drop)]
pub struct Row {
    clocks: Vec<Clocks>,
}

impl Model for Row {
    ghost use Rattle.std.specs.Prelude.{◌≡◌, List, length};
    ghost use Rattle.pr_gaps.specs.Ranges.{Run};

    ghost Value = { List Run };

    ghost view = { λ r. r.clocks.items };

    ghost invariant = { λ r. length r.clocks.items ≡ 32 };
}

impl Row {
    pub fn new(alloc: Global) -> Result<Row, NoMemory>
        ensures { IfOk result (λ r. (p : Point) → ¬ HasPoint r p) }
    {
        let mut clocks = Vec::with_capacity(alloc, NODES as usize)?;
        for _ in 0..NODES {
            clocks.push(Clocks::new(alloc))?;
        }
        Ok(Row { clocks })
    }

    // The points between the vectors are told.
    pub fn cover(&mut self, from: &PackedVector, to: &PackedVector) -> Result<(), NoMemory>
        ensures { OnOk result (IsRowCovered self.old self.new from.now to.now) }
    {
        for n in 0..to.nodes() {
            let (from, to) = (from.at(n), to.at(n));
            if from < to {
                let clocks = &mut self.clocks[n as usize];
                clocks.add(from + 1, to)?;
            }
        }
        Ok(())
    }

    // The same, where this node alone has points between the vectors. It looks at no other.
    pub fn cover_one(
        &mut self,
        node: u32,
        from: &PackedVector,
        to: &PackedVector,
    ) -> Result<(), NoMemory>
        requires node { node < 32 }
        requires rises { clock_of from.now node < clock_of to.now node }
        requires alone { (k : ℕ) → k < 32 → clock_of from.now k < clock_of to.now k → k ≡ node }
        ensures { OnOk result (IsRowCovered self.old self.new from.now to.now) }
    {
        let clocks = &mut self.clocks[node as usize];
        clocks.add(from.at(node) + 1, to.at(node))?;
        Ok(())
    }

    // The greatest clock of the node up to which each point was told.
    pub fn run(&self, node: u32) -> u64
        requires { node < 32 }
        ensures within { (c : ℕ) → 1 ≤ c → c ≤ result → HasPoint self.now (record { clock = c; node = node }) }
        ensures end { ¬ HasPoint self.now (record { clock = result + 1; node = node }) }
    {
        self.clocks[node as usize].run()
    }
}
