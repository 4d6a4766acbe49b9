// What has a clock of each node.
ghost use Rattle.pr_vectors.specs.Vector.{IsVector, clock_of, join_of};
ghost use Rattle.std.specs.Prelude.{◌≡◌, ◌≤◌, ◌<◌, ℕ, IfSome, List, None};

use crate::Vector;
use crate::vector::join_clocks;

/// A vector that clocks are asked of: one that is worked with, or a packed one, which is not unpacked.
pub trait Clocked {
    ghost clocks: { Self → List ℕ };

    /// How many nodes it may have a clock of, in constant time: each behind them has clock 0.
    fn count(&self) -> u32
        ensures most { result ≤ 32 }
        ensures behind { (n : ℕ) → result ≤ n → n < 32 → clock_of (clocks self.now) n ≡ 0 };

    /// The clock of the node, in constant time.
    fn clock(&self, node: u32) -> u64
        requires { node < 32 }
        ensures value { result ≡ clock_of (clocks self.now) node }
        ensures range { IsVector (clocks self.now) };

    /// Joins its clocks in where others stand, in time linear in the nodes.
    fn join_into(&self, others: &mut [u64; 32])
        ensures { others.new ≡ join_of others.old (clocks self.now) };

    /// The first node from this one on at which it is above the other, in time linear in the nodes.
    fn next_above(&self, other: &Self, start: u32) -> Option<u32>
        ensures range { IfSome result (λ n. n < 32) }
        ensures rises { IfSome result (λ n. clock_of (clocks other.now) n < clock_of (clocks self.now) n) }
        ensures from { IfSome result (λ n. start ≤ n) }
        ensures least { IfSome result (λ n. (k : ℕ) → start ≤ k → k < n → clock_of (clocks self.now) k ≤ clock_of (clocks other.now) k) }
        ensures none { result ≡ None → (k : ℕ) → start ≤ k → k < 32 → clock_of (clocks self.now) k ≤ clock_of (clocks other.now) k };
}

impl Clocked for Vector {
    ghost use Rattle.std.specs.Prelude.{List, ℕ};

    ghost clocks = { λ v. v };

    fn count(&self) -> u32 {
        self.nodes()
    }

    fn clock(&self, node: u32) -> u64 {
        self.at(node)
    }

    fn join_into(&self, others: &mut [u64; 32]) {
        join_clocks(others, self);
    }

    fn next_above(&self, other: &Vector, start: u32) -> Option<u32> {
        for n in start..self.nodes() {
            if other.at(n) < self.at(n) {
                return Some(n);
            }
        }
        None
    }
}
