// A version vector at rest.
ghost use Rattle.std.specs.Prelude.{◌≡◌, ◌≤◌, ◌<◌, ◌↔◌, ℕ, IfOk, IsTrue};

use crate::clocks::Clocks;
use crate::{Clocked, Vector};
use pr_stamps::NoMemory;
use std::alloc::Global;
use std::marker::Model;

/// A version vector as messages and entries of a journal keep it, in 24 bytes where a `Vector` takes 264: where only the
/// first eight nodes count, and each clock is below 2^16, it lies in place. Else its 32 clocks are on the heap: in 64 bytes
/// where each is below 2^16, in 128 where each is below 2^32, or with their count in 264. Contracts see it as they see a
/// `Vector`, and each call takes time linear in the nodes.
#[derive(Drop)]
pub struct PackedVector {
    clocks: Clocks,
}

impl Model for PackedVector {
    ghost use Rattle.std.specs.Prelude.{List, ℕ};
    ghost use Rattle.pr_vectors.specs.Packed.{vector_in};
    ghost use Rattle.pr_vectors.specs.Vector.{IsVector};

    ghost Value = { List ℕ };

    ghost view = { λ v. vector_in v.clocks };

    ghost invariant = { λ v. IsVector (vector_in v.clocks) };
}

const _: () = prove!(size_of::<PackedVector>() == 24);

impl PackedVector {
    ghost use Rattle.pr_vectors.specs.Vector.{IsVector, Le, clock_of, zero_vector};

    /// The vector that counts no write, which takes no memory.
    pub fn zero() -> PackedVector
        ensures { result ≡ zero_vector }
    {
        PackedVector {
            clocks: Clocks::zero(),
        }
    }

    /// It takes memory only where the vector does not lie in place.
    pub fn of(alloc: Global, vector: &Vector) -> Result<PackedVector, NoMemory>
        ensures { IfOk result (λ packed. packed ≡ vector.now) }
    {
        let clocks = Clocks::of(alloc, vector)?;
        Ok(PackedVector { clocks })
    }

    /// It takes memory as `of` does.
    pub fn copy(&self, alloc: Global) -> Result<PackedVector, NoMemory>
        ensures { IfOk result (λ packed. packed ≡ self.now) }
    {
        let clocks = self.clocks.copy(alloc)?;
        Ok(PackedVector { clocks })
    }

    /// The vector, which is worked with.
    pub fn get(&self) -> Vector
        ensures value { result ≡ self.now }
        ensures range { IsVector self.now }
    {
        self.clocks.vector()
    }

    /// How many nodes it may have a clock of, in constant time: each behind them has clock 0.
    pub fn nodes(&self) -> u32
        ensures most { result ≤ 32 }
        ensures behind { (n : ℕ) → result ≤ n → n < 32 → clock_of self.now n ≡ 0 }
    {
        self.clocks.nodes()
    }

    /// The clock of the node, in constant time.
    pub fn at(&self, node: u32) -> u64
        requires { node < 32 }
        ensures value { result ≡ clock_of self.now node }
        ensures range { IsVector self.now }
    {
        self.clocks.at(node)
    }

    /// Whether it is the same vector.
    pub fn is(&self, other: &PackedVector) -> bool
        ensures { IsTrue result ↔ (self.now ≡ other.now) }
    {
        self.clocks.is(&other.clocks)
    }

    /// Whether it is the same vector but for the clock of this node.
    pub fn is_but(&self, other: &PackedVector, node: u32) -> bool
        ensures { IsTrue result ↔ ((n : ℕ) → n < 32 → (n ≡ node → ⊥) → clock_of self.now n ≡ clock_of other.now n) }
    {
        self.clocks.is_but(&other.clocks, node)
    }

    /// Whether each clock is at most the other's.
    pub fn le(&self, other: &Vector) -> bool
        ensures { IsTrue result ↔ Le self.now other.now }
    {
        for n in 0..self.clocks.nodes() {
            if self.at(n) > other.at(n) {
                return false;
            }
        }
        true
    }
}

impl Clocked for PackedVector {
    ghost use Rattle.std.specs.Prelude.{List, ℕ};

    ghost clocks = { λ v. v };

    fn count(&self) -> u32 {
        self.nodes()
    }

    fn clock(&self, node: u32) -> u64 {
        self.at(node)
    }

    fn join_into(&self, others: &mut [u64; 32]) {
        self.clocks.join_into(others);
    }

    fn next_above(&self, other: &PackedVector, start: u32) -> Option<u32> {
        self.clocks.next_above(&other.clocks, start)
    }
}
