// The clocks of a packed vector.
ghost use Rattle.pr_vectors.specs.Packed.{vector_in};
ghost use Rattle.pr_vectors.specs.Vector.{IsVector, clock_of, join_of, unpacked, zero_vector};
ghost use Rattle.std.specs.Prelude.{◌≡◌, ◌≤◌, ◌<◌, ◌↔◌, ℕ, None, IfOk, IfSome, IsTrue, length};

use crate::Vector;
use crate::between::next_above;
use crate::vector::join_clocks;
use pr_stamps::{NODES, NoMemory};
use std::alloc::Global;

// In place those of the first eight nodes, where no other node counts and each is below 2^16, as mostly. On the heap
// those of all nodes: where each is below 2^16, where each is below 2^32, and else whole.
#[derive(Drop)]
pub(crate) enum Clocks {
    Few([u16; 8]),
    Short(Box<[u16; 32]>),
    Near(Box<[u32; 32]>),
    Far(Box<Vector>),
}

impl Clocks {
    pub(crate) fn zero() -> Clocks
        ensures value { vector_in result ≡ zero_vector }
        ensures range { IsVector (vector_in result) }
    {
        Clocks::Few([0; 8])
    }

    pub(crate) fn of(alloc: Global, vector: &Vector) -> Result<Clocks, NoMemory>
        ensures value { IfOk result (λ clocks. vector_in clocks ≡ vector.now) }
        ensures range { IsVector vector.now }
    {
        let _ = vector.at(0);
        if vector.is_few() {
            return Ok(Clocks::Few(vector.few()));
        }
        of_all(alloc, vector)
    }

    pub(crate) fn copy(&self, alloc: Global) -> Result<Clocks, NoMemory>
        ensures { IfOk result (λ clocks. vector_in clocks ≡ vector_in self.now) }
    {
        match self {
            Clocks::Few(few) => Ok(Clocks::Few(*few)),
            Clocks::Short(short) => Ok(Clocks::Short(Box::new(alloc, **short)?)),
            Clocks::Near(near) => Ok(Clocks::Near(Box::new(alloc, **near)?)),
            Clocks::Far(far) => Ok(Clocks::Far(Box::new(alloc, **far)?)),
        }
    }

    pub(crate) fn vector(&self) -> Vector
        requires { IsVector (vector_in self.now) }
        ensures { result ≡ vector_in self.now }
    {
        match self {
            Clocks::Few(few) => Vector::of_few(few),
            Clocks::Short(short) => Vector::of_near(&wide(short)),
            Clocks::Near(near) => Vector::of_near(near),
            Clocks::Far(far) => **far,
        }
    }

    // How many nodes it has a clock of: each behind them has clock 0.
    pub(crate) fn nodes(&self) -> u32
        ensures most { result ≤ 32 }
        ensures behind { (n : ℕ) → result ≤ n → n < 32 → clock_of (vector_in self.now) n ≡ 0 }
    {
        match self {
            Clocks::Few(few) => nodes_of_few(few),
            Clocks::Short(_) | Clocks::Near(_) | Clocks::Far(_) => NODES,
        }
    }

    // The clock of the node.
    pub(crate) fn at(&self, node: u32) -> u64
        requires { node < 32 }
        ensures { result ≡ clock_of (vector_in self.now) node }
    {
        match self {
            Clocks::Few(few) => at_few(few, node),
            Clocks::Short(short) => u64::from(short[node as usize]),
            Clocks::Near(near) => u64::from(near[node as usize]),
            Clocks::Far(far) => far.at(node),
        }
    }

    // The greater clock of each node stays.
    pub(crate) fn join_into(&self, others: &mut [u64; 32])
        ensures { others.new ≡ join_of others.old (vector_in self.now) }
    {
        match self {
            Clocks::Few(few) => join_few(others, few),
            Clocks::Short(short) => join_near(others, &wide(short)),
            Clocks::Near(near) => join_near(others, near),
            Clocks::Far(far) => join_clocks(others, far),
        }
    }

    // The first node from this one on at which it is above the other.
    pub(crate) fn next_above(&self, other: &Clocks, start: u32) -> Option<u32>
        ensures range { IfSome result (λ n. n < 32) }
        ensures rises { IfSome result (λ n. clock_of (vector_in other.now) n < clock_of (vector_in self.now) n) }
        ensures from { IfSome result (λ n. start ≤ n) }
        ensures least { IfSome result (λ n. (k : ℕ) → start ≤ k → k < n → clock_of (vector_in self.now) k ≤ clock_of (vector_in other.now) k) }
        ensures none { result ≡ None → (k : ℕ) → start ≤ k → k < 32 → clock_of (vector_in self.now) k ≤ clock_of (vector_in other.now) k }
    {
        match (self, other) {
            (Clocks::Few(few), Clocks::Few(others)) => next_above_few(few, others, start),
            (Clocks::Short(short), Clocks::Short(others)) => next_above(
                &wide(short),
                &wide(others),
                start,
            ),
            (Clocks::Near(near), Clocks::Near(others)) => next_above(&**near, &**others, start),
            _ => next_above_by_node(self, other, start),
        }
    }

    // Whether these are the same clocks.
    pub(crate) fn is(&self, other: &Clocks) -> bool
        requires this { IsVector (vector_in self.now) }
        requires other { IsVector (vector_in other.now) }
        ensures { IsTrue result ↔ (vector_in self.now ≡ vector_in other.now) }
    {
        match (self, other) {
            (Clocks::Few(few), Clocks::Few(others)) => is_few(few, others),
            (Clocks::Short(short), Clocks::Short(others)) => **short == **others,
            (Clocks::Near(near), Clocks::Near(others)) => **near == **others,
            _ => is_same_unpacked(self, other),
        }
    }

    // Whether these are the same clocks but for that of this node.
    pub(crate) fn is_but(&self, other: &Clocks, node: u32) -> bool
        ensures { IsTrue result ↔ ((n : ℕ) → n < 32 → (n ≡ node → ⊥) → clock_of (vector_in self.now) n ≡ clock_of (vector_in other.now) n) }
    {
        match (self, other) {
            (Clocks::Few(few), Clocks::Few(others)) => is_few_but(few, others, node),
            (Clocks::Short(short), Clocks::Short(others)) => is_near_but(
                &wide(short),
                &wide(others),
                node,
            ),
            (Clocks::Near(near), Clocks::Near(others)) => is_near_but(near, others, node),
            _ => is_but_by_node(self, other, node),
        }
    }
}

// The clocks of all nodes, on the heap. The room to pack them is cleared here alone.
#[inline(never)]
fn of_all(alloc: Global, vector: &Vector) -> Result<Clocks, NoMemory>
    ensures { IfOk result (λ clocks. vector_in clocks ≡ vector.now) }
{
    if let Some(short) = vector.short() {
        return Ok(Clocks::Short(Box::new(alloc, short)?));
    }
    match vector.near() {
        Some(near) => Ok(Clocks::Near(Box::new(alloc, near)?)),
        None => Ok(Clocks::Far(Box::new(alloc, *vector)?)),
    }
}

fn join_few(others: &mut [u64; 32], few: &[u16; 8])
    ensures { others.new ≡ join_of others.old (unpacked few.now) }
{
    join_short(others, &wide(few));
}

fn join_near(others: &mut [u64; 32], near: &[u32; 32])
    ensures { others.new ≡ join_of others.old near.now }
{
    join_short(others, near);
}

// The greater clock of each of the first nodes stays.
fn join_short(others: &mut [u64; 32], clocks: &[u32])
    requires { length clocks.now ≤ 32 }
    ensures { others.new ≡ join_of others.old clocks.now }
{
    for n in 0..clocks.len() {
        others[n] = others[n].max(u64::from(clocks[n]));
    }
}

// The same, of clocks that are packed in different ways, as hardly any are. The room for two vectors is cleared here alone.
#[inline(never)]
fn is_same_unpacked(clocks: &Clocks, others: &Clocks) -> bool
    requires this { IsVector (vector_in clocks.now) }
    requires other { IsVector (vector_in others.now) }
    ensures { IsTrue result ↔ (vector_in clocks.now ≡ vector_in others.now) }
{
    clocks.vector() == others.vector()
}

// The same, where they are packed in different ways.
fn next_above_by_node(clocks: &Clocks, others: &Clocks, start: u32) -> Option<u32>
    ensures range { IfSome result (λ n. n < 32) }
    ensures rises { IfSome result (λ n. clock_of (vector_in others.now) n < clock_of (vector_in clocks.now) n) }
    ensures from { IfSome result (λ n. start ≤ n) }
    ensures least { IfSome result (λ n. (k : ℕ) → start ≤ k → k < n → clock_of (vector_in clocks.now) k ≤ clock_of (vector_in others.now) k) }
    ensures none { result ≡ None → (k : ℕ) → start ≤ k → k < 32 → clock_of (vector_in clocks.now) k ≤ clock_of (vector_in others.now) k }
{
    for n in start..clocks.nodes() {
        if others.at(n) < clocks.at(n) {
            return Some(n);
        }
    }
    None
}

fn next_above_few(few: &[u16; 8], others: &[u16; 8], start: u32) -> Option<u32>
    ensures range { IfSome result (λ n. n < 32) }
    ensures rises { IfSome result (λ n. clock_of (unpacked others.now) n < clock_of (unpacked few.now) n) }
    ensures from { IfSome result (λ n. start ≤ n) }
    ensures least { IfSome result (λ n. (k : ℕ) → start ≤ k → k < n → clock_of (unpacked few.now) k ≤ clock_of (unpacked others.now) k) }
    ensures none { result ≡ None → (k : ℕ) → start ≤ k → k < 32 → clock_of (unpacked few.now) k ≤ clock_of (unpacked others.now) k }
{
    next_above(&wide(few), &wide(others), start)
}

// Short clocks, as wide as others.
fn wide<const N: usize>(short: &[u16; N]) -> [u32; N]
    ensures { result ≡ short.now }
{
    let mut wide = [0; N];
    for n in 0..N {
        wide[n] = u32::from(short[n]);
    }
    wide
}

fn is_few(few: &[u16; 8], others: &[u16; 8]) -> bool
    ensures { IsTrue result ↔ (unpacked few.now ≡ unpacked others.now) }
{
    few == others
}

fn at_few(few: &[u16; 8], node: u32) -> u64
    requires { node < 32 }
    ensures { result ≡ clock_of (unpacked few.now) node }
{
    if (node as usize) < few.len() {
        u64::from(few[node as usize])
    } else {
        0
    }
}

fn nodes_of_few(few: &[u16; 8]) -> u32
    ensures most { result ≤ 32 }
    ensures behind { (n : ℕ) → result ≤ n → n < 32 → clock_of (unpacked few.now) n ≡ 0 }
{
    few.len() as u32
}

// Whether these are the same clocks but for that of this node; those behind them are 0.
fn is_few_but(few: &[u16; 8], others: &[u16; 8], node: u32) -> bool
    ensures { IsTrue result ↔ ((n : ℕ) → n < 32 → (n ≡ node → ⊥) → clock_of (unpacked few.now) n ≡ clock_of (unpacked others.now) n) }
{
    for n in 0..8 {
        if n != node && few[n as usize] != others[n as usize] {
            return false;
        }
    }
    true
}

fn is_near_but(near: &[u32; 32], others: &[u32; 32], node: u32) -> bool
    ensures { IsTrue result ↔ ((n : ℕ) → n < 32 → (n ≡ node → ⊥) → clock_of near.now n ≡ clock_of others.now n) }
{
    for n in 0..NODES {
        if n != node && near[n as usize] != others[n as usize] {
            return false;
        }
    }
    true
}

fn is_but_by_node(clocks: &Clocks, others: &Clocks, node: u32) -> bool
    ensures { IsTrue result ↔ ((n : ℕ) → n < 32 → (n ≡ node → ⊥) → clock_of (vector_in clocks.now) n ≡ clock_of (vector_in others.now) n) }
{
    for n in 0..NODES {
        if n != node && clocks.at(n) != others.at(n) {
            return false;
        }
    }
    true
}
