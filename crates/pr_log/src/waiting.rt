// The next write of a stream.
ghost use Rattle.pr_inval.specs.declared.write_rec.WriteRec.{WriteRec};
ghost use Rattle.pr_log.specs.Known.{IsFirstAbove, IsWaiting, uncovered};
ghost use Rattle.pr_log.specs.Waiting.{AreListed, IsLeastHead, IsLesser, IsNextOf, head_of, node_at};
ghost use Rattle.pr_vectors.specs.Vector.{clock_of};
ghost use Rattle.std.specs.Prelude.{◌≡◌, ◌≤◌, ◌<◌, ◌+◌, ℕ, IfSome, IsTrue, length, option_copied};

use crate::index::Index;
use crate::{Near, Steps};
use pr_inval::WriteRec;
use pr_sets::NameSet;
use pr_vectors::Vector;
use std::sync::ledger::Ledger;

// By node the first write that is not yet looked at.
type Heads<'a> = [Option<&'a WriteRec>; 32];

// The nodes that have such a write, in the first places.
#[derive(Drop)]
struct Nodes {
    at: [u32; 32],
    count: usize,
}

impl Nodes {
    // Lists the next node too, if it has a head.
    fn put(&mut self, heads: &Heads, node: u32)
        requires node { node < 32 }
        requires listed { AreListed heads.now self.old.at self.old.count node }
        ensures { AreListed heads.now self.new.at self.new.count (node + 1) }
    {
        if heads[node as usize].is_some() {
            self.at[self.count] = node;
            self.count += 1;
        }
    }

    // Lists the node no longer, if it has no head: the last that is listed comes in its place.
    fn take_out(&mut self, heads: &Heads, node: u32)
        requires node { node < 32 }
        requires listed { AreListed heads.now self.old.at self.old.count 32 }
        ensures { AreListed heads.now self.new.at self.new.count 32 }
    {
        if heads[node as usize].is_some() {
            return;
        }
        if let Some(place) = self.place_of(node) {
            self.count -= 1;
            self.at[place] = self.at[self.count];
        }
    }

    // Where the node is listed.
    fn place_of(&self, node: u32) -> Option<usize>
        requires { self.now.count ≤ 32 }
        ensures { IfSome result (λ k. (k < self.now.count) × (node_at self.now.at k ≡ node)) }
    {
        self.at[..self.count]
            .iter()
            .position(|listed| *listed == node)
    }
}

// The least write by stamp that is to one of the names and past the position. The nodes' writes are looked at in the
// order of stamps, so that a write is looked at only if it comes before the answer or is the first of its node. To look at
// one takes time linear in the nodes that have one left. Behind `first` looks at writes to other names, and behind twice
// as many, and so on, it is asked whether a write waits at all; 0 is never.
pub fn next_write<'a, L: Ledger>(
    index: &'a Index,
    pos: &Vector,
    sub: &NameSet,
    first: usize,
    near: &mut Near,
    steps: &mut Steps<L>,
) -> Option<&'a WriteRec>
    ensures next { IsNextOf index.now pos.now sub.now (option_copied result) }
    ensures few { steps.new ≤ steps.old + uncovered index.now pos.now + 32 }
{
    index.by_stamp();
    let mut heads = [None; 32];
    let mut nodes = Nodes {
        at: [0; 32],
        count: 0,
    };
    find_heads(index, pos, &mut heads, &mut nodes, near, steps);
    let mut looks = 0usize;
    let mut ask = first;
    while let Some(write) = least(&heads, &nodes) {
        if sub.has(&write.name) {
            return Some(write);
        }
        looks = looks.saturating_add(1);
        if is_none_left(index, pos, sub, looks, ask) {
            return None;
        }
        ask = ask_after(looks, ask);
        let node = write.stamp.node();
        heads[node as usize] = index.next(node, write.stamp.clock(), near, steps);
        nodes.take_out(&heads, node);
    }
    None
}

// Whether it is asked behind so many looks, and no write waits. Asking looks at no more intervals and names than there
// were looks.
fn is_none_left(index: &Index, pos: &Vector, sub: &NameSet, looks: usize, ask: usize) -> bool
    ensures { IsTrue result → (x : WriteRec) → ¬ IsWaiting index.now pos.now sub.now x }
{
    looks == ask && !index.may_wait(pos, sub, looks)
}

// Behind how many looks it is asked next.
fn ask_after(looks: usize, ask: usize) -> usize {
    if looks == ask {
        ask.saturating_mul(2)
    } else {
        ask
    }
}

// Finds the first writes past the position, and lists the nodes that have one. They are put where they stay, since they
// are long to move.
fn find_heads<'a, L: Ledger>(
    index: &'a Index,
    pos: &Vector,
    heads: &mut Heads<'a>,
    nodes: &mut Nodes,
    near: &mut Near,
    steps: &mut Steps<L>,
)
    requires none { (n : ℕ) → head_of heads.old n ≡ None }
    requires empty { nodes.old.count ≡ 0 }
    ensures each { (n : ℕ) → n < 32 → IsFirstAbove index.now n (clock_of pos.now n) (head_of heads.new n) }
    ensures listed { AreListed heads.new nodes.new.at nodes.new.count 32 }
    ensures steps { steps.new ≤ steps.old + 32 }
{
    for n in 0..index.nodes() {
        heads[n as usize] = index.next(n, pos.at(n), near, steps);
        nodes.put(heads, n);
    }
}

// The least of the heads by stamp.
fn least<'a>(heads: &Heads<'a>, nodes: &Nodes) -> Option<&'a WriteRec>
    requires { AreListed heads.now nodes.now.at nodes.now.count 32 }
    ensures { IsLeastHead (head_of heads.now) 32 (option_copied result) }
{
    let mut least = None;
    for place in 0..nodes.count {
        least = lesser(least, heads[nodes.at[place] as usize]);
    }
    least
}

// The lesser of two writes by stamp.
fn lesser<'a>(first: Option<&'a WriteRec>, second: Option<&'a WriteRec>) -> Option<&'a WriteRec>
    ensures { IsLesser (option_copied first.entry) (option_copied second.entry) (option_copied result) }
{
    match (first, second) {
        (Some(a), Some(b)) => Some(if b.stamp.is_before(&a.stamp) { b } else { a }),
        (Some(a), None) => Some(a),
        (None, _) => second,
    }
}
