// What the tests are made of.
ghost use Rattle.pr_sets.specs.Sets.{AreApart};
ghost use Rattle.std.specs.Prelude.{◌≡◌, ◌∷◌, [], IfSome};

use crate::Node;
use crate::tests::call::Clocks;
use pr_names::Name;
use pr_sets::NameSet;
use pr_stamps::{NODES, Seq, Stamp};
use pr_vectors::Vector;
use std::alloc::Global;

pub const A: u32 = 0;

pub const B: u32 = 1;

pub const C: u32 = 2;

pub const ZERO: Clocks = [0, 0, 0];

pub fn name(bytes: &[u8]) -> Option<Name> {
    Name::read(bytes).ok()
}

pub fn set(alloc: Global, text: &[u8]) -> Option<NameSet> {
    NameSet::read(alloc, text, 100).ok()
}

pub fn is_at(stamp: &Stamp, clock: u64, node: u32) -> bool {
    stamp.clock() == clock && stamp.node() == node
}

// The vector with these clocks of the first three nodes.
pub fn vector(clocks: &Clocks) -> Vector {
    let mut vector = Vector::zero();
    for n in 0..3 {
        if let Some(stamp) = Stamp::new(clocks[n as usize], n) {
            vector.raise(&stamp);
        }
    }
    vector
}

// The sets of these texts, if they share no name. An empty text stands for no set.
pub fn sets(alloc: Global, first: &[u8], second: &[u8]) -> Option<Seq<NameSet>>
    ensures { IfSome result AreApart }
{
    if first.is_empty() {
        return Some(Seq::new(alloc));
    }
    let first = set(alloc, first)?;
    if second.is_empty() {
        return one(alloc, first);
    }
    let second = set(alloc, second)?;
    if first.meets(&second) {
        return None;
    }
    pair(alloc, first, second)
}

fn one(alloc: Global, set: NameSet) -> Option<Seq<NameSet>>
    ensures { IfSome result (λ sets. sets ≡ set ∷ []) }
{
    let mut sets = Seq::new(alloc);
    sets.push(set).ok()?;
    Some(sets)
}

fn pair(alloc: Global, first: NameSet, second: NameSet) -> Option<Seq<NameSet>>
    ensures { IfSome result (λ sets. sets ≡ first ∷ second ∷ []) }
{
    let mut sets = Seq::new(alloc);
    sets.push(first).ok()?;
    sets.push(second).ok()?;
    Some(sets)
}

pub fn node(alloc: Global, id: u32, first: &[u8], second: &[u8]) -> Option<Node> {
    if id >= NODES {
        return None;
    }
    let sets = sets(alloc, first, second)?;
    Node::new(alloc, id, sets).ok()
}
