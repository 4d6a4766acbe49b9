// The union of two sets.
ghost use Rattle.pr_sets.specs.Spans.{IsSet, IsUnion};
ghost use Rattle.std.specs.Prelude.{IfOk};

use crate::joiner::Joiner;
use pr_names::Interval;
use pr_stamps::{NoMemory, Seq};
use std::alloc::Global;

/// The intervals of both, joined where they touch. Where one has none, they are a copy of the other's.
pub fn union(alloc: Global, a: &[Interval], b: &[Interval]) -> Result<Seq<Interval>, NoMemory>
    requires a { IsSet a.now }
    requires b { IsSet b.now }
    ensures { IfOk result (IsUnion a.now b.now) }
{
    if a.is_empty() {
        return Seq::copied(alloc, b);
    }
    if b.is_empty() {
        return Seq::copied(alloc, a);
    }
    merged(alloc, a, b)
}

/// The same by a walk, in the order of their first names. The list has room for all of them from the start.
fn merged(alloc: Global, a: &[Interval], b: &[Interval]) -> Result<Seq<Interval>, NoMemory>
    requires a { IsSet a.now }
    requires b { IsSet b.now }
    ensures { IfOk result (IsUnion a.now b.now) }
{
    let mut joiner = Joiner::with_room(alloc, a.len().saturating_add(b.len()))?;
    let mut i = 0;
    let mut j = 0;
    while i < a.len() && j < b.len() {
        let left = &a[i];
        let right = &b[j];
        if right.begins_before(left) {
            joiner.put(right)?;
            j += 1;
        } else {
            joiner.put(left)?;
            i += 1;
        }
    }
    joiner.put_all(&a[i..])?;
    joiner.put_all(&b[j..])?;
    Ok(joiner.finish())
}
