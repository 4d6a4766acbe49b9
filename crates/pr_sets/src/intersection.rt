// The intersection of two sets.
ghost use Rattle.pr_sets.specs.Spans.{IsIntersection, IsSet};
ghost use Rattle.std.specs.Prelude.{IfOk};

use crate::ends;
use crate::pushing::push_some;
use pr_names::Interval;
use pr_stamps::{NoMemory, Seq};
use std::alloc::Global;

// For how many intervals a list that is not empty has room at first: as many as an interest set or a target has.
const MOST: usize = 16;

/// What the intervals share: the one that ends first is done with at each turn, and shares with the other what it has
/// from where that one begins. They are fewer than those of both.
pub fn intersection(
    alloc: Global,
    a: &[Interval],
    b: &[Interval],
) -> Result<Seq<Interval>, NoMemory>
    requires a { IsSet a.now }
    requires b { IsSet b.now }
    ensures { IfOk result (IsIntersection a.now b.now) }
{
    let room = a.len().saturating_add(b.len()).saturating_sub(1).min(MOST);
    let mut both = Seq::new(alloc);
    let mut i = 0;
    let mut j = 0;
    while i < a.len() && j < b.len() {
        let left = &a[i];
        let right = &b[j];
        if right.ends_before(left) {
            push_some(alloc, &mut both, ends::later_part(right, left), room)?;
            j += 1;
        } else {
            push_some(alloc, &mut both, ends::later_part(left, right), room)?;
            i += 1;
        }
    }
    Ok(both)
}
