// The complement of a set.
ghost use Rattle.pr_sets.specs.Spans.{IsComplement, IsSet};
ghost use Rattle.std.specs.Prelude.{IfOk};

use crate::ends;
use crate::pushing::push_some;
use pr_names::{Bound, Interval, Name};
use pr_stamps::{NoMemory, Seq};
use std::alloc::Global;

/// What lies between the intervals. There is at most one gap more than there are intervals.
pub fn complement(alloc: Global, parts: &[Interval]) -> Result<Seq<Interval>, NoMemory>
    requires { IsSet parts.now }
    ensures { IfOk result (IsComplement parts.now) }
{
    let room = parts.len().saturating_add(1);
    let mut gaps = Seq::new(alloc);
    let mut from = Bound::At(Name::least());
    for part in parts {
        push_some(
            alloc,
            &mut gaps,
            ends::gap(from, Bound::At(part.lo())),
            room,
        )?;
        from = part.hi();
    }
    push_some(alloc, &mut gaps, ends::gap(from, Bound::End), room)?;
    Ok(gaps)
}
