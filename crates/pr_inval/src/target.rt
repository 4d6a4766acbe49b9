// The target of an imprecise invalidation.
ghost use Rattle.pr_inval.specs.Targets.{IsOutsideOrDark, IsTargetFor};
ghost use Rattle.pr_sets.specs.Spans.{Meet, has};
ghost use Rattle.std.specs.Prelude.{[], IfOk};

use pr_sets::NameSet;
use pr_stamps::NoMemory;
use std::alloc::Global;

/// The most intervals of a target that names only what was omitted or is dark.
pub const TARGET_INTERVALS: usize = 16;

/// The target for the names that a stream omits, which are none of its subscription, and for the dark ones: the union
/// of both, where that has at most 16 intervals, and else all names outside the subscription and the dark ones inside
/// it. The time is linear in the intervals of the three sets. Where nothing is dark, the omitted names are only copied
/// for a target that they are: else time and memory are those of the subscription, however many names are omitted.
pub fn target_for(
    alloc: Global,
    omitted: &NameSet,
    dark: &NameSet,
    sub: &NameSet,
) -> Result<NameSet, NoMemory>
    requires { ¬ Meet (has omitted.now) (has sub.now) }
    ensures { IfOk result (IsTargetFor omitted.now dark.now sub.now) }
{
    if dark.is_empty() {
        return omitted_or_outside(alloc, omitted, sub);
    }
    let fine = omitted.union(alloc, dark)?;
    if fine.count() <= TARGET_INTERVALS {
        return Ok(fine);
    }
    outside_or_dark(alloc, dark, sub)
}

// The target where nothing is dark: the omitted names, or else all names outside the subscription.
fn omitted_or_outside(alloc: Global, omitted: &NameSet, sub: &NameSet) -> Result<NameSet, NoMemory>
    ensures { IfOk result (IsTargetFor omitted.now [] sub.now) }
{
    if omitted.parts().len() > TARGET_INTERVALS {
        return sub.complement(alloc);
    }
    omitted.copy(alloc)
}

// The names outside the subscription and the dark ones inside it.
fn outside_or_dark(alloc: Global, dark: &NameSet, sub: &NameSet) -> Result<NameSet, NoMemory>
    ensures { IfOk result (IsOutsideOrDark dark.now sub.now) }
{
    let outside = sub.complement(alloc)?;
    let inside = dark.intersect(alloc, sub)?;
    if inside.is_empty() {
        return Ok(outside);
    }
    outside.union(alloc, &inside)
}
