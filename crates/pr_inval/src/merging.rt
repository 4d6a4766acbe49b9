// Merging imprecise invalidations.
ghost use Rattle.pr_inval.specs.Merging.{AreAdjacent, CoversIt, IsMerged, Rises};
ghost use Rattle.pr_inval.specs.declared.imprecise.Imprecise.{Imprecise};
ghost use Rattle.pr_stamps.specs.Point.{Point};
ghost use Rattle.std.specs.Prelude.{◌≡◌, ◌⊎◌, ◌<◌, ◌↔◌, IfOk};

use crate::Imprecise;
use pr_stamps::NoMemory;
use std::alloc::Global;

/// One invalidation for two of which one ends where the other starts ("PRACTI Replication", NSDI 2006, section 3.2):
/// the meet of the starts, the join of the ends and the union of the targets. It covers just the points that either
/// covers, and is the same in either order. The time is linear in the intervals of both targets.
pub fn merge(alloc: Global, a: &Imprecise, b: &Imprecise) -> Result<Imprecise, NoMemory>
    requires adjacent { AreAdjacent a.now b.now }
    requires a_rises { Rises a.now }
    requires b_rises { Rises b.now }
    ensures merged { IfOk result (IsMerged a.now b.now) }
    ensures either_order { IfOk result (IsMerged b.now a.now) }
    ensures covers { IfOk result (λ m. (p : Point) → p.node < 32 → CoversIt m p ↔ (CoversIt a.now p ⊎ CoversIt b.now p)) }
{
    let target = a.target.union(alloc, &b.target)?;
    Ok(Imprecise {
        from: a.from.meet(&b.from),
        to: a.to.join(&b.to),
        target,
    })
}

/// The order of the two does not matter.
pub fn merging_is_commutative()
    ensures { (a b m n : Imprecise) → IsMerged a b m → IsMerged b a n → m ≡ n }
{}

/// Of three that follow one another it does not matter which two are merged first.
pub fn merging_is_associative()
    ensures { (a b c ab bc m n : Imprecise) → IsMerged a b ab → IsMerged b c bc → IsMerged ab c m → IsMerged a bc n → m ≡ n }
{}

/// What is merged covers just the points that either covers.
pub fn merged_cover_what_either_covers()
    ensures { (a b m : Imprecise) (p : Point) → AreAdjacent a b → Rises a → Rises b → IsMerged a b m → p.node < 32 → CoversIt m p ↔ (CoversIt a p ⊎ CoversIt b p) }
{}
