// Imprecise invalidations.

use pr_sets::NameSet;
use pr_vectors::Vector;

/// An imprecise invalidation: each write between its vectors is to a name of the target.
#[derive(Drop)]
pub struct Imprecise {
    pub from: Vector,
    pub to: Vector,
    pub target: NameSet,
}
