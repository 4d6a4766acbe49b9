// The dark set that begins last.

use pr_sets::NameSet;

// It stands at each clock from `start` on.
#[derive(Drop)]
pub struct Tail {
    pub start: u64,
    pub set: NameSet,
}
