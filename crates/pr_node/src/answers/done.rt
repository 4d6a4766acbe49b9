// What a client's write answers.

use pr_stamps::Stamp;
use pr_vectors::Vector;

/// A write was made with this stamp, or the node's vector, `has`, lacks some of what its client has seen.
#[derive(Clone, Copy, Debug, PartialEq, Eq)]
pub enum Done {
    Stamp(Stamp),
    Behind { has: Vector },
}
