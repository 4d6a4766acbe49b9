// What a node finds of conflicts.

use pr_stamps::{Seq, Stamp};

/// The conflicts of a name: pairs of writes of which the later one's node did not know the earlier one.
#[derive(Drop)]
pub enum Found {
    /// All of them, each once, by the earlier stamp and then the later one.
    Pairs(Seq<(Stamp, Stamp)>),
    /// The node was not told, for the set of the name, of this point that its vector covers; it is the least such.
    Imprecise { untold: Stamp },
}
