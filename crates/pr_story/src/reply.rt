// What a node answers to a read.

use pr_inval::Bytes;
use pr_stamps::Stamp;

/// The answer to a read of a name. All but `Imprecise` are of the write to the name with the greatest stamp among those
/// that the node's vector covers.
#[derive(Drop)]
pub enum Reply {
    /// There is no such write.
    Never,
    /// Its stamp and what it wrote.
    Value { stamp: Stamp, bytes: Bytes },
    /// The node was not told, for the set of the name, of this point that its vector covers; it is the least such.
    Imprecise { untold: Stamp },
    /// The node lacks its body.
    Body { stamp: Stamp },
    /// It is a delete.
    Gone { stamp: Stamp },
}
