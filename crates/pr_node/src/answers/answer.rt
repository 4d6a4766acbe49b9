// What a node answers at once.

use pr_stamps::Stamp;

/// The newest write to a name, by what the node was told. `Imprecise` has the least point of which it was not told.
#[derive(Drop)]
pub enum Answer<'a> {
    Never,
    Value { stamp: Stamp, bytes: &'a [u8] },
    Imprecise { untold: Stamp },
    Body { stamp: Stamp },
    Gone { stamp: Stamp },
}
