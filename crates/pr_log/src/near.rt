// Where the writes of each node were looked for last.
ghost use Rattle.std.specs.Prelude.{◌<◌};

/// By node the place in its list of writes that was found last: a search for the same clock, or for one a write later,
/// ends there at once. It promises nothing of the writes; a place that is wrong costs time alone. A stream's source keeps
/// one from turn to turn. It takes no memory.
#[derive(Drop)]
pub struct Near {
    places: [usize; 32],
}

impl Near {
    /// At the beginning of each list.
    pub fn new() -> Near {
        Near { places: [0; 32] }
    }

    // The place of this node.
    pub(crate) fn at(&self, node: u32) -> usize
        requires { node < 32 }
    {
        self.places[node as usize]
    }

    // It was found there.
    pub(crate) fn found(&mut self, node: u32, place: usize)
        requires { node < 32 }
    {
        self.places[node as usize] = place;
    }
}
