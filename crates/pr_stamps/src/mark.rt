// What conflicts are found by.
ghost use Rattle.std.specs.Prelude.{◌≡◌};

use crate::Stamp;

/// A write's stamp, and the newest stamp of its name that its node knew before it; none is less than every stamp.
#[derive(Clone, Copy, Debug, PartialEq, Eq)]
pub struct Mark {
    pub stamp: Stamp,
    pub prev: Option<Stamp>,
}

impl Mark {
    ghost use Rattle.pr_stamps.specs.Marks.{is_conflict};

    /// Whether a later write to the same name conflicts with this one: its node had not known this one.
    pub fn conflicts_with(&self, later: &Mark) -> bool
        ensures { result ≡ is_conflict self.now later.now }
    {
        let missed = match &later.prev {
            Some(prev) => prev.is_before(&self.stamp),
            None => true,
        };
        missed && self.stamp.is_before(&later.stamp)
    }
}
