// A body that a stream sent.
ghost use Rattle.std.specs.Prelude.{◌≡◌};

use pr_names::Name;
use pr_stamps::Stamp;

/// The name and the stamp of a body.
#[derive(Clone, Copy, PartialEq, Eq, Hash)]
pub struct SentBody {
    name: Name,
    clock: u64,
    node: u32,
}

impl SentBody {
    pub fn of(name: &Name, stamp: &Stamp) -> SentBody
        ensures { result ≡ record { name = name.now; clock = stamp.now.clock; node = stamp.now.node } }
    {
        SentBody {
            name: *name,
            clock: stamp.clock(),
            node: stamp.node(),
        }
    }
}
