// Why a node does not make an event.
ghost use Rattle.pr_inval.specs.declared.node_fault.NodeFault.TheVariants as faults;
ghost use Rattle.std.specs.Prelude.{◌≡◌};

use pr_stamps;

/// Want of memory, or the time or the clock of the event would be past the greatest.
#[derive(Clone, Copy, Debug, PartialEq, Eq)]
pub enum NodeFault {
    NoMemory,
    Worn { at: u64 },
}

impl From<pr_stamps::NoMemory> for NodeFault {
    ghost from_gives = { λ _ fault. fault ≡ faults.NoMemory };

    fn from(_fault: pr_stamps::NoMemory) -> NodeFault {
        NodeFault::NoMemory
    }
}
