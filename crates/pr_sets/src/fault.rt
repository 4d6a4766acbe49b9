// Why bytes are no set.
ghost use Rattle.pr_sets.specs.declared.fault.SetFault.TheVariants as faults;
ghost use Rattle.std.specs.Prelude.{◌≡◌};

use pr_names::IntervalFault;
use pr_stamps::NoMemory;
use std::alloc::AllocFailed;

/// Too many items, the first item that is refused, or want of memory.
#[derive(Clone, Copy, Debug, PartialEq, Eq)]
pub enum SetFault {
    TooMany,
    Item { index: usize, fault: IntervalFault },
    NoMemory,
}

impl From<NoMemory> for SetFault {
    ghost from_gives = { λ _ fault. fault ≡ faults.NoMemory };

    fn from(_fault: NoMemory) -> SetFault {
        SetFault::NoMemory
    }
}

impl<T: Drop> From<AllocFailed<T>> for SetFault {
    ghost from_gives = { λ _ fault. fault ≡ faults.NoMemory };

    fn from(_fault: AllocFailed<T>) -> SetFault {
        SetFault::NoMemory
    }
}
