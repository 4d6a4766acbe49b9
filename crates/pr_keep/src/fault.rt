// Why a call of a kept file failed.
ghost use Rattle.pr_keep.specs.declared.fault.KeepFault.TheVariants as faults;
ghost use Rattle.pr_keep.specs.Faults.{fault_of};
ghost use Rattle.std.specs.Prelude.{◌≡◌};

use crate::DiskFault;
use pr_stamps::NoMemory;

/// The disk failed, memory was wanted, or the file stands for no list of entries: `at` is the first byte of the head,
/// the record or the missing gate that is wrong.
#[derive(Clone, Copy, Debug, PartialEq, Eq)]
pub enum KeepFault {
    Failed,
    NoMemory,
    Damaged { at: u64 },
}

/// A disk that was not taken, and why.
#[derive(Drop)]
pub struct KeepRefused<D> {
    pub disk: D,
    pub fault: KeepFault,
}

impl From<DiskFault> for KeepFault {
    ghost from_gives = { λ fault keep. keep ≡ fault_of fault };

    fn from(fault: DiskFault) -> KeepFault {
        match fault {
            DiskFault::Failed => KeepFault::Failed,
            DiskFault::NoMemory => KeepFault::NoMemory,
        }
    }
}

impl From<NoMemory> for KeepFault {
    ghost from_gives = { λ _ keep. keep ≡ faults.NoMemory };

    fn from(_fault: NoMemory) -> KeepFault {
        KeepFault::NoMemory
    }
}
