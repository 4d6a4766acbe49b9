// Why a field is not read.
ghost use Rattle.pr_wire.specs.declared.fault.Fault.TheVariants as faults;
ghost use Rattle.std.specs.Prelude.{◌≡◌};

/// Want of memory, or the bytes are none of the field.
#[derive(Clone, Copy, Debug, PartialEq, Eq)]
pub enum Fault {
    NoMemory,
    Bad,
}

impl From<pr_stamps::NoMemory> for Fault {
    ghost from_gives = { λ _ fault. fault ≡ faults.NoMemory };

    fn from(_fault: pr_stamps::NoMemory) -> Fault {
        Fault::NoMemory
    }
}
