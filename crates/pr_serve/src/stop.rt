// Why nothing more is taken off an input.
ghost use Rattle.pr_serve.specs.Faults.{fault_at};
ghost use Rattle.pr_serve.specs.declared.stop.Stop.TheVariants as stops;
ghost use Rattle.std.specs.Prelude.{◌≡◌};

use crate::serve_fault::ServeFault;
use pr_stamps::NoMemory;

/// The bytes are none of what may stand there, the source failed, more bytes came than may be, or there was no memory.
#[derive(Clone, Copy)]
pub enum Stop {
    Bad,
    Failed,
    TooLarge,
    NoMemory,
}

impl From<NoMemory> for Stop {
    ghost from_gives = { λ _ stop. stop ≡ stops.NoMemory };

    fn from(_fault: NoMemory) -> Stop {
        Stop::NoMemory
    }
}

/// The fault of a stop at what begins at this byte.
pub fn fault_of(stop: Stop, at: u64) -> ServeFault
    ensures { result ≡ fault_at stop at }
{
    match stop {
        Stop::Bad => ServeFault::BadBytes { at },
        Stop::Failed => ServeFault::ReadFault,
        Stop::TooLarge => ServeFault::TooLarge,
        Stop::NoMemory => ServeFault::NoMemory,
    }
}
