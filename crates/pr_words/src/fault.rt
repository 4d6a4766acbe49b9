// Why words are no job.
ghost use Rattle.pr_words.specs.declared.fault.WordsFault.TheVariants as faults;
ghost use Rattle.std.specs.Prelude.{◌≡◌};

use pr_stamps::NoMemory;
use thiserror::Error;

/// The words ask for no job, or there was no memory.
#[derive(Clone, Copy, Debug, PartialEq, Eq, Error)]
pub enum WordsFault {
    #[error("usage: practi sim | run | check | gen --seed N --size N | kept [--stop N] | ask|serve|pull --node LABEL")]
    Usage,
    #[error("no memory")]
    NoMemory,
}

impl From<NoMemory> for WordsFault {
    ghost from_gives = { λ _ fault. fault ≡ faults.NoMemory };

    fn from(_fault: NoMemory) -> WordsFault {
        WordsFault::NoMemory
    }
}
