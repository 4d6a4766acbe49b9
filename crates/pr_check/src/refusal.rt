// Why a line is not read.
ghost use Rattle.pr_check.specs.declared.refusal.Refusal.TheVariants as refusals;
ghost use Rattle.std.specs.Prelude.{◌≡◌};

use pr_stamps::NoMemory;

/// The bytes are not what was looked for, or want of memory.
#[derive(Clone, Copy, Debug, PartialEq, Eq)]
pub enum Refusal {
    Unread,
    NoMemory,
}

impl From<NoMemory> for Refusal {
    ghost from_gives = { λ _ refusal. refusal ≡ refusals.NoMemory };

    fn from(_fault: NoMemory) -> Refusal {
        Refusal::NoMemory
    }
}
