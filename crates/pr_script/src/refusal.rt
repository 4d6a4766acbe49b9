// Why a line is refused.

ghost use Rattle.pr_script.specs.declared.refusal.Refusal.TheVariants as refusals;
ghost use Rattle.std.specs.Prelude.{◌≡◌};

use pr_stamps::NoMemory;

/// The rule that a line breaks, or want of memory.
#[derive(Clone, Copy)]
pub enum Refusal {
    Why(u8),
    NoMemory,
}

impl From<NoMemory> for Refusal {
    ghost from_gives = { λ _ refusal. refusal ≡ refusals.NoMemory };

    fn from(_fault: NoMemory) -> Refusal {
        Refusal::NoMemory
    }
}
