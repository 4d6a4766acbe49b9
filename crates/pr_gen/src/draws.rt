// Draws from a generator of words.
ghost use Rattle.pr_gen.specs.Draws as draws;
ghost use Rattle.std.specs.Prelude.{◌≡◌, ◌<◌};

use rand_core::SeedableRng;
use rand_core::utils::NextWord;
use rand_pcg::Lcg64Xsh32;

/// The generator of a seed.
pub fn seeded(seed: u64) -> Lcg64Xsh32
    ensures { result ≡ draws.seeded seed }
{
    Lcg64Xsh32::seed_from_u64(seed)
}

/// A word of 32 bits.
#[tactic(auto, unfolding(crate::specs::Draws::word))]
pub fn word(words: &mut Lcg64Xsh32) -> u32
    ensures { (result, words.new) ≡ draws.word words.old }
{
    words.next_word()
}

/// A number below this count.
#[tactic(auto, unfolding(crate::specs::Draws::below))]
pub fn below(words: &mut Lcg64Xsh32, count: u32) -> u32
    requires { 0 < count }
    ensures drawn { (result, words.new) ≡ draws.below count words.old }
    ensures range { result < count }
{
    word(words) % count
}
