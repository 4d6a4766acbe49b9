// The modes.
ghost use Rattle.pr_words.specs.Words.{mode_of};
ghost use Rattle.std.specs.Prelude.{◌≡◌};

/// The word that says what is to be done.
#[derive(Clone, Copy, PartialEq, Eq)]
pub enum Mode {
    Sim,
    Run,
    Gen,
    Check,
    Kept,
    Ask,
    Serve,
    Pull,
}

/// The mode that the word is.
#[tactic(auto, unfolding(crate::specs::Words::mode_of))]
pub fn mode_of(word: &[u8]) -> Option<Mode>
    ensures { result ≡ mode_of word.now }
{
    if word == b"sim".as_slice() {
        Some(Mode::Sim)
    } else if word == b"run".as_slice() {
        Some(Mode::Run)
    } else if word == b"gen".as_slice() {
        Some(Mode::Gen)
    } else if word == b"check".as_slice() {
        Some(Mode::Check)
    } else if word == b"kept".as_slice() {
        Some(Mode::Kept)
    } else if word == b"ask".as_slice() {
        Some(Mode::Ask)
    } else if word == b"serve".as_slice() {
        Some(Mode::Serve)
    } else if word == b"pull".as_slice() {
        Some(Mode::Pull)
    } else {
        None
    }
}
