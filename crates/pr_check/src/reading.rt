// What a text is.
ghost use Rattle.pr_check.specs.Texts.{IsJudged, IsRead};
ghost use Rattle.pr_sim.specs.Making.{declared_of};
ghost use Rattle.pr_sim.specs.Running.{Tells};
ghost use Rattle.pr_story.specs.History.{NodeEntry};
ghost use Rattle.std.specs.Prelude.{◌≡◌, ◌+◌, List, length, ℕ};

use crate::judgement::Judgement;
use crate::transcript::Transcript;

/// A text that was read to its end.
#[derive(Drop)]
pub enum Reading {
    Transcript(Transcript),
    /// It is no transcript, as `Judgement::No` tells.
    No { line: u64, why: u8 },
}

impl Reading {
    /// What is said of the text, in constant time.
    pub fn judgement(&self) -> Judgement
        ensures { (text : List ℕ) → IsRead text self.now → IsJudged text result }
    {
        match self {
            Reading::Transcript(transcript) => Judgement::Yes {
                lines: lines(transcript),
            },
            Reading::No { line, why } => Judgement::No {
                line: *line,
                why: *why,
            },
        }
    }
}

// How many lines stand before the last.
fn lines(transcript: &Transcript) -> u64
    ensures { (h : List NodeEntry) → Tells (declared_of transcript.now.decls.list) h transcript.now.engine → result ≡ length transcript.now.decls.list + length h }
{
    (transcript.decls.as_slice().len() + transcript.engine.history().len()) as u64
}
