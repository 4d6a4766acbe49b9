// A judge of transcripts.
ghost use Rattle.pr_check.specs.Heads.{begins_head};
ghost use Rattle.pr_check.specs.Judging.{IsAsHead};
ghost use Rattle.pr_check.specs.Lines.{IsEventLine};
ghost use Rattle.pr_check.specs.Standing.{HasDecls, HasReplayed, IsFinished, IsRefused, IsSpent, IsUsable, IsVerdict, Judges};
ghost use Rattle.pr_script.specs.Printing.{decl_lines};
ghost use Rattle.std.specs.Prelude.{[], IsErr, IsTrue, List, ℕ};

use crate::head::{begins_head, no_decls, read_head};
use crate::line::read_line;
use crate::replay::{is_last_line, replay};
use crate::stage::Stage;
use crate::transcript::Transcript;
use crate::verdict::Verdict;
use pr_script::Decls;
use pr_sim::Engine;
use pr_stamps::NoMemory;
use std::alloc::Global;
use std::mem;

/// A judge of the lines of a transcript, one after the other. It keeps the declarations and the nodes, which make the
/// event of each line again. After a bad line, and where memory ran out, it is spent.
#[derive(Drop)]
pub struct Judge {
    pub(crate) alloc: Global,
    pub(crate) decls: Decls,
    pub(crate) stage: Stage,
}

impl Judge {
    /// A judge that has read no line. It takes no memory.
    pub fn new(alloc: Global) -> Judge
        ensures { Judges result [] }
    {
        Judge {
            alloc,
            decls: no_decls(alloc),
            stage: Stage::Heads,
        }
    }

    /// The verdict on the next line, without its end. A head line takes time linear in the head lines before it, and for
    /// each label of a node in them in the declarations; any other what the event takes that it tells, and the line's
    /// length. A spent judge answers NoMemory.
    pub fn line(&mut self, line: &[u8]) -> Result<Verdict, NoMemory>
        requires usable { IsUsable self.old }
        ensures verdict { (lines : List (List ℕ)) → Judges self.old lines → IsVerdict lines line.now self.new result }
        ensures spent { IsSpent self.old → IsRefused result }
        ensures usable { IsUsable self.new }
    {
        match mem::replace(&mut self.stage, Stage::Spent) {
            Stage::Heads if begins_head(line) => self.head(line),
            Stage::Heads => {
                let engine = Engine::new(self.alloc, &self.decls)?;
                self.behind_heads(engine, line)
            }
            Stage::Events(engine) => self.behind_heads(engine, line),
            Stage::Ended(_) => Ok(Verdict::Bad { why: 4 }),
            Stage::Spent => Err(NoMemory),
        }
    }

    /// The transcript that the lines are, or None where they are none: a last line is missing. A spent judge answers
    /// NoMemory.
    pub fn finish(self) -> Result<Option<Transcript>, NoMemory>
        ensures finished { (lines : List (List ℕ)) → Judges self lines → IsFinished lines result }
        ensures spent { IsSpent self → IsErr result }
    {
        let Judge {
            alloc: _,
            decls,
            stage,
        } = self;
        match stage {
            Stage::Ended(engine) => Ok(Some(Transcript { decls, engine })),
            Stage::Spent => Err(NoMemory),
            Stage::Heads => Ok(None),
            Stage::Events(_) => Ok(None),
        }
    }

    // The verdict on a line that begins as a head line, behind head lines alone.
    fn head(&mut self, line: &[u8]) -> Result<Verdict, NoMemory>
        requires decls { HasDecls self.old.decls.list }
        requires spent { IsSpent self.old }
        requires head { IsTrue (begins_head line.now) }
        ensures { IsVerdict (decl_lines [] self.old.decls.list) line.now self.new result }
    {
        match read_head(self.alloc, &self.decls, line)? {
            Some(more) => {
                self.decls = more;
                self.stage = Stage::Heads;
                Ok(Verdict::Good)
            }
            None => Ok(Verdict::Bad { why: 1 }),
        }
    }

    // The verdict on a line where no head line may stand, or that does not begin as one.
    fn behind_heads(&mut self, engine: Engine, line: &[u8]) -> Result<Verdict, NoMemory>
        requires decls { HasDecls self.old.decls.list }
        requires spent { IsSpent self.old }
        requires replayed { (lines : List (List ℕ)) × HasReplayed self.old.decls.list engine lines }
        ensures { (lines : List (List ℕ)) → HasReplayed self.old.decls.list engine lines → ¬ IsAsHead lines line.now → IsVerdict lines line.now self.new result }
    {
        let mut engine = engine;
        let Some(said) = read_line(self.alloc, &self.decls, line)? else {
            return self.last(engine, line);
        };
        if !replay(self.alloc, &mut engine, &self.decls, said, line)? {
            return Ok(Verdict::Bad { why: 3 });
        }
        self.stage = Stage::Events(engine);
        Ok(Verdict::Good)
    }

    // The verdict on a line that is no event's.
    fn last(&mut self, engine: Engine, line: &[u8]) -> Result<Verdict, NoMemory>
        requires decls { HasDecls self.old.decls.list }
        requires spent { IsSpent self.old }
        requires replayed { (lines : List (List ℕ)) × HasReplayed self.old.decls.list engine lines }
        requires none { ¬ IsEventLine self.old.decls.list line.now }
        ensures { (lines : List (List ℕ)) → HasReplayed self.old.decls.list engine lines → ¬ IsAsHead lines line.now → IsVerdict lines line.now self.new result }
    {
        if !line.starts_with(b"ok") {
            return Ok(Verdict::Bad { why: 2 });
        }
        if !is_last_line(self.alloc, &engine, &self.decls, line)? {
            return Ok(Verdict::Bad { why: 4 });
        }
        self.stage = Stage::Ended(engine);
        Ok(Verdict::Good)
    }
}
