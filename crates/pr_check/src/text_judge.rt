// A judge of a text.
ghost use Rattle.pr_check.specs.Standing.{IsUsable, Judges};
ghost use Rattle.pr_check.specs.Texts.{HasRead, IsRead, IsReadAt};
ghost use Rattle.pr_check.specs.declared.finding.Finding.TheVariants as findings;
ghost use Rattle.pr_script.specs.Reading.{IsCut};
ghost use Rattle.std.specs.Prelude.{◌≡◌, ◌+◌, ◌++◌, ◌∷◌, [], IfOk, IsErr, IsTrue, ◌↔◌, List, OnErr, OnOk, length, ℕ};

use crate::finding::Finding;
use crate::judge::Judge;
use crate::reading::Reading;
use crate::verdict::Verdict;
use pr_stamps::{Bytes, NoMemory, Seq};
use std::alloc::Global;

/// A judge of a text that comes in pieces of any size. It keeps the judge of its lines, the line under way and the number
/// of lines, and nothing of the lines before. Behind the first bad line it only goes past the bytes.
#[derive(Drop)]
pub struct TextJudge {
    pub(crate) judge: Judge,
    pub(crate) under: Bytes,
    pub(crate) lines: u64,
    pub(crate) finding: Finding,
}

impl TextJudge {
    /// A judge that was given nothing yet, which takes no memory.
    pub fn new(alloc: Global) -> TextJudge
        ensures read { HasRead result [] }
        ensures usable { IsUsable result.judge }
    {
        TextJudge {
            judge: Judge::new(alloc),
            under: Seq::new(alloc),
            lines: 0,
            finding: Finding::Good,
        }
    }

    /// Judges a piece more, in time linear in its bytes and in what its lines take. After a refusal the judge is spent, and
    /// each later call answers NoMemory.
    pub fn push(&mut self, piece: &[u8]) -> Result<(), NoMemory>
        requires usable { IsUsable self.old.judge }
        ensures ok { OnOk result ((text : List ℕ) → HasRead self.old text → HasRead self.new (text ++ piece.now)) }
        ensures err { OnErr result (self.new.finding ≡ findings.Spent) }
        ensures spent { self.old.finding ≡ findings.Spent → IsErr result }
        ensures usable { IsUsable self.new.judge }
    {
        if let Finding::Spent = self.finding {
            return Err(NoMemory);
        }
        match self.bytes(piece) {
            Ok(()) => Ok(()),
            Err(NoMemory) => {
                self.finding = Finding::Spent;
                Err(NoMemory)
            }
        }
    }

    /// What the whole text is. A last line without its end counts as none.
    pub fn finish(self) -> Result<Reading, NoMemory>
        ensures read { (text : List ℕ) → HasRead self text → IfOk result (IsRead text) }
        ensures spent { self.finding ≡ findings.Spent → IsErr result }
    {
        let TextJudge {
            judge,
            under,
            lines,
            finding,
        } = self;
        match finding {
            Finding::Good => read(judge, lines, under.is_empty()),
            Finding::Bad { line, why } => Ok(Reading::No { line, why }),
            Finding::Spent => Err(NoMemory),
        }
    }

    fn bytes(&mut self, piece: &[u8]) -> Result<(), NoMemory>
        requires { IsUsable self.old.judge }
        ensures ok { OnOk result ((text : List ℕ) → HasRead self.old text → HasRead self.new (text ++ piece.now)) }
        ensures usable { IsUsable self.new.judge }
    {
        for b in piece {
            self.byte(*b)?;
        }
        Ok(())
    }

    fn byte(&mut self, b: u8) -> Result<(), NoMemory>
        requires { IsUsable self.old.judge }
        ensures ok { OnOk result ((text : List ℕ) → HasRead self.old text → HasRead self.new (text ++ b ∷ [])) }
        ensures usable { IsUsable self.new.judge }
    {
        match self.finding {
            Finding::Good if b == b'\n' => self.line(),
            Finding::Good => self.under.push(b),
            Finding::Bad { .. } => Ok(()),
            Finding::Spent => Err(NoMemory),
        }
    }

    // Judges the line under way, which is whole.
    fn line(&mut self) -> Result<(), NoMemory>
        requires usable { IsUsable self.old.judge }
        requires good { self.old.finding ≡ findings.Good }
        ensures ok { OnOk result ((text : List ℕ) → HasRead self.old text → HasRead self.new (text ++ 10 ∷ [])) }
        ensures usable { IsUsable self.new.judge }
    {
        let number = one_more(self.lines)?;
        match self.judge.line(self.under.as_slice())? {
            Verdict::Good => {
                self.under.truncate(0);
                self.lines = number;
                Ok(())
            }
            Verdict::Bad { why } => {
                self.finding = Finding::Bad { line: number, why };
                Ok(())
            }
        }
    }
}

// What a text of so many lines is, none of them bad, with no line under way behind them or with one.
fn read(judge: Judge, lines: u64, whole: bool) -> Result<Reading, NoMemory>
    ensures { (all : List (List ℕ)) → Judges judge all → lines ≡ length all → IfOk result (IsReadAt all whole) }
{
    match judge.finish()? {
        Some(transcript) if whole => Ok(Reading::Transcript(transcript)),
        Some(_) => too_short(lines),
        None => too_short(lines),
    }
}

// What a text of so many lines is that lacks its last line.
fn too_short(lines: u64) -> Result<Reading, NoMemory>
    ensures { IfOk result (λ r. r ≡ Reading.No (lines + 1) 4) }
{
    let line = one_more(lines)?;
    Ok(Reading::No { line, why: 4 })
}

// The number after this one. A text of 2^64 lines is none that memory has.
fn one_more(lines: u64) -> Result<u64, NoMemory>
    ensures { IfOk result (λ n. n ≡ lines + 1) }
{
    match lines.checked_add(1) {
        Some(lines) => Ok(lines),
        None => Err(NoMemory),
    }
}
