// Reading in any pieces.
ghost use Rattle.pr_script.specs.Answers.{Answers, Holds, IsEnd};
ghost use Rattle.pr_script.specs.Good.{IsGood};
ghost use Rattle.pr_script.specs.Labels.{AreLabels};
ghost use Rattle.pr_script.specs.Reading.{StandsFor, next};
ghost use Rattle.pr_script.specs.declared.fault.ScriptFault.TheVariants as faults;
ghost use Rattle.std.specs.List.{position};
ghost use Rattle.std.specs.Prelude.{◌≡◌, ◌++◌, ◌<◌, ◌==◌, [], IfOk, IfSome, IsErr, IsErrOf, List, OnErr, OnOk, length, true, ℕ};

use crate::progress::Progress;
use crate::{Bytes, Script, ScriptFault};
use pr_stamps::{NoMemory, Seq};
use std::alloc::Global;
use std::marker::Model;

/// Reads a script in pieces of any size. It keeps what the lines so far said and the line under way, and nothing else.
#[derive(Drop)]
pub struct Reader {
    alloc: Global,
    progress: Progress,
    under: Bytes,
    spent: bool,
}

impl Model for Reader {
    ghost use Rattle.pr_script.specs.Reading.{Kept};

    ghost Value = { Kept };

    ghost view = { λ r. record { sofar = r.progress; rest = r.under; spent = r.spent } };
}

impl Reader {
    /// A reader that was given nothing yet, which takes no memory.
    pub fn new(alloc: Global) -> Reader
        ensures { Holds result [] }
    {
        Reader {
            alloc,
            progress: Progress::new(alloc),
            under: Seq::new(alloc),
            spent: false,
        }
    }

    /// Reads a piece more, in time linear in its bytes. After a refusal the reader is spent, and each later call is
    /// refused.
    pub fn push(&mut self, piece: &[u8]) -> Result<(), NoMemory>
        ensures ok { OnOk result ((before : List ℕ) → Holds self.old before → Holds self.new (before ++ piece.now)) }
        ensures err { OnErr result (self.new.spent ≡ true) }
        ensures spent { self.old.spent ≡ true → IsErr result }
    {
        if self.spent {
            return Err(NoMemory);
        }
        match bytes(&mut self.progress, &mut self.under, self.alloc, piece) {
            Ok(()) => Ok(()),
            Err(NoMemory) => {
                self.spent = true;
                Err(NoMemory)
            }
        }
    }

    /// The script of all the bytes, or its first fault, in time linear in the line under way.
    pub fn finish(self) -> Result<Script, ScriptFault>
        ensures exact { (before : List ℕ) → Holds self before → Answers result before }
        ensures labels { (before : List ℕ) → Holds self before → IfOk result (λ s. AreLabels s.decls.list) }
        ensures good { (before : List ℕ) → Holds self before → IfOk result IsGood }
        ensures spent { self.spent ≡ true → IsErrOf result faults.NoMemory }
    {
        if self.spent {
            return Err(ScriptFault::NoMemory);
        }
        let Reader {
            alloc,
            progress,
            under,
            ..
        } = self;
        ended(alloc, progress, under.as_slice())
    }
}

/// The script of the bytes, or its first fault, in time linear in the bytes (docs/SCRIPT.md has the language).
pub fn read(alloc: Global, bytes: &[u8]) -> Result<Script, ScriptFault>
    ensures exact { Answers result bytes.now }
    ensures labels { IfOk result (λ s. AreLabels s.decls.list) }
    ensures good { IfOk result IsGood }
{
    let mut reader = Reader::new(alloc);
    match reader.push(bytes) {
        Ok(()) => reader.finish(),
        Err(NoMemory) => Err(ScriptFault::NoMemory),
    }
}

fn bytes(
    progress: &mut Progress,
    under: &mut Bytes,
    alloc: Global,
    piece: &[u8],
) -> Result<(), NoMemory>
    ensures { OnOk result ((bytes : List ℕ) → StandsFor progress.old under.old bytes → StandsFor progress.new under.new (bytes ++ piece.now)) }
{
    let mut rest = piece;
    while let Some(at) = line_end(rest) {
        whole_line(progress, under, alloc, &rest[..at])?;
        rest = &rest[at + 1..];
    }
    under.extend(rest)?;
    Ok(())
}

fn line_end(bytes: &[u8]) -> Option<usize>
    ensures place { result ≡ position (λ b. b == 10) bytes.now }
    ensures within { IfSome result (λ at. at < length bytes.now) }
{
    bytes.iter().position(|b| *b == b'\n')
}

// The line under way, which ends behind these bytes. A line that lies in one piece is not copied.
fn whole_line(
    progress: &mut Progress,
    under: &mut Bytes,
    alloc: Global,
    last: &[u8],
) -> Result<(), NoMemory>
    ensures line { OnOk result (progress.new ≡ next progress.old (under.old ++ last.now)) }
    ensures under { OnOk result (under.new ≡ []) }
{
    if under.is_empty() {
        progress.line(alloc, last)?;
        return Ok(());
    }
    under.extend(last)?;
    progress.line(alloc, under.as_slice())?;
    under.truncate(0);
    Ok(())
}

fn ended(alloc: Global, progress: Progress, under: &[u8]) -> Result<Script, ScriptFault>
    ensures { (before : List ℕ) → StandsFor progress under.now before → Answers result before }
{
    let mut progress = progress;
    match end(&mut progress, alloc, under) {
        Ok(()) => progress.answer(),
        Err(NoMemory) => Err(ScriptFault::NoMemory),
    }
}

// The last line, which may lack its end.
fn end(progress: &mut Progress, alloc: Global, under: &[u8]) -> Result<(), NoMemory>
    ensures { OnOk result ((bytes : List ℕ) → StandsFor progress.old under.now bytes → IsEnd progress.new bytes) }
{
    if under.is_empty() {
        return Ok(());
    }
    progress.line(alloc, under)?;
    Ok(())
}
