// A transcript is judged.
ghost use Rattle.pr_check.specs.Standing.{IsUsable};
ghost use Rattle.pr_check.specs.Texts.{HasRead, judgement_line};
ghost use Rattle.pr_ports.specs.Faults.{HasRisen};
ghost use Rattle.pr_top.specs.Answers.{AnswersCheck, ports_of};
ghost use Rattle.pr_top.specs.Checked.{IsFoundAtEnd, IsJudgedSo, IsSaid};
ghost use Rattle.std.specs.Prelude.{◌≡◌, ◌≤◌, List, ℕ};

use crate::Status;
use crate::telling::tell;
use crate::writing::write_all;
use pr_check::{Judgement, TextJudge};
use pr_ports::{Sink, Source};
use pr_stamps::Seq;
use std::alloc::Global;
use std::mem;

/// The most bytes of a text.
pub const MOST_BYTES: usize = 67108864;

// How many bytes a read asks for.
const PIECE: usize = 4096;

/// Why no text was read to its end.
#[derive(Clone, Copy)]
pub enum CheckError {
    Failed,
    TooLarge,
    NoMemory,
}

/// Reads a text to its end, and writes whether it is a transcript.
pub fn check<S: Source, K: Sink>(alloc: Global, text: &mut S, out: &mut K) -> Status
    ensures { AnswersCheck (ports_of S.left S.faults K.text K.faults text.old out.old) (ports_of S.left S.faults K.text K.faults text.new out.new) result }
{
    match judge(alloc, text) {
        Ok(judgement) => say(alloc, judgement, out),
        Err(CheckError::Failed) => tell(out, Status::ReadFault, b"error read\n"),
        Err(CheckError::TooLarge) => tell(out, Status::TooLarge, b"error too large\n"),
        Err(CheckError::NoMemory) => tell(out, Status::NoMemory, b"error no memory\n"),
    }
}

// Judges a text as it comes. At most a piece more than the limit is read.
fn judge<S: Source>(alloc: Global, text: &mut S) -> Result<Judgement, CheckError>
    ensures { IsJudgedSo (S.left text.old) (S.left text.new) (S.faults text.old) (S.faults text.new) result }
{
    let mut judge = TextJudge::new(alloc);
    let mut room = MOST_BYTES;
    let mut buf = [0u8; PIECE];
    loop {
        let len = match text.read(&mut buf) {
            Ok(len) => len,
            Err(_) => return Err(CheckError::Failed),
        };
        if len == 0 {
            return finish(judge);
        }
        if len > room {
            return Err(CheckError::TooLarge);
        }
        if judge.push(&buf[..len]).is_err() {
            return Err(CheckError::NoMemory);
        }
        room -= len;
    }
}

// What was found at the end. The nodes of a transcript go back with the program, in one piece.
fn finish(judge: TextJudge) -> Result<Judgement, CheckError>
    ensures { (bytes : List ℕ) → HasRead judge bytes → IsFoundAtEnd bytes result }
{
    match judge.finish() {
        Ok(reading) => {
            let judgement = reading.judgement();
            mem::forget(reading);
            Ok(judgement)
        }
        Err(_) => Err(CheckError::NoMemory),
    }
}

/// Writes the judgement's line.
pub fn say<K: Sink>(alloc: Global, judgement: Judgement, out: &mut K) -> Status
    ensures { IsSaid judgement (HasRisen (K.faults out.old) (K.faults out.new)) (K.text out.old) (K.text out.new) result }
{
    let mut line = Seq::new(alloc);
    match judgement.write(&mut line) {
        Ok(()) => write_line(judgement, line.as_slice(), out),
        Err(_) => tell(out, Status::NoMemory, b"error no memory\n"),
    }
}

fn write_line<K: Sink>(judgement: Judgement, line: &[u8], out: &mut K) -> Status
    requires { line.now ≡ judgement_line judgement }
    ensures { IsSaid judgement (HasRisen (K.faults out.old) (K.faults out.new)) (K.text out.old) (K.text out.new) result }
{
    if write_all(out, line).is_err() {
        return Status::WriteFault;
    }
    match judgement {
        Judgement::Yes { .. } => Status::Ok,
        Judgement::No { line, why } => Status::No { line, why },
    }
}
