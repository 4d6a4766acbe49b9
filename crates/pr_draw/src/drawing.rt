// The top call.
ghost use Rattle.pr_check.specs.Texts.{IsRead, IsTranscriptOf};
ghost use Rattle.pr_draw.specs.Drawn.{AnswersDraw, IsDrawn, IsPictureOf};
ghost use Rattle.pr_ports.specs.Faults.{HasRisen};
ghost use Rattle.pr_text.specs.Endings.{error_line};
ghost use Rattle.pr_top.specs.Answers.{ports_of};
ghost use Rattle.pr_top.specs.Runs.{WritesLine};
ghost use Rattle.std.specs.Prelude.{◌≡◌, ◌<◌, IfOk, codes, ℕ};

use crate::picture::picture_of;
use crate::reading::read_bytes;
use pr_check::{Judgement, Reading, TextJudge, Transcript};
use pr_ports::{Sink, Source};
use pr_stamps::NoMemory;
use pr_top::{CheckError, Status, say, tell, write_all};
use std::alloc::Global;

/// Reads a text to its end, and writes the picture of the transcript that it is; where it is none, the line of
/// `practi check`, which has the first bad line. `words` is how many words were given behind the program's name, of which
/// none are accepted. A text has at most 67,108,864 bytes. It takes time linear in the text, and what the events took;
/// the text, the nodes' journals and the picture are kept.
pub fn draw<S: Source, K: Sink>(alloc: Global, words: usize, text: &mut S, out: &mut K) -> Status
    ensures answers { AnswersDraw words (ports_of S.left S.faults K.text K.faults text.old out.old) (ports_of S.left S.faults K.text K.faults text.new out.new) result }
    ensures usage { 0 < words → result ≡ Status.Usage }
{
    if words > 0 {
        return tell(out, Status::Usage, b"error usage\n");
    }
    match read_bytes(alloc, text) {
        Ok(text) => draw_text(alloc, text.as_slice(), out),
        Err(CheckError::Failed) => tell(out, Status::ReadFault, b"error read\n"),
        Err(CheckError::TooLarge) => tell(out, Status::TooLarge, b"error too large\n"),
        Err(CheckError::NoMemory) => no_memory(out),
    }
}

fn no_memory<K: Sink>(out: &mut K) -> Status
    ensures status { result ≡ Status.NoMemory }
    ensures line { WritesLine (HasRisen (K.faults out.old) (K.faults out.new)) (error_line (codes "no memory")) (K.text out.old) (K.text out.new) }
{
    tell(out, Status::NoMemory, b"error no memory\n")
}

// Writes the picture of the text, or why there is none.
fn draw_text<K: Sink>(alloc: Global, text: &[u8], out: &mut K) -> Status
    ensures { IsDrawn text.now (HasRisen (K.faults out.old) (K.faults out.new)) (K.text out.old) (K.text out.new) result }
{
    match judge(alloc, text) {
        Ok(Reading::Transcript(transcript)) => draw_transcript(alloc, &transcript, text, out),
        Ok(Reading::No { line, why }) => say(alloc, Judgement::No { line, why }, out),
        Err(_) => no_memory(out),
    }
}

fn judge(alloc: Global, text: &[u8]) -> Result<Reading, NoMemory>
    ensures { IfOk result (IsRead text.now) }
{
    let mut judge = TextJudge::new(alloc);
    judge.push(text)?;
    judge.finish()
}

fn draw_transcript<K: Sink>(
    alloc: Global,
    transcript: &Transcript,
    text: &[u8],
    out: &mut K,
) -> Status
    requires { (lines : ℕ) × IsTranscriptOf text.now lines }
    ensures { IsDrawn text.now (HasRisen (K.faults out.old) (K.faults out.new)) (K.text out.old) (K.text out.new) result }
{
    match picture_of(alloc, transcript, text) {
        Ok(picture) => write(text, picture.as_slice(), out),
        Err(_) => no_memory(out),
    }
}

fn write<K: Sink>(text: &[u8], picture: &[u8], out: &mut K) -> Status
    requires { IsPictureOf text.now picture.now }
    ensures { IsDrawn text.now (HasRisen (K.faults out.old) (K.faults out.new)) (K.text out.old) (K.text out.new) result }
{
    match write_all(out, picture) {
        Ok(()) => Status::Ok,
        Err(_) => Status::WriteFault,
    }
}
