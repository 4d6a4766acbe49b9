// What a text is judged to be.
ghost use Rattle.pr_check.specs.Texts.{judgement_line};
ghost use Rattle.std.specs.Prelude.{◌≡◌, ◌++◌, OnOk};

use pr_stamps::{Bytes, NoMemory};
use pr_text::push_number;

/// Whether a text is a transcript.
#[derive(Clone, Copy, Debug, PartialEq, Eq)]
pub enum Judgement {
    /// It is one, with so many lines before its last.
    Yes { lines: u64 },
    /// It is none: the number of its first bad line, counted from 1, and what that breaks, by the numbers of `Verdict`. A
    /// text that ends too early has it one past its last line.
    No { line: u64, why: u8 },
}

impl Judgement {
    /// Adds `yes N` or `no L why Y`, with its end. After a refusal a part of the line may stand behind what `out` had.
    pub fn write(&self, out: &mut Bytes) -> Result<(), NoMemory>
        ensures { OnOk result (out.new ≡ out.old ++ judgement_line self.now) }
    {
        match self {
            Judgement::Yes { lines } => write_yes(*lines, out),
            Judgement::No { line, why } => write_no(*line, *why, out),
        }
    }
}

fn write_yes(lines: u64, out: &mut Bytes) -> Result<(), NoMemory>
    ensures { OnOk result (out.new ≡ out.old ++ judgement_line (Judgement.Yes lines)) }
{
    out.extend(b"yes")?;
    push_number(lines, out)?;
    out.push(b'\n')
}

fn write_no(line: u64, why: u8, out: &mut Bytes) -> Result<(), NoMemory>
    ensures { OnOk result (out.new ≡ out.old ++ judgement_line (Judgement.No line why)) }
{
    out.extend(b"no")?;
    push_number(line, out)?;
    out.extend(b" why")?;
    push_number(why as u64, out)?;
    out.push(b'\n')
}
