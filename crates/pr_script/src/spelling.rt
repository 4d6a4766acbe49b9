// The fields of printed lines, each behind a space.
#![tactic(auto, using(crate::proofs::Beginnings::grown))]

ghost use Rattle.pr_script.specs.Printing.{Begins, hex_digit, quoted, sets_text, spell};
ghost use Rattle.pr_sets.specs.Text.{set_text};
ghost use Rattle.std.specs.Prelude.{◌≡◌, ◌<◌, ◌∷◌, ◌++◌, OnErr, OnOk, decimal};

use crate::Bytes;
use crate::text::bare;
use itoa::Buffer;
use pr_sets::NameSet;
use pr_stamps::NoMemory;

pub fn field(out: &mut Bytes, bytes: &[u8]) -> Result<(), NoMemory>
    ensures ok { OnOk result (out.new ≡ out.old ++ 32 ∷ bytes.now) }
    ensures err { OnErr result (Begins out.old out.new) }
{
    out.push(b' ')?;
    out.extend(bytes)
}

/// A word and a field.
pub fn one(out: &mut Bytes, word: &[u8], first: &[u8]) -> Result<(), NoMemory>
    ensures ok { OnOk result (out.new ≡ out.old ++ (word.now ++ (32 ∷ first.now))) }
    ensures err { OnErr result (Begins out.old out.new) }
{
    out.extend(word)?;
    field(out, first)
}

/// A word and two fields.
pub fn two(out: &mut Bytes, word: &[u8], first: &[u8], second: &[u8]) -> Result<(), NoMemory>
    ensures err { OnErr result (Begins out.old out.new) }
    ensures ok { OnOk result (out.new ≡ out.old ++ (word.now ++ (32 ∷ (first.now ++ (32 ∷ second.now))))) }
{
    one(out, word, first)?;
    field(out, second)
}

/// A word, a field and a number.
pub fn counted(out: &mut Bytes, word: &[u8], first: &[u8], number: u64) -> Result<(), NoMemory>
    ensures ok { OnOk result (out.new ≡ out.old ++ (word.now ++ (32 ∷ (first.now ++ (32 ∷ decimal number))))) }
    ensures err { OnErr result (Begins out.old out.new) }
{
    let mut digits = Buffer::new();
    two(out, word, first, digits.format(number).as_bytes())
}

/// Adds a space and the text in quotes. A byte outside 0x20 to 0x7E, a quote and a backslash are written as a backslash
/// and two digits of 0-9 a-f.
pub fn print_text(out: &mut Bytes, text: &[u8]) -> Result<(), NoMemory>
    ensures ok { OnOk result (out.new ≡ out.old ++ 32 ∷ quoted text.now) }
    ensures err { OnErr result (Begins out.old out.new) }
{
    out.extend(b" \"")?;
    for b in text {
        spell(out, *b)?;
    }
    out.push(b'"')
}

#[tactic(auto, using(crate::proofs::Beginnings::grown), unfolding(crate::specs::Printing::spell))]
fn spell(out: &mut Bytes, b: u8) -> Result<(), NoMemory>
    ensures ok { OnOk result (out.new ≡ out.old ++ spell b) }
    ensures err { OnErr result (Begins out.old out.new) }
{
    if bare(b) {
        return out.push(b);
    }
    out.extend(&[b'\\', hex_digit(b / 16), hex_digit(b % 16)])
}

/// The digit of a value below 16, of 0-9 a-f.
pub fn hex_digit(n: u8) -> u8
    requires { n < 16 }
    ensures { result ≡ hex_digit n }
{
    if n < 10 { b'0' + n } else { b'a' - 10 + n }
}

pub fn set_field(out: &mut Bytes, set: &NameSet) -> Result<(), NoMemory>
    ensures ok { OnOk result (out.new ≡ out.old ++ 32 ∷ set_text set.now) }
    ensures err { OnErr result (Begins out.old out.new) }
{
    out.push(b' ')?;
    set.print(out)
}

pub fn sets_fields(out: &mut Bytes, sets: &[NameSet]) -> Result<(), NoMemory>
    ensures ok { OnOk result (out.new ≡ out.old ++ sets_text sets.now) }
    ensures err { OnErr result (Begins out.old out.new) }
{
    for set in sets {
        set_field(out, set)?;
    }
    Ok(())
}
