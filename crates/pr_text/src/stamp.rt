// Stamps and numbers.
#![tactic(auto, using(pr_script::proofs::Beginnings::grown))]

ghost use Rattle.pr_script.specs.Printing.{Begins};
ghost use Rattle.pr_text.specs.Texts.{prev_text, stamp_text};
ghost use Rattle.std.specs.Prelude.{◌≡◌, ◌++◌, ◌∷◌, OnErr, OnOk, decimal};

use itoa::Buffer;
use pr_script::{Bytes, Decls, Kind};
use pr_stamps::{NoMemory, Stamp};

/// Adds a space and the digits of the number.
pub fn push_number(number: u64, text: &mut Bytes) -> Result<(), NoMemory>
    ensures ok { OnOk result (text.new ≡ text.old ++ 32 ∷ decimal number) }
    ensures err { OnErr result (Begins text.old text.new) }
{
    text.push(b' ')?;
    push_digits(number, text)
}

pub fn push_digits(number: u64, text: &mut Bytes) -> Result<(), NoMemory>
    ensures ok { OnOk result (text.new ≡ text.old ++ decimal number) }
    ensures err { OnErr result (Begins text.old text.new) }
{
    let mut buffer = Buffer::new();
    text.extend(buffer.format(number).as_bytes())
}

/// Adds CLOCK@LABEL, in time linear in its bytes.
pub fn push_stamp(decls: &Decls, stamp: &Stamp, text: &mut Bytes) -> Result<(), NoMemory>
    ensures { OnOk result (text.new ≡ text.old ++ stamp_text decls.now.list stamp.now) }
{
    push_digits(stamp.clock(), text)?;
    text.push(b'@')?;
    text.extend(decls.label(Kind::Node, stamp.node()))
}

/// Adds the stamp, or a hyphen for none.
pub fn push_prev(decls: &Decls, prev: &Option<Stamp>, text: &mut Bytes) -> Result<(), NoMemory>
    ensures { OnOk result (text.new ≡ text.old ++ prev_text decls.now.list prev.now) }
{
    match prev {
        Some(stamp) => push_stamp(decls, stamp, text),
        None => text.push(b'-'),
    }
}
