// Labels by number.
#![tactic(auto, using(pr_script::proofs::Beginnings::grown))]

ghost use Rattle.pr_script.specs.Printing.{Begins, label_text};
ghost use Rattle.std.specs.Prelude.{◌≡◌, ◌++◌, ◌∷◌, OnErr, OnOk};

use pr_script::{Bytes, Decls, Kind};
use pr_stamps::NoMemory;

/// Adds the first word, which has a blank behind it, and the label of this number, in time linear in their bytes.
pub fn push_about(
    word: &[u8],
    decls: &Decls,
    kind: Kind,
    number: u32,
    text: &mut Bytes,
) -> Result<(), NoMemory>
    ensures ok { OnOk result (text.new ≡ text.old ++ (word.now ++ label_text kind decls.now.list number)) }
    ensures err { OnErr result (Begins text.old text.new) }
{
    text.extend(word)?;
    text.extend(decls.label(kind, number))
}

/// Adds a space and the label of this number, in time linear in its bytes.
pub fn push_label(decls: &Decls, kind: Kind, number: u32, text: &mut Bytes) -> Result<(), NoMemory>
    ensures ok { OnOk result (text.new ≡ text.old ++ 32 ∷ label_text kind decls.now.list number) }
    ensures err { OnErr result (Begins text.old text.new) }
{
    text.push(b' ')?;
    text.extend(decls.label(kind, number))
}
