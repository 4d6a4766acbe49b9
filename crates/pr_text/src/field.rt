// Fields that lines have in common.
ghost use Rattle.pr_text.specs.Lines.{span_fields, stamp_fields};
ghost use Rattle.pr_text.specs.Texts.{more, stamp_text, vector_text};
ghost use Rattle.pr_sets.specs.Text.{set_text};
ghost use Rattle.std.specs.Prelude.{◌≡◌, ◌++◌, ◌∷◌, [], OnOk};

use crate::stamp::{push_prev, push_stamp};
use crate::stock::Stock;
use pr_inval::WriteRec;
use pr_names::Name;
use pr_script::{Bytes, Decls};
use pr_sets::NameSet;
use pr_stamps::{NoMemory, Stamp};
use pr_vectors::PackedVector;

/// Adds a space and the word.
pub fn push_word(word: &[u8], text: &mut Bytes) -> Result<(), NoMemory>
    ensures { OnOk result (text.new ≡ text.old ++ 32 ∷ word.now) }
{
    text.push(b' ')?;
    text.extend(word)
}

/// Adds a space and the name.
pub fn push_name(name: &Name, text: &mut Bytes) -> Result<(), NoMemory>
    ensures { OnOk result (text.new ≡ text.old ++ 32 ∷ name.now) }
{
    push_word(name.bytes(), text)
}

/// Adds a space and the set.
pub fn push_set(set: &NameSet, text: &mut Bytes) -> Result<(), NoMemory>
    ensures { OnOk result (text.new ≡ text.old ++ 32 ∷ set_text set.now) }
{
    text.push(b' ')?;
    set.print(text)
}

/// Adds a space and the stamp.
pub fn push_stamp_field(decls: &Decls, stamp: &Stamp, text: &mut Bytes) -> Result<(), NoMemory>
    ensures { OnOk result (text.new ≡ text.old ++ 32 ∷ stamp_text decls.now.list stamp.now) }
{
    text.push(b' ')?;
    push_stamp(decls, stamp, text)
}

/// Adds the word, which has its blanks, and the vector.
pub fn push_at(
    word: &[u8],
    stock: &Stock,
    vector: &PackedVector,
    text: &mut Bytes,
) -> Result<(), NoMemory>
    ensures { OnOk result (text.new ≡ text.old ++ (word.now ++ vector_text stock.now.list vector.now)) }
{
    text.extend(word)?;
    stock.push(vector, text)
}

/// Adds the write's stamp, and the newest one of its name before it.
pub fn push_over(decls: &Decls, write: &WriteRec, text: &mut Bytes) -> Result<(), NoMemory>
    ensures { OnOk result (text.new ≡ text.old ++ more 32 (stamp_fields decls.now.list write.now)) }
{
    push_stamp_field(decls, &write.stamp, text)?;
    text.extend(b" over ")?;
    push_prev(decls, &write.prev, text)
}

/// Adds the vectors where a message starts and ends.
pub fn push_span(
    stock: &Stock,
    from: &PackedVector,
    to: &PackedVector,
    text: &mut Bytes,
) -> Result<(), NoMemory>
    ensures { OnOk result (text.new ≡ text.old ++ more 32 (span_fields stock.now.list from.now to.now)) }
{
    push_at(b" from ", stock, from, text)?;
    push_at(b" to ", stock, to, text)
}
