// The rows of a checkpoint, and pairs of stamps in conflict.
ghost use Rattle.pr_text.specs.Texts.{between, joined, mark_text, pair_text, pairs_text, row_text, rows_text};
ghost use Rattle.std.specs.Prelude.{◌≡◌, ◌++◌, ◌∷◌, OnOk, map};

use crate::stamp::{push_prev, push_stamp};
use pr_inval::Row;
use pr_script::{Bytes, Decls};
use pr_stamps::{Mark, NoMemory, Stamp};

/// Adds the rows, joined by commas, or a hyphen for none.
pub fn push_rows(decls: &Decls, rows: &[Row], text: &mut Bytes) -> Result<(), NoMemory>
    ensures { OnOk result (text.new ≡ text.old ++ rows_text decls.now.list rows.now) }
{
    if rows.is_empty() {
        return text.push(b'-');
    }
    for (index, row) in rows.iter().enumerate() {
        push_between(index, b',', text)?;
        push_row(decls, row, text)?;
    }
    Ok(())
}

/// Adds the pairs, joined by commas, or a hyphen for none.
pub fn push_pairs(decls: &Decls, pairs: &[(Stamp, Stamp)], text: &mut Bytes) -> Result<(), NoMemory>
    ensures { OnOk result (text.new ≡ text.old ++ pairs_text decls.now.list pairs.now) }
{
    if pairs.is_empty() {
        return text.push(b'-');
    }
    for (index, pair) in pairs.iter().enumerate() {
        push_between(index, b',', text)?;
        push_pair(decls, pair, text)?;
    }
    Ok(())
}

fn push_row(decls: &Decls, row: &Row, text: &mut Bytes) -> Result<(), NoMemory>
    ensures { OnOk result (text.new ≡ text.old ++ row_text decls.now.list row.now) }
{
    text.extend(row.name.bytes())?;
    text.push(if row.gone { b'!' } else { b'=' })?;
    push_stamp(decls, &row.newest, text)?;
    text.push(b'(')?;
    push_marks(decls, row.marks.as_slice(), text)?;
    text.push(b')')
}

fn push_marks(decls: &Decls, marks: &[Mark], text: &mut Bytes) -> Result<(), NoMemory>
    ensures { OnOk result (text.new ≡ text.old ++ joined 59 (map (mark_text decls.now.list) marks.now)) }
{
    for (index, mark) in marks.iter().enumerate() {
        push_between(index, b';', text)?;
        push_mark(decls, mark, text)?;
    }
    Ok(())
}

fn push_mark(decls: &Decls, mark: &Mark, text: &mut Bytes) -> Result<(), NoMemory>
    ensures { OnOk result (text.new ≡ text.old ++ mark_text decls.now.list mark.now) }
{
    push_stamp(decls, &mark.stamp, text)?;
    text.push(b'<')?;
    push_prev(decls, &mark.prev, text)
}

fn push_pair(decls: &Decls, pair: &(Stamp, Stamp), text: &mut Bytes) -> Result<(), NoMemory>
    ensures { OnOk result (text.new ≡ text.old ++ pair_text decls.now.list pair.now) }
{
    push_stamp(decls, &pair.0, text)?;
    text.push(b'|')?;
    push_stamp(decls, &pair.1, text)
}

// Adds the separator, but before the first item.
fn push_between(index: usize, separator: u8, text: &mut Bytes) -> Result<(), NoMemory>
    ensures { OnOk result (text.new ≡ text.old ++ between index separator) }
{
    if index > 0 {
        text.push(separator)
    } else {
        Ok(())
    }
}
