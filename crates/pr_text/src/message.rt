// The fields of a message.
ghost use Rattle.pr_text.specs.Lines.{kind_fields};
ghost use Rattle.pr_text.specs.Texts.{more};
ghost use Rattle.pr_inval.specs.Points.{from_of};
ghost use Rattle.pr_inval.specs.declared.kind.Kind.TheVariants as messages;
ghost use Rattle.std.specs.Prelude.{◌≡◌, ◌++◌, OnOk, codes, cond};

use crate::field::{push_at, push_over, push_set, push_span, push_stamp_field, push_word};
use crate::rows::push_rows;
use crate::stock::Stock;
use pr_inval::{Kind, Row, WriteRec};
use pr_script::{Bytes, print_text};
use pr_sets::NameSet;
use pr_stamps::NoMemory;
use pr_vectors::{PackedVector, Vector};

/// Adds what the message tells.
pub fn push_kind(stock: &Stock, kind: &Kind, text: &mut Bytes) -> Result<(), NoMemory>
    ensures { OnOk result (text.new ≡ text.old ++ more 32 (kind_fields stock.now.list kind.now)) }
{
    match kind {
        Kind::Precise { from, to, write } => push_precise(stock, from, to, write, text),
        Kind::Imprecise { from, to, target } => push_imprecise(stock, from, to, target, text),
        Kind::Checkpoint {
            to,
            target,
            floor,
            rows,
        } => push_checkpoint(stock, to, target, floor, rows.as_slice(), text),
        Kind::Body { name, stamp, bytes } => {
            text.extend(b" body ")?;
            text.extend(name.bytes())?;
            push_stamp_field(stock.decls(), stamp, text)?;
            print_text(text, bytes.as_slice())
        }
    }
}

fn push_precise(
    stock: &Stock,
    from: &PackedVector,
    to: &PackedVector,
    write: &WriteRec,
    text: &mut Bytes,
) -> Result<(), NoMemory>
    ensures { OnOk result (text.new ≡ text.old ++ more 32 (kind_fields stock.now.list (messages.Precise from.now to.now write.now))) }
{
    text.extend(kind_word(write.gone))?;
    text.extend(write.name.bytes())?;
    push_over(stock.decls(), write, text)?;
    push_span(stock, from, to, text)
}

fn kind_word(gone: bool) -> &'static [u8]
    ensures { result.now ≡ cond gone (codes " gone ") (codes " precise ") }
{
    if gone { b" gone " } else { b" precise " }
}

fn push_imprecise(
    stock: &Stock,
    from: &PackedVector,
    to: &PackedVector,
    target: &NameSet,
    text: &mut Bytes,
) -> Result<(), NoMemory>
    ensures { OnOk result (text.new ≡ text.old ++ more 32 (kind_fields stock.now.list (messages.Imprecise from.now to.now target.now))) }
{
    push_word(b"imprecise", text)?;
    push_set(target, text)?;
    push_span(stock, from, to, text)
}

fn push_checkpoint(
    stock: &Stock,
    to: &PackedVector,
    target: &NameSet,
    floor: &PackedVector,
    rows: &[Row],
    text: &mut Bytes,
) -> Result<(), NoMemory>
    ensures { OnOk result (text.new ≡ text.old ++ more 32 (kind_fields stock.now.list (messages.Checkpoint to.now target.now floor.now rows.now))) }
{
    push_word(b"checkpoint", text)?;
    push_set(target, text)?;
    push_at(b" to ", stock, to, text)?;
    push_at(b" floor ", stock, floor, text)?;
    text.extend(b" rows ")?;
    push_rows(stock.decls(), rows, text)
}

/// Where the message starts.
pub fn start_of(kind: &Kind) -> Vector
    ensures { result ≡ from_of kind.now }
{
    match kind {
        Kind::Precise { from, .. } | Kind::Imprecise { from, .. } => from.get(),
        Kind::Checkpoint { .. } | Kind::Body { .. } => Vector::zero(),
    }
}
