// The parts of a message are in range: each is such as its type allows.
ghost use Rattle.pr_inval.specs.Messages.{IsMessage};
ghost use Rattle.pr_node.specs.Grammar.{HasBytes};
ghost use Rattle.pr_stamps.specs.Point.{IsStamp};
ghost use Rattle.pr_story.specs.Ranges.{IsBytes, IsKind, IsMsg, IsRow, IsStampOrNone, IsWrite};
ghost use Rattle.std.specs.Prelude.{◌<◌, All};

use pr_inval::{Kind, Msg, Row, WriteRec};
use pr_names::Name;
use pr_sets::NameSet;
use pr_stamps::{Mark, Stamp};
use pr_vectors::Vector;

// A message of the grammar is in range, which takes no walk over it.
pub fn msg_in_range(msg: &Msg)
    requires { IsMessage msg.now }
    ensures { IsMsg msg.now }
{
    int_in_range(msg.stream);
    body_in_range(&msg.kind);
}

fn body_in_range(kind: &Kind)
    ensures { HasBytes kind.now }
{
    if let Kind::Body { bytes, .. } = kind {
        bytes_in_range(bytes.as_slice());
    }
}

fn int_in_range(n: u32)
    ensures { n < 4294967296 }
{
    let _ = n;
}

pub fn kind_in_range(kind: &Kind)
    ensures { IsKind kind.now }
{
    match kind {
        Kind::Precise { from, to, write } => {
            let _ = from.at(0);
            let _ = to.at(0);
            write_in_range(write);
        }
        Kind::Imprecise { from, to, target } => {
            let _ = from.at(0);
            let _ = to.at(0);
            let _ = target.parts();
        }
        Kind::Checkpoint {
            to,
            target,
            floor,
            rows,
        } => {
            let _ = to.at(0);
            let _ = target.parts();
            let _ = floor.at(0);
            rows_in_range(rows.as_slice());
        }
        Kind::Body { name, stamp, bytes } => {
            let _ = name.bytes();
            let _ = stamp.clock();
            bytes_in_range(bytes.as_slice());
        }
    }
}

pub fn write_in_range(write: &WriteRec)
    ensures { IsWrite write.now }
{
    let _ = write.name.bytes();
    let _ = write.stamp.clock();
    stamp_in_range(&write.prev);
}

fn stamp_in_range(stamp: &Option<Stamp>)
    ensures { IsStampOrNone stamp.now }
{
    if let Some(stamp) = stamp {
        let _ = stamp.clock();
    }
}

fn rows_in_range(rows: &[Row])
    ensures { All IsRow rows.now }
{
    for row in rows {
        row_in_range(row);
    }
}

fn row_in_range(row: &Row)
    ensures { IsRow row.now }
{
    let _ = row.name.bytes();
    let _ = row.newest.clock();
    marks_in_range(row.marks.as_slice());
}

fn marks_in_range(marks: &[Mark])
    ensures { All (λ mark. IsStamp mark.stamp × IsStampOrNone mark.prev) marks.now }
{
    for mark in marks {
        let _ = mark.stamp.clock();
        stamp_in_range(&mark.prev);
    }
}

pub fn bytes_in_range(bytes: &[u8])
    ensures { IsBytes bytes.now }
{}
