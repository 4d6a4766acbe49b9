// The counts of a message in memory.
ghost use Rattle.pr_wire.specs.Messages.{HasFewMarks, IsCounted, IsInWidth};
ghost use Rattle.std.specs.List.{AllByRecursion};

use pr_inval::{Kind, Msg, Row};

/// Each number of a message in memory is below the end of its field.
pub fn known_width(msg: &Msg)
    ensures { IsInWidth msg.now }
{
    let _stream = msg.stream;
    known_kind(&msg.kind);
}

fn known_kind(kind: &Kind)
    ensures { IsCounted kind.now }
{
    match kind {
        Kind::Precise { .. } => {}
        Kind::Imprecise { target, .. } => {
            let _ = target.count();
        }
        Kind::Checkpoint { target, rows, .. } => {
            let _ = target.count();
            let _ = rows.len();
            known_rows(rows.as_slice());
        }
        Kind::Body { .. } => {}
    }
}

fn known_rows(rows: &[Row])
    ensures { AllByRecursion HasFewMarks rows.now }
{
    for row in rows {
        let _ = row.marks.len();
    }
}
