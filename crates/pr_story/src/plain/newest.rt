// The newest known stamp of a name.
ghost use Rattle.pr_inval.specs.declared.row.Row.{Row};
ghost use Rattle.pr_story.specs.Search.{IsNewestIn, IsNewestOf, IsNewestRow, IsOnly, later_of};
ghost use Rattle.std.specs.Prelude.{◌≡◌, ◌∷◌, ◌++◌, [], List, reverse};

use crate::plain::is_same;
use crate::{Entry, Event};
use pr_inval::{Kind, Row, WriteRec};
use pr_names::Name;
use pr_stamps::Newest;

// What the write names for the name.
fn in_write(write: &WriteRec, name: &Name) -> Option<Newest>
    ensures { IsOnly write.now name.now result }
{
    if write.name != *name {
        return None;
    }
    Some(Newest {
        stamp: write.stamp,
        gone: write.gone,
    })
}

// The later of two; of equal stamps the first.
fn later(a: &Option<Newest>, b: &Option<Newest>) -> Option<Newest>
    ensures { result ≡ later_of a.now b.now }
{
    match (a, b) {
        (None, _) => *b,
        (_, None) => *a,
        (Some(x), Some(y)) => { if x.stamp.is_before(&y.stamp) { *b } else { *a } }
    }
}

// The newest of the rows, where this one follows.
fn with_row(row: &Row, name: &Name, newest: &Option<Newest>) -> Option<Newest>
    ensures { (rows : List Row) → IsNewestRow rows name.now newest.now → IsNewestRow (rows ++ row.now ∷ []) name.now result }
{
    if is_same(&row.name, name) {
        let here = Newest {
            stamp: row.newest,
            gone: row.gone,
        };
        return later(newest, &Some(here));
    }
    *newest
}

// The newest of the rows for the name.
fn in_rows(rows: &[Row], name: &Name) -> Option<Newest>
    ensures { IsNewestRow rows.now name.now result }
{
    let mut newest = None;
    for row in rows {
        newest = with_row(row, name, &newest);
    }
    newest
}

// The newest that the event names for the name.
fn in_event(event: &Event, name: &Name) -> Option<Newest>
    ensures { IsNewestIn event.now name.now result }
{
    match event {
        Event::Wrote { write, .. } => in_write(write, name),
        Event::Accepted { msg, .. } => match &msg.kind {
            Kind::Precise { write, .. } => in_write(write, name),
            Kind::Checkpoint { rows, .. } => in_rows(rows.as_slice(), name),
            _ => None,
        },
        _ => None,
    }
}

/// The greatest stamp that the node knows for the name, by a write or by a row of a checkpoint, and whether that write is
/// a delete, as the node was first told. One pass.
pub fn newest_known(entries: &[Entry], name: &Name) -> Option<Newest>
    ensures { IsNewestOf (reverse entries.now) name.now result }
{
    let mut newest = None;
    for entry in entries {
        let here = in_event(&entry.event, name);
        newest = later(&newest, &here);
    }
    newest
}
