// The names of which a node knows a stamp.
ghost use Rattle.pr_story.specs.Sending.{IsNamedList, lesser_name, names_in, row_names};
ghost use Rattle.std.specs.Prelude.{◌≡◌, ◌++◌, cond, IfOk, OnOk, reverse};

use crate::{Entry, Event};
use pr_inval::{Kind, Row};
use pr_names::Name;
use pr_stamps::{NoMemory, Seq};
use std::alloc::Global;

// Adds the names of the rows.
fn add_rows(names: &mut Seq<Name>, rows: &[Row]) -> Result<(), NoMemory>
    ensures { OnOk result (names.new ≡ names.old ++ row_names rows.now) }
{
    for row in rows {
        names.push(row.name)?;
    }
    Ok(())
}

// Adds the names that the event names stamps of.
fn add_event(names: &mut Seq<Name>, event: &Event) -> Result<(), NoMemory>
    ensures { OnOk result (names.new ≡ names.old ++ names_in event.now) }
{
    match event {
        Event::Wrote { write, .. } => names.push(write.name),
        Event::Accepted { msg, .. } => match &msg.kind {
            Kind::Precise { write, .. } => names.push(write.name),
            Kind::Checkpoint { rows, .. } => add_rows(names, rows.as_slice()),
            _ => Ok(()),
        },
        _ => Ok(()),
    }
}

/// The names of which the node knows a stamp, in the order of the entries, each as often as it was named. One pass.
pub fn names_known(alloc: Global, entries: &[Entry]) -> Result<Seq<Name>, NoMemory>
    ensures { IfOk result (IsNamedList (reverse entries.now)) }
{
    let mut names = Seq::new(alloc);
    for entry in entries {
        add_event(&mut names, &entry.event)?;
    }
    Ok(names)
}

// The lesser of two names.
fn lesser(best: &Option<Name>, name: &Name) -> Option<Name>
    ensures { result ≡ lesser_name best.now name.now }
{
    match best {
        Some(least) if !name.is_below(least) => Some(*least),
        _ => Some(*name),
    }
}

/// The lesser of two names, if the second one counts.
pub fn with_name(best: &Option<Name>, name: &Name, counts: bool) -> Option<Name>
    ensures { result ≡ cond counts (lesser_name best.now name.now) best.now }
{
    if counts { lesser(best, name) } else { *best }
}
