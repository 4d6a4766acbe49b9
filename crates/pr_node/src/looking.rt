// How a scan looks at the entries that were made since it last did.
ghost use Rattle.pr_inval.specs.Standing.{means};
ghost use Rattle.pr_node.specs.Scanning.{HasAwaited, IsScanOf, changed_in, changed_in_kind};
ghost use Rattle.pr_story.specs.Sending.{row_names};
ghost use Rattle.std.specs.Prelude.{◌≡◌, [], OnErr, OnOk, length, reverse};

use crate::Scan;
use pr_inval::{Kind, Row, Session};
use pr_sets::NameSet;
use pr_stamps::NoMemory;
use pr_story::{Entry, Event, Journal};

// The scan looks at the entries that it has not looked at.
pub fn catch_up(scan: &mut Scan, journal: &Journal, session: &Session) -> Result<(), NoMemory>
    requires scan { IsScanOf scan.old (means session.now).standing (reverse journal.now.items) }
    ensures scan { IsScanOf scan.new (means session.now).standing (reverse journal.now.items) }
    ensures looked { OnOk result (scan.new.looked ≡ length journal.now.items) }
{
    if scan.last().is_none() {
        scan.has_looked(journal.len());
        return Ok(());
    }
    while scan.looked() < journal.len() {
        let looked = scan.looked();
        look_at(scan, journal.entry(looked), session.sub())?;
        scan.has_looked(looked + 1);
    }
    Ok(())
}

// The names of which the entry may bring a body to send wait.
fn look_at(scan: &mut Scan, entry: &Entry, names: &NameSet) -> Result<(), NoMemory>
    ensures ok { OnOk result (HasAwaited names.now (changed_in entry.now.event) scan.old scan.new) }
    ensures err { OnErr result (HasAwaited names.now [] scan.old scan.new) }
{
    match &entry.event {
        Event::Wrote { write, .. } => scan.await_name(&write.name, names),
        Event::Accepted { msg, .. } => look_at_kind(scan, &msg.kind, names),
        _ => Ok(()),
    }
}

fn look_at_kind(scan: &mut Scan, kind: &Kind, names: &NameSet) -> Result<(), NoMemory>
    ensures ok { OnOk result (HasAwaited names.now (changed_in_kind kind.now) scan.old scan.new) }
    ensures err { OnErr result (HasAwaited names.now [] scan.old scan.new) }
{
    match kind {
        Kind::Precise { write, .. } => scan.await_name(&write.name, names),
        Kind::Checkpoint { rows, .. } => look_at_rows(scan, rows.as_slice(), names),
        Kind::Body { name, .. } => scan.await_name(name, names),
        Kind::Imprecise { .. } => Ok(()),
    }
}

fn look_at_rows(scan: &mut Scan, rows: &[Row], names: &NameSet) -> Result<(), NoMemory>
    ensures ok { OnOk result (HasAwaited names.now (row_names rows.now) scan.old scan.new) }
    ensures err { OnErr result (HasAwaited names.now [] scan.old scan.new) }
{
    for row in rows {
        scan.await_name(&row.name, names)?;
    }
    Ok(())
}
