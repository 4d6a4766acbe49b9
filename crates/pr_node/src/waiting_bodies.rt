// The body that a stream's source sends where the stream has told all.
ghost use Rattle.pr_inval.specs.Standing.{means};
ghost use Rattle.pr_node.specs.Scanning.{AreWaiting, HasPassed, IsScanOf};
ghost use Rattle.pr_node.specs.Sending.{IsKindOrNone, IsNextBodyOf};
ghost use Rattle.pr_node.specs.Ties.{IsTied};
ghost use Rattle.pr_sets.specs.Spans.{has};
ghost use Rattle.pr_story.specs.Ranges.{IsBytes};
ghost use Rattle.pr_story.specs.Sending.{IsBodyOf};
ghost use Rattle.pr_story.specs.declared.entry.Entry.{Entry};
ghost use Rattle.std.specs.Prelude.{◌≡◌, [], ℕ, List, IfNone, IfOk, IfSome, IsTrue, Some, length, reverse};

use crate::looking::catch_up;
use crate::{Scan, Stores};
use pr_inval::{Bytes, Kind, Session};
use pr_names::Name;
use pr_snap::next_known_in;
use pr_stamps::{NoMemory, Seq, Stamp};
use pr_story::Journal;
use std::alloc::Global;

// The body of the least name of the subscription whose newest write is held and was not sent, if there is one. It looks
// at the names that changed since the scan last looked, and then at the known names past the last one.
pub fn next_body(
    alloc: Global,
    stores: &Stores,
    journal: &Journal,
    session: &Session,
    scan: &mut Scan,
) -> Result<Option<Kind>, NoMemory>
    requires scan { IsScanOf scan.old (means session.now).standing (reverse journal.now.items) }
    ensures next { IfOk result (λ kind. (n : ℕ) → IsTied n (reverse journal.now.items) stores.now → IsNextBodyOf (reverse journal.now.items) (means session.now).standing kind) }
    ensures scan { (n : ℕ) → IsTied n (reverse journal.now.items) stores.now → IsScanOf scan.new (means session.now).standing (reverse journal.now.items) }
    ensures range { IfOk result IsKindOrNone }
{
    catch_up(scan, journal, session)?;
    if let Some(kind) = waiting_body(alloc, stores, session, scan)? {
        return Ok(Some(kind));
    }
    body_past(alloc, stores, session, scan)
}

// The body of the least of the names that wait, if one is to be sent. Those that have none wait no more.
fn waiting_body(
    alloc: Global,
    stores: &Stores,
    session: &Session,
    scan: &mut Scan,
) -> Result<Option<Kind>, NoMemory>
    requires waiting { AreWaiting scan.old (means session.now).standing }
    ensures next { IfOk result (λ kind. IfSome kind (λ k. (n : ℕ) (j : List Entry) → IsTied n j stores.now → HasPassed scan.old (means session.now).standing j → IsNextBodyOf j (means session.now).standing (Some k))) }
    ensures none { IfOk result (λ kind. IfNone kind (scan.new.waiting ≡ [])) }
    ensures passed { (n : ℕ) (j : List Entry) → IsTied n j stores.now → HasPassed scan.old (means session.now).standing j → HasPassed scan.new (means session.now).standing j }
    ensures waiting { AreWaiting scan.new (means session.now).standing }
    ensures looked { scan.new.looked ≡ scan.old.looked }
    ensures range { IfOk result IsKindOrNone }
{
    while let Some(name) = scan.first() {
        if let Some(kind) = body_of(alloc, stores, session, &name)? {
            return Ok(Some(kind));
        }
        scan.leave_first();
    }
    Ok(None)
}

// The body of the least name past the last one, if one is to be sent. Those before it are passed.
fn body_past(
    alloc: Global,
    stores: &Stores,
    session: &Session,
    scan: &mut Scan,
) -> Result<Option<Kind>, NoMemory>
    requires none { scan.old.waiting ≡ [] }
    ensures next { IfOk result (λ kind. (n : ℕ) (j : List Entry) → IsTied n j stores.now → HasPassed scan.old (means session.now).standing j → IsNextBodyOf j (means session.now).standing kind) }
    ensures passed { (n : ℕ) (j : List Entry) → IsTied n j stores.now → HasPassed scan.old (means session.now).standing j → HasPassed scan.new (means session.now).standing j }
    ensures none { scan.new.waiting ≡ [] }
    ensures looked { scan.new.looked ≡ scan.old.looked }
    ensures range { IfOk result IsKindOrNone }
{
    let names = session.sub();
    while let Some(name) = next_known_in(&stores.marks, names, &scan.last()) {
        if let Some(kind) = body_of(alloc, stores, session, &name)? {
            return Ok(Some(kind));
        }
        scan.pass(&name);
    }
    Ok(None)
}

// The body of the newest write to a name of the subscription, if it is to be sent.
fn body_of(
    alloc: Global,
    stores: &Stores,
    session: &Session,
    name: &Name,
) -> Result<Option<Kind>, NoMemory>
    requires { IsTrue (has (means session.now).standing.names name.now) }
    ensures body { IfOk result (λ kind. (n : ℕ) (j : List Entry) → IsTied n j stores.now → IsBodyOf j (means session.now).standing name.now kind) }
    ensures range { IfOk result IsKindOrNone }
{
    let Some(newest) = stores.marks.newest(name) else {
        return Ok(None);
    };
    if newest.gone {
        return Ok(None);
    }
    if session.has_sent(name, &newest.stamp) {
        return Ok(None);
    }
    let Some(bytes) = stores.bodies.get(name, &newest.stamp) else {
        return Ok(None);
    };
    let bytes = copied(alloc, bytes)?;
    let _ = name.bytes();
    let _ = newest.stamp.clock();
    Ok(Some(Kind::Body {
        name: *name,
        stamp: newest.stamp,
        bytes,
    }))
}

fn copied(alloc: Global, bytes: &[u8]) -> Result<Bytes, NoMemory>
    ensures value { IfOk result (λ copy. copy ≡ bytes.now) }
    ensures range { IfOk result IsBytes }
{
    Seq::copied(alloc, bytes)
}
