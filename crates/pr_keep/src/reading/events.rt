// Events of writes and streams.
ghost use Rattle.pr_keep.specs.Reading.{accepted_at, attached_at, event_at, event_by, gapped_at, idle_at, missing_at, sent_at, stale_at, wrote_at};
ghost use Rattle.pr_wire.specs.Reading.{Gives};

use crate::reading::fields::{counted, write};
use crate::reading::late_events::late_event_by;
use crate::reading::messages::frame;
use pr_story::Event;
use pr_wire::{Cursor, Fault};
use std::alloc::Global;

/// An event by its kind and its fields.
#[tactic(auto, unfolding(crate::specs::Reading::event_at))]
pub fn event(cursor: &mut Cursor, alloc: Global) -> Result<Event, Fault>
    ensures { Gives (λ x. (x, cursor.new.rest.now)) result (event_at cursor.old.rest.now) }
{
    let kind = cursor.byte()?;
    event_by(cursor, alloc, kind)
}

// An event of this kind.
#[tactic(auto, unfolding(crate::specs::Reading::event_by))]
fn event_by(cursor: &mut Cursor, alloc: Global, kind: u8) -> Result<Event, Fault>
    ensures { Gives (λ x. (x, cursor.new.rest.now)) result (event_by kind cursor.old.rest.now) }
{
    match kind {
        1 => wrote(cursor, alloc),
        2 => attached(cursor, alloc),
        3 => sent(cursor, alloc),
        4 => idle(cursor),
        5 => stale(cursor, alloc),
        6 => accepted(cursor, alloc),
        7 => gapped(cursor, alloc),
        8 => missing(cursor),
        _ => late_event_by(cursor, alloc, kind),
    }
}

#[tactic(auto, unfolding(crate::specs::Reading::wrote_at))]
fn wrote(cursor: &mut Cursor, alloc: Global) -> Result<Event, Fault>
    ensures { Gives (λ x. (x, cursor.new.rest.now)) result (wrote_at cursor.old.rest.now) }
{
    let client = cursor.four()?;
    let write = write(cursor)?;
    let body = counted(cursor, alloc)?;
    let after = cursor.packed_vector(alloc)?;
    Ok(Event::Wrote {
        client,
        write,
        body,
        after,
    })
}

#[tactic(auto, unfolding(crate::specs::Reading::attached_at))]
fn attached(cursor: &mut Cursor, alloc: Global) -> Result<Event, Fault>
    ensures { Gives (λ x. (x, cursor.new.rest.now)) result (attached_at cursor.old.rest.now) }
{
    let stream = cursor.four()?;
    let at = cursor.packed_vector(alloc)?;
    Ok(Event::Attached { stream, at })
}

#[tactic(auto, unfolding(crate::specs::Reading::sent_at))]
fn sent(cursor: &mut Cursor, alloc: Global) -> Result<Event, Fault>
    ensures { Gives (λ x. (x, cursor.new.rest.now)) result (sent_at cursor.old.rest.now) }
{
    let msg = frame(cursor, alloc)?;
    Ok(Event::Sent { msg })
}

#[tactic(auto, unfolding(crate::specs::Reading::idle_at))]
fn idle(cursor: &mut Cursor) -> Result<Event, Fault>
    ensures { Gives (λ x. (x, cursor.new.rest.now)) result (idle_at cursor.old.rest.now) }
{
    let stream = cursor.four()?;
    Ok(Event::Idle { stream })
}

#[tactic(auto, unfolding(crate::specs::Reading::stale_at))]
fn stale(cursor: &mut Cursor, alloc: Global) -> Result<Event, Fault>
    ensures { Gives (λ x. (x, cursor.new.rest.now)) result (stale_at cursor.old.rest.now) }
{
    let stream = cursor.four()?;
    let cut = cursor.packed_vector(alloc)?;
    Ok(Event::Stale { stream, cut })
}

#[tactic(auto, unfolding(crate::specs::Reading::accepted_at))]
fn accepted(cursor: &mut Cursor, alloc: Global) -> Result<Event, Fault>
    ensures { Gives (λ x. (x, cursor.new.rest.now)) result (accepted_at cursor.old.rest.now) }
{
    let msg = frame(cursor, alloc)?;
    let at = cursor.packed_vector(alloc)?;
    Ok(Event::Accepted { msg, at })
}

#[tactic(auto, unfolding(crate::specs::Reading::gapped_at))]
fn gapped(cursor: &mut Cursor, alloc: Global) -> Result<Event, Fault>
    ensures { Gives (λ x. (x, cursor.new.rest.now)) result (gapped_at cursor.old.rest.now) }
{
    let msg = frame(cursor, alloc)?;
    let has = cursor.packed_vector(alloc)?;
    Ok(Event::Gapped { msg, has })
}

#[tactic(auto, unfolding(crate::specs::Reading::missing_at))]
fn missing(cursor: &mut Cursor) -> Result<Event, Fault>
    ensures { Gives (λ x. (x, cursor.new.rest.now)) result (missing_at cursor.old.rest.now) }
{
    let stream = cursor.four()?;
    let number = cursor.eight()?;
    Ok(Event::Missing { stream, number })
}
