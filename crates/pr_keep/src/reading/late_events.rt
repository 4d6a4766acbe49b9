// Events of flows, reads and nodes.
ghost use Rattle.pr_keep.specs.Reading.{answered_at, behind_at, conflicts_at, cut_at, down_at, dropped_at, late_event_by, moved_at, state_at};
ghost use Rattle.pr_wire.specs.Reading.{Gives};

use crate::reading::parts::{cause, found, reply, vectors};
use pr_story::Event;
use pr_wire::{Cursor, Fault};
use std::alloc::Global;

/// An event of this kind, from 9 on.
#[tactic(auto, unfolding(crate::specs::Reading::late_event_by))]
pub fn late_event_by(cursor: &mut Cursor, alloc: Global, kind: u8) -> Result<Event, Fault>
    ensures { Gives (λ x. (x, cursor.new.rest.now)) result (late_event_by kind cursor.old.rest.now) }
{
    match kind {
        9 => down(cursor),
        10 => answered(cursor, alloc),
        11 => cut(cursor, alloc),
        12 => dropped(cursor),
        13 => conflicts(cursor, alloc),
        14 => state(cursor, alloc),
        15 => moved(cursor),
        16 => behind(cursor, alloc),
        _ => Err(Fault::Bad),
    }
}

#[tactic(auto, unfolding(crate::specs::Reading::down_at))]
fn down(cursor: &mut Cursor) -> Result<Event, Fault>
    ensures { Gives (λ x. (x, cursor.new.rest.now)) result (down_at cursor.old.rest.now) }
{
    let stream = cursor.four()?;
    let cause = cause(cursor)?;
    Ok(Event::Down { stream, cause })
}

#[tactic(auto, unfolding(crate::specs::Reading::answered_at))]
fn answered(cursor: &mut Cursor, alloc: Global) -> Result<Event, Fault>
    ensures { Gives (λ x. (x, cursor.new.rest.now)) result (answered_at cursor.old.rest.now) }
{
    let client = cursor.four()?;
    let name = cursor.name()?;
    let reply = reply(cursor, alloc)?;
    let at = cursor.packed_vector(alloc)?;
    Ok(Event::Answered {
        client,
        name,
        reply,
        at,
    })
}

#[tactic(auto, unfolding(crate::specs::Reading::cut_at))]
fn cut(cursor: &mut Cursor, alloc: Global) -> Result<Event, Fault>
    ensures { Gives (λ x. (x, cursor.new.rest.now)) result (cut_at cursor.old.rest.now) }
{
    let at = cursor.packed_vector(alloc)?;
    Ok(Event::Cut { at })
}

#[tactic(auto, unfolding(crate::specs::Reading::dropped_at))]
fn dropped(cursor: &mut Cursor) -> Result<Event, Fault>
    ensures { Gives (λ x. (x, cursor.new.rest.now)) result (dropped_at cursor.old.rest.now) }
{
    let name = cursor.name()?;
    Ok(Event::Dropped { name })
}

#[tactic(auto, unfolding(crate::specs::Reading::conflicts_at))]
fn conflicts(cursor: &mut Cursor, alloc: Global) -> Result<Event, Fault>
    ensures { Gives (λ x. (x, cursor.new.rest.now)) result (conflicts_at cursor.old.rest.now) }
{
    let name = cursor.name()?;
    let found = found(cursor, alloc)?;
    Ok(Event::Conflicts { name, found })
}

#[tactic(auto, unfolding(crate::specs::Reading::state_at))]
fn state(cursor: &mut Cursor, alloc: Global) -> Result<Event, Fault>
    ensures { Gives (λ x. (x, cursor.new.rest.now)) result (state_at cursor.old.rest.now) }
{
    let at = cursor.packed_vector(alloc)?;
    let cut = cursor.packed_vector(alloc)?;
    let floor = cursor.packed_vector(alloc)?;
    let precise = vectors(cursor, alloc)?;
    Ok(Event::State {
        at,
        cut,
        floor,
        precise,
    })
}

#[tactic(auto, unfolding(crate::specs::Reading::moved_at))]
fn moved(cursor: &mut Cursor) -> Result<Event, Fault>
    ensures { Gives (λ x. (x, cursor.new.rest.now)) result (moved_at cursor.old.rest.now) }
{
    let client = cursor.four()?;
    Ok(Event::Moved { client })
}

#[tactic(auto, unfolding(crate::specs::Reading::behind_at))]
fn behind(cursor: &mut Cursor, alloc: Global) -> Result<Event, Fault>
    ensures { Gives (λ x. (x, cursor.new.rest.now)) result (behind_at cursor.old.rest.now) }
{
    let client = cursor.four()?;
    let needs = cursor.packed_vector(alloc)?;
    let has = cursor.packed_vector(alloc)?;
    Ok(Event::Behind { client, needs, has })
}
