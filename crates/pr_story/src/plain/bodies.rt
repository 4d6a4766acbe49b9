// Held bodies.
ghost use Rattle.pr_stamps.specs.Point.{is_this};
ghost use Rattle.pr_story.specs.Knowledge.{body_after, held_body};
ghost use Rattle.std.specs.Prelude.{◌≡◌, IfOk, reverse};

use crate::{Entry, Event};
use pr_inval::{Bytes, Kind};
use pr_names::Name;
use pr_stamps::{NoMemory, Seq, Stamp};
use std::alloc::Global;

// Whether the name and the stamp are these.
fn is_this(name: &Name, stamp: &Stamp, o: &Name, t: &Stamp) -> bool
    ensures { result ≡ is_this name.now stamp.now o.now t.now }
{
    *name == *o && stamp.clock() == t.clock() && stamp.node() == t.node()
}

// The body of the name and the stamp that is held after the event.
fn body_after(
    alloc: Global,
    event: &Event,
    name: &Name,
    stamp: &Stamp,
    before: Option<Bytes>,
) -> Result<Option<Bytes>, NoMemory>
    ensures { IfOk result (λ held. held ≡ body_after event.now name.now stamp.now before) }
{
    match event {
        Event::Wrote { write, body, .. } => {
            if is_this(&write.name, &write.stamp, name, stamp) && !write.gone {
                return Ok(Some(Seq::copied(alloc, body.as_slice())?));
            }
        }
        Event::Accepted { msg, .. } => match &msg.kind {
            Kind::Body {
                name: o,
                stamp: t,
                bytes,
            } => {
                if is_this(o, t, name, stamp) {
                    return Ok(Some(Seq::copied(alloc, bytes.as_slice())?));
                }
            }
            _ => {}
        },
        Event::Dropped { name: o } => {
            if *o == *name {
                return Ok(None);
            }
        }
        _ => {}
    }
    Ok(before)
}

/// The bytes of the write to the name with this stamp, where the node wrote or accepted them and did not drop the name
/// since. One pass.
pub fn held_body(
    alloc: Global,
    entries: &[Entry],
    name: &Name,
    stamp: &Stamp,
) -> Result<Option<Bytes>, NoMemory>
    ensures { IfOk result (λ held. held ≡ held_body (reverse entries.now) name.now stamp.now) }
{
    let mut held = None;
    for entry in entries {
        held = body_after(alloc, &entry.event, name, stamp, held)?;
    }
    Ok(held)
}
