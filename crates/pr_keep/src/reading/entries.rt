// Entries with their nodes.
ghost use Rattle.pr_keep.specs.Reading.{entry_at, whole_entry_at};
ghost use Rattle.pr_wire.specs.Reading.{Gives};
ghost use Rattle.std.specs.Prelude.{◌<◌, ℕ, slice_index};

use crate::reading::events::event;
use crate::reading::fields::node;
use pr_story::Entry;
use pr_wire::{Cursor, Fault};
use std::alloc::Global;

/// The entry of which the bytes are the spelling, with its node, in time linear in them.
#[tactic(auto, unfolding(crate::specs::Reading::whole_entry_at))]
pub fn whole_entry(alloc: Global, bytes: &[u8]) -> Result<(u32, Entry), Fault>
    ensures entry { Gives (λ x. x) result (whole_entry_at bytes.now) }
    ensures bytes { (i : ℕ) → slice_index bytes.now i < 256 }
{
    let mut cursor = Cursor { rest: bytes };
    let entry = entry(&mut cursor, alloc)?;
    if cursor.rest.is_empty() {
        Ok(entry)
    } else {
        Err(Fault::Bad)
    }
}

#[tactic(auto, unfolding(crate::specs::Reading::entry_at))]
fn entry(cursor: &mut Cursor, alloc: Global) -> Result<(u32, Entry), Fault>
    ensures { Gives (λ x. (x, cursor.new.rest.now)) result (entry_at cursor.old.rest.now) }
{
    let node = node(cursor)?;
    let time = cursor.eight()?;
    let caller = cursor.four()?;
    let event = event(cursor, alloc)?;
    let entry = Entry {
        time,
        caller,
        event,
    };
    Ok((node, entry))
}
