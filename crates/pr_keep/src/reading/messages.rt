// A message by its frame.
ghost use Rattle.pr_keep.specs.Reading.{frame_at};
ghost use Rattle.pr_wire.specs.Reading.{Gives};

use pr_inval::Msg;
use pr_wire::{Cursor, Fault, Format, message};
use std::alloc::Global;

/// A message by its frame in format 2, in time linear in the frame.
#[tactic(auto, unfolding(crate::specs::Reading::frame_at))]
pub fn frame(cursor: &mut Cursor, alloc: Global) -> Result<Msg, Fault>
    ensures { Gives (λ x. (x, cursor.new.rest.now)) result (frame_at cursor.old.rest.now) }
{
    if cursor.byte()? != 2 {
        return Err(Fault::Bad);
    }
    let len = cursor.eight()?;
    let content = cursor.run(len as usize)?;
    message(alloc, Format::Two, content)
}
