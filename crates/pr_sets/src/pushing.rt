// An interval more, if there is one.
ghost use Rattle.std.specs.Option.{option_to_list};
ghost use Rattle.std.specs.Prelude.{◌≡◌, ◌++◌, OnOk};

use pr_names::Interval;
use pr_stamps::{NoMemory, Seq};
use std::alloc::Global;

/// Adds the interval, if there is one. A list that has none first gets room for so many.
#[inline]
pub fn push_some(
    alloc: Global,
    list: &mut Seq<Interval>,
    part: Option<Interval>,
    room: usize,
) -> Result<(), NoMemory>
    ensures { OnOk result (list.new ≡ list.old ++ option_to_list part) }
{
    let Some(part) = part else {
        return Ok(());
    };
    if list.is_empty() {
        *list = Seq::with_room(alloc, room)?;
    }
    list.push(part)
}
