// Answers.
ghost use Rattle.pr_story.specs.Knowledge.{IsAnswer, IsNewestKnown, KnowsGone};
ghost use Rattle.std.specs.Prelude.{IfOk, reverse};

use crate::plain::bodies::held_body;
use crate::plain::newest::newest_known;
use crate::plain::sets::set_of;
use crate::plain::told::first_untold;
use crate::{Entry, Reply};
use pr_names::Name;
use pr_sets::NameSet;
use pr_stamps::NoMemory;
use std::alloc::Global;

/// What node `node`, which has these sets and this journal, answers to a read of the name.
pub fn answer(
    alloc: Global,
    node: u32,
    sets: &[NameSet],
    entries: &[Entry],
    name: &Name,
) -> Result<Reply, NoMemory>
    ensures { IfOk result (IsAnswer (IsNewestKnown (reverse entries.now) name.now) (KnowsGone (reverse entries.now) name.now) sets.now node (reverse entries.now) name.now) }
{
    let set = set_of(alloc, sets, name)?;
    match first_untold(node, entries, &set) {
        Some(untold) => return Ok(Reply::Imprecise { untold }),
        None => {}
    }
    let newest = match newest_known(entries, name) {
        Some(newest) => newest,
        None => return Ok(Reply::Never),
    };
    let stamp = newest.stamp;
    if newest.gone {
        return Ok(Reply::Gone { stamp });
    }
    match held_body(alloc, entries, name, &stamp)? {
        Some(bytes) => Ok(Reply::Value { stamp, bytes }),
        None => Ok(Reply::Body { stamp }),
    }
}
